// The command `dump`.
ghost use Rattle.std.specs.Prelude.{◌≡◌, ◌≢◌, ◌≤◌, ◌⊎◌, ℕ, List, Some};
ghost use Rattle.vio_io.specs.Causes.{Fails, Rose};
ghost use Rattle.ldom_dump.specs.DumpReport.{Dumps, source_tells};
ghost use Rattle.ldom_dump.specs.Whole.{IsWholeDump};

use crate::end_line::finish;
use crate::lines::dump_all;
use gathered_text::Text;
use ldom_report::Status;
use std::alloc::Global;
use vio_io::{Sink, Source};

/// Does all of the command `dump`: reads lines of 128 lower-case hexadecimal digits, within the limits of a script's
/// lines, and writes for each the fields of the packet that its 64 bytes spell, or what is wrong with it, and those of
/// the message that the packet carries whole. At last how the lines ended. The text is written as the lines are read.
///
/// Answers `Done` at the end; `Script` with `Hex` at a line that isn't 128 such digits. `Limit` at a line that is too
/// long or one too many; `SourceFault` and `SinkFault` where one of them failed; `NoMemory`.
pub fn dump<S: Source, K: Sink>(alloc: Global, script: &mut S, out: &mut K) -> Status
    // The text is that of the lines up to where the reading ended, and an end line that says why. Of it all was written,
    // or a front where the sink failed. A source says at most once that it is at its end, and never where it failed.
    ensures dumps { Dumps (source_tells (S.left script.old) (S.faults script.old) (S.ends script.old))
        (source_tells (S.left script.new) (S.faults script.new) (S.ends script.new))
        result (K.written out.old) (K.written out.new) }

    // A script of packets alone is dumped to its end, unless something failed.
    ensures complete { (bytes : List ℕ) → S.left script.old ≡ Some bytes → IsWholeDump bytes
        → ¬ Rose (S.faults script.old) (S.faults script.new) → ¬ Rose (K.faults out.old) (K.faults out.new)
        → (result ≡ Status.Done) ⊎ (result ≡ Status.NoMemory) }

    // A fault of the outside is answered only where its count rose, and where another status is answered, it stays: a
    // fault of the sink, which comes last and fails once, may hide one of the source.
    ensures source_fault { result ≡ Status.SourceFault → Rose (S.faults script.old) (S.faults script.new) }
    ensures source_unfailed { result ≢ Status.SourceFault → result ≢ Status.SinkFault
        → S.faults script.new ≡ S.faults script.old }
    ensures source_count { S.faults script.old ≤ S.faults script.new }
    ensures sink { Fails (result ≡ Status.SinkFault) (K.faults out.old) (K.faults out.new) }
{
    let mut text = Text::new();
    let ended = dump_all(alloc, script, &mut text, out);
    finish(&mut text, &ended, out)
}
