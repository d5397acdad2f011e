// A line of hexadecimal digits.
ghost use Rattle.std.specs.Prelude.{◌≡◌, ◌≢◌, ◌+◌, ◌<◌, ◌≤◌, ℕ, List, length, IfErr, IfNone, IfOk, IfSome, OnOk};
ghost use Rattle.script_reader.specs.declared.lines.LinesStop.TheVariants.{Going};
ghost use Rattle.script_reader.specs.LinesState.{GoesOn, KeepsEnds, most_of_a_read, to_come};
ghost use Rattle.ldom_report.specs.LinesEnd.{counted_lines};
ghost use Rattle.ldom_dump.specs.Decoded.{SpellsBytes};
ghost use Rattle.vio_io.specs.Causes.{Fails};
ghost use Rattle.ldom_report.specs.Stops.{ReaderStandsAt, stop_status};
ghost use Rattle.ldom_dump.specs.Reading.{ReadsBytes, DumpStops, HoldsBehind};
ghost use Rattle.domain_script.specs.Limits.{most_lines};

use domain_script::decode_lower;
use ldom_report::{LineFault, Stop, next_line};
use script_reader::Lines;
use vio_io::Source;

/// The bytes of a packet.
pub const PACKET_LENGTH: usize = 64;

/// The 64 bytes that a line spells: it is their own lower-case text.
pub fn bytes_of(line: &[u8]) -> Option<[u8; 64]>
    ensures some { IfSome result (SpellsBytes line.now) }
    ensures none { IfNone result ((bytes : List ℕ) → SpellsBytes line.now bytes → ⊥) }
{
    let mut bytes = [0; PACKET_LENGTH];
    if decode_lower(line, &mut bytes) {
        Some(bytes)
    } else {
        None
    }
}

/// The bytes of the next line; else why there are none.
pub fn read_bytes<S: Source>(lines: &mut Lines, source: &mut S) -> Result<[u8; 64], Stop>
    requires goes { GoesOn lines.old (S.left source.old) }
    requires few { lines.old.number ≤ most_lines }

    ensures bytes { IfOk result (ReadsBytes lines.new.stop (to_come lines.old (S.left source.old))
        (to_come lines.new (S.left source.new))) }
    ensures next { IfOk result (λ _. (lines.new.number ≡ lines.old.number + 1) × (lines.new.number ≤ most_lines)
        × GoesOn lines.new (S.left source.new)) }
    ensures held { OnOk result (length lines.new.held < most_of_a_read) }

    ensures stop { IfErr result (λ stop. DumpStops (stop_status stop lines.new.number)
        (to_come lines.old (S.left source.old)) lines.new.held (S.left source.new) lines.old.number) }
    ensures behind { IfErr result (λ stop. HoldsBehind stop lines.new.held) }
    ensures lines { IfErr result (λ stop. lines.new.number ≡ counted_lines (stop_status stop lines.new.number)
        lines.old.number) }
    ensures most { lines.new.number ≤ most_lines }
    ensures memory { IfErr result (λ stop. stop ≢ Stop.Memory) }

    // Behind a last line without a line feed the source isn't asked.
    ensures going { result ≢ Err Stop.End → lines.old.stop ≡ Going }
    ensures stands { IfErr result (λ stop. ReaderStandsAt stop lines.new.stop) }
    ensures ends { KeepsEnds lines.old.stop lines.new.stop (S.ends source.old) (S.ends source.new) }
    ensures source { Fails (result ≡ Err Stop.Source) (S.faults source.old) (S.faults source.new) }
{
    next_line(lines, source)?;
    match bytes_of(lines.line()) {
        Some(bytes) => Ok(bytes),
        None => Err(Stop::Faulty(LineFault::Hex)),
    }
}
