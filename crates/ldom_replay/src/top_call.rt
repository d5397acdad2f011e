ghost use Rattle.std.specs.Prelude.{◌≡◌, ◌≢◌, ◌≤◌, ◌*◌, ◌⊎◌, ℕ, [], map, codes, string_bytes, ◌^◌};
ghost use Rattle.std.specs.Prelude.{◌<◌, length, Some, List, IfSome, IsErr, IsNone, OnErr, OnOk};
ghost use Rattle.std.specs.List.{All};
ghost use Rattle.std.specs.Io.KnownBytes.{Appends};
ghost use Rattle.vio_io.specs.Causes.{Fails, Rose};
ghost use Rattle.vio_io.specs.Given.{Gave};
ghost use Rattle.domain_script.specs.declared.event.DiskDecl.{DiskDecl};
ghost use Rattle.domain_script.specs.declared.event.Event.{Event};
ghost use Rattle.domain_script.specs.NamesState.{declared_by};
ghost use Rattle.disk_law.specs.Issued.{CompletesOnceInOrder};
ghost use Rattle.gathered_text.specs.Gathered.{WroteFront};
ghost use Rattle.ldom_report.specs.HasWords.{HasWords};
ghost use Rattle.ldom_report.specs.Report.{report, usage_line};
ghost use Rattle.ldom_report.specs.Stops.{EndsTold};
ghost use Rattle.ldom_dump.specs.DumpReport.{Dumps, source_tells};
ghost use Rattle.ldom_dump.specs.Whole.{IsWholeDump};
ghost use Rattle.script_laws.specs.Counts.{FaultsTold, NoneFailed, counts};
ghost use Rattle.script_laws.specs.Clean.{EndsClean, IsCleanScript, NeverFails, StandsStill};
ghost use Rattle.script_laws.specs.Failures.{FailuresCounted, SucceedOrFail};
ghost use Rattle.ldom_report.specs.DiskEvents.{history};
ghost use Rattle.script_laws.specs.Objects.{host_tells, run_leaves, tells};
ghost use Rattle.script_laws.specs.Outcomes.{Reports, RunsScript};
ghost use Rattle.script_laws.specs.Quiet.{IsQuietScript};
ghost use Rattle.script_laws.specs.Stored.{fault_count, flush_count, stored_count, write_count};
ghost use Rattle.script_laws.specs.Whole.{RunsPlainly};
ghost use Rattle.ldom_world.specs.world_parts.Declared.{bytes_needed};
ghost use Rattle.ldom_words.specs.Words.{AsksDump, AsksRun, AsksSample};
ghost use Rattle.ldom_replay.specs.Asking.{AsksFor, AsksNoRun, AsksNoScript};
ghost use Rattle.ldom_replay.specs.Sampled.{RunsSample};

use crate::command::{Command, command_of};
use crate::run::{Run, run_script};
use crate::sample::run_sample;
use domain_script::Names;
use ldom_dump::dump;
use ldom_report::{Journal, Mode, Status, write_end, write_text};
use ldom_world::Lanes;
use std::alloc::Global;
use vio_io::{Failed, Host, Sink, Source, Store};

/// What became of a script: how its run ended, what happened in it, and the image that was attached, if one was.
#[derive(Drop)]
pub struct Outcome<D: Store> {
    pub status: Status,

    /// How the run ended before its report was written: the status, unless the sink failed. So a run that wanted memory
    /// says so where its report failed as well.
    pub ran: Status,
    pub journal: Journal,
    pub image: Option<D>,

    /// The lanes of the script's disks and ports as they stand after its last step, each kind by its numbers in the
    /// order of declaration, where it was run over an image.
    pub lanes: Option<Lanes>,
}

/// Does what the words of a command line say, without the program's name: `run IMAGE` runs the script that the source
/// gives over the image that the host has under this name, and writes the short report to the sink. `trace IMAGE` does
/// the same, and its report shows each entry. `sample N` runs the sample script of N over `-`, and its report is the
/// end line alone. `dump` writes the fields of the packets that it gives in hexadecimal digits. Other words are
/// answered by the usage line.
pub fn replay<H: Host, S: Source, K: Sink>(
    alloc: Global,
    words: &[String],
    host: &mut H,
    script: &mut S,
    out: &mut K,
) -> Outcome<H::Disk>
    // The script is run up to where it stops, the journal is one part for each line, and the report is the journal's.
    // At status 7 alone the image is too short; it keeps what the host gave wherever no accepted write names a block.
    // At status 0 the script was run to its end, and the whole report was written. All is said of one list of lines with
    // their parts.
    ensures runs { (mode : Mode) (image : List ℕ) → AsksFor mode (map string_bytes words.now) image
        → RunsScript mode
        (host_tells (H.gives host.old image) H.Disk.Store)
        (tells (S.left script.old) (K.written out.old) (S.faults script.old) (H.faults host.old) (K.faults out.old))
        (tells (S.left script.new) (K.written out.new) (S.faults script.new) (H.faults host.new) (K.faults out.new))
        (run_leaves result.status result.ran result.journal.entries result.image result.lanes) }

    // So a quiet script over an image that tells its bytes is what the plain run makes of it.
    ensures quiet { (image : List ℕ) → AsksRun (map string_bytes words.now) image
        → (bytes content : List ℕ) (disk : DiskDecl) (events : List Event) → S.left script.old ≡ Some bytes
        → IsQuietScript bytes disk events → H.gives host.old image (512 * disk.blocks) ≡ Some content
        → result.status ≡ Status.Done
        → RunsPlainly H.Disk.content disk content events result.journal.entries result.image
        (K.written out.old) (K.written out.new) }

    // The sample script of a number is run so over zeros, and its report is the end line alone. Each of its lines
    // spells an event: it is run to its end, where no count rose and memory suffices, or to a line that begins with too
    // many entries.
    ensures samples { (number : ℕ) → AsksSample (map string_bytes words.now) number
        → RunsSample number
        (host_tells (H.gives host.old (codes "-")) H.Disk.Store)
        (tells (S.left script.old) (K.written out.old) (S.faults script.old) (H.faults host.old) (K.faults out.old))
        (tells (S.left script.new) (K.written out.new) (S.faults script.new) (H.faults host.new) (K.faults out.new))
        (run_leaves result.status result.ran result.journal.entries result.image result.lanes) }
    ensures samples_whole { (number : ℕ) → AsksSample (map string_bytes words.now) number
        → StandsStill (H.faults host.old) (H.faults host.new) → StandsStill (K.faults out.old) (K.faults out.new)
        → IfSome result.image (λ disk. H.Disk.faults disk ≡ 0)
        → EndsClean result.status result.journal.entries }

    // For every disk: completions are in the order of issue, each request's at most once.
    ensures once { (disk : ℕ) → CompletesOnceInOrder (history disk result.journal.entries) }

    // A script without faults and within the limits, over `-` or an image that is as long as its disks, is run to its
    // end, where no count rose and memory suffices, or to a line that begins with too many entries.
    ensures complete { (mode : Mode) (image : List ℕ) → AsksFor mode (map string_bytes words.now) image
        → (bytes : List ℕ) → S.left script.old ≡ Some bytes → (clean : IsCleanScript bytes)
        → NoneFailed (counts (S.faults script.old) (H.faults host.old) (K.faults out.old))
        (counts (S.faults script.new) (H.faults host.new) (K.faults out.new))
        → IfSome result.image (λ disk. H.Disk.faults disk ≡ 0)
        → (image ≢ codes "-" → IfSome result.image (λ disk. bytes_needed clean.names.disks ≤ H.Disk.size disk))
        → EndsClean result.status result.journal.entries }

    // It is run so whatever becomes of its report: a sink that fails cuts no run short.
    ensures complete_run { (mode : Mode) (image : List ℕ) → AsksFor mode (map string_bytes words.now) image
        → (bytes : List ℕ) → S.left script.old ≡ Some bytes → (clean : IsCleanScript bytes)
        → StandsStill (S.faults script.old) (S.faults script.new) → StandsStill (H.faults host.old) (H.faults host.new)
        → IfSome result.image (λ disk. H.Disk.faults disk ≡ 0)
        → (image ≢ codes "-" → IfSome result.image (λ disk. bytes_needed clean.names.disks ≤ H.Disk.size disk))
        → EndsClean result.ran result.journal.entries }

    // So over a source, a host and a disk whose types never fail, where the sink doesn't either.
    ensures infallible { (mode : Mode) (image : List ℕ) → AsksFor mode (map string_bytes words.now) image
        → (bytes : List ℕ) → S.left script.old ≡ Some bytes → (clean : IsCleanScript bytes)
        → NeverFails S.faults → NeverFails H.faults → NeverFails H.Disk.faults
        → (image ≢ codes "-" → IfSome result.image (λ disk. bytes_needed clean.names.disks ≤ H.Disk.size disk))
        → result.status ≢ Status.SinkFault → EndsClean result.status result.journal.entries }

    // Each completion of a disk that nobody forged has status 0, or 5 where the image failed: no more of these than the
    // image counts, of that disk, and of all disks together where nobody forged one.
    ensures statuses { SucceedOrFail result.journal.entries }
    ensures failures { IfSome result.image (λ image. FailuresCounted result.journal.entries (H.Disk.faults image)) }

    // The image was asked to flush or to write once for each entry `stored` of the journal of a flush or a write, whether
    // the call failed or not. It was called at most once for each of all: reads may have been spared it. It counts as many
    // failed calls as the journal says failed.
    ensures calls { IfSome result.image (λ image. H.Disk.calls image ≤ stored_count result.journal.entries) }
    ensures flushes { IfSome result.image (λ image. H.Disk.flushes image ≡ flush_count result.journal.entries) }
    ensures writes { IfSome result.image (λ image. H.Disk.writes image ≡ write_count result.journal.entries) }
    ensures image_faults { IfSome result.image (λ image. H.Disk.faults image ≡ fault_count result.journal.entries) }

    // For all words and every status: the image is the one disk that the host gave in this call, and there is none
    // exactly where it gave none, as attaching failed or wanted memory, or was never asked for.
    ensures image { Gave (H.given host.old) (H.given host.new) result.image }

    // Packets are dumped up to where the lines end.
    ensures dumps { AsksDump (map string_bytes words.now)
        → Dumps (source_tells (S.left script.old) (S.faults script.old) (S.ends script.old))
        (source_tells (S.left script.new) (S.faults script.new) (S.ends script.new))
        result.status (K.written out.old) (K.written out.new) }

    // A script of packets alone is dumped to its end, where no count rose and memory suffices.
    ensures dumps_whole { AsksDump (map string_bytes words.now)
        → (bytes : List ℕ) → S.left script.old ≡ Some bytes → IsWholeDump bytes
        → StandsStill (S.faults script.old) (S.faults script.new) → StandsStill (K.faults out.old) (K.faults out.new)
        → (result.status ≡ Status.Done) ⊎ (result.status ≡ Status.NoMemory) }

    // Other words are no command. These and a sample leave the source unread.
    ensures usage { AsksNoRun (map string_bytes words.now) → (AsksDump (map string_bytes words.now) → ⊥)
        → Reports Status.Usage result.status (K.written out.old) (K.written out.new) usage_line }
    ensures unread { AsksNoScript (map string_bytes words.now) → (AsksDump (map string_bytes words.now) → ⊥)
        → script.new ≡ script.old }

    // What isn't a run has no journal, no image and no lanes.
    ensures nothing { AsksNoRun (map string_bytes words.now)
        → (result.journal.entries ≡ []) × IsNone result.image × IsNone result.lanes }

    // The status is how the run ended, unless the sink failed.
    ensures ran { result.status ≢ Status.SinkFault → result.ran ≡ result.status }

    // So it is of a dump, whatever the sink did; and of other words it is that they are no command.
    ensures ran_dump { AsksDump (map string_bytes words.now) → result.ran ≡ result.status }
    ensures ran_usage { AsksNoRun (map string_bytes words.now) → (AsksDump (map string_bytes words.now) → ⊥)
        → result.ran ≡ Status.Usage }

    // The source of a run says at most once that it is at its end: once where all was read, and never where it failed.
    ensures ends { (mode : Mode) (image : List ℕ) → AsksFor mode (map string_bytes words.now) image
        → EndsTold result.ran (S.ends script.old) (S.ends script.new) }

    // A fault of the source, the host or the sink is answered only where its count rose, and each other status where it
    // didn't, but that a fault of the sink comes last. At status 0 the image never failed either.
    ensures faults { FaultsTold result.status
        (counts (S.faults script.old) (H.faults host.old) (K.faults out.old))
        (counts (S.faults script.new) (H.faults host.new) (K.faults out.new)) }
    ensures image_unfailed { result.status ≡ Status.Done → IfSome result.image (λ image. H.Disk.faults image ≡ 0) }
{
    match command_of(alloc, words) {
        Some(Command::Script { mode, image }) => {
            report_run(mode, run_script(alloc, image, host, script), out)
        }
        Some(Command::Sample { number }) => {
            report_run(Mode::EndOnly, run_sample(alloc, number, host), out)
        }
        Some(Command::Dump) => report_dump(alloc, script, out),
        None => report_usage(Journal::new(alloc), out),
    }
}

// Dumps packets: nothing is journalled, and no image is attached.
fn report_dump<D: Store, S: Source, K: Sink>(
    alloc: Global,
    script: &mut S,
    out: &mut K,
) -> Outcome<D>
    ensures dumps { Dumps (source_tells (S.left script.old) (S.faults script.old) (S.ends script.old))
        (source_tells (S.left script.new) (S.faults script.new) (S.ends script.new))
        result.status (K.written out.old) (K.written out.new) }
    ensures whole { (bytes : List ℕ) → S.left script.old ≡ Some bytes → IsWholeDump bytes
        → ¬ Rose (S.faults script.old) (S.faults script.new) → ¬ Rose (K.faults out.old) (K.faults out.new)
        → (result.status ≡ Status.Done) ⊎ (result.status ≡ Status.NoMemory) }
    ensures ran { result.ran ≡ result.status }
    ensures journal { result.journal ≡ record { entries = []; room = 0 } }
    ensures none { IsNone result.image × IsNone result.lanes }
    ensures source_fault { result.status ≡ Status.SourceFault → Rose (S.faults script.old) (S.faults script.new) }
    ensures no_host { result.status ≢ Status.HostFault }
    ensures source_unfailed { result.status ≢ Status.SourceFault → result.status ≢ Status.SinkFault
        → S.faults script.new ≡ S.faults script.old }
    ensures source_count { S.faults script.old ≤ S.faults script.new }
    ensures sink { Fails (result.status ≡ Status.SinkFault) (K.faults out.old) (K.faults out.new) }
{
    let status = dump(alloc, script, out);
    Outcome {
        status,
        ran: status,
        journal: Journal::new(alloc),
        image: None,
        lanes: None,
    }
}

// Writes the report of a run as the mode shows it.
fn report_run<D: Store, K: Sink>(mode: Mode, run: Run<D>, out: &mut K) -> Outcome<D>
    requires words { All (HasWords (declared_by run.names)) run.journal.entries }
    requires ran { run.status ≢ Status.Usage }
    ensures reports { Reports run.status result.status (K.written out.old) (K.written out.new)
        (report mode (declared_by run.names) run.lines run.journal.entries run.status) }
    ensures ran { result.ran ≡ run.status }
    ensures journal { result.journal ≡ run.journal }
    ensures small { length result.journal.entries < 2 ^ 63 }
    ensures image { result.image ≡ run.image }
    ensures lanes { result.lanes ≡ run.lanes }
    ensures other { result.status ≢ Status.SinkFault → result.status ≡ run.status }
    ensures sink { run.status ≢ Status.SinkFault
        → Fails (result.status ≡ Status.SinkFault) (K.faults out.old) (K.faults out.new) }
{
    let Run {
        status: ran,
        lines,
        names,
        journal,
        image,
        lanes,
    } = run;
    let status = match write_report(mode, &journal, &names, lines, &ran, out) {
        Ok(()) => ran,
        Err(Failed) => Status::SinkFault,
    };
    // That there are fewer than 2^63 entries is known by this call alone.
    let _len = journal.len();
    Outcome {
        status,
        ran,
        journal,
        image,
        lanes,
    }
}

fn write_report<K: Sink>(
    mode: Mode,
    journal: &Journal,
    names: &Names,
    lines: u32,
    status: &Status,
    out: &mut K,
) -> Result<(), Failed>
    requires words { All (HasWords (declared_by names.now)) journal.now.entries }
    requires ran { status.now ≢ Status.Usage }
    ensures ok { OnOk result (Appends (K.written out.old) (K.written out.new)
        (report mode (declared_by names.now) lines journal.now.entries status.now)) }
    ensures err { OnErr result (WroteFront (K.written out.old) (K.written out.new)
        (report mode (declared_by names.now) lines journal.now.entries status.now)) }
    ensures faults { Fails (IsErr result) (K.faults out.old) (K.faults out.new) }
{
    write_text(journal, mode, names, out)?;
    write_end(journal, lines, status, out)
}

// Writes the usage line.
fn report_usage<D: Store, K: Sink>(journal: Journal, out: &mut K) -> Outcome<D>
    requires { journal.entries ≡ [] }
    ensures reports { Reports Status.Usage result.status (K.written out.old) (K.written out.new) usage_line }
    ensures ran { result.ran ≡ Status.Usage }
    ensures journal { result.journal ≡ journal }
    ensures none { IsNone result.image × IsNone result.lanes }
    ensures sink { Fails (result.status ≡ Status.SinkFault) (K.faults out.old) (K.faults out.new) }
{
    let status = match write_end(&journal, 0, &Status::Usage, out) {
        Ok(()) => Status::Usage,
        Err(Failed) => Status::SinkFault,
    };
    Outcome {
        status,
        ran: Status::Usage,
        journal,
        image: None,
        lanes: None,
    }
}
