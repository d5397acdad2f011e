// The reader's example: how a client uses what `ldom_replay` proves. The script is known, byte for byte, and runs over
// objects in memory that can't fail: so its report, its image and its completions are known before it runs.

ghost use Rattle.std.specs.Prelude.{◌≡◌, [], ◌∷◌, IfOk, IsSomeAnd, map, codes, string_bytes};
ghost use Rattle.ldom_replay.specs.script_laws.Completed.{completed_ids};
ghost use Rattle.script_cases.specs.Known.{image, report, script};

use infallible_io::{GrowingSink, InfallibleDisk, InfallibleHost, InfallibleSource};
use ldom_replay::{Outcome, Status, replay};
use std::alloc::Global;
use std::io;
use vio_bytes::NoMemory;

/// Prints the example's report.
pub fn print_example(rt: &(impl AllocGlobal + Print)) -> io::Result<()> {
    match one_write_and_one_read(rt.alloc()) {
        Ok(example) => print_report(rt, example.report.bytes()),
        Err(_) => println!(rt; "the example is unfinished"),
    }
}

fn print_report(rt: &impl Print, report: &[u8]) -> io::Result<()> {
    match str::from_utf8(report) {
        Ok(report) => print!(rt; "{report}"),
        Err(_) => println!(rt; "the example's report is no text"),
    }
}

/// Why the script did not come to its end.
#[derive(Clone, Copy, Debug, PartialEq, Eq)]
pub enum Unfinished {
    /// Memory was wanted.
    Memory,

    /// A line began with too many entries.
    Full,
}

impl From<NoMemory> for Unfinished {
    fn from(_: NoMemory) -> Self
        ensures { result ≡ Unfinished.Memory }
    {
        Unfinished::Memory
    }
}

/// What came of the script.
#[derive(Drop)]
pub struct Example {
    pub outcome: Outcome<InfallibleDisk>,
    pub report: GrowingSink,
}

/// Replays one write and one read of the blocks around it over a disk of zeros. The status is 0, or the run is
/// unfinished: memory was wanted, which is status 9, or its journal is full, which is status 8.
pub fn one_write_and_one_read(alloc: Global) -> Result<Example, Unfinished>
    ensures report { IfOk result (λ e. e.report.written ≡ report) }
    ensures image { IfOk result (λ e. IsSomeAnd e.outcome.image (λ disk. disk.bytes ≡ image)) }
    ensures ids { IfOk result (λ e. completed_ids e.outcome.journal.entries ≡ 0 ∷ 1 ∷ []) }
    ensures status { IfOk result (λ e. e.outcome.status ≡ Status.Done) }
{
    let words = run_words(alloc)?;
    let mut script = known_script(alloc)?;
    let mut report = GrowingSink::new(alloc);
    let outcome = replay(
        alloc,
        &words,
        &mut InfallibleHost::new(),
        &mut script,
        &mut report,
    );
    match outcome.status {
        Status::Done => Ok(Example { outcome, report }),
        // The sink fails for want of memory alone.
        Status::NoMemory | Status::SinkFault => Err(Unfinished::Memory),
        // The script is past no limit, but the journal may be.
        Status::Limit { .. } => Err(Unfinished::Full),
        // The script is clean, and no other object can fail.
        _ => unreachable!(),
    }
}

// The lines of the script, as a source.
fn known_script(alloc: Global) -> Result<InfallibleSource, NoMemory>
    ensures { IfOk result (λ s. s ≡ script) }
{
    InfallibleSource::new(
        alloc,
        b"disk d0 64 8 16\nwrite d0 3 2 ab\nread d0 2 3\nsettle\n",
    )
}

// The command: run the script over the image of zeros.
fn run_words(alloc: Global) -> Result<Vec<String>, NoMemory>
    ensures { IfOk result (λ words. map string_bytes words.items ≡ codes "run" ∷ codes "-" ∷ []) }
{
    let mut words = Vec::new(alloc);
    words.push(String::from_str(alloc, "run")?)?;
    words.push(String::from_str(alloc, "-")?)?;
    Ok(words)
}
