// The lines of a source, one after another, and why no further one is taken up.
ghost use Rattle.std.specs.Prelude.{◌≡◌, ◌≢◌, ◌-◌, ◌^◌, ◌<◌, IfErr, OnOk};
ghost use Rattle.script_reader.specs.declared.lines.LinesStop.TheVariants.{Ended, Going};
ghost use Rattle.script_reader.specs.LinesState.{GivesLine, GoesOn, KeepsEnds, to_come};
ghost use Rattle.vio_io.specs.Causes.{Fails};
ghost use Rattle.ldom_report.specs.Stops.{ReaderStandsAt, StopsReading, stop_lines, stop_of, stop_status};

use crate::status::{LimitKind, Status};
use domain_script::LineFault;
use script_reader::{Lines, LinesFault};
use vio_io::Source;

/// With so many entries, or more, no further line is run.
pub const MOST_ENTRIES: usize = 2_000_000;

/// Why no further line is taken up.
#[derive(Clone, Copy, Debug, PartialEq, Eq)]
pub enum Stop {
    /// No line is left.
    End,

    /// The source failed.
    Source,

    /// The next line is past a limit.
    Limit(LimitKind),

    /// Out of memory. A reader never says so: whoever runs the lines does.
    Memory,

    /// The line that was read spells nothing.
    Faulty(LineFault),

    /// The line that was read begins with too many entries. A reader never says so: whoever runs the lines does.
    Entries,
}

impl Stop {
    /// How a run or a dump ends where its lines stop so, after that many were read.
    pub fn status(self, lines: u32) -> Status
        requires { lines < 2 ^ 32 - 1 }
        ensures { result ≡ stop_status self lines }
    {
        match self {
            Stop::End => Status::Done,
            Stop::Source => Status::SourceFault,
            Stop::Limit(kind) => Status::Limit {
                line: lines + 1,
                kind,
            },
            Stop::Memory => Status::NoMemory,
            Stop::Faulty(fault) => Status::Script { line: lines, fault },
            Stop::Entries => Status::Limit {
                line: lines,
                kind: LimitKind::Entries,
            },
        }
    }

    /// How many lines the report counts where the lines stop so, after that many were read: not the one that begins
    /// with too many entries.
    pub fn counted(self, lines: u32) -> u32
        ensures { result ≡ stop_lines self lines }
    {
        match self {
            Stop::Entries => lines.saturating_sub(1),
            _ => lines,
        }
    }

    // What a fault of the reader is.
    fn of_reader(fault: LinesFault) -> Self
        ensures { result ≡ stop_of fault }
    {
        match fault {
            LinesFault::Source => Stop::Source,
            LinesFault::Long => Stop::Limit(LimitKind::Bytes),
            LinesFault::Many => Stop::Limit(LimitKind::Lines),
        }
    }
}

/// Reads the next line, which is the reader's `line` then. Behind a last line without a line feed the source isn't asked:
/// it was at its end. So a source fails only where each line so far had its line feed.
pub fn next_line<S: Source>(lines: &mut Lines, source: &mut S) -> Result<(), Stop>
    requires goes { GoesOn lines.old (S.left source.old) }
    ensures gives { OnOk result (GivesLine (to_come lines.old (S.left source.old))
        (to_come lines.new (S.left source.new)) lines.old lines.new) }
    ensures goes { OnOk result (GoesOn lines.new (S.left source.new)) }
    ensures stops { IfErr result (λ stop. StopsReading stop (to_come lines.old (S.left source.old))
        (to_come lines.new (S.left source.new)) lines.new.held lines.old.number) }
    ensures number { IfErr result (λ stop. lines.new.number ≡ lines.old.number) }
    ensures source { Fails (result ≡ Err Stop.Source) (S.faults source.old) (S.faults source.new) }
    ensures ended { lines.old.stop ≡ Ended → source.new ≡ source.old }
    ensures going { result ≢ Err Stop.End → lines.old.stop ≡ Going }

    // A source says once that it is at its end, where the reader ends, and never to one that stops otherwise.
    ensures stands { IfErr result (λ stop. ReaderStandsAt stop lines.new.stop) }
    ensures ends { KeepsEnds lines.old.stop lines.new.stop (S.ends source.old) (S.ends source.new) }
{
    match lines.advance(source) {
        Ok(true) => Ok(()),
        Ok(false) => Err(Stop::End),
        Err(fault) => Err(Stop::of_reader(fault)),
    }
}
