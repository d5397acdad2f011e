ghost use Rattle.std.specs.Prelude.{◌≡◌};
ghost use Rattle.ldom_report.specs.Status.{status_number};

use domain_script::LineFault;

/// Which entries a report shows.
#[derive(Clone, Copy, Debug, PartialEq, Eq)]
pub enum Mode {
    /// Those that a user of the disks and ports sees.
    Run,

    /// All of them.
    Trace,

    /// None.
    EndOnly,
}

/// A limit of a script.
#[derive(Clone, Copy, Debug, PartialEq, Eq)]
pub enum LimitKind {
    /// The number of its lines.
    Lines,

    /// The bytes of a line.
    Bytes,

    /// The entries of the journal as a line begins.
    Entries,
}

/// How a run ended. Lines of the script are counted from 1.
#[derive(Clone, Copy, Debug, PartialEq, Eq)]
pub enum Status {
    /// The script was run to its end.
    Done,

    /// The words of the command line are none of the program's.
    Usage,

    /// A line of the script spells no event.
    Script { line: u32, fault: LineFault },

    /// The script could not be read.
    SourceFault,

    /// The report could not be written.
    SinkFault,

    /// The host did not give the image.
    HostFault,

    /// The script was run to its end, and a call of the image failed.
    StoreFault,

    /// The image is shorter than the disks that the script declares: their bytes, and its own.
    ImageSize { need: u64, have: u64 },

    /// A line of the script is past a limit. At `Entries` the line was read, but not run: the journal has `MOST_ENTRIES` or
    /// more.
    Limit { line: u32, kind: LimitKind },

    /// Memory was wanted and there was none.
    NoMemory,
}

impl Status {
    /// The number with which the program exits.
    pub fn number(&self) -> u8
        ensures { result ≡ status_number self.now }
    {
        match self {
            Status::Done => 0,
            Status::Usage => 1,
            Status::Script { .. } => 2,
            Status::SourceFault => 3,
            Status::SinkFault => 4,
            Status::HostFault => 5,
            Status::StoreFault => 6,
            Status::ImageSize { .. } => 7,
            Status::Limit { .. } => 8,
            Status::NoMemory => 9,
        }
    }
}
