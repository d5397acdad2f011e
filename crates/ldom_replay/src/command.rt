ghost use Rattle.std.specs.Prelude.{map, string_bytes};
ghost use Rattle.ldom_replay.specs.Asking.{IsCommand};

use ldom_report::Mode;
use ldom_words::{Asked, read_words};
use std::alloc::Global;

/// What a command line asks for.
#[derive(Clone, Copy, Debug, PartialEq, Eq)]
pub enum Command<'a> {
    /// A script is run over the image of this name, and the report shows what this mode shows.
    Script { mode: Mode, image: &'a str },

    /// The sample script of this number, below 2^31, is run over zeros, and the report is its end line alone.
    Sample { number: u32 },

    /// Packets are dumped.
    Dump,
}

/// What the words ask for, without the program's name; nothing where they are none of the program's.
pub fn command_of<'a>(alloc: Global, words: &'a [String]) -> Option<Command<'a>>
    ensures { IsCommand (map string_bytes words.now) result }
{
    match read_words(alloc, words) {
        Some(Asked::Run { image }) => Some(Command::Script {
            mode: Mode::Run,
            image,
        }),
        Some(Asked::Trace { image }) => Some(Command::Script {
            mode: Mode::Trace,
            image,
        }),
        Some(Asked::Sample { number }) => Some(Command::Sample { number }),
        Some(Asked::Dump) => Some(Command::Dump),
        None => None,
    }
}
