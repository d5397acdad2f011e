// The `env` byte of a part: its length and two flags.

ghost use Rattle.std.specs.Prelude.{◌≡◌, ◌<◌, ◌%◌, ◌+◌, ◌*◌};
ghost use Rattle.ldc_packet.specs.Spelling.{part_env};

use crate::layout::{LDC_LEN, LDC_START, LDC_STOP};

/// The length of a part, and whether a message begins and ends with it.
#[derive(Clone, Copy)]
pub(crate) struct PartEnv {
    pub(crate) start: bool,
    pub(crate) stop: bool,
    pub(crate) len: u8,
}

/// What an `env` byte says.
pub(crate) fn part_env_of(env: u8) -> PartEnv
    ensures len { result.len ≡ env % 64 }
    ensures whole { env ≡ part_env result.start result.stop result.len }
{
    PartEnv {
        start: env & LDC_START != 0,
        stop: env & LDC_STOP != 0,
        len: env & LDC_LEN,
    }
}

/// The `env` byte that says it.
pub(crate) fn env_of_part(part: PartEnv) -> u8
    requires { part.len < 64 }
    ensures { result ≡ part_env part.start part.stop part.len }
{
    let start = if part.start { LDC_START } else { 0 };
    let stop = if part.stop { LDC_STOP } else { 0 };
    stop | start | part.len
}
