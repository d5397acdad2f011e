//! Text that is gathered in front of a sink: words, numbers and digits go into a buffer of a fixed size, and the sink is
//! called once for many of them. Reports and dumps are written through it.
#![tactic(auto)]

mod digits;
mod short_text;
mod text;

pub use short_text::{SHORT_ROOM, ShortText};
pub use text::{TEXT_ROOM, Text};
pub use vio_io::{Failed, Sink};
