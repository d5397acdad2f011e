//! The command `dump`: packets of a Logical Domain Channel, one a line in hexadecimal digits, told field by field, with
//! the message that a whole packet carries. The top call stands on it. What is written is exactly the text of the
//! packets that the lines spell, as far as the lines went.
#![tactic(auto)]

mod command;
mod digits;
mod end_line;
mod fields;
mod lines;
mod message_text;
mod packet_text;

pub use command::dump;
pub use ldom_report::{LimitKind, LineFault, Status};
