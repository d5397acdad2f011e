//! The text of a report: a line for each entry of a run's journal that its mode shows, and the last line with what was
//! counted. The journal is a crate below and is handed on from here: the world writes it, and whoever asks for a report
//! reads it. The text that is written is exactly the report of the entries.
#![tactic(auto)]

mod end_line;
mod lines;
mod port_lines;
mod request_lines;
mod shown;
mod status;
mod step_lines;
mod stop;
mod whole_lines;

pub use cookie_copy::CopyFault;
pub use domain_script::{EndName, Lane, LaneKind, LineFault, Names, Request, Side};
pub use end_line::{push_cause, write_end};
pub use ldom_entries::{Bytes, Entries, Entry, EntryRef, KeptRequest, Who, Why};
pub use ldom_journal::Journal;
pub use lines::write_text;
pub use request_lines::fill_bytes;
pub use status::{LimitKind, Mode, Status};
pub use stop::{MOST_ENTRIES, Stop, next_line};
pub use vdisk_msg::{VD_OP_BREAD, VD_OP_BWRITE, VD_OP_FLUSH};
pub use vio_bytes::NoMemory;
pub use vio_io::{Failed, Sink};
pub use vio_tag::Cause;
