//! The entries of a run: what happened, one after another; how a journal keeps them, and how they are read there.
#![tactic(auto)]

mod beside;
mod entries;
mod entry;
mod entry_ref;
mod header;
mod whole_entry;

pub use beside::Beside;
pub use cookie_copy::CopyFault;
pub use domain_script::{EndName, Lane, LaneKind, Side};
pub use entries::Entries;
pub use entry::{Entry, Who, Why};
pub use entry_ref::EntryRef;
pub use header::{EndMark, Header, Part, mark_of, part_of};
pub use kept_requests::{Bytes, KeptRequest, shortest_word};
pub use vio_tag::Cause;
pub use whole_entry::WholeEntry;
