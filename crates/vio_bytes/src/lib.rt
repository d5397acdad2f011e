//! Numbers at places: what every layout of the stack is read and written with, the packets of a channel, the messages
//! over it and the descriptors of a ring. A layout is a constant [`Table`] of the places and widths of its fields. A
//! number that was put reads back and no other byte changes, at every width. The fields of a sound table lie apart and
//! within its length. A range of bytes that was written reads back. [`NoMemory`] is the one answer for want of
//! memory, and [`PAGE`] the length of a page.
#![tactic(auto)]

mod base_page;
mod field;
mod laws;
mod no_memory;
mod place;
mod table;

pub use base_page::PAGE;
pub use laws::{fields_lie_apart, put_reads_back, writes_meet_ranges};
pub use no_memory::NoMemory;
pub use place::{get_u8, get_u16, get_u32, get_u64, put_u8, put_u16, put_u32, put_u64};
pub use table::{Table, table_is_sound};
