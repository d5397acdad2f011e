//! The work on a descriptor: what a disk's server makes of the 128 bytes of a slot, by pieces, and what each
//! piece was.
//!
//! The server stands on it. A unit is one call of the store and one copy by the descriptor's cookies; a flush is one
//! flush of the store. Each piece is exactly what the crate of steps says of it. No call but `UnitBuffer::new` takes
//! memory.
#![tactic(auto)]

mod answers;
mod descriptor;
mod unit;
mod units;
mod work;

pub use answers::{StoreCall, UnitCopy};
pub use descriptor::{Descriptor, header_of};
pub use unit::UnitBuffer;
pub use work::{Progress, Work};
