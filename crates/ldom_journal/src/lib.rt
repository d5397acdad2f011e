//! The journal of a run: its entries in the order in which they came, and the counts that a report tells. Room is taken
//! before it is needed, so that what was done is always told.
#![tactic(auto)]

mod journal;
mod kept_entries;
mod parts;
mod reading;

pub use journal::Journal;
