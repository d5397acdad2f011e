//! The outside of the stack, as traits: where a script comes from, where a report goes, where blocks lie, and who
//! gives an image under its name. All crates that reach outside stand on it. Each trait says what the outside means,
//! where that is told, and counts its faults: an answer `Failed` comes only where that count rose, and any other answer
//! leaves it.
#![tactic(auto)]

mod fault_plan;
mod host;
mod laws;
mod sink;
mod source;
mod std_streams;
mod store;

pub use fault_plan::FaultPlan;
pub use host::{AttachFault, Host};
pub use laws::{a_given_disk_changes_the_count, a_plan_of_no_call_never_fails};
pub use sink::{ListSink, Sink};
pub use source::{Failed, ListSource, Source};
pub use std_streams::{MOST_TRIES, StdSink, StdSource};
pub use store::Store;
pub use vio_bytes::NoMemory;
