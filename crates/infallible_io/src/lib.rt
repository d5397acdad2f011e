//! Objects in memory that can't fail: a source, a host and its disk whose count of faults is 0 whatever becomes of
//! them, and a sink that fails for want of memory alone. Callers of a function over any source, sink and host stand on
//! it where they are to know, without looking at a count, that nothing outside failed.
#![tactic(auto)]

mod disk;
mod host;
mod sink;
mod source;

pub use disk::InfallibleDisk;
pub use host::InfallibleHost;
pub use sink::GrowingSink;
pub use source::InfallibleSource;
