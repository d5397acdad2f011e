//! The memory that a domain grants pages of: whole pages of 8,192 bytes, seen as one list of bytes.
//!
//! Copies and rings stand on it. A read gives the bytes of a range and a write changes those of a
//! range alone.
#![tactic(auto)]

mod memory;

pub use memory::Memory;
pub use vio_bytes::PAGE;
