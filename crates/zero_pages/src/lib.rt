//! Memory that isn't touched before it is written: pages of 4,096 bytes that begin as zeros, seen as one list of bytes.
//!
//! The memory of a domain and the image of zeros stand on it. A read gives the bytes of a range and a write changes
//! those of a range alone. Memory is taken once for all pages, but only those that a write met are touched.
#![tactic(auto)]

mod pages;

pub use pages::{ZERO_PAGE, ZeroPages};
