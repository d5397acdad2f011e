//! Copies between the memories of two domains, by the cookies of pages that one grants to the other:
//! LDC copy of the UltraSPARC Virtual Machine Specification.
//!
//! Rings stand on it, and the ends of disks and ports. The bytes of a list of cookies are one list: a
//! copy moves exactly the named part of it, or is refused for the first of six faults and moves nothing.
#![tactic(auto)]

mod asking;
mod checking;
mod copying;
mod fault;
mod one_page;
mod place;
mod reading;
mod window;
mod writing;

pub use copying::{copy_in, copy_out};
pub use fault::{Access, CopyFault};
