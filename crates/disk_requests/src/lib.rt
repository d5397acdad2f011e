//! A request of a disk's client on its way into the client's memory: the descriptor that asks for it, written into its slot of the
//! ring, the data of a write in the slot's buffer, and the cookies of the ring's own pages, which the client offers to its server.
//! The memory has the ring at its front, and after it four pages for each slot.
//!
//! Both ends of a disk stand on it, the server for the numbers of the operations and the attributes that it offers. Each call writes
//! what it names and no other byte, and takes no memory.
#![tactic(auto)]

mod descriptor;
mod filling;
mod offering;

pub use descriptor::{buffer_place, operation_of, ring_of};
pub use filling::put_request;
pub use offering::{client_offer, disk_bytes};
