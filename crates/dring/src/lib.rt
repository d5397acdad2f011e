//! Descriptor rings: a list of slots at the front of the memory of the domain that makes it.
//!
//! The ends of disks and ports stand on it. The producer writes and reads the slots in its own memory;
//! the other end fetches, marks and writes them by the ring's cookies. Each call reads or changes the
//! bytes of its slot alone, and laws over plain lists say how slots and numbers of descriptors meet.
#![tactic(auto)]

mod laws;
mod peer;
mod ring;

pub use laws::{one_lap_of_a_ring, one_slot_at_a_time};
pub use peer::{PeerRing, RingFault, fetch, mark, put_word, range_length, slot_of};
pub use ring::{
    Ring, VIO_DESC_ACCEPTED, VIO_DESC_DONE, VIO_DESC_FREE, VIO_DESC_READY,
    states_are_those_of_the_standard,
};
