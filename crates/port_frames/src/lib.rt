//! The frames of an end of a port: those that it holds, those that stand in the slots of its ring, and the one that it
//! took last from a slot of its peer's. The ring stands at the front of the end's memory, and after its page a buffer
//! of 2,048 bytes for each slot.
//!
//! Either end of a port stands on it. Each call reads or writes what it names and no other byte, and none but the two
//! that make room takes memory.
#![tactic(auto)]

mod fetching;
mod frame_buffer;
mod held_frames;
mod own_slots;
mod publishing;
mod taken_frame;

pub use fetching::{LastFrame, SlotFault};
pub use held_frames::HeldFrames;
pub use own_slots::{first_undone, free_slots, ring_of};
pub use publishing::put_frame;
