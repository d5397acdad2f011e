//! The descriptors that carry frames through a ring of slots of 64 bytes, between a network guest and its switch.
//!
//! Both ends of a port stand on it. A descriptor is read exactly as its bytes spell it and written by its one canonical
//! spelling. What a slot and its buffer hold of a frame is fixed here, and `holds_frame` tells whether a descriptor may
//! be that of a frame.
#![tactic(auto)]

mod checking;
mod decoding;
mod desc;
mod encoding;
mod laws;
mod layout;

pub use checking::holds_frame;
pub use decoding::decode;
pub use desc::NetDesc;
pub use encoding::encode;
pub use laws::{descriptors_read_back, frames_have_descriptors};
pub use layout::{
    LEAST_FRAME, MOST_FRAME, SLOT, frames_have_the_numbers_of_the_standard, layouts_are_sound,
};
