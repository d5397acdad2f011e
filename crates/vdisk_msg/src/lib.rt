//! What a guest asks of a virtual disk: its requests, and the descriptors that carry them through a
//! ring of slots of 128 bytes.
//!
//! The disk's client, its server and the journal stand on it. A descriptor is read exactly as its
//! bytes spell it and written by its one canonical spelling, and `check` answers the first thing
//! that is wrong with one.
#![tactic(auto)]

mod checking;
mod decoding;
mod desc;
mod encoding;
mod laws;
mod layout;
mod request;

pub use checking::check;
pub use decoding::decode;
pub use desc::{DescFault, DiskDesc};
pub use encoding::encode;
pub use laws::descriptors_read_back;
pub use layout::{
    BLOCK, BUFFER_PAGES, MOST_BLOCKS, MOST_BYTES, SLOT, VD_OP_BREAD, VD_OP_BWRITE, VD_OP_FLUSH,
    disks_have_the_numbers_of_the_standard, layouts_are_sound,
};
pub use request::{Fill, Request};
