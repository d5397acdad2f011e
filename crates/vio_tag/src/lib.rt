//! Messages of the virtual I/O protocol, which the ends of a device send each other over a link, as Linux's vio.h has
//! them. The attributes of disks and network devices that they carry; and the causes of a link's reset.
//!
//! Links, handshakes, rings, the journal and the dump stand on it. `decode` answers a message exactly where the bytes
//! spell it, and else the first fault in a stated order. `encode` writes the canonical spelling, so that decoding gives
//! the message back.
#![tactic(auto)]

mod attributes;
mod cause;
mod decoding;
mod encoding;
mod laws;
mod layout;
mod message;

pub use attributes::{
    DISK_OPERATIONS, DiskAttr, NetAttr, disk_attr, net_attr,
    operations_have_the_bits_of_the_standard, put_disk_attr, put_net_attr,
};
pub use cause::{Cause, packet_word, tag_word};
pub use decoding::decode;
pub use encoding::encode;
pub use laws::{attributes_read_back, bytes_decode_once, spellings_are_unique};
pub use layout::{
    MOST_RING_COOKIES, VIO_DRING_ACTIVE, VIO_DRING_STOPPED, layouts_are_sound,
    rings_have_the_numbers_of_the_standard,
};
pub use message::{Message, MsgBody, TagFault};
