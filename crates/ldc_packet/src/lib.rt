//! Packets of a Logical Domain Channel, 64 bytes each, as Linux's `struct ldc_packet` has them: the handshake of a link
//! (VERS, RTS, RTR, RDX) and the parts of a message. Links and the dump stand on it. `decode` answers a packet exactly
//! where the bytes spell it, and else the first fault in a stated order. `encode` writes the canonical spelling, so
//! that decoding gives the packet back.
#![tactic(auto)]

mod decoding;
mod encoding;
mod flags;
mod laws;
mod layout;
mod packet;
mod part;

pub use decoding::decode;
pub use encoding::encode;
pub use laws::{bytes_decode_once, spellings_are_unique};
pub use layout::layouts_are_sound;
pub use packet::{Body, Packet, PacketFault, Subtype};
pub use part::{PartHead, encode_part, part_head, part_within};
