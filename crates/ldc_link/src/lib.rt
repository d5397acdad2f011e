//! A link of a Logical Domain Channel in the mode UNRELIABLE: the handshake by which two ends agree on a version, and
//! messages of up to 256 bytes that pass in parts with consecutive numbers. The ends of disks and of network ports
//! stand on it. What is put next and what becomes of each packet that waits are functions of the link's state. A
//! message is whole exactly where the packets that were taken are its fragments. The channel's law, that what an end
//! has heard is a front of what the other end said, stands here again, beside the laws by which a link's packets are
//! those of which it speaks.
#![tactic(auto)]

mod answers;
mod handshake;
mod laws;
mod link;
mod packets;
mod phase;
mod taking;

pub use answers::{Busy, SendOut, TakeOut};
pub use laws::{
    links_follow_what_their_ends_say, messages_are_heard_by_their_fragments,
    messages_are_said_as_their_fragments,
};
pub use ldc_queue::heard_is_a_front_of_said;
pub use link::Link;
pub use phase::{LinkPhase, Role};
