//! The handshake of the virtual I/O protocol, by which two ends of a link open a session: versions,
//! attributes, the registration of rings, ready for data. For disks, whose client alone registers a ring, and
//! for ports, where both ends do; for either end.
//!
//! The ends of disks and ports stand on it: they hand it each message of the handshake, and put what it owes.
//! `take` answers every message in every state exactly by the table in `Rules`, or with the first fault: a
//! message of another session, one out of order, a refusal. Two handshakes whose offers match, given each
//! other's messages, open one session, and agree on it.
#![tactic(auto)]

mod attributes;
mod handshake;
mod laws;
mod messages;
mod ready;
mod ring;
mod rows;
mod session;
mod version;

pub use handshake::Handshake;
pub use laws::{
    attributes_are_of_the_smaller_minor, handshakes_agree, opens_where_it_is_told,
    what_is_owed_is_well_formed,
};
pub use session::{HsOut, Offer, Session};
