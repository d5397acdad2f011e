//! What an end of a port offers in its handshake, and what it keeps of a session that is open: how far its own ring is
//! published and acknowledged, how far it took its peer's, and whether its groups are told. A list of groups changes by
//! what a guest names.
//!
//! Either end of a port stands on it. Each call is one function of the port's model.
#![tactic(auto)]

mod membership;
mod offering;
mod session;

pub use membership::{groups_after, seven};
pub use offering::port_offer;
pub use session::{MembershipReply, PortSession, RingActivity};
