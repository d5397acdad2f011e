//! The channel between two ends: for each a bounded queue of the packets that wait for it, and whether it is configured. Links, the
//! two ends of a lane and the copies by cookies stand on it. Each call is an equation on what the channel is seen as, or a refusal
//! that comes exactly where it is said, and no call but `Channel::new` takes memory. Over lists of queue events alone a law says that
//! what an end has heard is a front of what the other end said.
#![tactic(auto)]

mod channel;
mod end;
mod laws;
mod queue;

pub use channel::Channel;
pub use end::{ChannelState, End, NotUp, PutFault, QueueState};
pub use laws::{heard_is_a_front_of_said, messages_are_cut_into_parts};
