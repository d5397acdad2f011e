//! Either end of a network port, a guest's or the switch's, as Linux's sunvnet has one. It holds the frames that it is
//! given, and offers them to its peer through a ring of descriptors in its own memory. It takes the frames of the
//! peer's ring by cookies. A guest's end tells its groups, and the switch's keeps what it is told. A port's lane is to
//! stand on it.
//!
//! Each call is exactly one of the port's model. A step is the first rule that applies, whatever the channel, the table
//! and both memories hold. No call but [`NetEnd::new`] takes memory.
#![tactic(auto)]

mod answers;
mod fetching;
mod hearing;
mod net_end;
mod net_out;
mod port_end;
mod publishing;
mod putting;
mod saying;
mod stepping;

pub use answers::{GroupsFull, SendFault};
pub use net_end::NetEnd;
pub use net_out::NetOut;
