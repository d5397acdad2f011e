//! A small switch between network ports. It doesn't learn: each port is told its address and its list of groups, and a
//! frame goes by its destination alone, as Linux's sunvnet sees its vswitch. A broadcast goes to every other port in
//! session, a multicast frame to those whose list holds its group, any other to the port whose address it has. Each port
//! has an out queue of bounded length.
//!
//! A frame that goes to seven queues is kept once, with the number of queues that name it, and leaves with the last of
//! them. All memory is taken by [`Switch::new`]: for as many frames as the queues can name.
#![tactic(auto)]

mod cast;
mod forwarding;
mod frame_buffer;
mod kept_frames;
mod port;
mod port_set;
mod switch;

pub use forwarding::Switched;
pub use switch::Switch;
