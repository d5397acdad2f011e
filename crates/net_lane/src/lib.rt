//! A port's lane: the two ends of a network port with the channel, the memories and the tables between them. Each call
//! is one event of the lane, exactly as `lane_models` has it. A lane is always one that such events lead to from a fresh
//! one, so that the laws of `port_laws` hold of it. A world of ports is to stand on it.
#![tactic(auto)]

mod net_lane;
mod port_ends;

pub use crate::net_lane::NetLane;
pub use ldc_queue::{End, PutFault};
pub use vnet_port::{GroupsFull, NetEnd, NetOut, SendFault};
