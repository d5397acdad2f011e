//! The real ports of one switch: the lanes of guests, and the switch between them, which knows of each port what its
//! end at the switch was told. Each call is one entry of the kind of lanes that `switch_laws` speaks of, so that its
//! laws hold of these ports. A world of disks and ports is to stand on it.
#![tactic(auto)]

mod calls;
mod hub;
mod ports;
mod shape;
mod stepping;
mod sums;

pub use crate::ports::Ports;
pub use crate::shape::PortShape;
pub use net_lane::{End, GroupsFull, NetEnd, NetLane, NetOut, PutFault, SendFault};
pub use vnet_switch::{Switch, Switched};
