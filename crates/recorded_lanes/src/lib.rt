//! Lanes that record what happens to them: the disks of a script over one image, and the ports of one switch. Each step
//! and each call of a lane is made once there is room in the journal, and leaves its entry there. The world of lanes
//! stands on it, which does what a line of a script says to the lanes of both kinds.
#![tactic(auto)]

mod calls;
mod disks;
mod entries;
mod issuing;
mod poking;
mod port_calls;
mod port_entries;
mod port_stepping;
mod ports;
mod stepping;
mod sums;

pub use cached_store::KeptBlocks;
pub use calls::LaneCall;
pub use disk_lane::{DiskLane, Region};
pub use disks::Disks;
pub use ldom_report::{Entry, Journal, Who, fill_bytes};
pub use ports::PortLanes;
pub use switched_ports::{NetLane, PortShape, Ports, Switch};
