//! A disk's lane: the two ends of a virtual disk with the channel, the memory and the table between them. Each call is one event
//! of the lane, exactly as `lane_models` has it, and a lane is always one that such events lead to from a fresh one, so that the
//! laws of `lane_laws` hold of it. A world of disks stands on it.
#![tactic(auto)]

mod disk_lane;
mod granting;
mod lane_ends;
mod near;

pub use crate::disk_lane::DiskLane;
pub use flat_store::Region;
pub use ldc_queue::{End, PutFault};
pub use vdisk_client::{ClientOut, IssueFault};
pub use vdisk_server::ServerOut;
