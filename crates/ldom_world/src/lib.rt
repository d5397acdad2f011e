//! The world of domains that a script acts on: the lanes of its disks over one image, and the ports of one switch. Each
//! line of the script is done to the lanes, and what happened is added to the journal, entry by entry. The top call
//! stands on it.
#![tactic(auto)]

mod applying;
mod kinds;
mod lanes;
mod settling;
mod turns;
mod world;

pub use lanes::Lanes;
pub use recorded_lanes::KeptBlocks;
pub use world::{World, room_for};
