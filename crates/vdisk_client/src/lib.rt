//! The client end of a virtual disk: it takes requests up, offers them to the server through a ring of descriptors in
//! its own memory, and completes them in their order from what the server left there. A disk's lane stands on it. Each
//! step is one step of a disk's lane exactly, for every content of the channel and of the memory, and no call but
//! `Client::new` takes memory.
#![tactic(auto)]

mod answers;
mod client;
mod completing;
mod end;
mod hearing;
mod laws;
mod putting;
mod session;
mod stepping;

pub use answers::{ClientOut, IssueFault};
pub use client::Client;
pub use laws::steps_are_the_lanes;
