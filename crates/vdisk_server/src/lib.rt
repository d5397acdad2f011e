//! The server of a virtual disk: the end of a lane that works the descriptors of a client's ring on its region of a store.
//!
//! The lane of a disk stands on it. Each call is exactly one step of the server as the crate of steps says it, for every content
//! of the channel, of the client's memory and of the store: each answer comes exactly where its rule is the first that applies. All
//! that it reads and writes of the client's memory goes by the cookies of the ring, and of the descriptor that it fetched. No call
//! but `new` takes memory.
#![tactic(auto)]

mod answers;
mod end;
mod fetching;
mod finishing;
mod hearing;
mod laws;
mod putting;
mod rules;
mod server;
mod session;

pub use answers::ServerOut;
pub use laws::steps_are_the_lanes;
pub use server::Server;
