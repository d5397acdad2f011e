//! A cache of blocks before a store. Blocks that were read or written lately are answered without the store; all else
//! is as with the store alone: its bytes, its size and its counts of faults and flushes.
#![tactic(auto)]

mod cached;
mod kept_blocks;

pub use cached::Cached;
pub use kept_blocks::KeptBlocks;
