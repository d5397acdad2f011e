//! The words of a report's lines that name no entry: those of sides, operations and faults, the names of disks, lanes and
//! ends, the causes of resets, arrays and bytes in digits, and the blocks that a read gave.
#![tactic(auto)]

mod array_text;
mod block_words;
mod bytes_text;
mod cause_text;
mod lane_names;
mod line_names;
mod short_names;
mod words;

pub use array_text::push_array;
pub use block_words::put_blocks;
pub use bytes_text::{put_bytes, put_pieces};
pub use cause_text::push_reset_cause;
pub use lane_names::LaneNames;
pub use line_names::{push_end, push_end_number, push_id, push_lane, push_who};
pub use short_names::{LineNames, names_of_lanes};
pub use words::{failed_word, fault_word, opens_word, operation_word, side_word, why_word};
