//! The lines of a script, one after another from a source, in whatever pieces it gives its bytes. A run and a dump
//! stand on it. The limits of a line's length and of the number of lines are exact, and where a read fails, nothing
//! that was taken is lost.
#![tactic(auto)]

mod lines;
mod piece;
mod reading;

pub use lines::{Lines, LinesFault};
