//! The words of a command line: what they ask the program for, exactly by one definition. `clap` reads them, and what it
//! accepts is tested against the definition once more. The top call stands on it.
#![tactic(auto)]

mod clap_words;
mod words;

pub use words::{Asked, read_words};
