//! The words of a script's line, and what a word spells: a number, a name, bytes in hexadecimal digits, an address on a
//! network. Each is read exactly where a word spells one, and written as its one word. What a line spells stands above.
#![tactic(auto)]

pub mod addresses;
pub mod digits;
pub mod numbers;
pub mod putting;
pub mod spelled;
pub mod spellings;
pub mod words;

pub use spelled::{Name, Piece};
pub use vdisk_msg::{Fill, Request};
