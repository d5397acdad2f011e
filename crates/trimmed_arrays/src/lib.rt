//! Byte strings of their own lengths, kept one after another. On them stand arrays of one length without the zeros at
//! their ends: packets and descriptors are mostly zeros after their fields, so that a journal of them takes little
//! memory. Room is taken before it is needed: putting one last takes no memory and can't fail.
#![tactic(auto)]

mod array;
mod arrays;
mod rest;
mod strings;
mod strings_rest;
mod trim;

pub use array::TrimmedArray;
pub use arrays::TrimmedArrays;
pub use rest::TrimmedRest;
pub use strings::ByteStrings;
pub use strings_rest::StringsRest;
pub use vio_bytes::NoMemory;
