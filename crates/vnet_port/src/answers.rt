// What the calls of an end answer.

/// Why a frame wasn't taken up.
#[derive(Clone, Copy, Debug, PartialEq, Eq)]
pub enum SendFault {
    /// It hasn't 14 to 1,514 bytes.
    Length,
    /// As many frames are held as the ring has slots.
    Full,
}

/// A group wasn't joined: seven others are in the list.
#[derive(Clone, Copy, Debug, PartialEq, Eq)]
pub struct GroupsFull;
