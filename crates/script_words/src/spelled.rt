// What words spell, where a number or bytes don't say it.
/// A name that a script declares: a letter a to z and up to seven letters a to z or digits. `len` bytes, 1 to 8, and
/// zeros after them.
#[derive(Clone, Copy, Debug, PartialEq, Eq)]
pub struct Name {
    pub len: u8,
    pub bytes: [u8; 8],
}

/// Bytes that are handed to a guest as a frame: `len` bytes, 1 to 1,540, and zeros after them.
#[derive(Clone, Copy, Debug)]
pub struct Piece {
    pub len: u16,
    pub bytes: [u8; 1540],
}
