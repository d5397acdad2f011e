/// The word that a write repeats over its blocks: `len` bytes, 1 to 1,024, and zeros after them.
#[derive(Clone, Copy, Debug)]
pub struct Fill {
    pub len: u16,
    pub bytes: [u8; 1024],
}

/// What a guest asks of its disk. `block` and `count` are in blocks of 512 bytes of the disk.
#[derive(Clone, Copy, Debug)]
pub enum Request {
    Read { block: u64, count: u64 },

    /// Byte j of what is written is `fill.bytes[j % fill.len]`.
    Write { block: u64, count: u64, fill: Fill },

    /// All that was written before is to last.
    Flush,
}
