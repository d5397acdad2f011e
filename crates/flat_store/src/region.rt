/// A run of blocks of an image, each of 512 bytes: the blocks of one disk.
#[derive(Clone, Copy, Debug, PartialEq, Eq)]
pub struct Region {
    pub first: u64,
    pub blocks: u64,
}
