// What the pieces of a descriptor were.

use cookie_copy::CopyFault;

/// A call of the store: it read (1) or wrote (2) `count` blocks of the disk from `block` on, or flushed (3) the store.
#[derive(Clone, Copy, Debug, PartialEq, Eq)]
pub struct StoreCall {
    pub operation: u8,
    pub block: u64,
    pub count: u32,
    pub failed: bool,
}

/// A unit was copied in or out, or the copy was refused.
#[derive(Clone, Copy, Debug, PartialEq, Eq)]
pub struct UnitCopy {
    pub unit: u32,
    pub fault: Option<CopyFault>,
}
