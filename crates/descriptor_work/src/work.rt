// The descriptor that a server works on.

use crate::descriptor::Descriptor;

/// What comes next of a descriptor. Of a read each unit is read from the store and then copied out, of a write copied
/// in and then stored. In between the unit's bytes stand in the server's buffer.
#[derive(Clone, Copy, Debug, PartialEq, Eq)]
pub enum Progress {
    /// A unit is to be read from the store.
    Reads { unit: u32 },
    /// The unit that was read is to be copied out.
    Gives { unit: u32 },
    /// A unit is to be copied in.
    Gathers { unit: u32 },
    /// The unit that was copied in is to be written to the store.
    Writes { unit: u32 },
    /// The store is to be flushed.
    Flushes,
    /// The descriptor is to get its status.
    Ends { status: u32 },
}

/// A descriptor with its progress.
#[derive(Drop)]
pub struct Work {
    pub descriptor: Descriptor,
    pub progress: Progress,
}
