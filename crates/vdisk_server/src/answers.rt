// What a server's steps answer.

ghost use Rattle.std.specs.Prelude.{◌≡◌};
ghost use Rattle.vdisk_server.specs.OnStore.{copy_out, store_out};

use cookie_copy::CopyFault;
use descriptor_work::{StoreCall, UnitCopy};
use vio_tag::Cause;

/// What a step of a disk's server was. Packets are the 64 bytes of a queue's entry.
#[derive(Clone, Copy, Debug, PartialEq, Eq)]
pub enum ServerOut {
    /// There was nothing to do.
    Idle,
    /// A packet is to be put, and the client's queue is full.
    Blocked,
    /// The end wasn't `Up`: it was configured, and begins anew.
    Joined,
    /// It took this packet, and its session opened by it or didn't.
    Took {
        packet: [u8; 64],
        opens: bool,
    },
    /// It put this packet.
    Sent {
        packet: [u8; 64],
        opens: bool,
    },
    /// It fetched the descriptor of this slot and marked it ACCEPTED.
    Desc {
        slot: u32,
        bytes: [u8; 128],
    },
    /// It copied this unit of the descriptor in or out, or the copy was refused.
    Moved {
        unit: u32,
        fault: Option<CopyFault>,
    },
    /// It read (1) or wrote (2) `count` blocks of the disk from `block` on, or flushed (3) the store, which failed or didn't.
    Stored {
        operation: u8,
        block: u64,
        count: u32,
        failed: bool,
    },
    /// The descriptor of this slot is DONE, with this status.
    Finished {
        slot: u32,
        status: u32,
    },
    /// It began anew for a cause, which may lie in a packet that it took.
    Reset {
        cause: Cause,
        packet: Option<[u8; 64]>,
    },
}

// An answer is long, so it is written over the caller's and not made by itself.
impl ServerOut {
    /// A piece of the descriptor in work was a call of the store.
    pub(crate) fn tell_call(&mut self, call: StoreCall)
        ensures { self.new ≡ store_out call }
    {
        *self = ServerOut::Stored {
            operation: call.operation,
            block: call.block,
            count: call.count,
            failed: call.failed,
        };
    }

    /// A piece of the descriptor in work was the copy of a unit.
    pub(crate) fn tell_copy(&mut self, copy: UnitCopy)
        ensures { self.new ≡ copy_out copy }
    {
        *self = ServerOut::Moved {
            unit: copy.unit,
            fault: copy.fault,
        };
    }
}
