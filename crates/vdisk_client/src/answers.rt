// What the client's calls answer.

use vio_tag::Cause;

/// Why a request wasn't taken up.
#[derive(Clone, Copy, Debug, PartialEq, Eq)]
pub enum IssueFault {
    /// A read or a write of no block, or of more than 64.
    Count,
    /// It reaches past the disk's last block.
    Range,
    /// As many requests are pending as the ring has slots.
    Full,
}

/// What a client did in one step.
#[derive(Clone, Copy, Debug, PartialEq, Eq)]
pub enum ClientOut {
    /// There was nothing to do.
    Idle,
    /// The queue had no room for the packet that is to be put next. Its message stays offered.
    Blocked,
    /// Its end wasn't up: it was configured, and the link began anew.
    Joined,
    /// This packet was taken. A client's session never opens by one.
    Took {
        packet: [u8; 64],
        opens: bool,
    },
    /// This packet was put, and the session opened by it or didn't.
    Sent {
        packet: [u8; 64],
        opens: bool,
    },
    /// The request with this id stands READY in its slot of the ring.
    Published {
        id: u64,
    },
    /// The first pending request is done, with the status that its descriptor had. `operation` is 1 for a read, 2 for
    /// a write and 3 for a flush; a read with status 0 carries `len` bytes, which `Client::bytes` shows.
    Done {
        id: u64,
        operation: u8,
        status: u32,
        len: u32,
    },
    /// The end reset itself for this cause, which lies in the packet that it took, if any. The packet has left the
    /// queue.
    Reset {
        cause: Cause,
        packet: Option<[u8; 64]>,
    },
}
