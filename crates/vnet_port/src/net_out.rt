// What a step of an end answers.

use vio_tag::Cause;

/// What an end did in one step. A packet is the 64 bytes of an entry of a queue (the LDC chapter of the UltraSPARC
/// Virtual Machine Specification). What it says is a message of the VIO chapter, as Linux's vio.h has it and its
/// sunvnet speaks it with a switch.
#[derive(Clone, Copy, Debug, PartialEq, Eq)]
pub enum NetOut {
    /// There was nothing to do.
    Idle,
    /// The peer's queue had no room for the packet that is to be put next. Its message stays offered.
    Blocked,
    /// Its end wasn't `Up`: it was configured, and the link began anew. So many frames are lost, those that were
    /// published and not acknowledged.
    Joined {
        lost: u32,
    },
    /// This packet was taken, and the session opened by it or didn't. A guest's never opens by one.
    Took {
        packet: [u8; 64],
        opens: bool,
    },
    /// This packet was put, and the session opened by it or didn't. That of the switch's end never opens by one.
    Sent {
        packet: [u8; 64],
        opens: bool,
    },
    /// The frame with this id, which `NetEnd::send` answered, stands in its buffer. Its descriptor is READY in its slot
    /// of the ring (`struct vio_net_desc` and `VIO_DESC_READY` of Linux's vio.h).
    Published {
        id: u64,
    },
    /// A frame of `len` bytes, 14 to 1,514, was taken from the next slot of the peer's ring, which is DONE now
    /// (`VIO_DESC_DONE` of Linux's vio.h). `NetEnd::frame` shows it.
    Frame {
        len: u32,
    },
    /// The end reset itself for this cause, which lies in the packet that it took, if any. The packet has left the
    /// queue. So many frames are lost, those that were published and not acknowledged.
    Reset {
        cause: Cause,
        packet: Option<[u8; 64]>,
        lost: u32,
    },
}
