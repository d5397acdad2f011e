use crate::{Bytes, KeptRequest};
use cookie_copy::CopyFault;
use domain_script::{EndName, Lane};
use vio_tag::Cause;

/// Whom an entry is about: a lane as a whole, or one of its ends.
#[derive(Clone, Copy, Debug, PartialEq, Eq)]
pub enum Who {
    Lane(Lane),
    End(EndName),
}

/// Why a request was refused, or a poke, a frame or a group of a port.
#[derive(Clone, Copy, Debug, PartialEq, Eq)]
pub enum Why {
    /// It names no block, or more than one request may.
    Count,

    /// It reaches past the disk's last block, or past the memory's end.
    Range,

    /// A frame is shorter or longer than a frame may be.
    Length,

    /// The port is a member of as many groups as it may.
    Groups,
}

/// What happened at one step of a run. A disk goes by its number in the order of declaration, counted from 0, and so
/// does a port; a request or a frame of it by its id, likewise; an end by the lane and the side. A packet is its 64
/// bytes.
#[derive(Drop)]
pub enum Entry {
    /// A guest's request was taken up.
    Accepted {
        disk: u32,
        id: u64,
        request: KeptRequest,
    },

    /// As many requests or frames are pending as the ring holds, or as many packets wait for an end as its queue holds.
    Full {
        who: Who,
    },

    /// A request was refused, a frame, a group, or a poke into an end's memory.
    Refused {
        who: Who,
        why: Why,
    },

    /// A frame was handed to a port's guest.
    Queued {
        port: u32,
        id: u64,
        bytes: Bytes,
    },

    /// A port is a member of one group more.
    Member {
        port: u32,
        address: [u8; 6],
    },

    /// The packet that had waited longest for an end was lost.
    Lost {
        end: EndName,
        packet: [u8; 64],
    },

    /// A packet that the peer never put waits for an end.
    Injected {
        end: EndName,
        packet: [u8; 64],
    },

    /// Bytes that an end never wrote stand in its memory, from this place on.
    Poked {
        end: EndName,
        at: u64,
        bytes: Bytes,
    },

    /// A disk's server was stopped.
    Stopped {
        disk: u32,
    },

    /// A disk's server was started.
    Started {
        disk: u32,
    },

    /// What the line asked for changes nothing.
    Calm {
        who: Who,
    },

    /// A settle is through.
    Settled,

    /// A settle ended though something is left to do here.
    Unsettled {
        who: Who,
    },

    /// An end has nothing to do.
    Idle {
        end: EndName,
    },

    /// The end of a stopped server was to make a step.
    Off {
        end: EndName,
    },

    /// An end has no room for its next packet.
    Blocked {
        end: EndName,
    },

    /// An end was configured, and so many frames were lost by that.
    Joined {
        end: EndName,
        lost: u32,
    },

    /// An end took a packet, and its session may have opened by it.
    Took {
        end: EndName,
        packet: [u8; 64],
        opens: bool,
    },

    /// An end put a packet, and its session may have opened by it.
    Sent {
        end: EndName,
        packet: [u8; 64],
        opens: bool,
    },

    /// A disk's client put the request with this id into its ring, or an end of a port the frame.
    Published {
        end: EndName,
        id: u64,
    },

    /// A request was completed. `operation` is one of `VD_OP_BREAD`, `VD_OP_BWRITE` and `VD_OP_FLUSH`, `status` is 0 or
    /// an error number of Linux, and `bytes` are what a read with status 0 gave: 512 for each block.
    Done {
        disk: u32,
        id: u64,
        operation: u8,
        status: u32,
        bytes: Bytes,
    },

    /// The server fetched the descriptor of a slot.
    Desc {
        end: EndName,
        slot: u32,
        bytes: [u8; 128],
    },

    /// The server copied a unit of 8,192 bytes, or why it couldn't.
    Moved {
        end: EndName,
        unit: u32,
        fault: Option<CopyFault>,
    },

    /// The server called its store for a unit of blocks or, with `VD_OP_FLUSH` and no blocks, for a flush.
    Stored {
        end: EndName,
        operation: u8,
        block: u64,
        count: u64,
        failed: bool,
    },

    /// The server gave the descriptor of a slot its status.
    Finished {
        end: EndName,
        slot: u32,
        status: u32,
    },

    /// A port's guest took a frame from the switch.
    Frame {
        end: EndName,
        bytes: Bytes,
    },

    /// The switch took a frame from a port. Of the ports that it is for, each is a bit of one of two sets: those that
    /// have it in their queue, and those whose queue was full. Both are empty where its address is that of no port.
    Switched {
        end: EndName,
        out: u32,
        full: u32,
        bytes: Bytes,
    },

    /// An end was reset, maybe by a packet that it took, and so many frames were lost by that.
    Reset {
        end: EndName,
        cause: Cause,
        packet: Option<[u8; 64]>,
        lost: u32,
    },
}

// A journal holds millions of entries.
const _: () = prove!(size_of::<Entry>() <= 200);
