use crate::{Bytes, KeptRequest, Who, WholeEntry, Why};
use cookie_copy::CopyFault;
use domain_script::EndName;
use trimmed_arrays::TrimmedArray;
use vio_tag::Cause;

/// An entry that is read from the journal: an `Entry` whose larger parts stand in the journal's lists, or that stands
/// there as a whole. `told` says which.
#[derive(Drop)]
pub enum EntryRef<'a> {
    Accepted {
        disk: u32,
        id: u64,
        request: &'a KeptRequest,
    },
    Full {
        who: Who,
    },
    Refused {
        who: Who,
        why: Why,
    },
    Queued {
        port: u32,
        id: u64,
        bytes: &'a [u8],
    },
    Lost {
        end: EndName,
        packet: TrimmedArray<'a>,
    },
    Injected {
        end: EndName,
        packet: TrimmedArray<'a>,
    },
    Stopped {
        disk: u32,
    },
    Started {
        disk: u32,
    },
    Calm {
        who: Who,
    },
    Settled,
    Unsettled {
        who: Who,
    },
    Idle {
        end: EndName,
    },
    Off {
        end: EndName,
    },
    Blocked {
        end: EndName,
    },
    Joined {
        end: EndName,
        lost: u64,
    },
    Took {
        end: EndName,
        packet: TrimmedArray<'a>,
        opens: bool,
    },
    Sent {
        end: EndName,
        packet: TrimmedArray<'a>,
        opens: bool,
    },
    Published {
        end: EndName,
        id: u64,
    },

    /// A completion without bytes.
    Done {
        disk: u32,
        id: u64,
        operation: u8,
        status: u64,
    },

    /// A completion, with its bytes.
    Read {
        disk: u32,
        id: u64,
        operation: u8,
        status: u64,
        bytes: &'a Bytes,
    },
    Desc {
        end: EndName,
        slot: u64,
        bytes: TrimmedArray<'a>,
    },
    Moved {
        end: EndName,
        unit: u64,
        fault: Option<CopyFault>,
    },
    Stored {
        end: EndName,
        operation: u8,
        block: u64,
        count: u64,
        failed: bool,
    },
    Finished {
        end: EndName,
        slot: u64,
        status: u64,
    },
    Frame {
        end: EndName,
        bytes: &'a [u8],
    },
    Switched {
        end: EndName,
        out: u64,
        full: u64,
        bytes: &'a [u8],
    },
    Reset {
        end: EndName,
        cause: Cause,
        packet: Option<TrimmedArray<'a>>,
        lost: u64,
    },

    /// One that is kept whole.
    Whole(&'a WholeEntry),
}
