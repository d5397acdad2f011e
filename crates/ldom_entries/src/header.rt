ghost use Rattle.std.specs.Prelude.{◌≡◌, ℕ};
ghost use Rattle.domain_script.specs.declared.fields.LaneKind.{LaneKind as lane_kind};
ghost use Rattle.ldom_entries.specs.declared.entry.Who.TheVariants.{End as OfEnd};
ghost use Rattle.ldom_entries.specs.Decoded.{end_at, kind_of, who_at};
ghost use Rattle.ldom_entries.specs.Seen.{may_be_seen};

use crate::{Who, Why};
use cookie_copy::CopyFault;
use domain_script::{EndName, Lane, LaneKind, Side};

/// A lane as a whole, or one of its ends: its client's or its server's.
#[derive(Clone, Copy, Debug, PartialEq, Eq)]
pub enum Part {
    Lane,
    Client,
    Server,
}

/// An end of a lane of this kind: all of its name but the lane's number.
#[derive(Clone, Copy, Debug, PartialEq, Eq)]
pub struct EndMark {
    pub side: Side,
    pub kind: LaneKind,
}

/// The kind of an entry, its lane and its flags, in eight bytes: the number stands last, so that no gap is before it.
/// What else it has stands in lists beside it, and so does all of an entry that is kept whole.
#[derive(Clone, Copy)]
pub enum Header {
    /// Beside it: the id, and the request.
    Accepted {
        disk: u32,
    },
    Full {
        part: Part,
        kind: LaneKind,
        number: u32,
    },
    Refused {
        part: Part,
        kind: LaneKind,
        why: Why,
        number: u32,
    },
    /// Beside it: the id, and the frame.
    Queued {
        port: u32,
    },

    /// Beside it: the packet.
    Lost {
        at: EndMark,
        number: u32,
    },

    /// Beside it: the packet.
    Injected {
        at: EndMark,
        number: u32,
    },
    Stopped {
        disk: u32,
    },
    Started {
        disk: u32,
    },
    Calm {
        part: Part,
        kind: LaneKind,
        number: u32,
    },
    Settled,
    Unsettled {
        part: Part,
        kind: LaneKind,
        number: u32,
    },
    Idle {
        at: EndMark,
        number: u32,
    },
    Off {
        at: EndMark,
        number: u32,
    },
    Blocked {
        at: EndMark,
        number: u32,
    },

    /// Beside it: how many frames were lost.
    Joined {
        at: EndMark,
        number: u32,
    },

    /// Beside it: the packet.
    Took {
        at: EndMark,
        opens: bool,
        number: u32,
    },

    /// Beside it: the packet.
    Sent {
        at: EndMark,
        opens: bool,
        number: u32,
    },

    /// Beside it: the id.
    Published {
        at: EndMark,
        number: u32,
    },

    /// Beside it: the id, the status and, where `read` says so, the bytes.
    Done {
        operation: u8,
        read: bool,
        disk: u32,
    },

    /// Beside it: the slot, and the descriptor.
    Desc {
        at: EndMark,
        number: u32,
    },

    /// A unit that was copied. Beside it: the unit.
    Moved {
        at: EndMark,
        number: u32,
    },

    /// One that wasn't. Beside it: the unit.
    NotMoved {
        at: EndMark,
        fault: CopyFault,
        number: u32,
    },

    /// A call of the store that went well. Beside it: the first block, and how many.
    Stored {
        at: EndMark,
        operation: u8,
        number: u32,
    },

    /// One that failed. Beside it: the first block, and how many.
    NotStored {
        at: EndMark,
        operation: u8,
        number: u32,
    },

    /// Beside it: the slot, and the status.
    Finished {
        at: EndMark,
        number: u32,
    },

    /// Beside it: the frame.
    Frame {
        at: EndMark,
        number: u32,
    },

    /// Beside it: the two sets of ports, and the frame.
    Switched {
        at: EndMark,
        number: u32,
    },

    /// Beside it: the cause, how many frames were lost, and the packet where it has one.
    Reset {
        at: EndMark,
        packet: bool,
        number: u32,
    },

    /// Beside it: the entry, of any other kind, or a frame's that came with memory of its own.
    Whole,
}

impl Header {
    /// Whether a user of the disks and ports may see its entry.
    pub fn may_be_seen(&self) -> bool
        ensures { result ≡ may_be_seen (kind_of self.now) }
    {
        matches!(
            self,
            Header::Full { .. }
                | Header::Refused { .. }
                | Header::Queued { .. }
                | Header::Settled
                | Header::Unsettled { .. }
                | Header::Done { .. }
                | Header::Frame { .. }
                | Header::Switched { .. }
                | Header::Reset { .. }
                | Header::Whole
        )
    }
}

// An idle step takes no more.
const _: () = prove!(size_of::<Header>() <= 8);

/// Which part of a lane an entry is about, and the lane.
pub fn part_of(who: Who) -> (Part, Lane)
    ensures { who_at result.1.kind result.1.number result.0 ≡ who }
{
    match who {
        Who::Lane(lane) => (Part::Lane, lane),
        Who::End(end) => (part_at(end.side), end.lane),
    }
}

/// The end of a lane that a side has.
fn part_at(side: Side) -> Part
    ensures { (kind : lane_kind) (number : ℕ) → who_at kind number result ≡
        OfEnd (end_at (record { side = side; kind = kind }) number) }
{
    match side {
        Side::Client => Part::Client,
        Side::Server => Part::Server,
    }
}

/// The mark of an end.
pub fn mark_of(end: EndName) -> EndMark
    ensures { end_at result end.lane.number ≡ end }
{
    EndMark {
        side: end.side,
        kind: end.lane.kind,
    }
}

/// The end with this mark, of the lane with this number.
pub fn end_at(at: EndMark, number: u32) -> EndName
    ensures { result ≡ end_at at number }
{
    EndName {
        lane: Lane {
            kind: at.kind,
            number,
        },
        side: at.side,
    }
}

/// The lane of this kind with this number, or one of its ends.
pub fn who_at(kind: LaneKind, number: u32, part: Part) -> Who
    ensures { result ≡ who_at kind number part }
{
    match part {
        Part::Lane => Who::Lane(Lane { kind, number }),
        Part::Client => Who::End(end_at(
            EndMark {
                side: Side::Client,
                kind,
            },
            number,
        )),
        Part::Server => Who::End(end_at(
            EndMark {
                side: Side::Server,
                kind,
            },
            number,
        )),
    }
}
