use crate::fields::LaneKind;
use crate::{Fill, Name, Piece, Request};
use thiserror::Error;

/// A disk: its blocks of 512 bytes, 1 to 65,536; the slots of its descriptor ring, a power of two from 2 to 256. The
/// entries of its channel's queues, a power of two from 8 to 256.
#[derive(Clone, Copy, Debug, PartialEq, Eq)]
pub struct DiskDecl {
    pub name: Name,
    pub blocks: u32,
    pub ring: u32,
    pub queue: u32,
}

/// A port on the network: its address, of which the first byte is even; the slots of each of its rings, a power of two
/// from 2 to 64. The entries of its channel's queues, a power of two from 8 to 256.
#[derive(Clone, Copy, Debug, PartialEq, Eq)]
pub struct PortDecl {
    pub name: Name,
    pub address: [u8; 6],
    pub ring: u32,
    pub queue: u32,
}

/// A lane by its kind and its number among the lanes of that kind, in the order of declaration and counted from 0.
#[derive(Clone, Copy, Debug, PartialEq, Eq)]
pub struct Lane {
    pub kind: LaneKind,
    pub number: u32,
}

impl Lane {
    ghost use Rattle.std.specs.Prelude.{◌≡◌};
    ghost use Rattle.domain_script.specs.LaneKinds.{disk_of, number_if, port_of};

    /// The number of a lane that is a disk's.
    pub fn disk(self) -> Option<u32>
        ensures { result ≡ disk_of self }
    {
        match self.kind {
            LaneKind::Disk => Some(self.number),
            _ => None,
        }
    }

    /// The number of a lane that is a port's.
    pub fn port(self) -> Option<u32>
        ensures { result ≡ port_of self }
    {
        match self.kind {
            LaneKind::Port => Some(self.number),
            _ => None,
        }
    }

    /// The number of a lane of this kind.
    pub fn number_if(self, kind: LaneKind) -> Option<u32>
        ensures { result ≡ number_if kind self }
    {
        if kind == self.kind {
            Some(self.number)
        } else {
            None
        }
    }
}

/// The guest's side of a lane, or its service domain's.
#[derive(Clone, Copy, Debug, PartialEq, Eq)]
pub enum Side {
    Client,
    Server,
}

/// An end of a lane: the guest's is written `NAME.c`, that of the service domain `NAME.s`.
#[derive(Clone, Copy, Debug, PartialEq, Eq)]
pub struct EndName {
    pub lane: Lane,
    pub side: Side,
}

/// What a line of a script tells the domains to do.
#[derive(Clone, Copy)]
pub enum Event {
    /// An empty line or a line that begins with `#`.
    Blank,

    /// The declaration of a disk.
    Disk(DiskDecl),

    /// The declaration of a port.
    Net(PortDecl),

    /// A frame is handed to the guest of a port.
    Send { port: u32, frame: Piece },

    /// The guest of a port joins a group: its first byte is odd, and it isn't that of all ports.
    Join { port: u32, address: [u8; 6] },

    /// A guest asks its disk.
    Issue { disk: u32, request: Request },

    /// All that is pending is to complete.
    Settle,

    /// An end takes so many steps.
    Step { end: EndName, count: u32 },

    /// So many rounds: in each the ends take their steps in turn.
    Round { count: u32 },

    /// An end resets its channel.
    Reset { end: EndName },

    /// A disk's server begins anew.
    Restart { end: EndName },

    /// A disk's server stops.
    Stop { disk: u32 },

    /// A disk's server goes on.
    Start { disk: u32 },

    /// The first packet that waits for an end is lost.
    Lose { end: EndName },

    /// The clock of a lane moves on.
    Tick { lane: Lane },

    /// A packet waits for an end as if its peer had put it.
    Inject { end: EndName, packet: [u8; 64] },

    /// These bytes come into the memory of an end, from a place on.
    Poke { end: EndName, at: u64, bytes: Fill },
}

/// Why a line spells no event: the first of these that holds, in this order. A dump answers `Hex` alone, for a line that
/// isn't 128 digits.
#[derive(Clone, Copy, Debug, PartialEq, Eq, Error)]
pub enum LineFault {
    /// A byte is outside of the space to the tilde.
    #[error("byte")]
    Byte,

    /// A space stands first or last, or two stand together, and the line is no comment.
    #[error("space")]
    Space,

    /// The first word is none of the table.
    #[error("word")]
    Word,

    /// The line has another number of words than its first word asks for.
    #[error("words")]
    Words,

    /// The name that a declaration gives isn't spelled as a name.
    #[error("name")]
    Name,

    /// A declaration stands after a line that is neither blank nor a declaration.
    #[error("place")]
    Place,

    /// The name, or a port's address, was declared before.
    #[error("taken")]
    Taken,

    /// A name or an end isn't declared, or isn't of the kind that the line needs.
    #[error("unknown")]
    Unknown,

    /// A number isn't spelled as one.
    #[error("number")]
    Number,

    /// A number of a declaration, of steps or of rounds is outside of its limits, or an address is of the wrong kind.
    #[error("range")]
    Range,

    /// A word of hexadecimal digits isn't one, or has another length than it may have.
    #[error("hex")]
    Hex,

    /// Eight of the kind are declared already.
    #[error("many")]
    Many,
}
