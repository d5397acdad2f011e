// What an end offers, and what a session holds.

use map_table::Cookie;
use vio_tag::Cause;

/// What an end offers, and expects of the other end.
#[derive(Clone, Copy, Debug, PartialEq, Eq)]
pub struct Offer {
    /// The highest version is 1 and this.
    pub minor: u16,
    /// What kind of end this is: NETWORK 1, NETWORK_SWITCH 2, DISK 3, DISK_SERVER 4.
    pub class: u8,
    /// Of a disk a `DiskAttr`, whose `blocks` is the disk's number of blocks, at the client too; of a port a
    /// `NetAttr`, whose `address` is the port's.
    pub attr: [u8; 48],
    /// The own ring's number of descriptors.
    pub slots: u32,
    /// The bytes of a descriptor, of the own ring and of the peer's.
    pub slot_size: u32,
    /// How many cookies the own ring has, at most 14.
    pub count: u32,
    /// Those cookies, and none after them.
    pub cookies: [Cookie; 14],
    /// Whether both ends register a ring, as a port's do; of a disk only the client does.
    pub both_rings: bool,
    /// The expected number of descriptors of the peer's ring.
    pub peer_slots: u32,
}

/// What the two ends of an open session agreed on. Where an end has no ring, its ident, slots, count and
/// cookies are zeros.
#[derive(Clone, Copy, Debug, PartialEq, Eq)]
pub struct Session {
    /// The number that each message of the session carries.
    pub sid: u32,
    /// The version is 1 and this, the smaller of both ends'.
    pub minor: u16,
    /// The number by which messages name the own ring; the peer chose it.
    pub ident_own: u64,
    /// The number by which messages name the peer's ring.
    pub ident_peer: u64,
    pub peer_slots: u32,
    pub peer_count: u32,
    pub peer_cookies: [Cookie; 14],
}

impl Session {
    /// The session of which nothing is agreed on yet.
    pub(crate) const NONE: Session = Session {
        sid: 0,
        minor: 0,
        ident_own: 0,
        ident_peer: 0,
        peer_slots: 0,
        peer_count: 0,
        peer_cookies: [Cookie::NONE; 14],
    };
}

/// What came of a message.
#[derive(Clone, Copy, Debug, PartialEq, Eq)]
pub enum HsOut {
    /// The handshake goes on.
    Nothing,
    /// The session opened by it.
    Opens,
    /// It was refused, and the link is to be reset.
    Fault(Cause),
}
