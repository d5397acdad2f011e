/// Why a copy was refused, in the order in which it is looked for. A copy that is refused moves no byte.
#[derive(Clone, Copy, Debug, PartialEq, Eq)]
pub enum CopyFault {
    /// One of the channel's two ends isn't `Up`. This profile's own answer.
    Channel,
    /// The offset, the length, or the address or size of a cookie isn't a multiple of 8: EBADALIGN 8.
    BadAlign,
    /// The cookies hold fewer bytes than offset and length together: EINVAL 6.
    Short,
    /// A byte that is moved has an address of 2^60 or more. This profile's own answer.
    BadPage,
    /// The entry of such a byte isn't granted: ENOMAP 14.
    NoMap,
    /// The entry lacks the right: ENOACCESS 10.
    NoAccess,
}

/// What a copy does with the pages of the other domain: copying in reads, copying out writes.
#[derive(Clone, Copy, Debug, PartialEq, Eq)]
pub enum Access {
    Read,
    Write,
}
