// The ends of a channel, and what they are told.

ghost use Rattle.std.specs.Prelude.{◌≡◌};
ghost use Rattle.ldc_queue.specs.Wire.{peer_of};

/// An end of a channel: the client's is A, which begins the handshake of a link, and the server's is B.
#[derive(Clone, Copy, Debug, PartialEq, Eq)]
pub enum End {
    A,
    B,
}

impl End {
    /// The other end.
    pub fn peer(self) -> End
        ensures { result ≡ peer_of self }
    {
        match self {
            End::A => End::B,
            End::B => End::A,
        }
    }
}

/// The state of an end, as LDC rx get state and LDC tx get state tell it.
#[derive(Clone, Copy, Debug, PartialEq, Eq)]
pub enum ChannelState {
    /// It isn't configured.
    Down,
    /// It is configured.
    Up,
    /// It was configured until the other end was configured again or closed.
    Resetting,
}

/// A queue as an end is told of it: the places in bytes, modulo 64 times the entries, where the next packet is taken and where the
/// next one is put, and the end's state.
#[derive(Clone, Copy, Debug, PartialEq, Eq)]
pub struct QueueState {
    pub head: u32,
    pub tail: u32,
    pub state: ChannelState,
}

/// The end isn't `Up`. This profile's own answer: no status of the hypervisor is claimed for it.
#[derive(Clone, Copy, Debug, PartialEq, Eq)]
pub struct NotUp;

/// Why a packet wasn't put. Both are this profile's own answers.
#[derive(Clone, Copy, Debug, PartialEq, Eq)]
pub enum PutFault {
    /// The end isn't `Up`.
    NotUp,
    /// As many packets wait as the queue holds, one fewer than its entries.
    Full,
}
