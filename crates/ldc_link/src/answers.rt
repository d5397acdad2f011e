use vio_tag::Cause;

/// What a link did when it was to put a packet.
#[derive(Clone, Copy, Debug, PartialEq, Eq)]
pub enum SendOut {
    /// It owes none.
    Nothing,
    /// The queue is full.
    Blocked,
    /// It put this one.
    Sent([u8; 64]),
}

/// What a link did when it was to take a packet.
#[derive(Clone, Copy, Debug, PartialEq, Eq)]
pub enum TakeOut {
    /// None waits.
    Nothing,
    /// It took this one.
    Took([u8; 64]),
    /// This one has left the queue, and the link is as it was. The caller resets.
    Fault { packet: [u8; 64], cause: Cause },
}

/// A message is offered that isn't wholly put.
#[derive(Clone, Copy, Debug, PartialEq, Eq)]
pub struct Busy;
