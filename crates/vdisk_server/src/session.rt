// The session of a server: what its client announced, and how far that is done.

ghost use Rattle.std.specs.Prelude.{◌≡◌, ◌<◌};
ghost use Rattle.dring.specs.Slots.{range_length};
ghost use Rattle.lane_models.specs.ServerState.{opened_server};

use dring::range_length;
use std::marker::Model;

/// A range of slots, from `start` to `end` around the ring, as an INFO named it.
#[derive(Clone, Copy)]
pub(crate) struct SlotRange {
    pub seq: u64,
    pub start: u32,
    pub end: u32,
    pub state: u8,
}

impl Model for SlotRange {
    ghost use Rattle.lane_models.specs.ServerState.{SlotRange as Range};

    ghost Value = { Range };

    ghost view = { λ r. record { seq = r.seq; start = r.start; end = r.end; state = r.state } };

    ghost inverse = { λ r. record { seq = r.seq; start = r.start; end = r.end; state = r.state } };
}

/// Counts of descriptors, modulo 2^64. Number j stands in slot j modulo the ring.
#[derive(Clone, Copy)]
pub(crate) struct RingSession {
    /// Those that the client announced.
    pub asked: u64,
    pub fetched: u64,
    pub finished: u64,
    /// Those whose range was answered.
    pub answered: u64,
    /// The number of the next INFO.
    pub seq: u64,
    /// The range that isn't answered yet.
    pub range: Option<SlotRange>,
}

impl Model for RingSession {
    ghost use Rattle.lane_models.specs.ServerState.{ServerSession};

    ghost Value = { ServerSession };

    ghost view = { λ s. record { asked = s.asked; descs = s.fetched; finished = s.finished; answered = s.answered; seq = s.seq; range = s.range } };

    ghost inverse = { λ s. record { asked = s.asked; fetched = s.descs; finished = s.finished; answered = s.answered; seq = s.seq; range = s.range } };
}

impl RingSession {
    /// A session in which nothing was announced.
    pub fn new() -> RingSession
        ensures { result ≡ opened_server }
    {
        RingSession {
            asked: 0,
            fetched: 0,
            finished: 0,
            answered: 0,
            seq: 1,
            range: None,
        }
    }
}

impl SlotRange {
    /// The number of its slots, in a ring of so many.
    pub fn count(&self, slots: u32) -> u64
        requires some { 0 < slots }
        ensures { result ≡ range_length slots self.now.start self.now.end }
    {
        range_length(slots, self.start, self.end) as u64
    }
}
