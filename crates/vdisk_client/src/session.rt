// The counts of an open session.

ghost use Rattle.std.specs.Prelude.{◌≡◌, ◌≢◌, ◌+◌, ◌-◌, ◌%◌, ◌^◌, ◌<◌, ◌≤◌, nat_le, nat_lt, true, false};
ghost use Rattle.lane_models.specs.Ranges.{wrapped};
ghost use Rattle.lane_models.specs.ClientState.{opened_session};

use dring::slot_of;
use std::marker::Model;

/// The requests of an open session by counts, from the id `base` on: the id `base + j` has the number j, and stands in
/// slot j modulo the ring's slots.
#[derive(Clone, Copy)]
pub(crate) struct OpenSession {
    base: u64,
    published: u64,
    /// Those named by an INFO that was put whole.
    announced: u64,
    /// Those named by an ACK that was taken.
    acked: u64,
    completed: u64,
    /// How many INFO were put.
    infos: u64,
    /// The link holds another.
    announcing: bool,
}

impl Model for OpenSession {
    ghost use Rattle.lane_models.specs.ClientState.{ClientSession};

    ghost Value = { ClientSession };

    ghost view = { λ s. record {
      base = s.base;
      published = s.published;
      announced = s.announced;
      acked = s.acked;
      completed = s.completed;
      infos = s.infos;
      announcing = s.announcing;
    } };

    ghost inverse = { λ s. record {
      base = s.base;
      published = s.published;
      announced = s.announced;
      acked = s.acked;
      completed = s.completed;
      infos = s.infos;
      announcing = s.announcing;
    } };
}

impl OpenSession {
    /// A session in which nothing is published.
    pub(crate) fn new(base: u64) -> OpenSession
        ensures { result ≡ opened_session base }
    {
        OpenSession {
            base,
            published: 0,
            announced: 0,
            acked: 0,
            completed: 0,
            infos: 0,
            announcing: false,
        }
    }

    /// An acknowledged request isn't done.
    pub(crate) fn has_acknowledged(&self) -> bool
        ensures { result ≡ nat_lt self.now.completed self.now.acked }
    {
        self.completed < self.acked
    }

    /// A published request isn't announced.
    pub(crate) fn has_unannounced(&self) -> bool
        ensures { result ≡ nat_lt self.now.announced self.now.published }
    {
        self.announced < self.published
    }

    pub(crate) fn is_announcing(&self) -> bool
        ensures { result ≡ self.now.announcing }
    {
        self.announcing
    }

    /// How many of the pending requests are published.
    pub(crate) fn published_pending(&self) -> u64
        requires { self.now.completed ≤ self.now.published }
        ensures { result ≡ self.now.published - self.now.completed }
    {
        self.published - self.completed
    }

    /// The id of the first request that isn't done, and of the first that isn't published.
    pub(crate) fn first_id(&self) -> u64
        requires { self.now.base + self.now.completed < 2 ^ 64 }
        ensures { result ≡ self.now.base + self.now.completed }
    {
        self.base + self.completed
    }

    pub(crate) fn next_id(&self) -> u64
        requires { self.now.base + self.now.published < 2 ^ 64 }
        ensures { result ≡ self.now.base + self.now.published }
    {
        self.base + self.published
    }

    /// The slots of the first request that isn't done, the first without an acknowledgement, the first and the last of
    /// those that aren't announced, and the first that isn't published.
    pub(crate) fn completed_slot(&self, slots: u32) -> u32
        requires { slots ≢ 0 }
        ensures slot { result ≡ self.now.completed % slots }
        ensures within { result < slots }
    {
        slot_of(self.completed, 0, slots)
    }

    pub(crate) fn acked_slot(&self, slots: u32) -> u32
        requires { slots ≢ 0 }
        ensures slot { result ≡ self.now.acked % slots }
        ensures within { result < slots }
    {
        slot_of(self.acked, 0, slots)
    }

    pub(crate) fn announced_slot(&self, slots: u32) -> u32
        requires { slots ≢ 0 }
        ensures slot { result ≡ self.now.announced % slots }
        ensures within { result < slots }
    {
        slot_of(self.announced, 0, slots)
    }

    pub(crate) fn last_published_slot(&self, slots: u32) -> u32
        requires slots { slots ≢ 0 }
        requires some { self.now.announced < self.now.published }
        ensures slot { result ≡ (self.now.published - 1) % slots }
        ensures within { result < slots }
    {
        slot_of(self.published - 1, 0, slots)
    }

    pub(crate) fn published_slot(&self, slots: u32) -> u32
        requires { slots ≢ 0 }
        ensures slot { result ≡ self.now.published % slots }
        ensures within { result < slots }
    {
        slot_of(self.published, 0, slots)
    }

    /// The number of the next INFO, from 1 on.
    pub(crate) fn next_info(&self) -> u64
        ensures { result ≡ wrapped (self.now.infos + 1) }
    {
        self.infos.wrapping_add(1)
    }

    /// Whether so many more may be acknowledged: all of them are announced.
    pub(crate) fn may_acknowledge(&self, count: u32) -> bool
        requires { self.now.acked ≤ self.now.announced }
        ensures { result ≡ nat_le (self.now.acked + count) self.now.announced }
    {
        count as u64 <= self.announced - self.acked
    }

    /// So many more are acknowledged.
    pub(crate) fn acknowledged(self, count: u32) -> OpenSession
        requires { self.acked + count < 2 ^ 64 }
        ensures { result ≡ record self { acked = self.acked + count } }
    {
        OpenSession {
            acked: self.acked + count as u64,
            ..self
        }
    }

    /// One more is done.
    pub(crate) fn completed_one(self) -> OpenSession
        requires { self.completed < 2 ^ 64 - 1 }
        ensures { result ≡ record self { completed = self.completed + 1 } }
    {
        OpenSession {
            completed: self.completed + 1,
            ..self
        }
    }

    /// One more is published.
    pub(crate) fn published_one(self) -> OpenSession
        requires { self.published < 2 ^ 64 - 1 }
        ensures { result ≡ record self { published = self.published + 1 } }
    {
        OpenSession {
            published: self.published + 1,
            ..self
        }
    }

    /// The link holds the INFO that announces all that are published.
    pub(crate) fn with_info(self) -> OpenSession
        ensures { result ≡ record self { announcing = true } }
    {
        OpenSession {
            announcing: true,
            ..self
        }
    }

    /// That INFO was put whole.
    pub(crate) fn announced_all(self) -> OpenSession
        requires { self.infos < 2 ^ 64 - 1 }
        ensures { result ≡ record self { announced = self.published; infos = self.infos + 1; announcing = false } }
    {
        OpenSession {
            announced: self.published,
            infos: self.infos + 1,
            announcing: false,
            ..self
        }
    }
}
