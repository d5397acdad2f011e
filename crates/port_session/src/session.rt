// An open session.

ghost use Rattle.std.specs.Prelude.{◌≡◌, ◌≢◌, ◌+◌, ◌-◌, ◌%◌, ◌^◌, ◌<◌, ◌≤◌, ◌&&◌, not, nat_le, nat_lt, true, false, None, Some};
ghost use Rattle.lane_models.specs.Ranges.{wrapped};
ghost use Rattle.lane_models.specs.NetEndStep.{published};
ghost use Rattle.lane_models.specs.NetEndTaking.{active, replying};
ghost use Rattle.lane_models.specs.NetEndState.{opened_session, unseen_in};

use dring::slot_of;
use ldc_packet::Subtype;
use std::marker::Model;

/// The peer's ring is active: the number and the first slot that its INFO named, and the last slot that was taken
/// since, if one was.
#[derive(Clone, Copy)]
pub struct RingActivity {
    pub seq: u64,
    pub start: u32,
    pub last: Option<u32>,
}

impl Model for RingActivity {
    ghost use Rattle.lane_models.specs.NetEndState.{Activity};

    ghost Value = { Activity };

    ghost view = { λ a. record { seq = a.seq; start = a.start; last = a.last } };

    ghost inverse = { λ a. record { seq = a.seq; start = a.start; last = a.last } };
}

/// The answer to an MCAST_INFO that the switch's end took: the same fields, and whether it agrees.
#[derive(Clone, Copy)]
pub struct MembershipReply {
    pub subtype: Subtype,
    pub set: u8,
    pub count: u8,
    pub addresses: [[u8; 6]; 7],
}

impl Model for MembershipReply {
    ghost use Rattle.lane_models.specs.NetEndState.{GroupsReply};

    ghost Value = { GroupsReply };

    ghost view = { λ r. record { subtype = r.subtype; set = r.set; count = r.count; addresses = r.addresses } };

    ghost inverse = { λ r. record { subtype = r.subtype; set = r.set; count = r.count; addresses = r.addresses } };
}

/// A session. A flag or a count of what the end says changes as the message is formed, also where the link can't put
/// it yet.
#[derive(Clone, Copy)]
pub struct PortSession {
    /// Its own ring: frame number j of the session has the id `base + j`, and stands in slot j modulo the ring.
    pub base: u64,
    pub published: u64,
    /// Those that an ACK named which it took.
    pub seen: u64,
    /// How many INFO it said.
    pub infos: u64,
    /// One of them is unanswered.
    pub asking: bool,
    /// The peer's ring: the slot of the next frame.
    pub place: u32,
    /// The number of the next INFO.
    pub seq: u64,
    /// The INFO that it took and didn't answer.
    pub active: Option<RingActivity>,
    /// A guest's list of groups isn't told as it is.
    pub untold: bool,
    /// An MCAST_INFO is unanswered.
    pub telling: bool,
    /// A switch's end owes an answer to one.
    pub reply: Option<MembershipReply>,
}

impl Model for PortSession {
    ghost use Rattle.lane_models.specs.NetEndState.{NetSession};

    ghost Value = { NetSession };

    ghost view = { λ s. record {
      base = s.base;
      published = s.published;
      seen = s.seen;
      infos = s.infos;
      asking = s.asking;
      place = s.place;
      seq = s.seq;
      active = s.active;
      untold = s.untold;
      telling = s.telling;
      reply = s.reply;
    } };

    ghost inverse = { λ s. record {
      base = s.base;
      published = s.published;
      seen = s.seen;
      infos = s.infos;
      asking = s.asking;
      place = s.place;
      seq = s.seq;
      active = s.active;
      untold = s.untold;
      telling = s.telling;
      reply = s.reply;
    } };
}

impl PortSession {
    /// A session with nothing published, taken or told.
    pub fn new(base: u64) -> PortSession
        ensures { result ≡ opened_session base }
    {
        PortSession {
            base,
            published: 0,
            seen: 0,
            infos: 0,
            asking: false,
            place: 0,
            seq: 1,
            active: None,
            untold: true,
            telling: false,
            reply: None,
        }
    }

    /// How many frames are published and not acknowledged.
    pub fn unseen(&self) -> u64
        requires { self.now.seen ≤ self.now.published }
        ensures { result ≡ unseen_in self.now }
    {
        self.published - self.seen
    }

    /// The id of the first frame that isn't published.
    pub fn next_id(&self) -> u64
        requires { self.now.base + self.now.published < 2 ^ 64 }
        ensures { result ≡ self.now.base + self.now.published }
    {
        self.base + self.published
    }

    /// The slots of the first frame that isn't published, and of the first that isn't acknowledged.
    pub fn published_slot(&self, slots: u32) -> u32
        requires { slots ≢ 0 }
        ensures slot { result ≡ self.now.published % slots }
        ensures within { result < slots }
    {
        slot_of(self.published, 0, slots)
    }

    pub fn seen_slot(&self, slots: u32) -> u32
        requires { slots ≢ 0 }
        ensures slot { result ≡ self.now.seen % slots }
        ensures within { result < slots }
    {
        slot_of(self.seen, 0, slots)
    }

    /// The number of the next INFO, from 1 on.
    pub fn next_info(&self) -> u64
        ensures { result ≡ wrapped (self.now.infos + 1) }
    {
        self.infos.wrapping_add(1)
    }

    /// The list isn't told as it is, and no MCAST_INFO is unanswered.
    pub fn is_to_tell(&self) -> bool
        ensures { result ≡ (self.now.untold && not self.now.telling) }
    {
        self.untold && !self.telling
    }

    /// The list is told as it is, and no MCAST_INFO is unanswered.
    pub fn has_told(&self) -> bool
        ensures { result ≡ (not self.now.untold && not self.now.telling) }
    {
        !self.untold && !self.telling
    }

    /// Published frames aren't acknowledged, and no INFO is unanswered.
    pub fn is_to_announce(&self) -> bool
        ensures { result ≡ (nat_lt self.now.seen self.now.published && not self.now.asking) }
    {
        self.seen < self.published && !self.asking
    }

    /// One more frame is published.
    pub fn note_published(&mut self)
        requires { self.old.published < 2 ^ 64 - 1 }
        ensures { self.new ≡ published self.old }
    {
        self.published += 1;
    }

    /// An INFO was formed.
    pub fn note_announced(&mut self)
        requires { self.old.infos < 2 ^ 64 - 1 }
        ensures { self.new ≡ record self.old { infos = self.old.infos + 1; asking = true } }
    {
        self.infos += 1;
        self.asking = true;
    }

    /// An MCAST_INFO was formed.
    pub fn note_told(&mut self)
        ensures { self.new ≡ record self.old { untold = false; telling = true } }
    {
        self.untold = false;
        self.telling = true;
    }

    /// The answer to an MCAST_INFO was formed.
    pub fn note_replied(&mut self)
        ensures { self.new ≡ record self.old { reply = None } }
    {
        self.reply = None;
    }

    /// The frame of the next slot of the peer's ring, of so many slots, was taken.
    pub fn note_taken(&mut self, activity: RingActivity, slots: u32)
        requires slots { slots ≤ 64 }
        requires slot { self.old.place < slots }
        ensures { self.new ≡ record self.old {
          place = (self.old.place + 1) % slots;
          active = Some (record activity { last = Some self.old.place });
        } }
    {
        self.active = Some(RingActivity {
            last: Some(self.place),
            ..activity
        });
        self.place = (self.place + 1) % slots;
    }

    /// The peer's ring is active from this INFO on.
    pub fn note_activated(&mut self, seq: u64, start: u32)
        ensures { self.new ≡ active self.old seq start }
    {
        self.seq = self.seq.wrapping_add(1);
        self.active = Some(RingActivity {
            seq,
            start,
            last: None,
        });
    }

    /// Whether so many more frames may be acknowledged: all of them are published.
    pub fn may_acknowledge(&self, count: u32) -> bool
        requires { self.now.seen ≤ self.now.published }
        ensures { result ≡ nat_le (self.now.seen + count) self.now.published }
    {
        count as u64 <= self.published - self.seen
    }

    /// So many more frames are acknowledged, and no INFO is unanswered.
    pub fn note_acknowledged(&mut self, count: u32)
        requires { self.old.seen + count < 2 ^ 64 }
        ensures { self.new ≡ record self.old { seen = self.old.seen + count; asking = false } }
    {
        self.seen += count as u64;
        self.asking = false;
    }

    /// The answer to an MCAST_INFO is owed.
    pub fn note_groups(&mut self, reply: MembershipReply)
        ensures { self.new ≡ replying reply self.old }
    {
        self.reply = Some(reply);
    }

    /// The guest's MCAST_INFO was answered.
    pub fn note_agreed(&mut self)
        ensures { self.new ≡ record self.old { telling = false } }
    {
        self.telling = false;
    }

    /// The answer to the peer's INFO was formed: its ring isn't active.
    pub fn note_answered(&mut self)
        ensures { self.new ≡ record self.old { active = None } }
    {
        self.active = None;
    }

    /// The list of groups isn't told as it is.
    pub fn note_untold(&mut self)
        ensures { self.new ≡ record self.old { untold = true } }
    {
        self.untold = true;
    }
}
