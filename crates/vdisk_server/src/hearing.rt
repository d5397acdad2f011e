// What a server makes of a message that became whole.

ghost use Rattle.std.specs.Prelude.{◌≡◌, ◌≢◌, ◌%◌, ◌<◌, ◌≤◌, false, None, Some, MatchResult, OnErr};
ghost use Rattle.ldc_link.specs.LinkState.{cleared};
ghost use Rattle.ldc_link.specs.declared.phase.Role.TheVariants.{Responder};
ghost use Rattle.vio_handshake.specs.Rules.{handshake_take};
ghost use Rattle.vio_handshake.specs.declared.handshake.Phase.TheVariants.{Down, Open};
ghost use Rattle.lane_models.specs.ServerTaking.{GoesOn, HearsWhole, Resets, asked, by_handshake, hears_message, reads, takes_info};
ghost use Rattle.lane_models.specs.ServerState.{joined_server};
ghost use Rattle.vdisk_server.specs.Answering.{SameDisk};
ghost use Rattle.vdisk_server.specs.Hearing.{CanHear, CanHearWhole, risen, took};
ghost use Rattle.vdisk_server.specs.Standing.{Stands};

use crate::end::ServerEnd;
use crate::session::{RingSession, SlotRange};
use ldc_packet::Subtype;
use vio_handshake::HsOut;
use vio_tag::{Cause, Message, MsgBody, TagFault, decode};

impl ServerEnd {
    /// A packet was taken: the handshake begins where the link came up by it, and a message that became whole is heard. Tells whether
    /// the session opened by it, or why the end is to be reset.
    pub fn hear(&mut self, was_up: bool) -> Result<bool, Cause>
        requires role { self.old.handshake.role ≡ Responder }
        requires hears { CanHearWhole self.old.link.whole (risen was_up self.old) }
        ensures heard { HearsWhole (risen was_up self.old) self.old.link.whole (took result self.new) }
        ensures kept { OnErr result (joined_server self.new ≡ joined_server self.old) }
        ensures disk { SameDisk self.old self.new }
    {
        self.rise(was_up);
        let Some(bytes) = self.link.message() else {
            return Ok(false);
        };
        let decoded = decode(bytes);
        self.link.clear_message();
        self.hear_decoded(&decoded)
    }

    fn rise(&mut self, was_up: bool)
        ensures { self.new ≡ risen was_up self.old }
    {
        if self.link.is_up() && !was_up {
            self.handshake.link_up();
        }
    }

    fn hear_decoded(&mut self, decoded: &Result<Message, TagFault>) -> Result<bool, Cause>
        requires { CanHear self.old }
        ensures heard { took result self.new ≡ reads self.old decoded.now }
        ensures kept { OnErr result (self.new ≡ self.old) }
        ensures disk { SameDisk self.old self.new }
    {
        match decoded {
            Ok(message) => self.hear_message(message),
            Err(fault) => Err(Cause::Tag(*fault)),
        }
    }

    // In session an INFO of a range is the server's own, and all else is the handshake's.
    fn hear_message(&mut self, message: &Message) -> Result<bool, Cause>
        requires { CanHear self.old }
        ensures heard { took result self.new ≡ hears_message self.old self.old.session message.now }
        ensures kept { OnErr result (self.new ≡ self.old) }
        ensures disk { SameDisk self.old self.new }
    {
        let Some(session) = self.session else {
            return self.take_handshake(message);
        };
        match (message.subtype, &message.body) {
            (
                Subtype::Info,
                MsgBody::DringData {
                    seq,
                    ident,
                    start,
                    end,
                    state,
                },
            ) => {
                self.check_sid(message.sid)?;
                let range = SlotRange {
                    seq: *seq,
                    start: *start,
                    end: *end,
                    state: *state,
                };
                self.take_info(session, *ident, range)
            }
            _ => self.take_handshake(message),
        }
    }

    fn take_handshake(&mut self, message: &Message) -> Result<bool, Cause>
        requires began { self.old.handshake.phase ≢ Down }
        requires free { self.old.handshake.owed ≡ None }
        ensures heard { took result self.new ≡ by_handshake self.old (handshake_take self.old.handshake message.now) }
        ensures kept { OnErr result (self.new ≡ self.old) }
        ensures disk { SameDisk self.old self.new }
    {
        match self.handshake.take(message) {
            HsOut::Nothing => Ok(false),
            HsOut::Opens => {
                self.session = Some(RingSession::new());
                Ok(true)
            }
            HsOut::Fault(cause) => Err(cause),
        }
    }

    // Each message of a session has its number.
    fn check_sid(&self, found: u32) -> Result<(), Cause>
        requires open { self.now.handshake.phase ≡ Open }
        ensures { MatchResult result (λ _. self.now.handshake.draft.sid ≡ found) (λ cause. (self.now.handshake.draft.sid ≢ found) × (cause ≡ Cause.Sid self.now.handshake.draft.sid found)) }
    {
        let expected = self.agreed().sid;
        if expected != found {
            return Err(Cause::Sid { expected, found });
        }
        Ok(())
    }

    // An INFO names the client's ring, has the next number, begins at the server's place, and ends within the ring.
    fn take_info(
        &mut self,
        session: RingSession,
        ident: u64,
        range: SlotRange,
    ) -> Result<bool, Cause>
        requires open { self.old.handshake.phase ≡ Open }
        requires some { 0 < self.old.handshake.draft.peer_slots }
        requires session { self.old.session ≡ Some session }
        ensures heard { took result self.new ≡ takes_info self.old session ident range }
        ensures kept { OnErr result (self.new ≡ self.old) }
        ensures disk { SameDisk self.old self.new }
    {
        let slots = self.peer_slots();
        self.check_info(session, ident, range)?;
        self.session = Some(RingSession {
            asked: session.asked.wrapping_add(range.count(slots)),
            seq: session.seq.wrapping_add(1),
            range: Some(range),
            ..session
        });
        Ok(false)
    }

    fn check_info(&self, session: RingSession, ident: u64, range: SlotRange) -> Result<(), Cause>
        requires open { self.now.handshake.phase ≡ Open }
        requires some { 0 < self.now.handshake.draft.peer_slots }
        ensures { MatchResult result (λ _. takes_info self.now session ident range ≡ GoesOn (asked self.now session range) false) (λ cause. takes_info self.now session ident range ≡ Resets cause) }
    {
        let agreed = self.agreed();
        if agreed.ident_peer != ident {
            return Err(Cause::Ident {
                expected: agreed.ident_peer,
                found: ident,
            });
        }
        if session.seq != range.seq {
            return Err(Cause::Seq {
                expected: session.seq,
                found: range.seq,
            });
        }
        let place = self.slot_at(session.asked);
        if place != range.start {
            return Err(Cause::Slot {
                expected: place,
                found: range.start,
            });
        }
        if range.end >= agreed.peer_slots {
            return Err(Cause::RangeEnd { found: range.end });
        }
        Ok(())
    }
}
