// A packet is taken, and the message that became whole by it is heard.

ghost use Rattle.std.specs.Prelude.{◌≡◌, ◌≢◌, ◌<◌, ◌≤◌, ℕ, List, None, Some, length, false, OnErr};
ghost use Rattle.ldc_queue.specs.declared.end.ChannelState.TheVariants.{Up};
ghost use Rattle.vio_handshake.specs.Rules.{handshake_take};
ghost use Rattle.vio_handshake.specs.declared.handshake.Phase.TheVariants.{Down};

use crate::answers::ClientOut;
use crate::end::ClientEnd;
use crate::session::OpenSession;
use dring::range_length;
use ldc_link::TakeOut;
use ldc_packet::Subtype;
use ldc_queue::{Channel, End};
use vio_handshake::HsOut;
use vio_tag::{Cause, Message, MsgBody, decode};

impl ClientEnd {
    ghost use Rattle.lane_models.specs.ClientRule.{is_urgent, puts_first, takes_first};
    ghost use Rattle.lane_models.specs.ClientState.{joined_client};
    ghost use Rattle.lane_models.specs.ClientTaking.{HearsWhole, by_handshake, hears_message, takes_ack};
    ghost use Rattle.vdisk_client.specs.Calls.{Steps, rule_of, sees};
    ghost use Rattle.vdisk_client.specs.Hearing.{IsAgreed, MayHear, take_of};
    ghost use Rattle.vdisk_client.specs.Standing.{CountsStand, RequestsStand, Stands};

    /// Takes the packet that has waited longest, or resets for what is wrong with it.
    pub(crate) fn take(&mut self, channel: &mut Channel, out: &mut ClientOut)
        requires up { channel.old.wire.end_a ≡ Up }
        requires waits { 0 < length channel.old.wire.to_a }
        requires rule { rule_of self.old channel.old ≡ takes_first (sees channel.old).first (puts_first self.old) }
        requires calm { is_urgent self.old ≡ false }
        requires stands { Stands self.old }
        ensures step { (memory : List ℕ) → Steps self.old channel.old memory out.new self.new channel.new memory }
    {
        match self.link.take(channel, End::A) {
            TakeOut::Took(packet) => match self.hear() {
                Ok(()) => {
                    *out = ClientOut::Took {
                        packet,
                        opens: false,
                    };
                }
                Err(cause) => self.fail(channel, cause, Some(packet), out),
            },
            TakeOut::Fault { packet, cause } => self.fail(channel, cause, Some(packet), out),
            TakeOut::Nothing => unreachable!(),
        }
    }

    /// Hears the message that is whole, if one is.
    fn hear(&mut self) -> Result<(), Cause>
        requires may { MayHear self.old }
        requires begun { self.old.link.whole ≢ None → self.old.handshake.phase ≢ Down }
        ensures hears { HearsWhole self.old self.old.link.whole (take_of result self.new) }
        ensures refused { OnErr result (joined_client self.new ≡ joined_client self.old) }
    {
        let decoded = match self.link.message() {
            Some(bytes) => decode(bytes),
            None => return Ok(()),
        };
        self.link.clear_message();
        match &decoded {
            Ok(message) => self.hear_message(message),
            Err(fault) => Err(Cause::Tag(*fault)),
        }
    }

    fn hear_message(&mut self, message: &Message) -> Result<(), Cause>
        requires may { MayHear self.old }
        requires begun { self.old.handshake.phase ≢ Down }
        ensures hears { take_of result self.new ≡ hears_message self.old self.old.session message.now }
        ensures refused { OnErr result (joined_client self.new ≡ joined_client self.old) }
    {
        match self.session {
            Some(session) => self.hear_in_session(session, message),
            None => self.hear_handshake(message),
        }
    }

    /// In session the answers to an INFO are the client's own, and all else is the handshake's.
    fn hear_in_session(&mut self, session: OpenSession, message: &Message) -> Result<(), Cause>
        requires agreed { IsAgreed self.old.handshake }
        requires free { self.old.handshake.owed ≡ None }
        requires counts { CountsStand (length self.old.pending) self.old.next_id session }
        requires requests { RequestsStand self.old }
        ensures hears { take_of result self.new ≡ hears_message self.old (Some session) message.now }
        ensures refused { OnErr result (joined_client self.new ≡ joined_client self.old) }
    {
        let agreed = match self.handshake.session() {
            Some(agreed) => agreed,
            None => unreachable!(),
        };
        if message.sid != agreed.sid {
            return Err(Cause::Sid {
                expected: agreed.sid,
                found: message.sid,
            });
        }
        match (message.subtype, &message.body) {
            (
                Subtype::Ack,
                MsgBody::DringData {
                    ident,
                    start,
                    end,
                    ..
                },
            ) => self.hear_ack(session, agreed.ident_own, *ident, *start, *end),
            (Subtype::Nack, MsgBody::DringData { .. }) => Err(Cause::Refused),
            _ => self.hear_handshake(message),
        }
    }

    fn hear_handshake(&mut self, message: &Message) -> Result<(), Cause>
        requires begun { self.old.handshake.phase ≢ Down }
        requires free { self.old.handshake.owed ≡ None }
        ensures hears { take_of result self.new ≡ by_handshake self.old (handshake_take self.old.handshake message.now) }
        ensures refused { OnErr result (self.new ≡ self.old) }
    {
        match self.handshake.take(message) {
            HsOut::Nothing | HsOut::Opens => Ok(()),
            HsOut::Fault(cause) => Err(cause),
        }
    }

    /// An acknowledgement names the client's own ring, begins at the first announced request without one, and goes no
    /// further than what was announced.
    fn hear_ack(
        &mut self,
        session: OpenSession,
        own: u64,
        ident: u64,
        start: u32,
        end: u32,
    ) -> Result<(), Cause>
        requires own { own ≡ self.old.handshake.draft.ident_own }
        requires counts { CountsStand (length self.old.pending) self.old.next_id session }
        requires requests { RequestsStand self.old }
        ensures hears { take_of result self.new ≡ takes_ack self.old session ident start end }
        ensures refused { OnErr result (self.new ≡ self.old) }
    {
        if ident != own {
            return Err(Cause::Ident {
                expected: own,
                found: ident,
            });
        }
        let expected = session.acked_slot(self.slots);
        if start != expected {
            return Err(Cause::Slot {
                expected,
                found: start,
            });
        }
        if end >= self.slots {
            return Err(Cause::RangeEnd { found: end });
        }
        let count = range_length(self.slots, start, end);
        if !session.may_acknowledge(count) {
            return Err(Cause::RangeEnd { found: end });
        }
        self.session = Some(session.acknowledged(count));
        Ok(())
    }
}
