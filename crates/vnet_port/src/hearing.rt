// A packet is taken, and the message that became whole by it is heard.

ghost use Rattle.std.specs.Prelude.{◌≡◌, ◌≢◌, ℕ, ◌+◌, ◌<◌, ◌≤◌, List, [], length, None, Some, false, IsOk, OnErr};
ghost use Rattle.ldc_queue.specs.Wire.{state_of, waiting_for};
ghost use Rattle.ldc_queue.specs.declared.end.ChannelState.TheVariants.{Up};
ghost use Rattle.ldc_link.specs.Putting.{owes_control};
ghost use Rattle.vio_handshake.specs.Rules.{handshake_take};
ghost use Rattle.vio_handshake.specs.declared.handshake.Phase.TheVariants.{Down, Open};
ghost use Rattle.lane_models.specs.Groups.{groups_after};
ghost use Rattle.lane_models.specs.NetEndState.{NetEndState, NetSession};
ghost use Rattle.lane_models.specs.NetEndTaking.{refused};
ghost use Rattle.vnet_port.specs.Hearing.{take_of};
ghost use Rattle.port_frames.specs.Memories.{HoldsRing};

use crate::net_out::NetOut;
use crate::port_end::PortEnd;
use dom_memory::Memory;
use dring::range_length;
use ldc_link::{Role, TakeOut};
use ldc_packet::Subtype;
use ldc_queue::Channel;
use port_frames::{first_undone, free_slots};
use port_session::{MembershipReply, groups_after};
use vio_handshake::HsOut;
use vio_tag::{Cause, Message, MsgBody, TagFault, decode};

/// An INFO of a port that names no last slot.
const NO_END: u32 = 0xffffffff;

impl PortEnd {
    ghost use Rattle.lane_models.specs.FramesStand.{FramesStand};
    ghost use Rattle.vnet_port.specs.Memberships.{SetsGroups};
    ghost use Rattle.lane_models.specs.NetEndRule.{Takes};
    ghost use Rattle.lane_models.specs.NetEndTaking.{GoesOn, HearsWhole, by_handshake, hears_message, in_session, opens_by_take, reads, takes_ack, takes_groups, takes_info, takes_range, told};
    ghost use Rattle.vnet_port.specs.Calls.{end_of, role_of};
    ghost use Rattle.vnet_port.specs.Hearing.{MayHear, MayHearWhole, looked_at, rose};
    ghost use Rattle.vnet_port.specs.Standing.{IsSized, Stands};
    ghost use Rattle.vnet_port.specs.Stepping.{StepsAlone, rule_of, sees};

    /// Takes the packet that has waited longest, or resets for what is wrong with it.
    pub(crate) fn take(&mut self, channel: &mut Channel, memory: &mut Memory, out: &mut NetOut)
        requires up { state_of (end_of self.old) channel.old.wire ≡ Up }
        requires waits { waiting_for (end_of self.old) channel.old.wire ≢ [] }
        requires rule { (packet : List ℕ) → (sees self.old channel.old).first ≡ Some packet → rule_of self.old channel.old ≡ Takes packet }
        requires calm { owes_control self.old.link ≡ false }
        requires free { self.old.handshake.owed ≡ None }
        requires stands { Stands self.old }
        requires room { HoldsRing self.old.slots memory.old }
        ensures step { StepsAlone self.old channel.old memory.old out.new self.new channel.new memory.new }
        ensures same_length { length memory.new ≡ length memory.old }
    {
        let end = self.end();
        let was_up = self.link.is_up();
        match self.link.take(channel, end) {
            TakeOut::Took(packet) => match self.hear(was_up, memory) {
                Ok(opens) => *out = NetOut::Took { packet, opens },
                Err(cause) => self.fail(channel, cause, Some(packet), out),
            },
            TakeOut::Fault { packet, cause } => self.fail(channel, cause, Some(packet), out),
            TakeOut::Nothing => unreachable!(),
        }
    }

    /// A packet was taken: the handshake of the switch's end begins where its link came up by it, and a message that
    /// became whole is heard. Tells whether the session opened by it, or why the end is to be reset.
    fn hear(&mut self, was_up: bool, memory: &mut Memory) -> Result<bool, Cause>
        requires may { MayHearWhole self.old.link.whole (rose (role_of self.old) was_up self.old) }
        requires room { HoldsRing self.old.slots memory.old }
        ensures heard { HearsWhole (role_of self.old) (rose (role_of self.old) was_up self.old) memory.old self.old.link.whole (take_of result self.new memory.new) }
        ensures kept { OnErr result ((self.new ≡ looked_at (rose (role_of self.old) was_up self.old)) × (memory.new ≡ memory.old)) }
        ensures same_length { length memory.new ≡ length memory.old }
    {
        self.rise(was_up);
        let Some(bytes) = self.link.message() else {
            return Ok(false);
        };
        let decoded = decode(bytes);
        self.link.clear_message();
        self.hear_decoded(&decoded, memory)
    }

    fn rise(&mut self, was_up: bool)
        ensures { self.new ≡ rose (role_of self.old) was_up self.old }
    {
        if self.role == Role::Responder && self.link.is_up() && !was_up {
            self.handshake.link_up();
        }
    }

    fn hear_decoded(
        &mut self,
        decoded: &Result<Message, TagFault>,
        memory: &mut Memory,
    ) -> Result<bool, Cause>
        requires may { MayHear self.old }
        requires room { HoldsRing self.old.slots memory.old }
        ensures heard { take_of result self.new memory.new ≡ reads (role_of self.old) self.old memory.old decoded.now }
        ensures kept { OnErr result ((self.new ≡ self.old) × (memory.new ≡ memory.old)) }
        ensures same_length { length memory.new ≡ length memory.old }
    {
        match decoded {
            Ok(message) => self.hear_message(message, memory),
            Err(fault) => Err(Cause::Tag(*fault)),
        }
    }

    fn hear_message(&mut self, message: &Message, memory: &mut Memory) -> Result<bool, Cause>
        requires may { MayHear self.old }
        requires room { HoldsRing self.old.slots memory.old }
        ensures heard { take_of result self.new memory.new ≡ hears_message (role_of self.old) self.old memory.old self.old.session message.now }
        ensures kept { OnErr result ((self.new ≡ self.old) × (memory.new ≡ memory.old)) }
        ensures same_length { length memory.new ≡ length memory.old }
    {
        match &self.session {
            Some(_) => self.hear_in_session(message, memory),
            None => self.hear_handshake(message, memory),
        }
    }

    /// In session, rings and groups are the end's own, and all else is the handshake's.
    fn hear_in_session(&mut self, message: &Message, memory: &mut Memory) -> Result<bool, Cause>
        requires may { MayHear self.old }
        requires open { self.old.session ≢ None }
        requires room { HoldsRing self.old.slots memory.old }
        ensures heard { (session : NetSession) → self.old.session ≡ Some session
            → take_of result self.new memory.new ≡ hears_message (role_of self.old) self.old memory.old (Some session) message.now }
        ensures kept { OnErr result ((self.new ≡ self.old) × (memory.new ≡ memory.old)) }
        ensures same_length { length memory.new ≡ length memory.old }
    {
        let expected = self.agreed().sid;
        if message.sid != expected {
            return Err(Cause::Sid {
                expected,
                found: message.sid,
            });
        }
        self.hear_own(message, memory)
    }

    /// Rings and groups are the end's own, and all else is the handshake's.
    fn hear_own(&mut self, message: &Message, memory: &mut Memory) -> Result<bool, Cause>
        requires may { MayHear self.old }
        requires open { self.old.session ≢ None }
        requires room { HoldsRing self.old.slots memory.old }
        ensures heard { (session : NetSession) → self.old.session ≡ Some session
            → take_of result self.new memory.new ≡ in_session (role_of self.old) self.old session memory.old message.now message.now.subtype message.now.body }
        ensures kept { OnErr result ((self.new ≡ self.old) × (memory.new ≡ memory.old)) }
        ensures same_length { length memory.new ≡ length memory.old }
    {
        match (self.role, message.subtype, &message.body) {
            (
                _,
                Subtype::Info,
                MsgBody::DringData {
                    seq,
                    ident,
                    start,
                    end,
                    ..
                },
            ) => self.hear_info(*seq, *ident, *start, *end),
            (
                _,
                Subtype::Ack,
                MsgBody::DringData {
                    ident,
                    start,
                    end,
                    ..
                },
            ) => self.hear_ack(*ident, *start, *end, memory),
            (_, Subtype::Nack, MsgBody::DringData { .. }) => Err(Cause::Refused),
            (
                Role::Responder,
                Subtype::Info,
                MsgBody::Mcast {
                    set,
                    count,
                    addresses,
                },
            ) => self.hear_groups(*set, *count, addresses),
            (Role::Initiator, Subtype::Ack, MsgBody::Mcast { .. }) => self.hear_told(),
            (Role::Initiator, Subtype::Nack, MsgBody::Mcast { .. }) => self.refuse(),
            _ => self.hear_handshake(message, memory),
        }
    }

    /// Groups that a guest names: the list is kept or refused, and the answer is owed.
    fn hear_groups(&mut self, set: u8, count: u8, addresses: &[[u8; 6]; 7]) -> Result<bool, Cause>
        requires open { self.old.session ≢ None }
        requires few { length self.old.groups ≤ 7 }
        ensures heard { (session : NetSession) (memory : List ℕ) → self.old.session ≡ Some session
            → take_of result self.new memory ≡ takes_groups self.old session memory set count addresses.now (groups_after set count addresses.now self.old.groups) }
        ensures ok { IsOk result }
    {
        let agrees = self.set_groups(set, count, addresses);
        let Some(session) = &mut self.session else {
            unreachable!()
        };
        session.note_groups(MembershipReply {
            subtype: if agrees { Subtype::Ack } else { Subtype::Nack },
            set,
            count,
            addresses: *addresses,
        });
        Ok(false)
    }

    /// The list becomes what the message makes of it, or stays where that refuses it.
    fn set_groups(&mut self, set: u8, count: u8, addresses: &[[u8; 6]; 7]) -> bool
        requires { length self.old.groups ≤ 7 }
        ensures { SetsGroups result (groups_after set count addresses.now self.old.groups) self.old self.new }
    {
        match groups_after(set, count, addresses, self.groups.as_slice()) {
            Some(groups) => {
                self.groups = groups;
                true
            }
            None => false,
        }
    }

    /// The answer to a guest's own MCAST_INFO, whose fields aren't looked at.
    fn hear_told(&mut self) -> Result<bool, Cause>
        requires open { self.old.session ≢ None }
        ensures heard { (session : NetSession) (memory : List ℕ) → self.old.session ≡ Some session
            → take_of result self.new memory ≡ told self.old session memory }
        ensures kept { OnErr result (self.new ≡ self.old) }
    {
        let Some(session) = &mut self.session else {
            unreachable!()
        };
        if !session.telling {
            return Err(Cause::Order);
        }
        session.note_agreed();
        Ok(false)
    }

    /// A refusal of groups, where an MCAST_INFO is unanswered; else it is out of order.
    fn refuse(&self) -> Result<bool, Cause>
        requires { self.now.session ≢ None }
        ensures heard { (session : NetSession) (s : NetEndState) (memory : List ℕ) → self.now.session ≡ Some session
            → take_of result s memory ≡ refused session }
    {
        let Some(session) = &self.session else {
            unreachable!()
        };
        if session.telling {
            Err(Cause::Refused)
        } else {
            Err(Cause::Order)
        }
    }

    /// A message of the handshake. The session of the switch's end may open by it.
    fn hear_handshake(&mut self, message: &Message, memory: &mut Memory) -> Result<bool, Cause>
        requires begun { self.old.handshake.phase ≢ Down }
        requires free { self.old.handshake.owed ≡ None }
        requires ids { length self.old.frames ≤ self.old.next_id }
        requires room { HoldsRing self.old.slots memory.old }
        ensures heard { take_of result self.new memory.new ≡ by_handshake (role_of self.old) self.old memory.old (handshake_take self.old.handshake message.now) }
        ensures kept { OnErr result ((self.new ≡ self.old) × (memory.new ≡ memory.old)) }
        ensures same_length { length memory.new ≡ length memory.old }
    {
        match self.handshake.take(message) {
            HsOut::Nothing => Ok(false),
            HsOut::Opens => Ok(self.open_by_take(memory)),
            HsOut::Fault(cause) => Err(cause),
        }
    }

    /// The handshake is through by what it took. That opens the session of the switch's end.
    fn open_by_take(&mut self, memory: &mut Memory) -> bool
        requires ids { length self.old.frames ≤ self.old.next_id }
        requires room { HoldsRing self.old.slots memory.old }
        ensures heard { GoesOn self.new result memory.new ≡ opens_by_take (role_of self.old) self.old memory.old }
        ensures same_length { length memory.new ≡ length memory.old }
    {
        match self.role {
            Role::Initiator => false,
            Role::Responder => {
                self.open(memory);
                true
            }
        }
    }

    /// The peer's ring is active: an INFO names it, has the next number, begins at the next slot, and where it names an
    /// end, that is a slot of it.
    fn hear_info(&mut self, seq: u64, ident: u64, start: u32, end: u32) -> Result<bool, Cause>
        requires open { self.old.session ≢ None }
        requires phase { self.old.handshake.phase ≡ Open }
        ensures heard { (session : NetSession) (memory : List ℕ) → self.old.session ≡ Some session
            → take_of result self.new memory ≡ takes_info self.old session memory seq ident start end }
        ensures kept { OnErr result (self.new ≡ self.old) }
    {
        let agreed = self.agreed();
        if ident != agreed.ident_peer {
            return Err(Cause::Ident {
                expected: agreed.ident_peer,
                found: ident,
            });
        }
        let Some(session) = &mut self.session else {
            unreachable!()
        };
        if seq != session.seq {
            return Err(Cause::Seq {
                expected: session.seq,
                found: seq,
            });
        }
        if start != session.place {
            return Err(Cause::Slot {
                expected: session.place,
                found: start,
            });
        }
        if end != NO_END && end >= agreed.peer_slots {
            return Err(Cause::RangeEnd { found: end });
        }
        session.note_activated(seq, start);
        Ok(false)
    }

    /// An ACK names the own ring, begins at the first frame that isn't acknowledged, and goes no further than what is
    /// published.
    fn hear_ack(
        &mut self,
        ident: u64,
        start: u32,
        end: u32,
        memory: &mut Memory,
    ) -> Result<bool, Cause>
        requires open { self.old.session ≢ None }
        requires phase { self.old.handshake.phase ≡ Open }
        requires frames { FramesStand self.old }
        requires sized { IsSized self.old.slots self.old.next_id (length self.old.groups) }
        requires room { HoldsRing self.old.slots memory.old }
        ensures heard { (session : NetSession) → self.old.session ≡ Some session
            → take_of result self.new memory.new ≡ takes_ack self.old session memory.old ident start end }
        ensures kept { OnErr result ((self.new ≡ self.old) × (memory.new ≡ memory.old)) }
        ensures same_length { length memory.new ≡ length memory.old }
    {
        let expected = self.agreed().ident_own;
        if ident != expected {
            return Err(Cause::Ident {
                expected,
                found: ident,
            });
        }
        let Some(session) = &self.session else {
            unreachable!()
        };
        let expected = session.seen_slot(self.slots);
        if start != expected {
            return Err(Cause::Slot {
                expected,
                found: start,
            });
        }
        if end >= self.slots {
            return Err(Cause::RangeEnd { found: end });
        }
        let count = range_length(self.slots, start, end);
        if !session.may_acknowledge(count) {
            return Err(Cause::RangeEnd { found: end });
        }
        self.hear_range(count, memory)
    }

    /// Each slot of a range is DONE. They become FREE, and the frames leave.
    fn hear_range(&mut self, count: u32, memory: &mut Memory) -> Result<bool, Cause>
        requires open { self.old.session ≢ None }
        requires within { (session : NetSession) → self.old.session ≡ Some session → session.seen + count ≤ session.published }
        requires frames { FramesStand self.old }
        requires sized { IsSized self.old.slots self.old.next_id (length self.old.groups) }
        requires room { HoldsRing self.old.slots memory.old }
        ensures heard { (session : NetSession) → self.old.session ≡ Some session
            → take_of result self.new memory.new ≡ takes_range self.old session memory.old count }
        ensures kept { OnErr result ((self.new ≡ self.old) × (memory.new ≡ memory.old)) }
        ensures same_length { length memory.new ≡ length memory.old }
    {
        let Some(session) = &mut self.session else {
            unreachable!()
        };
        if let Some(cause) = first_undone(memory, self.slots, session.seen, count) {
            return Err(cause);
        }
        free_slots(memory, self.slots, session.seen, count);
        self.frames.drop_front(count as usize);
        session.note_acknowledged(count);
        Ok(false)
    }
}
