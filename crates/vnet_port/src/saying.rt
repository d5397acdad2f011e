// What an end says: what the handshake owes, and the messages of the session.

ghost use Rattle.std.specs.Prelude.{◌≡◌, ◌≤◌, length, true, None, Some};
ghost use Rattle.ldc_link.specs.Putting.{owes};
ghost use Rattle.ldc_queue.specs.Wire.{state_of};
ghost use Rattle.ldc_queue.specs.declared.end.ChannelState.TheVariants.{Up};
ghost use Rattle.vio_handshake.specs.declared.handshake.Phase.TheVariants.{Open};
ghost use Rattle.vio_tag.specs.Form.{IsWellFormed};
ghost use Rattle.port_frames.specs.Memories.{HoldsRing};

use crate::net_out::NetOut;
use crate::port_end::PortEnd;
use crate::putting::PutOf;
use dom_memory::Memory;
use ldc_packet::Subtype;
use ldc_queue::Channel;
use port_session::{MembershipReply, PortSession, seven};
use vio_handshake::Session;
use vio_tag::{Message, MsgBody, VIO_DRING_ACTIVE};

/// An INFO of a port that names no last slot.
const NO_END: u32 = 0xffffffff;

/// Groups are joined, and not left.
const SET: u8 = 1;

impl PortEnd {
    ghost use Rattle.lane_models.specs.FramesStand.{FramesStand};
    ghost use Rattle.lane_models.specs.Groups.{membership};
    ghost use Rattle.lane_models.specs.NetEndPutting.{announcement, groups_answer};
    ghost use Rattle.lane_models.specs.NetEndRule.{Announces, Puts, Replies, Says, Tells};
    ghost use Rattle.lane_models.specs.NetEndState.{GroupsReply, NetSession};
    ghost use Rattle.vnet_port.specs.Calls.{end_of, role_of};
    ghost use Rattle.vnet_port.specs.Putting.{CanSay, MayOpen};
    ghost use Rattle.vnet_port.specs.Standing.{IsSized, SessionStands};
    ghost use Rattle.vnet_port.specs.Stepping.{StepsAlone, rule_of};
    ghost use Rattle.vnet_port.specs.NextAct.{is_to_announce, is_to_tell, owes_reply};

    /// Puts the rest of what the link owes.
    pub(crate) fn put_rest(&mut self, channel: &mut Channel, memory: &mut Memory, out: &mut NetOut)
        requires up { state_of (end_of self.old) channel.old.wire ≡ Up }
        requires rule { rule_of self.old channel.old ≡ Puts }
        requires owes { owes self.old.link ≡ true }
        requires may { MayOpen self.old }
        requires room { HoldsRing self.old.slots memory.old }
        ensures step { StepsAlone self.old channel.old memory.old out.new self.new channel.new memory.new }
        ensures same_length { length memory.new ≡ length memory.old }
    {
        self.put(self.next_put(), channel, memory, out);
    }

    /// Says the message that the handshake owes.
    pub(crate) fn say_owed(
        &mut self,
        message: &Message,
        channel: &mut Channel,
        memory: &mut Memory,
        out: &mut NetOut,
    )
        requires up { state_of (end_of self.old) channel.old.wire ≡ Up }
        requires rule { rule_of self.old channel.old ≡ Says message.now }
        requires owed { self.old.handshake.owed ≡ Some message.now }
        requires form { IsWellFormed message.now }
        requires can { CanSay self.old }
        requires room { HoldsRing self.old.slots memory.old }
        ensures step { StepsAlone self.old channel.old memory.old out.new self.new channel.new memory.new }
        ensures same_length { length memory.new ≡ length memory.old }
    {
        self.say(PutOf::Handshake, message, channel, memory, out);
    }

    /// Answers an MCAST_INFO.
    pub(crate) fn say_reply(&mut self, channel: &mut Channel, memory: &mut Memory, out: &mut NetOut)
        requires up { state_of (end_of self.old) channel.old.wire ≡ Up }
        requires rule { (session : NetSession) (reply : GroupsReply) → self.old.session ≡ Some session → session.reply ≡ Some reply → rule_of self.old channel.old ≡ Replies session reply }
        requires owes { owes_reply self.old.session ≡ true }
        requires free { self.old.handshake.owed ≡ None }
        requires stands { SessionStands self.old.slots self.old.handshake.phase self.old.session }
        requires can { CanSay self.old }
        requires room { HoldsRing self.old.slots memory.old }
        ensures step { StepsAlone self.old channel.old memory.old out.new self.new channel.new memory.new }
        ensures same_length { length memory.new ≡ length memory.old }
    {
        let Some(session) = &mut self.session else {
            unreachable!()
        };
        let Some(reply) = session.reply else {
            unreachable!()
        };
        session.note_replied();
        let message = self.groups_answer(reply);
        self.say(PutOf::Own, &message, channel, memory, out);
    }

    /// Tells the switch the whole list of groups.
    pub(crate) fn tell(&mut self, channel: &mut Channel, memory: &mut Memory, out: &mut NetOut)
        requires up { state_of (end_of self.old) channel.old.wire ≡ Up }
        requires rule { (session : NetSession) → self.old.session ≡ Some session → rule_of self.old channel.old ≡ Tells session }
        requires some { is_to_tell (role_of self.old) self.old.session ≡ true }
        requires free { self.old.handshake.owed ≡ None }
        requires stands { SessionStands self.old.slots self.old.handshake.phase self.old.session }
        requires sized { IsSized self.old.slots self.old.next_id (length self.old.groups) }
        requires can { CanSay self.old }
        requires room { HoldsRing self.old.slots memory.old }
        ensures step { StepsAlone self.old channel.old memory.old out.new self.new channel.new memory.new }
        ensures same_length { length memory.new ≡ length memory.old }
    {
        let Some(session) = &mut self.session else {
            unreachable!()
        };
        session.note_told();
        let message = self.membership();
        self.say(PutOf::Own, &message, channel, memory, out);
    }

    /// Announces the frames that are published and not acknowledged.
    pub(crate) fn announce(&mut self, channel: &mut Channel, memory: &mut Memory, out: &mut NetOut)
        requires up { state_of (end_of self.old) channel.old.wire ≡ Up }
        requires rule { (session : NetSession) → self.old.session ≡ Some session → rule_of self.old channel.old ≡ Announces session }
        requires some { is_to_announce self.old.session ≡ true }
        requires free { self.old.handshake.owed ≡ None }
        requires stands { SessionStands self.old.slots self.old.handshake.phase self.old.session }
        requires frames { FramesStand self.old }
        requires sized { IsSized self.old.slots self.old.next_id (length self.old.groups) }
        requires can { CanSay self.old }
        requires room { HoldsRing self.old.slots memory.old }
        ensures step { StepsAlone self.old channel.old memory.old out.new self.new channel.new memory.new }
        ensures same_length { length memory.new ≡ length memory.old }
    {
        let Some(session) = &self.session else {
            unreachable!()
        };
        let message = self.announcement(session);
        let Some(session) = &mut self.session else {
            unreachable!()
        };
        session.note_announced();
        self.say(PutOf::Own, &message, channel, memory, out);
    }

    /// What the handshake agreed on, while the session is open.
    pub(crate) fn agreed(&self) -> Session
        requires { self.now.handshake.phase ≡ Open }
        ensures { result ≡ self.now.handshake.draft }
    {
        match self.handshake.session() {
            Some(session) => session,
            None => unreachable!(),
        }
    }

    /// The same fields as in the MCAST_INFO that it answers.
    fn groups_answer(&self, reply: MembershipReply) -> Message
        requires { self.now.handshake.phase ≡ Open }
        ensures { result ≡ groups_answer self.now reply }
    {
        let addresses = reply.addresses;
        Message {
            subtype: reply.subtype,
            sid: self.agreed().sid,
            body: MsgBody::Mcast {
                set: reply.set,
                count: reply.count,
                addresses,
            },
        }
    }

    /// The MCAST_INFO of the whole list.
    fn membership(&self) -> Message
        requires open { self.now.handshake.phase ≡ Open }
        requires few { length self.now.groups ≤ 7 }
        ensures { result ≡ membership self.now.handshake.draft.sid self.now.groups }
    {
        let groups = self.groups.as_slice();
        Message {
            subtype: Subtype::Info,
            sid: self.agreed().sid,
            body: MsgBody::Mcast {
                set: SET,
                count: groups.len() as u8,
                addresses: seven(groups),
            },
        }
    }

    /// The INFO of the first frame that isn't acknowledged and of all after it.
    fn announcement(&self, session: &PortSession) -> Message
        requires open { self.now.handshake.phase ≡ Open }
        requires slots { 2 ≤ self.now.slots }
        ensures { result ≡ announcement self.now session.now }
    {
        let agreed = self.agreed();
        Message {
            subtype: Subtype::Info,
            sid: agreed.sid,
            body: MsgBody::DringData {
                seq: session.next_info(),
                ident: agreed.ident_own,
                start: session.seen_slot(self.slots),
                end: NO_END,
                state: VIO_DRING_ACTIVE,
            },
        }
    }
}
