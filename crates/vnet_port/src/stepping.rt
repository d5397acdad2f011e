// A step: the first rule that applies.

ghost use Rattle.std.specs.Prelude.{◌≡◌, ◌≢◌, ℕ, List, length, false, None, Some};
ghost use Rattle.cookie_copy.specs.Faults.{PagesWithin};
ghost use Rattle.ldc_link.specs.Putting.{owes};
ghost use Rattle.ldc_queue.specs.Wire.{state_of};
ghost use Rattle.ldc_queue.specs.declared.end.ChannelState.TheVariants.{Up};
ghost use Rattle.vio_handshake.specs.State.{OwesWell};
ghost use Rattle.vio_tag.specs.declared.message.Message.{Message};

use crate::net_out::NetOut;
use crate::port_end::PortEnd;
use dom_memory::Memory;
use ldc_link::Role;
use ldc_queue::{Channel, ChannelState};
use map_table::MapTable;

impl PortEnd {
    ghost use Rattle.lane_models.specs.FramesStand.{FramesStand};
    ghost use Rattle.lane_models.specs.NetEndRule.{Joins, Says};
    ghost use Rattle.vnet_port.specs.Calls.{end_of, role_of};
    ghost use Rattle.vnet_port.specs.Putting.{CanSay};
    ghost use Rattle.vnet_port.specs.Standing.{Stands};
    ghost use Rattle.port_frames.specs.Memories.{HoldsRing};
    ghost use Rattle.vnet_port.specs.Stepping.{Steps, StepsAlone, rule_of};
    ghost use Rattle.vnet_port.specs.NextAct.{offers};

    /// An end that isn't up joins; what the link owes is put, and what the handshake owes is said. In session an answer to
    /// groups is said, and the peer's ring is worked. A packet that waits is taken, and then the end goes on with its own.
    ///
    /// Each is asked of the session where it stands: it is long, and most steps change nothing of it.
    pub(crate) fn step(
        &mut self,
        channel: &mut Channel,
        memory: &mut Memory,
        table: &MapTable,
        peer: &mut Memory,
        out: &mut NetOut,
    )
        requires stands { Stands self.old }
        requires room { HoldsRing self.old.slots memory.old }
        requires pages { PagesWithin table.now (length peer.old) }
        ensures step { Steps self.old channel.old memory.old table.now peer.old out.new self.new channel.new memory.new peer.new }
        ensures same_length { length memory.new ≡ length memory.old }
        ensures same_peer { length peer.new ≡ length peer.old }
    {
        if channel.state(self.end()) != ChannelState::Up {
            return self.rejoin(channel, out);
        }
        if self.link.owes() {
            return self.put_rest(channel, memory, out);
        }
        if self.handshake.owes() {
            return self.say_next(channel, memory, out);
        }
        if self.owes_reply() {
            return self.say_reply(channel, memory, out);
        }
        if self.is_active() {
            return self.fetch(channel, memory, table, peer, out);
        }
        if channel.waiting(self.end()) > 0 {
            return self.take(channel, memory, out);
        }
        self.offer_next(channel, memory, out);
    }

    /// The end isn't up: it begins anew.
    fn rejoin(&mut self, channel: &mut Channel, out: &mut NetOut)
        requires rule { rule_of self.old channel.old ≡ Joins }
        requires frames { FramesStand self.old }
        ensures step { (memory : List ℕ) → StepsAlone self.old channel.old memory out.new self.new channel.new memory }
    {
        let lost = self.join(channel);
        *out = NetOut::Joined { lost };
    }

    /// Says the message that the handshake owes.
    fn say_next(&mut self, channel: &mut Channel, memory: &mut Memory, out: &mut NetOut)
        requires up { state_of (end_of self.old) channel.old.wire ≡ Up }
        requires rule { (message : Message) → self.old.handshake.owed ≡ Some message → rule_of self.old channel.old ≡ Says message }
        requires owed { self.old.handshake.owed ≢ None }
        requires form { OwesWell self.old.handshake }
        requires can { CanSay self.old }
        requires room { HoldsRing self.old.slots memory.old }
        ensures step { StepsAlone self.old channel.old memory.old out.new self.new channel.new memory.new }
        ensures same_length { length memory.new ≡ length memory.old }
    {
        match self.handshake.next() {
            Some(message) => self.say_owed(&message, channel, memory, out),
            None => unreachable!(),
        }
    }

    /// A guest's groups are told; a frame that isn't published is; what is published is announced.
    fn offer_next(&mut self, channel: &mut Channel, memory: &mut Memory, out: &mut NetOut)
        requires up { state_of (end_of self.old) channel.old.wire ≡ Up }
        requires rule { rule_of self.old channel.old ≡ offers (role_of self.old) self.old self.old.session }
        requires quiet { owes self.old.link ≡ false }
        requires free { self.old.handshake.owed ≡ None }
        requires stands { Stands self.old }
        requires room { HoldsRing self.old.slots memory.old }
        ensures step { StepsAlone self.old channel.old memory.old out.new self.new channel.new memory.new }
        ensures same_length { length memory.new ≡ length memory.old }
    {
        if self.is_to_tell() {
            return self.tell(channel, memory, out);
        }
        if self.has_unpublished() {
            return self.publish(memory, out);
        }
        if self.is_to_announce() {
            return self.announce(channel, memory, out);
        }
        *out = NetOut::Idle;
    }
}

// What is to be done in session. Where none is open, it is nothing.
impl PortEnd {
    ghost use Rattle.lane_models.specs.FramesStand.{FramesStand};
    ghost use Rattle.vnet_port.specs.Calls.{role_of};
    ghost use Rattle.vnet_port.specs.NextAct.{has_unpublished, is_active, is_to_announce, is_to_tell, owes_reply};

    /// Whether an answer to groups is owed.
    fn owes_reply(&self) -> bool
        ensures { result ≡ owes_reply self.now.session }
    {
        match &self.session {
            Some(session) => session.reply.is_some(),
            None => false,
        }
    }

    /// Whether the peer's ring is active.
    fn is_active(&self) -> bool
        ensures { result ≡ is_active self.now.session }
    {
        match &self.session {
            Some(session) => session.active.is_some(),
            None => false,
        }
    }

    /// Whether a guest's groups are to be told.
    fn is_to_tell(&self) -> bool
        ensures { result ≡ is_to_tell (role_of self.now) self.now.session }
    {
        match (self.role, &self.session) {
            (Role::Initiator, Some(session)) => session.is_to_tell(),
            _ => false,
        }
    }

    /// Whether a frame that it holds isn't published.
    fn has_unpublished(&self) -> bool
        requires { FramesStand self.now }
        ensures { result ≡ has_unpublished self.now.frames self.now.session }
    {
        match &self.session {
            Some(session) => self.frames.get(session.unseen() as usize).is_some(),
            None => false,
        }
    }

    /// Whether frames that are published are to be announced.
    fn is_to_announce(&self) -> bool
        ensures { result ≡ is_to_announce self.now.session }
    {
        match &self.session {
            Some(session) => session.is_to_announce(),
            None => false,
        }
    }
}
