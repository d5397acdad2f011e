// What is put: the rest of a message, one that the handshake owes, or one of the session.

ghost use Rattle.std.specs.Prelude.{◌≡◌, ◌≢◌, ◌*◌, ◌≤◌, [], length, is_none, false, true, None};
ghost use Rattle.ldc_link.specs.LinkState.{is_up};
ghost use Rattle.ldc_link.specs.Putting.{owes};
ghost use Rattle.ldc_queue.specs.Wire.{state_of};
ghost use Rattle.ldc_queue.specs.declared.end.ChannelState.TheVariants.{Up};
ghost use Rattle.vio_tag.specs.Form.{IsWellFormed};

use crate::net_out::NetOut;
use crate::port_end::PortEnd;
use dom_memory::Memory;
use ldc_link::SendOut;
use ldc_queue::Channel;
use port_frames::ring_of;
use port_session::PortSession;
use vio_tag::{Message, encode};

/// What a packet is that is put.
#[derive(Clone, Copy)]
pub(crate) enum PutOf {
    /// One of the link's handshake.
    Control,
    /// A part of a message of the session's handshake.
    Handshake,
    /// A part of a message of the session.
    Own,
}

impl PortEnd {
    ghost use Rattle.lane_models.specs.EndPuts.{EndsHandshake, put_opens};
    ghost use Rattle.lane_models.specs.NetEndPutting.{cleared_ring, holding};
    ghost use Rattle.lane_models.specs.NetEndState.{first_id, opened_net_end};
    ghost use Rattle.vnet_port.specs.Calls.{end_of};
    ghost use Rattle.vnet_port.specs.Putting.{MayOpen, PutsHeld, cleared_if, kind_of, next_put, noted, put_of};

    /// Offers a message, and puts its first packet.
    pub(crate) fn say(
        &mut self,
        whose: PutOf,
        message: &Message,
        channel: &mut Channel,
        memory: &mut Memory,
        out: &mut NetOut,
    )
        requires up { state_of (end_of self.old) channel.old.wire ≡ Up }
        requires form { IsWellFormed message.now }
        requires link { is_up self.old.link ≡ true }
        requires free { self.old.link.to_send ≡ [] }
        requires whose { whose ≡ put_of true (is_none self.old.handshake.owed) }
        requires may { MayOpen self.old }
        requires room { 64 * self.old.slots ≤ length memory.old }
        ensures put { PutsHeld (holding message.now self.old) channel.old memory.old out.new self.new channel.new memory.new }
        ensures same_length { length memory.new ≡ length memory.old }
    {
        self.offer(message);
        self.put(whose, channel, memory, out);
    }

    /// The link holds this message.
    fn offer(&mut self, message: &Message)
        requires form { IsWellFormed message.now }
        requires up { is_up self.old.link ≡ true }
        requires free { self.old.link.to_send ≡ [] }
        ensures holds { self.new ≡ holding message.now self.old }
        ensures owes { owes self.new.link ≡ true }
    {
        let mut bytes = [0; 256];
        let len = encode(message, &mut bytes);
        let _offered = self.link.offer(&bytes[..len]);
    }

    /// What the packet is that the link owes: a message is the handshake's where that owes one.
    pub(crate) fn next_put(&self) -> PutOf
        ensures { result ≡ next_put self.now }
    {
        if !self.link.is_up() {
            return PutOf::Control;
        }
        if self.handshake.owes() {
            PutOf::Handshake
        } else {
            PutOf::Own
        }
    }

    /// Puts the packet that the link owes.
    pub(crate) fn put(
        &mut self,
        whose: PutOf,
        channel: &mut Channel,
        memory: &mut Memory,
        out: &mut NetOut,
    )
        requires up { state_of (end_of self.old) channel.old.wire ≡ Up }
        requires owes { owes self.old.link ≡ true }
        requires whose { whose ≡ next_put self.old }
        requires may { MayOpen self.old }
        requires room { 64 * self.old.slots ≤ length memory.old }
        ensures put { PutsHeld self.old channel.old memory.old out.new self.new channel.new memory.new }
        ensures same_length { length memory.new ≡ length memory.old }
    {
        let end = self.end();
        match self.link.send(channel, end) {
            SendOut::Sent(packet) => {
                let opens = self.note_put(whose, memory);
                *out = NetOut::Sent { packet, opens };
            }
            SendOut::Blocked => *out = NetOut::Blocked,
            SendOut::Nothing => unreachable!(),
        }
    }

    /// A packet was put. Tells whether the session opened.
    fn note_put(&mut self, whose: PutOf, memory: &mut Memory) -> bool
        requires owed { whose ≡ PutOf.Handshake → self.old.handshake.owed ≢ None }
        requires ids { length self.old.frames ≤ self.old.next_id }
        requires room { 64 * self.old.slots ≤ length memory.old }
        ensures opens { result ≡ put_opens (kind_of whose self.old.link) self.old.handshake }
        ensures state { self.new ≡ noted (kind_of whose self.old.link) self.old }
        ensures memory { memory.new ≡ cleared_if result self.old.slots memory.old }
        ensures same_length { length memory.new ≡ length memory.old }
    {
        match whose {
            PutOf::Control => {
                self.note_control();
                false
            }
            PutOf::Handshake => self.note_part(memory),
            PutOf::Own => false,
        }
    }

    /// A packet of the link's handshake was put: the session's begins where the link came up by it.
    fn note_control(&mut self)
        ensures { self.new ≡ noted (kind_of PutOf.Control self.old.link) self.old }
    {
        if self.link.is_up() {
            self.handshake.link_up();
        }
    }

    /// A part of what the handshake owed was put. The session may open by the last.
    fn note_part(&mut self, memory: &mut Memory) -> bool
        requires owed { self.old.handshake.owed ≢ None }
        requires ids { length self.old.frames ≤ self.old.next_id }
        requires room { 64 * self.old.slots ≤ length memory.old }
        ensures opens { result ≡ put_opens (kind_of PutOf.Handshake self.old.link) self.old.handshake }
        ensures state { self.new ≡ noted (kind_of PutOf.Handshake self.old.link) self.old }
        ensures memory { memory.new ≡ cleared_if result self.old.slots memory.old }
        ensures same_length { length memory.new ≡ length memory.old }
    {
        if self.link.owes() {
            return false;
        }
        self.end_owed(memory)
    }

    /// What the handshake owed was put whole. The session may open by that.
    fn end_owed(&mut self, memory: &mut Memory) -> bool
        requires owed { self.old.handshake.owed ≢ None }
        requires ids { length self.old.frames ≤ self.old.next_id }
        requires room { 64 * self.old.slots ≤ length memory.old }
        ensures opens { result ≡ put_opens EndsHandshake self.old.handshake }
        ensures state { self.new ≡ noted EndsHandshake self.old }
        ensures memory { memory.new ≡ cleared_if result self.old.slots memory.old }
        ensures same_length { length memory.new ≡ length memory.old }
    {
        let opens = self.handshake.sent();
        if opens {
            self.open(memory);
        }
        opens
    }

    /// The session opens: the ring is cleared, and nothing is published.
    pub(crate) fn open(&mut self, memory: &mut Memory)
        requires ids { length self.old.frames ≤ self.old.next_id }
        requires room { 64 * self.old.slots ≤ length memory.old }
        ensures state { self.new ≡ opened_net_end self.old }
        ensures memory { memory.new ≡ cleared_ring self.old.slots memory.old }
        ensures same_length { length memory.new ≡ length memory.old }
    {
        self.session = Some(PortSession::new(self.first_id()));
        ring_of(self.slots).clear(memory);
    }

    /// The id of its first frame, or of the next where it holds none.
    fn first_id(&self) -> u64
        requires { length self.now.frames ≤ self.now.next_id }
        ensures { result ≡ first_id self.now }
    {
        self.next_id - self.frames.len() as u64
    }
}
