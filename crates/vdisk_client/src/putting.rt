// What is put: the rest of a message, a message that the handshake owes, or the INFO that announces what was published.

ghost use Rattle.std.specs.Prelude.{◌≡◌, ◌≢◌, ◌-◌, ◌<◌, ◌≤◌, [], length, true, false, Some, is_some, slice_get};
ghost use Rattle.dring.specs.Slots.{free_slots};
ghost use Rattle.ldc_link.specs.LinkState.{is_up};
ghost use Rattle.ldc_link.specs.Putting.{owes};
ghost use Rattle.ldc_queue.specs.ChannelView.{ChannelView};
ghost use Rattle.ldc_queue.specs.declared.end.ChannelState.TheVariants.{Up};
ghost use Rattle.vio_handshake.specs.declared.handshake.Phase.TheVariants.{Open};
ghost use Rattle.vio_bytes.specs.Place.{put_at};
ghost use Rattle.vio_tag.specs.Form.{IsWellFormed};

use crate::answers::ClientOut;
use crate::end::ClientEnd;
use crate::session::OpenSession;
use disk_requests::{put_request, ring_of};
use dom_memory::Memory;
use ldc_link::SendOut;
use ldc_packet::Subtype;
use ldc_queue::{Channel, End};
use vio_tag::{Message, MsgBody, VIO_DRING_ACTIVE, encode};

/// What a packet is that is put.
#[derive(Clone, Copy)]
pub(crate) enum PutOf {
    /// One of the link's handshake.
    Control,
    /// A part of a message of the session's handshake.
    Handshake,
    /// A part of the client's INFO.
    Own,
}

impl ClientEnd {
    ghost use Rattle.lane_models.specs.ClientPutting.{announcement, holding, is_announcing};
    ghost use Rattle.lane_models.specs.ClientRule.{Announces, Says, announces, in_session, publishes, puts_first, says};
    ghost use Rattle.lane_models.specs.ClientState.{first_id, opened_session};
    ghost use Rattle.lane_models.specs.EndPuts.{EndsHandshake, put_opens};
    ghost use Rattle.vdisk_client.specs.Calls.{Steps, rule_of};
    ghost use Rattle.vdisk_client.specs.Putting.{CountsMore, HoldsOwn, PutsHeld, cleared_if, kind_of, noted, put_of};
    ghost use Rattle.disk_requests.specs.Room.{HoldsRing};
    ghost use Rattle.vdisk_client.specs.Standing.{RequestsStand, Stands};

    /// Puts the packet that the link owes, or else a message that the handshake owes, or else goes on in session.
    pub(crate) fn put_first(
        &mut self,
        owes_message: bool,
        channel: &mut Channel,
        memory: &mut Memory,
        out: &mut ClientOut,
    )
        requires owed { owes_message ≡ is_some self.old.handshake.owed }
        requires up { channel.old.wire.end_a ≡ Up }
        requires rule { rule_of self.old channel.old ≡ puts_first self.old }
        requires stands { Stands self.old }
        requires room { HoldsRing self.old.slots memory.old }
        ensures step { Steps self.old channel.old memory.old out.new self.new channel.new memory.new }
        ensures same_length { length memory.new ≡ length memory.old }
    {
        if self.link.owes() {
            return self.put(self.next_put(), channel, memory, out);
        }
        if owes_message {
            return self.say_owed(channel, memory, out);
        }
        self.go_on(channel, memory, out);
    }

    /// Says the message that the handshake owes.
    fn say_owed(&mut self, channel: &mut Channel, memory: &mut Memory, out: &mut ClientOut)
        requires up { channel.old.wire.end_a ≡ Up }
        requires rule { rule_of self.old channel.old ≡ says self.old self.old.handshake.owed }
        requires owed { is_some self.old.handshake.owed ≡ true }
        requires nothing { owes self.old.link ≡ false }
        requires stands { Stands self.old }
        requires room { HoldsRing self.old.slots memory.old }
        ensures step { Steps self.old channel.old memory.old out.new self.new channel.new memory.new }
        ensures same_length { length memory.new ≡ length memory.old }
    {
        match self.handshake.next() {
            Some(message) => self.say(&message, channel, memory, out),
            None => unreachable!(),
        }
    }

    /// Offers a message that the handshake owes, and puts its first packet.
    fn say(
        &mut self,
        message: &Message,
        channel: &mut Channel,
        memory: &mut Memory,
        out: &mut ClientOut,
    )
        requires up { channel.old.wire.end_a ≡ Up }
        requires rule { rule_of self.old channel.old ≡ Says message.now }
        requires owed { self.old.handshake.owed ≡ Some message.now }
        requires nothing { owes self.old.link ≡ false }
        requires stands { Stands self.old }
        requires room { HoldsRing self.old.slots memory.old }
        ensures step { Steps self.old channel.old memory.old out.new self.new channel.new memory.new }
        ensures same_length { length memory.new ≡ length memory.old }
    {
        self.offer(message);
        self.put(PutOf::Handshake, channel, memory, out);
    }

    /// In session: the next pending request is published, and where all are, those that aren't announced are announced
    /// at once.
    fn go_on(&mut self, channel: &mut Channel, memory: &mut Memory, out: &mut ClientOut)
        requires up { channel.old.wire.end_a ≡ Up }
        requires rule { rule_of self.old channel.old ≡ in_session self.old self.old.session }
        requires nothing { owes self.old.link ≡ false }
        requires stands { Stands self.old }
        requires room { HoldsRing self.old.slots memory.old }
        ensures step { Steps self.old channel.old memory.old out.new self.new channel.new memory.new }
        ensures same_length { length memory.new ≡ length memory.old }
    {
        let session = match self.session {
            Some(session) => session,
            None => {
                *out = ClientOut::Idle;
                return;
            }
        };
        if self.has_unpublished(&session) {
            return self.publish_next(session, memory, out);
        }
        if session.has_unannounced() {
            return self.announce(session, channel, memory, out);
        }
        *out = ClientOut::Idle;
    }

    /// Whether a pending request isn't published in this session.
    fn has_unpublished(&self, session: &OpenSession) -> bool
        requires { session.now.completed ≤ session.now.published }
        ensures some { result
            ≡ is_some (slice_get self.now.pending (session.now.published - session.now.completed)) }
        ensures none { result ≡ false
            → publishes session.now (slice_get self.now.pending (session.now.published - session.now.completed))
            ≡ announces session.now }
    {
        self.pending
            .get(session.published_pending() as usize)
            .is_some()
    }

    /// Offers the INFO that announces all that is published, and puts it.
    fn announce(
        &mut self,
        session: OpenSession,
        channel: &mut Channel,
        memory: &mut Memory,
        out: &mut ClientOut,
    )
        requires up { channel.old.wire.end_a ≡ Up }
        requires rule { rule_of self.old channel.old ≡ Announces session }
        requires open { self.old.session ≡ Some session }
        requires some { session.announced < session.published }
        requires nothing { owes self.old.link ≡ false }
        requires stands { Stands self.old }
        requires room { HoldsRing self.old.slots memory.old }
        ensures step { Steps self.old channel.old memory.old out.new self.new channel.new memory.new }
        ensures same_length { length memory.new ≡ length memory.old }
    {
        let message = self.announcement(&session);
        self.offer(&message);
        self.session = Some(session.with_info());
        self.put(PutOf::Own, channel, memory, out);
    }

    /// The INFO of the slots from the first that isn't announced to the last that is published.
    fn announcement(&self, session: &OpenSession) -> Message
        requires slots { self.now.slots ≢ 0 }
        requires open { self.now.handshake.phase ≡ Open }
        requires some { session.now.announced < session.now.published }
        ensures { result ≡ announcement self.now session.now }
    {
        let agreed = match self.handshake.session() {
            Some(agreed) => agreed,
            None => unreachable!(),
        };
        Message {
            subtype: Subtype::Info,
            sid: agreed.sid,
            body: MsgBody::DringData {
                seq: session.next_info(),
                ident: agreed.ident_own,
                start: session.announced_slot(self.slots),
                end: session.last_published_slot(self.slots),
                state: VIO_DRING_ACTIVE,
            },
        }
    }

    /// The link holds this message.
    fn offer(&mut self, message: &Message)
        requires form { IsWellFormed message.now }
        requires up { is_up self.old.link ≡ true }
        requires free { self.old.link.to_send ≡ [] }
        ensures holds { self.new ≡ holding message.now self.old }
        ensures owes { owes self.new.link ≡ true }
    {
        let mut bytes = [0; 256];
        let len = encode(message, &mut bytes);
        let _offered = self.link.offer(&bytes[..len]);
    }

    /// What the packet is that the link owes: a message is the client's own INFO, or what the handshake owes.
    fn next_put(&self) -> PutOf
        ensures { result ≡ put_of (is_up self.now.link) (is_announcing self.now.session) }
    {
        if !self.link.is_up() {
            return PutOf::Control;
        }
        match self.session {
            Some(session) if session.is_announcing() => PutOf::Own,
            _ => PutOf::Handshake,
        }
    }

    /// Puts the packet that the link owes.
    fn put(&mut self, whose: PutOf, channel: &mut Channel, memory: &mut Memory, out: &mut ClientOut)
        requires up { channel.old.wire.end_a ≡ Up }
        requires owes { owes self.old.link ≡ true }
        requires whose { whose ≡ put_of (is_up self.old.link) (is_announcing self.old.session) }
        requires own { HoldsOwn self.old }
        requires requests { RequestsStand self.old }
        requires room { HoldsRing self.old.slots memory.old }
        ensures put { PutsHeld self.old channel.old memory.old out.new self.new channel.new memory.new }
        ensures same_length { length memory.new ≡ length memory.old }
    {
        match self.link.send(channel, End::A) {
            SendOut::Sent(packet) => {
                let opens = self.note_put(whose, memory);
                *out = ClientOut::Sent { packet, opens };
            }
            SendOut::Blocked => *out = ClientOut::Blocked,
            SendOut::Nothing => unreachable!(),
        }
    }

    /// A packet was put. Tells whether the session opened.
    fn note_put(&mut self, whose: PutOf, memory: &mut Memory) -> bool
        requires owed { whose ≡ PutOf.Handshake → is_some self.old.handshake.owed ≡ true }
        requires infos { whose ≡ PutOf.Own → CountsMore self.old.session }
        requires requests { RequestsStand self.old }
        requires room { HoldsRing self.old.slots memory.old }
        ensures opens { result ≡ put_opens (kind_of whose self.old.link) self.old.handshake }
        ensures state { self.new ≡ noted (kind_of whose self.old.link) self.old }
        ensures memory { memory.new ≡ cleared_if result self.old.slots memory.old }
        ensures same_length { length memory.new ≡ length memory.old }
    {
        match whose {
            PutOf::Control => {
                self.note_control();
                false
            }
            PutOf::Handshake => self.note_part(memory),
            PutOf::Own => {
                self.note_info();
                false
            }
        }
    }

    /// A packet of the link's handshake was put: the session's begins where the link came up by it.
    fn note_control(&mut self)
        ensures { self.new ≡ noted (kind_of PutOf.Control self.old.link) self.old }
    {
        if self.link.is_up() {
            self.handshake.link_up();
        }
    }

    /// A part of what the handshake owed was put. The session may open by the last.
    fn note_part(&mut self, memory: &mut Memory) -> bool
        requires owed { is_some self.old.handshake.owed ≡ true }
        requires requests { RequestsStand self.old }
        requires room { HoldsRing self.old.slots memory.old }
        ensures opens { result ≡ put_opens (kind_of PutOf.Handshake self.old.link) self.old.handshake }
        ensures state { self.new ≡ noted (kind_of PutOf.Handshake self.old.link) self.old }
        ensures memory { memory.new ≡ cleared_if result self.old.slots memory.old }
        ensures same_length { length memory.new ≡ length memory.old }
    {
        if self.link.owes() {
            return false;
        }
        self.end_owed(memory)
    }

    /// A part of the INFO was put: by the last all that is published is announced.
    fn note_info(&mut self)
        requires { CountsMore self.old.session }
        ensures { self.new ≡ noted (kind_of PutOf.Own self.old.link) self.old }
    {
        if self.link.owes() {
            return;
        }
        if let Some(session) = self.session {
            self.session = Some(session.announced_all());
        }
    }

    /// What the handshake owed was put whole. The session may open by that.
    fn end_owed(&mut self, memory: &mut Memory) -> bool
        requires owed { is_some self.old.handshake.owed ≡ true }
        requires requests { RequestsStand self.old }
        requires room { HoldsRing self.old.slots memory.old }
        ensures opens { result ≡ put_opens EndsHandshake self.old.handshake }
        ensures state { self.new ≡ noted EndsHandshake self.old }
        ensures memory { memory.new ≡ cleared_if result self.old.slots memory.old }
        ensures same_length { length memory.new ≡ length memory.old }
    {
        let opens = self.handshake.sent();
        if opens {
            self.open(memory);
        }
        opens
    }

    /// The session opens: the ring is cleared, and nothing is published.
    fn open(&mut self, memory: &mut Memory)
        requires requests { RequestsStand self.old }
        requires room { HoldsRing self.old.slots memory.old }
        ensures state { self.new ≡ record self.old { session = Some (opened_session (first_id self.old)) } }
        ensures memory { memory.new ≡ put_at 0 (free_slots 128 self.old.slots) memory.old }
        ensures same_length { length memory.new ≡ length memory.old }
    {
        self.session = Some(OpenSession::new(self.first_id()));
        ring_of(self.slots).clear(memory);
    }

    /// Publishes the first pending request that isn't published in this session.
    fn publish_next(&mut self, session: OpenSession, memory: &mut Memory, out: &mut ClientOut)
        requires open { self.old.session ≡ Some session }
        requires some { is_some (slice_get self.old.pending (session.published - session.completed)) ≡ true }
        requires stands { Stands self.old }
        requires room { HoldsRing self.old.slots memory.old }
        ensures step { (channel : ChannelView)
            → rule_of self.old channel
            ≡ publishes session (slice_get self.old.pending (session.published - session.completed))
            → Steps self.old channel memory.old out.new self.new channel memory.new }
        ensures same_length { length memory.new ≡ length memory.old }
    {
        let request = match self.pending.get(session.published_pending() as usize) {
            Some(request) => request,
            None => unreachable!(),
        };
        let id = session.next_id();
        let slot = session.published_slot(self.slots);
        put_request(memory, self.slots, slot, id, request);
        self.ever_published = self.ever_published.max(id + 1);
        self.session = Some(session.published_one());
        *out = ClientOut::Published { id };
    }
}
