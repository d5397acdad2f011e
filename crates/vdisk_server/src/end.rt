// What a server holds of its lane.

ghost use Rattle.std.specs.Prelude.{◌≡◌, ◌<◌, false, None, is_some, IfOk};
ghost use Rattle.ldc_link.specs.declared.phase.Role.TheVariants.{Responder};
ghost use Rattle.ldc_queue.specs.ChannelView.{configured_channel};
ghost use Rattle.ldc_queue.specs.declared.end.End.TheVariants.{B};
ghost use Rattle.vio_handshake.specs.declared.handshake.Phase.TheVariants.{Open};
ghost use Rattle.vio_tag.specs.Form.{IsWellFormed};
ghost use Rattle.lane_models.specs.Offering.{server_offer};
ghost use Rattle.lane_models.specs.ServerState.{fresh_server, joined_server, peer_ring, restarted_server};
ghost use Rattle.lane_models.specs.ServerWork.{slot_at};
ghost use Rattle.vdisk_server.specs.Answering.{channel_after};
ghost use Rattle.vdisk_server.specs.Rules.{in_hand, owed_message, session_owes};
ghost use Rattle.vdisk_server.specs.Standing.{IsOpen};

use crate::answers::ServerOut;
use crate::session::RingSession;
use descriptor_work::{UnitBuffer, Work};
use disk_requests::disk_bytes;
use dring::{PeerRing, slot_of};
use flat_store::Region;
use ldc_link::{Link, Role};
use ldc_packet::Subtype;
use ldc_queue::{Channel, End};
use map_table::Cookie;
use std::alloc::Global;
use std::marker::Model;
use vdisk_msg::SLOT;
use vio_bytes::NoMemory;
use vio_handshake::{Handshake, Offer, Session};
use vio_tag::{Cause, Message, MsgBody};

/// Of a disk's server, by the class of its end in VER_INFO.
const VDEV_DISK_SERVER: u8 = 4;

/// What a server offers: version 1.1, its number of blocks, and no ring of its own.
fn offer(blocks: u64, slots: u32) -> Offer
    ensures { result ≡ server_offer blocks slots }
{
    Offer {
        minor: 1,
        class: VDEV_DISK_SERVER,
        attr: disk_bytes(blocks),
        slots: 0,
        slot_size: SLOT as u32,
        count: 0,
        cookies: [Cookie::NONE; 14],
        both_rings: false,
        peer_slots: slots,
    }
}

/// The link and the handshake of the end, the session that is open, and the descriptor in work.
#[derive(Drop)]
pub(crate) struct ServerEnd {
    pub link: Link,
    pub handshake: Handshake,
    pub region: Region,
    /// The slots of the ring that it expects of its client.
    pub slots: u32,
    pub session: Option<RingSession>,
    pub work: Option<Work>,
    /// The bytes of a unit between its two pieces.
    pub unit: UnitBuffer,
}

impl Model for ServerEnd {
    ghost use Rattle.std.specs.Prelude.{option_map};
    ghost use Rattle.descriptor_work.specs.Fields.{work_with};
    ghost use Rattle.lane_models.specs.ServerState.{ServerState};

    ghost Value = { ServerState };

    // the bytes of a unit count only between its two pieces
    ghost view = { λ e. record {
      link = e.link;
      handshake = e.handshake;
      first = e.region.first;
      blocks = e.region.blocks;
      slots = e.slots;
      session = e.session;
      work = option_map (λ work. work_with work e.unit) e.work;
    } };
}

impl ServerEnd {
    pub fn new(alloc: Global, region: Region, slots: u32) -> Result<ServerEnd, NoMemory>
        ensures { IfOk result (λ e. e ≡ fresh_server region.first region.blocks slots) }
    {
        Ok(ServerEnd {
            link: Link::new(Role::Responder),
            handshake: Handshake::new(Role::Responder, &offer(region.blocks, slots)),
            region,
            slots,
            session: None,
            work: None,
            unit: UnitBuffer::new(alloc)?,
        })
    }

    /// Makes all its values new.
    pub fn forget(&mut self)
        requires link { self.old.link.role ≡ Responder }
        requires handshake { self.old.handshake.role ≡ Responder }
        requires offer { self.old.handshake.offer ≡ server_offer self.old.blocks self.old.slots }
        ensures { self.new ≡ restarted_server self.old }
    {
        self.link.forget();
        self.handshake.forget();
        self.drop_session();
    }

    /// Configures the end and begins anew: the session and all half-done work go.
    pub fn begin_anew(&mut self, channel: &mut Channel)
        ensures state { self.new ≡ joined_server self.old }
        ensures channel { channel.new ≡ configured_channel B channel.old }
    {
        self.link.join(channel, End::B);
        self.handshake.drop_session();
        self.drop_session();
    }

    // The session ends, with the descriptor in work.
    fn drop_session(&mut self)
        ensures { self.new ≡ record self.old { session = None; work = None } }
    {
        self.session = None;
        self.work = None;
    }

    /// Begins anew for a cause.
    pub fn reset_for(
        &mut self,
        channel: &mut Channel,
        cause: Cause,
        packet: Option<[u8; 64]>,
        out: &mut ServerOut,
    )
        ensures answer { out.new ≡ ServerOut.Reset cause packet }
        ensures state { self.new ≡ joined_server self.old }
        ensures channel { channel.new ≡ configured_channel B channel.old }
    {
        self.begin_anew(channel);
        *out = ServerOut::Reset { cause, packet };
    }

    /// What the handshake agreed on, while the session is open.
    pub fn agreed(&self) -> Session
        requires { self.now.handshake.phase ≡ Open }
        ensures { result ≡ self.now.handshake.draft }
    {
        match self.handshake.session() {
            Some(session) => session,
            None => unreachable!(),
        }
    }

    /// The slots of the client's ring.
    pub fn peer_slots(&self) -> u32
        requires { self.now.handshake.phase ≡ Open }
        ensures { result ≡ self.now.handshake.draft.peer_slots }
    {
        self.agreed().peer_slots
    }

    /// The slot of a descriptor by its number.
    pub fn slot_at(&self, number: u64) -> u32
        requires open { self.now.handshake.phase ≡ Open }
        requires some { 0 < self.now.handshake.draft.peer_slots }
        ensures slot { result ≡ slot_at self.now number }
        ensures within { result < self.now.handshake.draft.peer_slots }
    {
        slot_of(number, 0, self.peer_slots())
    }

    /// The client's ring.
    pub fn peer_ring(&self) -> PeerRing
        requires { self.now.handshake.phase ≡ Open }
        ensures { result ≡ peer_ring self.now }
    {
        let Session {
            peer_slots,
            peer_count,
            peer_cookies,
            ..
        } = self.agreed();
        PeerRing {
            slots: peer_slots,
            count: peer_count,
            cookies: peer_cookies,
        }
    }

    /// Whether a message is to be offered next. A message is long, so it is made only where it is said.
    pub fn owes_message(&self) -> bool
        ensures some { result ≡ is_some (owed_message self.now) }
        ensures none { result ≡ false → owed_message self.now ≡ None }
    {
        self.handshake.owes() || self.owes_answer()
    }

    /// Whether each descriptor of a range is finished.
    fn owes_answer(&self) -> bool
        ensures { result ≡ is_some (session_owes self.now self.now.session) }
    {
        match self.session {
            Some(session) => session.range.is_some() && session.finished == session.asked,
            None => false,
        }
    }

    /// The INFO's fields, acknowledged, once each descriptor of its range is finished.
    pub fn owed_answer(&self) -> Option<Message>
        requires { IsOpen self.now.session self.now.handshake.phase }
        ensures { result ≡ session_owes self.now self.now.session }
    {
        let session = self.session?;
        let range = session.range?;
        if session.finished != session.asked {
            return None;
        }
        let agreed = self.agreed();
        Some(Message {
            subtype: Subtype::Ack,
            sid: agreed.sid,
            body: MsgBody::DringData {
                seq: range.seq,
                ident: agreed.ident_peer,
                start: range.start,
                end: range.end,
                state: range.state,
            },
        })
    }

    /// The session whose range isn't answered yet.
    pub fn in_hand(&self) -> Option<RingSession>
        ensures { result ≡ in_hand self.now.session }
    {
        match self.session {
            Some(session) if session.range.is_some() => Some(session),
            _ => None,
        }
    }
}
