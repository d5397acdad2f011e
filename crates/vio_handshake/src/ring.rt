// Rings: their registration, and the numbers by which messages name them.

ghost use Rattle.std.specs.Prelude.{◌≡◌, ◌-◌, ◌%◌, ◌&&◌, ◌==◌};
ghost use Rattle.ldc_link.specs.declared.phase.Role.TheVariants.{Initiator, Responder};
ghost use Rattle.map_table.specs.declared.cookie.Cookie.{Cookie};
ghost use Rattle.vio_handshake.specs.Acceptance.{accepts_ring, are_aligned, hold_ring, is_aligned, sizes};
ghost use Rattle.vio_handshake.specs.Messages.{info, own_ring};
ghost use Rattle.vio_handshake.specs.Rules.{behind_ring, owes, ring_answered, ring_asked, row, taken};
ghost use Rattle.vio_handshake.specs.State.{IsFault};
ghost use Rattle.vio_handshake.specs.declared.handshake.Phase.TheVariants.{OwnRing, PeerRing};

use crate::handshake::{Handshake, Phase};
use crate::messages::{VIO_TX_DRING, ack, info, nack, own_ring};
use crate::rows::{ORDER, REFUSED};
use crate::session::{HsOut, Offer};
use ldc_link::Role;
use ldc_packet::Subtype;
use map_table::Cookie;
use vio_tag::{MOST_RING_COOKIES, Message, MsgBody};

impl Handshake {
    pub(crate) fn say_own_ring(&mut self, sid: u32)
        ensures { self.new ≡ owes OwnRing (info sid (own_ring self.old.offer)) self.old }
    {
        let ring = own_ring(&self.offer);
        self.owe(Phase::OwnRing, info(sid, ring));
    }

    /// This end waits for the answer to the registration of its ring. Any agreement will do: its ident is the number
    /// by which messages name the ring.
    pub(crate) fn take_ring_ack(&mut self, message: &Message) -> HsOut
        ensures exact { taken result self.new ≡ row self.old.role OwnRing self.old message.now.subtype message.now.sid message.now.body }
        ensures unchanged { IsFault result → self.new ≡ self.old }
    {
        match (message.subtype, &message.body) {
            (Subtype::Ack, MsgBody::DringReg { ident, .. }) => {
                self.name_own_ring(message.sid, *ident);
                HsOut::Nothing
            }
            (Subtype::Nack, MsgBody::DringReg { .. }) => REFUSED,
            _ => ORDER,
        }
    }

    /// Where both ends have a ring, the initiator waits for the peer's next; else it is ready.
    fn name_own_ring(&mut self, sid: u32, ident: u64)
        ensures { self.new ≡ ring_answered self.old.role self.old sid ident }
    {
        self.draft.ident_own = ident;
        match self.role {
            Role::Initiator if self.offer.both_rings => self.phase = Phase::PeerRing,
            Role::Initiator => self.say_ready(sid),
            Role::Responder => self.phase = Phase::PeerReady,
        }
    }

    /// This end waits for the registration of the peer's ring.
    pub(crate) fn take_ring(&mut self, message: &Message) -> HsOut
        ensures exact { taken result self.new ≡ row self.old.role PeerRing self.old message.now.subtype message.now.sid message.now.body }
        ensures unchanged { IsFault result → self.new ≡ self.old }
    {
        match (message.subtype, &message.body) {
            (
                Subtype::Info,
                MsgBody::DringReg {
                    ident,
                    slots,
                    slot_size,
                    options,
                    count,
                    cookies,
                },
            ) => {
                self.answer_ring(
                    message.sid,
                    *ident,
                    *slots,
                    *slot_size,
                    *options,
                    *count,
                    cookies,
                );
                HsOut::Nothing
            }
            _ => ORDER,
        }
    }

    fn answer_ring(
        &mut self,
        sid: u32,
        ident: u64,
        slots: u32,
        slot_size: u32,
        options: u16,
        count: u32,
        cookies: &[Cookie; 14],
    )
        ensures { self.new ≡ ring_asked self.old sid ident slots slot_size options count cookies.now }
    {
        let accepted = accepts_ring(&self.offer, slots, slot_size, options, count, cookies);
        let ring = MsgBody::DringReg {
            ident: if accepted { sid as u64 } else { ident },
            slots,
            slot_size,
            options,
            count,
            cookies: *cookies,
        };
        if !accepted {
            self.owe(Phase::PeerRing, nack(sid, ring));
            return;
        }
        self.draft.ident_peer = sid as u64;
        self.draft.peer_slots = slots;
        self.draft.peer_count = count;
        self.draft.peer_cookies = *cookies;
        self.owe(self.behind_ring(), ack(sid, ring));
    }

    /// Where both ends have a ring, this end goes on.
    fn behind_ring(&self) -> Phase
        ensures { result ≡ behind_ring self.now.offer.both_rings }
    {
        if self.offer.both_rings {
            Phase::PeerRingTaken
        } else {
            Phase::PeerReady
        }
    }
}

/// Whether this is a ring as this end expects it, which its owner sends from, in 1 to 14 cookies that hold it.
#[tactic(auto, unfolding(crate::specs::Acceptance::accepts_ring))]
fn accepts_ring(
    offer: &Offer,
    slots: u32,
    slot_size: u32,
    options: u16,
    count: u32,
    cookies: &[Cookie; 14],
) -> bool
    ensures { result ≡ accepts_ring offer.now slots slot_size options count cookies.now }
{
    slots == offer.peer_slots
        && slot_size == offer.slot_size
        && options & VIO_TX_DRING == VIO_TX_DRING
        && count >= 1
        && count <= MOST_RING_COOKIES
        && hold_ring(&cookies[..count as usize], slots as u64 * slot_size as u64)
}

/// Whether the cookies are aligned and name so many bytes together.
#[tactic(auto, unfolding(crate::specs::Acceptance::hold_ring))]
fn hold_ring(cookies: &[Cookie], bytes: u64) -> bool
    ensures { result ≡ hold_ring cookies.now bytes }
{
    are_aligned(cookies) && left_over(cookies, bytes) == 0
}

/// Whether each cookie begins at a multiple of 8 bytes, and is so many.
fn are_aligned(cookies: &[Cookie]) -> bool
    ensures { result ≡ are_aligned cookies.now }
{
    for cookie in cookies {
        if !is_aligned(cookie) {
            return false;
        }
    }
    true
}

fn is_aligned(cookie: &Cookie) -> bool
    ensures { result ≡ is_aligned cookie.now }
{
    cookie.address % 8 == 0 && cookie.size % 8 == 0
}

/// How many of so many bytes the cookies don't hold.
fn left_over(cookies: &[Cookie], bytes: u64) -> u64
    ensures { result ≡ bytes - sizes cookies.now }
{
    let mut rest = bytes;
    for cookie in cookies {
        rest = rest.saturating_sub(cookie.size);
    }
    rest
}
