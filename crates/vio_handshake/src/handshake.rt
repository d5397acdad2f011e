// The state of a handshake, and its calls.

ghost use Rattle.std.specs.Prelude.{◌≡◌, ◌≢◌, None, Some, is_some};
ghost use Rattle.vio_handshake.specs.Rules.{is_declined, opens_by_put, owes, handshake_sent, handshake_take, sid_fault, taken};
ghost use Rattle.vio_handshake.specs.State.{IsFault, forgotten_handshake, fresh_handshake, joined_handshake, session_of, handshake_up};
ghost use Rattle.vio_handshake.specs.declared.handshake.Phase.TheVariants.{Down};

use crate::messages::nack;
use crate::session::{HsOut, Offer, Session};
use ldc_link::Role;
use ldc_packet::Subtype;
use vio_tag::{Cause, Message, MsgBody};

/// What an end waits for, once it owes no message.
#[derive(Clone, Copy, Debug, PartialEq, Eq)]
pub enum Phase {
    /// That the link is up.
    Down,
    /// VER_INFO: the initiator for its answer, the responder for the initiator's.
    Version,
    /// ATTR_INFO: likewise.
    Attributes,
    /// The answer to the registration of its own ring.
    OwnRing,
    /// The registration of the peer's ring.
    PeerRing,
    /// Nothing: where both ends have a ring, its next message follows the agreement that it owes.
    PeerRingTaken,
    /// The answer to its own RDX.
    OwnReady,
    /// The peer's RDX.
    PeerReady,
    /// Nothing: its own RDX, or the session, follows the agreement that it owes.
    PeerReadyTaken,
    /// Nothing: the session is open.
    Open,
}

/// One end's part in the handshake. It holds all inline, and takes no memory.
#[derive(Clone, Copy, Debug, PartialEq, Eq)]
pub struct Handshake {
    pub(crate) role: Role,
    pub(crate) offer: Offer,
    pub(crate) phase: Phase,
    /// The session's number, once it is known.
    pub(crate) sid: Option<u32>,
    /// The number of the last session that an initiator began, 0 before the first.
    pub(crate) last_sid: u32,
    /// The message that is to be put.
    pub(crate) owed: Option<Message>,
    /// What the session holds, as far as it is agreed on.
    pub(crate) draft: Session,
}

impl Handshake {
    /// The end of a link that isn't up yet.
    pub fn new(role: Role, offer: &Offer) -> Handshake
        ensures { result ≡ fresh_handshake role offer.now }
    {
        Handshake {
            role,
            offer: *offer,
            phase: Phase::Down,
            sid: None,
            last_sid: 0,
            owed: None,
            draft: Session::NONE,
        }
    }

    /// The link is up: a session begins. The initiator owes VER INFO with its highest version and a new sid, one more
    /// than the last, modulo 2^32, the first being 1.
    pub fn link_up(&mut self)
        ensures { self.new ≡ handshake_up self.old }
    {
        self.drop_session();
        match self.role {
            Role::Initiator => self.offer_version(),
            Role::Responder => self.phase = Phase::Version,
        }
    }

    /// Takes one message of the handshake, of this state or any other. A message of another session is a fault, `Sid`.
    /// So is one that the state doesn't take, `Order`, and a refusal, or an agreement that this end doesn't accept,
    /// `Refused`: the first of these. Then nothing changes. What the peer says and this end doesn't accept is answered
    /// by NACK.
    pub fn take(&mut self, message: &Message) -> HsOut
        requires up { self.old.phase ≢ Down }
        requires free { self.old.owed ≡ None }
        ensures exact { taken result self.new ≡ handshake_take self.old message.now }
        ensures unchanged { IsFault result → self.new ≡ self.old }
    {
        if let Some(cause) = sid_fault(self.sid, message.sid) {
            return HsOut::Fault(cause);
        }
        if is_declined(message) {
            self.owed = Some(nack(message.sid, message.body));
            return HsOut::Nothing;
        }
        self.take_row(message)
    }

    /// The message that is owed.
    pub fn next(&self) -> Option<Message>
        ensures { result ≡ self.now.owed }
    {
        self.owed
    }

    /// Whether a message is owed. A message is long, so it is made only where it is said.
    pub fn owes(&self) -> bool
        ensures { result ≡ is_some self.now.owed }
    {
        self.owed.is_some()
    }

    /// The message that was owed was put whole. Tells whether the session opened by that.
    pub fn sent(&mut self) -> bool
        requires { self.old.owed ≢ None }
        ensures state { self.new ≡ handshake_sent self.old }
        ensures opens { result ≡ opens_by_put self.old.role self.old.phase }
    {
        match (self.role, self.phase) {
            (Role::Initiator, Phase::PeerReadyTaken) => {
                self.owed = None;
                self.phase = Phase::Open;
                return true;
            }
            (Role::Responder, Phase::PeerRingTaken) => self.say_own_ring(self.draft.sid),
            (Role::Initiator, Phase::PeerRingTaken) | (Role::Responder, Phase::PeerReadyTaken) =>
                self.say_ready(self.draft.sid),
            _ => self.owed = None,
        }
        false
    }

    /// This message is owed, and once it was put this is waited for.
    pub(crate) fn owe(&mut self, phase: Phase, message: Message)
        ensures { self.new ≡ owes phase message self.old }
    {
        self.phase = phase;
        self.owed = Some(message);
    }

    /// The session, while it is open.
    pub fn session(&self) -> Option<Session>
        ensures { result ≡ session_of self.now }
    {
        match self.phase {
            Phase::Open => Some(self.draft),
            _ => None,
        }
    }

    /// The link went down: the session and the handshake end. An initiator's count of sessions stays.
    pub fn drop_session(&mut self)
        ensures { self.new ≡ joined_handshake self.old }
    {
        self.phase = Phase::Down;
        self.sid = None;
        self.owed = None;
        self.draft = Session::NONE;
    }

    /// Begins anew, with the first session.
    pub fn forget(&mut self)
        ensures { self.new ≡ forgotten_handshake self.old }
    {
        self.drop_session();
        self.last_sid = 0;
    }
}

/// A message of another session, once the number of this one is known.
fn sid_fault(sid: Option<u32>, found: u32) -> Option<Cause>
    ensures { result ≡ sid_fault sid found }
{
    match sid {
        Some(expected) if expected != found => Some(Cause::Sid { expected, found }),
        _ => None,
    }
}

/// What is answered by NACK in every state: data that isn't in a ring, and the end of a ring.
fn is_declined(message: &Message) -> bool
    ensures { result ≡ is_declined message.now.subtype message.now.body }
{
    match (message.subtype, message.body) {
        (Subtype::Info, MsgBody::DringUnreg { .. } | MsgBody::Plain { .. }) => true,
        _ => false,
    }
}
