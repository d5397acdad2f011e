// The table: in each state an end takes one message of the session's, and all others are out of order.

ghost use Rattle.std.specs.Prelude.{◌≡◌};
ghost use Rattle.vio_handshake.specs.Rules.{row, taken};
ghost use Rattle.vio_handshake.specs.State.{IsFault};

use crate::handshake::{Handshake, Phase};
use crate::session::HsOut;
use ldc_link::Role;
use vio_tag::{Cause, Message};

pub(crate) const ORDER: HsOut = HsOut::Fault(Cause::Order);

pub(crate) const REFUSED: HsOut = HsOut::Fault(Cause::Refused);

impl Handshake {
    /// Takes a message that belongs to the session, as the state has it.
    pub(crate) fn take_row(&mut self, message: &Message) -> HsOut
        ensures exact { taken result self.new ≡ row self.old.role self.old.phase self.old message.now.subtype message.now.sid message.now.body }
        ensures unchanged { IsFault result → self.new ≡ self.old }
    {
        match (self.role, self.phase) {
            (Role::Initiator, Phase::Version) => self.take_version_ack(message),
            (Role::Responder, Phase::Version) => self.take_version(message),
            (Role::Initiator, Phase::Attributes) => self.take_attributes_ack(message),
            (Role::Responder, Phase::Attributes) => self.take_attributes(message),
            (_, Phase::OwnRing) => self.take_ring_ack(message),
            (_, Phase::PeerRing) => self.take_ring(message),
            (_, Phase::OwnReady) => self.take_ready_ack(message),
            (_, Phase::PeerReady) => self.take_ready(message),
            _ => ORDER,
        }
    }
}
