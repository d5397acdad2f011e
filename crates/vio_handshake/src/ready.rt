// Ready for data: each end says so, and the other agrees.

ghost use Rattle.std.specs.Prelude.{◌≡◌};
ghost use Rattle.vio_handshake.specs.Messages.{info};
ghost use Rattle.vio_handshake.specs.Rules.{owes, ready_answered, row, taken};
ghost use Rattle.vio_handshake.specs.State.{IsFault};
ghost use Rattle.vio_handshake.specs.declared.handshake.Phase.TheVariants.{OwnReady, PeerReady};
ghost use Rattle.vio_tag.specs.declared.message.MsgBody.TheVariants.{Rdx};

use crate::handshake::{Handshake, Phase};
use crate::messages::{ack, info};
use crate::rows::{ORDER, REFUSED};
use crate::session::HsOut;
use ldc_link::Role;
use ldc_packet::Subtype;
use vio_tag::{Message, MsgBody};

impl Handshake {
    pub(crate) fn say_ready(&mut self, sid: u32)
        ensures { self.new ≡ owes OwnReady (info sid Rdx) self.old }
    {
        self.owe(Phase::OwnReady, info(sid, MsgBody::Rdx));
    }

    /// This end waits for the answer to its RDX.
    pub(crate) fn take_ready_ack(&mut self, message: &Message) -> HsOut
        ensures exact { taken result self.new ≡ row self.old.role OwnReady self.old message.now.subtype message.now.sid message.now.body }
        ensures unchanged { IsFault result → self.new ≡ self.old }
    {
        match (message.subtype, &message.body) {
            (Subtype::Ack, MsgBody::Rdx) => self.be_ready(),
            (Subtype::Nack, MsgBody::Rdx) => REFUSED,
            _ => ORDER,
        }
    }

    /// The initiator waits for the responder's RDX next; the responder's session is open.
    fn be_ready(&mut self) -> HsOut
        ensures exact { taken result self.new ≡ ready_answered self.old.role self.old }
        ensures unchanged { IsFault result → self.new ≡ self.old }
    {
        match self.role {
            Role::Initiator => {
                self.phase = Phase::PeerReady;
                HsOut::Nothing
            }
            Role::Responder => {
                self.phase = Phase::Open;
                HsOut::Opens
            }
        }
    }

    /// This end waits for the peer's RDX.
    pub(crate) fn take_ready(&mut self, message: &Message) -> HsOut
        ensures exact { taken result self.new ≡ row self.old.role PeerReady self.old message.now.subtype message.now.sid message.now.body }
        ensures unchanged { IsFault result → self.new ≡ self.old }
    {
        match (message.subtype, &message.body) {
            (Subtype::Info, MsgBody::Rdx) => {
                self.owe(Phase::PeerReadyTaken, ack(message.sid, MsgBody::Rdx));
                HsOut::Nothing
            }
            _ => ORDER,
        }
    }
}
