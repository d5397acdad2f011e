// Versions: the responder agrees to major 1 with the smaller minor, and refuses any other.

ghost use Rattle.std.specs.Prelude.{◌≡◌, min};
ghost use Rattle.ldc_link.specs.declared.phase.Role.TheVariants.{Initiator, Responder};
ghost use Rattle.vio_handshake.specs.Rules.{agrees_minor, owes, refuses_version, row, taken, version_answered, version_asked};
ghost use Rattle.vio_handshake.specs.State.{IsFault, begun};
ghost use Rattle.vio_handshake.specs.declared.handshake.Phase.TheVariants.{Attributes, Version};
ghost use Rattle.vio_handshake.specs.Messages.{ack};
ghost use Rattle.vio_tag.specs.declared.message.MsgBody.TheVariants.{Ver};

use crate::handshake::{Handshake, Phase};
use crate::messages::{ack, info, nack};
use crate::rows::{ORDER, REFUSED};
use crate::session::{HsOut, Session};
use ldc_packet::Subtype;
use vio_tag::{Message, MsgBody};

/// The only major version.
const MAJOR: u16 = 1;

impl Handshake {
    /// Begins the next session, and says the highest version.
    pub(crate) fn offer_version(&mut self)
        ensures { self.new ≡ begun Initiator self.old }
    {
        let sid = self.last_sid.wrapping_add(1);
        self.last_sid = sid;
        self.sid = Some(sid);
        self.draft = Session {
            sid,
            ..Session::NONE
        };
        let version = MsgBody::Ver {
            major: MAJOR,
            minor: self.offer.minor,
            class: self.offer.class,
        };
        self.owe(Phase::Version, info(sid, version));
    }

    /// The responder waits for VER INFO.
    pub(crate) fn take_version(&mut self, message: &Message) -> HsOut
        ensures exact { taken result self.new ≡ row Responder Version self.old message.now.subtype message.now.sid message.now.body }
        ensures unchanged { IsFault result → self.new ≡ self.old }
    {
        match (message.subtype, &message.body) {
            (
                Subtype::Info,
                MsgBody::Ver {
                    major,
                    minor,
                    class,
                },
            ) => {
                self.answer_version(message.sid, *major, *minor, *class);
                HsOut::Nothing
            }
            _ => ORDER,
        }
    }

    /// From the first VER INFO on the responder knows the session's number, whether it agrees or not.
    fn answer_version(&mut self, sid: u32, major: u16, minor: u16, class: u8)
        ensures { self.new ≡ version_asked self.old sid major minor class }
    {
        self.sid = Some(sid);
        self.draft.sid = sid;
        if major == MAJOR {
            self.agree_version(sid, minor);
        } else if major == 0 {
            self.refuse_version(sid, 0, 0, class);
        } else {
            self.refuse_version(sid, MAJOR, self.offer.minor, class);
        }
    }

    fn agree_version(&mut self, sid: u32, minor: u16)
        ensures { self.new ≡ owes Attributes (ack sid (Ver 1 (min minor self.old.offer.minor) self.old.offer.class)) (agrees_minor (min minor self.old.offer.minor) self.old) }
    {
        let minor = minor.min(self.offer.minor);
        self.draft.minor = minor;
        let version = MsgBody::Ver {
            major: MAJOR,
            minor,
            class: self.offer.class,
        };
        self.owe(Phase::Attributes, ack(sid, version));
    }

    fn refuse_version(&mut self, sid: u32, major: u16, minor: u16, class: u8)
        ensures { self.new ≡ refuses_version sid major minor class self.old }
    {
        let version = MsgBody::Ver {
            major,
            minor,
            class,
        };
        self.owe(Phase::Version, nack(sid, version));
    }

    /// The initiator waits for the answer to its VER INFO.
    pub(crate) fn take_version_ack(&mut self, message: &Message) -> HsOut
        ensures exact { taken result self.new ≡ row Initiator Version self.old message.now.subtype message.now.sid message.now.body }
        ensures unchanged { IsFault result → self.new ≡ self.old }
    {
        match (message.subtype, &message.body) {
            (Subtype::Ack, MsgBody::Ver { major, minor, .. }) => {
                self.judge_version(message.sid, *major, *minor)
            }
            (Subtype::Nack, MsgBody::Ver { .. }) => REFUSED,
            _ => ORDER,
        }
    }

    /// Any minor up to the own one will do.
    fn judge_version(&mut self, sid: u32, major: u16, minor: u16) -> HsOut
        ensures exact { taken result self.new ≡ version_answered self.old sid major minor }
        ensures unchanged { IsFault result → self.new ≡ self.old }
    {
        if major != MAJOR || minor > self.offer.minor {
            return REFUSED;
        }
        self.draft.minor = minor;
        self.say_attributes(sid);
        HsOut::Nothing
    }
}
