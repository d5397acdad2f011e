// The messages that a handshake says.

ghost use Rattle.std.specs.Prelude.{◌≡◌};
ghost use Rattle.vio_handshake.specs.Messages.{ack, info, nack, own_ring};

use crate::session::Offer;
use ldc_packet::Subtype;
use vio_tag::{Message, MsgBody};

/// The option of a ring that its owner sends from.
pub(crate) const VIO_TX_DRING: u16 = 0x0001;

/// What an end says of itself.
pub(crate) fn info(sid: u32, body: MsgBody) -> Message
    ensures { result ≡ info sid body }
{
    let subtype = Subtype::Info;
    Message { subtype, sid, body }
}

/// Its agreement.
pub(crate) fn ack(sid: u32, body: MsgBody) -> Message
    ensures { result ≡ ack sid body }
{
    let subtype = Subtype::Ack;
    Message { subtype, sid, body }
}

/// Its refusal.
pub(crate) fn nack(sid: u32, body: MsgBody) -> Message
    ensures { result ≡ nack sid body }
{
    let subtype = Subtype::Nack;
    Message { subtype, sid, body }
}

/// The registration of the own ring, which has no number yet.
pub(crate) fn own_ring(offer: &Offer) -> MsgBody
    ensures { result ≡ own_ring offer.now }
{
    MsgBody::DringReg {
        ident: 0,
        slots: offer.slots,
        slot_size: offer.slot_size,
        options: VIO_TX_DRING,
        count: offer.count,
        cookies: offer.cookies,
    }
}
