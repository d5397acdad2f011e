// The packets that a link puts.

ghost use Rattle.std.specs.Prelude.{◌≡◌};
ghost use Rattle.ldc_packet.specs.declared.packet.Body.TheVariants.{Vers};
ghost use Rattle.ldc_packet.specs.declared.packet.Subtype.TheVariants.{Info};
ghost use Rattle.ldc_link.specs.Putting.{control};

use crate::handshake::MINOR;
use ldc_packet::{Body, Packet, Subtype};

/// The most bytes of a part.
pub(crate) const PART: usize = 56;

/// A packet of the subtype INFO.
pub(crate) fn info(seqid: u32, body: Body) -> Packet
    ensures { result ≡ control Info seqid body }
{
    Packet {
        subtype: Subtype::Info,
        seqid,
        body,
    }
}

/// A packet that offers, accepts or refuses version `major`.0.
pub(crate) fn version(subtype: Subtype, major: u16) -> Packet
    ensures { result ≡ control subtype 0 (Vers major 0) }
{
    Packet {
        subtype,
        seqid: 0,
        body: Body::Vers {
            major,
            minor: MINOR,
        },
    }
}
