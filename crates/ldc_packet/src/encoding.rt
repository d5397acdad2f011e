// From a packet to bytes.

ghost use Rattle.std.specs.Prelude.{◌≡◌, ◌<◌, ◌++◌, Ok, take, drop, replicate};
ghost use Rattle.ldc_packet.specs.Decoding.{Unpacks};
ghost use Rattle.ldc_packet.specs.Form.{BodyHasWidths, HasWidths, IsWellFormed};
ghost use Rattle.ldc_packet.specs.Spelling.{SpellsPacket, canonical, ctrl_byte, env_byte, payload, subtype_code, type_code};

use crate::flags::{PartEnv, env_of_part};
use crate::layout::{
    CTRL, ENV, LDC_ACK, LDC_CTRL, LDC_DATA, LDC_INFO, LDC_NACK, LDC_RDX, LDC_RTR, LDC_RTS,
    LDC_VERS, MAJOR, MINOR, PACKET_HEAD, PAYLOAD, SEQID, STYPE, TYPE, VERS_PAYLOAD,
};
use crate::packet::{Body, Packet, Subtype};
use vio_bytes::{put_field, put_u8, put_u16, put_u32};

/// Writes the canonical spelling of a well-formed packet: its fields, and zeros elsewhere.
pub fn encode(packet: &Packet, out: &mut [u8; 64])
    requires { IsWellFormed packet.now }
    ensures written { out.new ≡ canonical packet.now }
    ensures spells { SpellsPacket out.new packet.now }
    ensures decodes { Unpacks out.new (Ok packet.now) }
{
    put_packet(packet, out);
}

#[tactic(auto, unfolding(crate::specs::Spelling::canonical))]
fn put_packet(packet: &Packet, out: &mut [u8; 64])
    requires { IsWellFormed packet.now }
    ensures written { out.new ≡ canonical packet.now }

    // A number behind a reference is of its type once it is read, as those of a packet are here.
    ensures widths { HasWidths packet.now }
{
    let Packet {
        subtype,
        seqid,
        body,
    } = *packet;
    out.fill(0);
    put_field!(put_u8, PACKET_HEAD, out, TYPE, type_of(&body));
    put_field!(put_u8, PACKET_HEAD, out, STYPE, code_of(subtype));
    put_field!(put_u8, PACKET_HEAD, out, CTRL, ctrl_of(&body));
    put_field!(put_u8, PACKET_HEAD, out, ENV, env_of(packet));
    put_field!(put_u32, PACKET_HEAD, out, SEQID, seqid);
    put_payload(&body, out);
}

fn type_of(body: &Body) -> u8
    ensures { result ≡ type_code body.now }
{
    match body {
        Body::Vers { .. } | Body::Rts { .. } | Body::Rtr { .. } | Body::Rdx => LDC_CTRL,
        Body::Part { .. } => LDC_DATA,
    }
}

fn code_of(subtype: Subtype) -> u8
    ensures { result ≡ subtype_code subtype }
{
    match subtype {
        Subtype::Info => LDC_INFO,
        Subtype::Ack => LDC_ACK,
        Subtype::Nack => LDC_NACK,
    }
}

fn ctrl_of(body: &Body) -> u8
    ensures { result ≡ ctrl_byte body.now }
{
    match body {
        Body::Vers { .. } => LDC_VERS,
        Body::Rts { .. } => LDC_RTS,
        Body::Rtr { .. } => LDC_RTR,
        Body::Rdx => LDC_RDX,
        Body::Part { .. } => 0,
    }
}

fn env_of(packet: &Packet) -> u8
    requires { IsWellFormed packet.now }
    ensures { result ≡ env_byte packet.now.body }
{
    match packet.body {
        Body::Vers { .. } | Body::Rdx => 0,
        Body::Rts { mode } | Body::Rtr { mode } => mode,
        Body::Part {
            start,
            stop,
            len,
            ..
        } => env_of_part(PartEnv { start, stop, len }),
    }
}

// Writes the payload over zeros.
fn put_payload(body: &Body, out: &mut [u8; 64])
    requires zeros { drop 8 out.old ≡ replicate 56 0 }
    requires env { env_byte body.now < 256 }
    ensures written { out.new ≡ take 8 out.old ++ payload body.now }
    ensures widths { BodyHasWidths body.now }
{
    match body {
        Body::Vers { major, minor } => {
            put_field!(put_u16, VERS_PAYLOAD, out, MAJOR, *major);
            put_field!(put_u16, VERS_PAYLOAD, out, MINOR, *minor);
        }
        Body::Part { bytes, .. } => out[PAYLOAD..].copy_from_slice(bytes),
        Body::Rts { .. } | Body::Rtr { .. } | Body::Rdx => {}
    }
}
