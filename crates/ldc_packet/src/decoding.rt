// From bytes to a packet.

ghost use Rattle.std.specs.Prelude.{◌≡◌, ◌-◌, ◌≤◌, Some, false, length, take, drop, replicate, IfSome, IfNone};
ghost use Rattle.vio_bytes.specs.Place.{number_at};
ghost use Rattle.ldc_packet.specs.Decoding.{Unpacks};
ghost use Rattle.ldc_packet.specs.Fault.{first_fault, is_ctrl, is_length, is_subtype};
ghost use Rattle.ldc_packet.specs.Form.{HasForm, IsWellFormed};
ghost use Rattle.ldc_packet.specs.Spelling.{ctrl_at, env_at, payload_at, subtype_code, type_at, type_code, SpellsBody, SpellsPacket};
ghost use Rattle.ldc_packet.specs.declared.packet.Subtype.TheVariants.{Info};

use crate::flags::part_env_of;
use crate::layout::{
    CTRL, ENV, LDC_ACK, LDC_CTRL, LDC_DATA, LDC_INFO, LDC_NACK, LDC_RDX, LDC_RTR, LDC_RTS,
    LDC_VERS, MAJOR, MINOR, PACKET_HEAD, PAYLOAD, PAYLOAD_LENGTH, SEQID, STYPE, TYPE, VERS_PAYLOAD,
};
use crate::packet::{Body, Packet, PacketFault, Subtype};
use vio_bytes::{get_field, get_u8, get_u16, get_u32};

/// The packet that the bytes spell, or the first fault of the bytes in the order of `PacketFault`.
///
/// Bytes that the packet's form doesn't name are free: a peer may leave old bytes there. Those of a
/// part past its length are zeros in the answer.
pub fn decode(bytes: &[u8; 64]) -> Result<Packet, PacketFault>
    ensures decodes { Unpacks bytes.now result }

    // No other packet is spelled by the bytes, and no other fault is their first.
    ensures only { (packet : Packet) → IsWellFormed packet → SpellsPacket bytes.now packet → result ≡ Ok packet }
    ensures refused { (fault : PacketFault) → first_fault bytes.now ≡ Some fault → result ≡ Err fault }
{
    match get_field!(get_u8, PACKET_HEAD, bytes, TYPE) {
        LDC_CTRL => control(bytes),
        LDC_DATA => data(bytes),
        _ => Err(PacketFault::Kind),
    }
}

// A control packet.
fn control(bytes: &[u8; 64]) -> Result<Packet, PacketFault>
    requires { type_at bytes.now ≡ 1 }
    ensures decodes { Unpacks bytes.now result }
{
    let Some(subtype) = subtype_of(get_field!(get_u8, PACKET_HEAD, bytes, STYPE)) else {
        return Err(PacketFault::Subtype);
    };
    let Some(body) = control_body(bytes) else {
        return Err(PacketFault::Ctrl);
    };
    let seqid = get_field!(get_u32, PACKET_HEAD, bytes, SEQID);
    Ok(Packet {
        subtype,
        seqid,
        body,
    })
}

// A data packet, which has the subtype INFO.
fn data(bytes: &[u8; 64]) -> Result<Packet, PacketFault>
    requires { type_at bytes.now ≡ 2 }
    ensures decodes { Unpacks bytes.now result }
{
    if get_field!(get_u8, PACKET_HEAD, bytes, STYPE) != LDC_INFO {
        return Err(PacketFault::Subtype);
    }
    let Some(body) = part(bytes) else {
        return Err(PacketFault::Length);
    };
    let seqid = get_field!(get_u32, PACKET_HEAD, bytes, SEQID);
    Ok(Packet {
        subtype: Subtype::Info,
        seqid,
        body,
    })
}

fn subtype_of(code: u8) -> Option<Subtype>
    ensures some { IfSome result (λ subtype. code ≡ subtype_code subtype) }
    ensures none { IfNone result (is_subtype 1 code ≡ false) }
{
    match code {
        LDC_INFO => Some(Subtype::Info),
        LDC_ACK => Some(Subtype::Ack),
        LDC_NACK => Some(Subtype::Nack),
        _ => None,
    }
}

fn control_body(bytes: &[u8; 64]) -> Option<Body>
    ensures some { IfSome result (λ body. (type_code body ≡ 1) × SpellsBody bytes.now body) }
    ensures none { IfNone result (is_ctrl 1 (ctrl_at bytes.now) ≡ false) }
{
    let mode = get_field!(get_u8, PACKET_HEAD, bytes, ENV);
    match get_field!(get_u8, PACKET_HEAD, bytes, CTRL) {
        LDC_VERS => Some(Body::Vers {
            major: get_field!(get_u16, VERS_PAYLOAD, bytes, MAJOR),
            minor: get_field!(get_u16, VERS_PAYLOAD, bytes, MINOR),
        }),
        LDC_RTS => Some(Body::Rts { mode }),
        LDC_RTR => Some(Body::Rtr { mode }),
        LDC_RDX => Some(Body::Rdx),
        _ => None,
    }
}

fn part(bytes: &[u8; 64]) -> Option<Body>
    ensures some { IfSome result (λ body. (type_code body ≡ 2) × HasForm Info body × SpellsBody bytes.now body) }
    ensures none { IfNone result (is_length 2 (env_at bytes.now) ≡ false) }
{
    let env = part_env_of(get_field!(get_u8, PACKET_HEAD, bytes, ENV));
    let len = env.len as usize;
    if len == 0 || len > PAYLOAD_LENGTH {
        return None;
    }
    Some(Body::Part {
        start: env.start,
        stop: env.stop,
        len: env.len,
        bytes: part_bytes(bytes, len),
    })
}

// The first `len` bytes of the payload, and zeros after them.
fn part_bytes(bytes: &[u8; 64], len: usize) -> [u8; 56]
    requires { len ≤ 56 }
    ensures room { length result ≡ 56 }
    ensures carried { take len (payload_at bytes.now) ≡ take len result }
    ensures zeros { drop len result ≡ replicate (56 - len) 0 }
{
    let mut part = [0; PAYLOAD_LENGTH];
    part[..len].copy_from_slice(&bytes[PAYLOAD..PAYLOAD + len]);
    part
}
