// Data packets, whose part of a message is read and written where it lies.

ghost use Rattle.std.specs.Prelude.{◌≡◌, ◌-◌, ◌<◌, ◌≤◌, ◌++◌, Ok, false, length, take, drop, replicate, IfSome, IfNone};
ghost use Rattle.ldc_packet.specs.Decoding.{Unpacks};
ghost use Rattle.ldc_packet.specs.Parts.{is_part, part_packet};
ghost use Rattle.ldc_packet.specs.Spelling.{canonical, payload_at};

use crate::flags::{PartEnv, env_of_part, part_env_of};
use crate::layout::{
    ENV, LDC_DATA, LDC_INFO, PACKET_HEAD, PAYLOAD, PAYLOAD_LENGTH, SEQID, STYPE, TYPE,
};
use vio_bytes::{get_field, get_u8, get_u32, put_field, put_u8, put_u32};

/// What a data packet says of the part that it carries: its number, whether a message begins and ends with it, and
/// its length, at most 56 bytes. A packet that is read has one of 1 or more.
#[derive(Clone, Copy, Debug, PartialEq, Eq)]
pub struct PartHead {
    pub seqid: u32,
    pub start: bool,
    pub stop: bool,
    pub len: u8,
}

/// The head of the data packet that the bytes spell, if they spell one: then `decode` answers that packet.
pub fn part_head(bytes: &[u8; 64]) -> Option<PartHead>
    ensures some { IfSome result (λ head. Unpacks bytes.now (Ok (part_packet head (payload_at bytes.now)))) }
    ensures within { IfSome result (λ head. head.len ≤ 56) }
    ensures none { IfNone result (is_part bytes.now ≡ false) }
{
    if get_field!(get_u8, PACKET_HEAD, bytes, TYPE) != LDC_DATA
        || get_field!(get_u8, PACKET_HEAD, bytes, STYPE) != LDC_INFO
    {
        return None;
    }
    let env = part_env_of(get_field!(get_u8, PACKET_HEAD, bytes, ENV));
    if env.len == 0 || env.len as usize > PAYLOAD_LENGTH {
        return None;
    }
    Some(PartHead {
        seqid: get_field!(get_u32, PACKET_HEAD, bytes, SEQID),
        start: env.start,
        stop: env.stop,
        len: env.len,
    })
}

/// The part that a data packet of so many bytes carries, where it lies.
pub fn part_within(bytes: &[u8; 64], len: u8) -> &[u8]
    requires { len ≤ 56 }
    ensures { result.now ≡ take len (payload_at bytes.now) }
{
    &bytes[PAYLOAD..PAYLOAD + len as usize]
}

/// Writes the canonical spelling of the data packet with this head that carries the front of `bytes`.
#[tactic(auto, unfolding(crate::specs::Spelling::canonical))]
pub fn encode_part(head: PartHead, bytes: &[u8], out: &mut [u8; 64])
    requires within { head.len ≤ 56 }
    requires long { head.len ≤ length bytes.now }
    ensures { out.new ≡ canonical (part_packet head bytes.now) }
{
    out.fill(0);
    let env = PartEnv {
        start: head.start,
        stop: head.stop,
        len: head.len,
    };
    put_field!(put_u8, PACKET_HEAD, out, TYPE, LDC_DATA);
    put_field!(put_u8, PACKET_HEAD, out, STYPE, LDC_INFO);
    put_field!(put_u8, PACKET_HEAD, out, ENV, env_of_part(env));
    put_field!(put_u32, PACKET_HEAD, out, SEQID, head.seqid);
    put_part(&bytes[..head.len as usize], out);
}

// Writes a part over zeros.
fn put_part(part: &[u8], out: &mut [u8; 64])
    requires within { length part.now ≤ 56 }
    requires zeros { drop 8 out.old ≡ replicate 56 0 }
    ensures { out.new ≡ take 8 out.old ++ (part.now ++ replicate (56 - length part.now) 0) }
{
    out[PAYLOAD..PAYLOAD + part.len()].copy_from_slice(part);
}
