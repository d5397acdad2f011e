// The line of a packet.
ghost use Rattle.std.specs.Prelude.{◌≡◌, ◌+◌, ◌*◌, ◌≤◌, ◌++◌, length, take, codes, Ok, Err, Some, None, IfNone, IfSome};
ghost use Rattle.hex.specs.Hex.{encode_lower};
ghost use Rattle.ldc_packet.specs.Form.{HasForm, IsWellFormed};
ghost use Rattle.ldom_dump.specs.Decoded.{carried_bytes};
ghost use Rattle.ldom_dump.specs.Fields.{field_text, flag_number, head_text};
ghost use Rattle.ldom_dump.specs.PacketText.{body_text, packet_line};

use crate::fields::{flag_number, push_field, push_head};
use gathered_text::{TEXT_ROOM, Text};
use ldc_packet::{Body, Packet, PacketFault, Subtype};
use vio_tag::packet_word;

/// The bytes of a part that count.
fn part_bytes(len: u8, bytes: &[u8; 56]) -> &[u8]
    requires { len ≤ 56 }
    ensures bytes { result.now ≡ take len bytes.now }
    ensures short { length result.now ≤ 56 }
{
    &bytes[..usize::from(len)]
}

/// The bytes of the message that a packet carries whole.
pub fn carried_bytes(packet: &Packet) -> Option<&[u8]>
    requires formed { IsWellFormed packet.now }
    ensures some { IfSome result (λ bytes. carried_bytes packet.now.body ≡ Some bytes.now) }
    ensures none { IfNone result (carried_bytes packet.now.body ≡ None) }
{
    match &packet.body {
        Body::Part {
            start: true,
            stop: true,
            len,
            bytes,
        } => Some(part_bytes(*len, bytes)),
        _ => None,
    }
}

fn push_part(text: &mut Text, seqid: u64, start: bool, stop: bool, bytes: &[u8])
    requires short { length bytes.now ≤ 56 }
    requires room { length text.old + 300 ≤ TEXT_ROOM }
    ensures text { text.new ≡ text.old ++ (field_text (codes "part seq=") seqid ++ field_text (codes " start=") (flag_number start) ++ field_text (codes " stop=") (flag_number stop)
        ++ field_text (codes " len=") (length bytes.now) ++ codes " " ++ encode_lower bytes.now) }
    ensures len { length text.new ≤ length text.old + 300 }
{
    push_field(text, b"part seq=", seqid);
    push_field(text, b" start=", flag_number(start));
    push_field(text, b" stop=", flag_number(stop));
    push_field(text, b" len=", bytes.len() as u64);
    text.push(b" ");
    text.push_hex(bytes);
}

fn push_body(text: &mut Text, subtype: Subtype, seqid: u32, body: &Body)
    requires formed { HasForm subtype body.now }
    requires room { length text.old + 300 ≤ TEXT_ROOM }
    ensures text { text.new ≡ text.old ++ body_text subtype seqid body.now }
    ensures len { length text.new ≤ length text.old + 300 }
{
    let seqid = u64::from(seqid);
    match body {
        Body::Vers { major, minor } => {
            push_head(text, b"ctrl vers ", subtype, b" seq=", seqid);
            push_field(text, b" major=", u64::from(*major));
            push_field(text, b" minor=", u64::from(*minor));
        }
        Body::Rts { mode } => {
            push_head(text, b"ctrl rts ", subtype, b" seq=", seqid);
            push_field(text, b" mode=", u64::from(*mode));
        }
        Body::Rtr { mode } => {
            push_head(text, b"ctrl rtr ", subtype, b" seq=", seqid);
            push_field(text, b" mode=", u64::from(*mode));
        }
        Body::Rdx => push_head(text, b"ctrl rdx ", subtype, b" seq=", seqid),
        Body::Part {
            start,
            stop,
            len,
            bytes,
        } => push_part(text, seqid, *start, *stop, part_bytes(*len, bytes)),
    }
}

/// The line of a packet.
pub fn push_packet(text: &mut Text, packet: &Packet)
    requires formed { IsWellFormed packet.now }
    requires room { length text.old + 301 ≤ TEXT_ROOM }
    ensures text { text.new ≡ text.old ++ packet_line (Ok packet.now) }
    ensures len { length text.new ≤ length text.old + 301 }
{
    push_body(text, packet.subtype, packet.seqid, &packet.body);
    text.push(b"\n");
}

/// The line of what is wrong with a packet.
pub fn push_fault(text: &mut Text, fault: PacketFault)
    requires room { length text.old + 100 ≤ TEXT_ROOM }
    ensures text { text.new ≡ text.old ++ packet_line (Err fault) }
    ensures len { length text.new ≤ length text.old + 100 }
{
    text.push(b"fault ");
    text.push(packet_word(fault).as_bytes());
    text.push(b"\n");
}
