// The parts that lines of a dump have in common.
ghost use Rattle.std.specs.Prelude.{◌≡◌, ◌+◌, ◌≤◌, ◌++◌, length};
ghost use Rattle.ldom_dump.specs.Fields.{field_text, flag_number, head_text, subtype_word};

use gathered_text::{TEXT_ROOM, Text};
use ldc_packet::Subtype;

/// A number after its name.
pub fn push_field(text: &mut Text, name: &[u8], value: u64)
    requires { length text.old + length name.now + 20 ≤ TEXT_ROOM }
    ensures text { text.new ≡ text.old ++ field_text name.now value }
    ensures len { length text.new ≤ length text.old + length name.now + 20 }
{
    text.push(name);
    text.push_number(value);
}

/// A flag as a number.
pub fn flag_number(flag: bool) -> u64
    ensures { result ≡ flag_number flag }
{
    if flag { 1 } else { 0 }
}

fn subtype_word(subtype: Subtype) -> &'static [u8]
    ensures word { result.now ≡ subtype_word subtype }
    ensures short { length result.now ≤ 4 }
{
    match subtype {
        Subtype::Info => b"info",
        Subtype::Ack => b"ack",
        Subtype::Nack => b"nack",
    }
}

/// How the line of a packet or message begins: its name and subtype, and a first number after its name.
pub fn push_head(text: &mut Text, name: &[u8], subtype: Subtype, field: &[u8], value: u64)
    requires { length text.old + length name.now + length field.now + 24 ≤ TEXT_ROOM }
    ensures text { text.new ≡ text.old ++ head_text name.now subtype field.now value }
    ensures len { length text.new ≤ length text.old + length name.now + length field.now + 24 }
{
    text.push(name);
    text.push(subtype_word(subtype));
    push_field(text, field, value);
}
