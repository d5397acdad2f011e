// The line of a message.
ghost use Rattle.std.specs.Prelude.{◌≡◌, ◌+◌, ◌*◌, ◌≤◌, ◌++◌, length, codes, Ok, Err};
ghost use Rattle.std.specs.List.{flat_map};
ghost use Rattle.hex.specs.Hex.{encode_lower};
ghost use Rattle.vio_tag.specs.Form.{HasForm, IsWellFormed};
ghost use Rattle.ldom_dump.specs.Fields.{field_text};
ghost use Rattle.ldom_dump.specs.MessageText.{cookie_text, message_line, message_name, said_text};

use crate::fields::{push_field, push_head};
use gathered_text::{TEXT_ROOM, Text};
use map_table::Cookie;
use vio_tag::{Message, MsgBody, TagFault, tag_word};

fn message_name(body: &MsgBody) -> &'static [u8]
    ensures name { result.now ≡ message_name body.now }
    ensures short { length result.now ≤ 14 }
{
    match body {
        MsgBody::Ver { .. } => b"message ver ",
        MsgBody::Attr { .. } => b"message attr ",
        MsgBody::DringReg { .. } => b"message reg ",
        MsgBody::DringUnreg { .. } => b"message unreg ",
        MsgBody::Rdx => b"message rdx ",
        MsgBody::DringData { .. } => b"message dring ",
        MsgBody::Mcast { .. } => b"message mcast ",
        MsgBody::Plain { .. } => b"message plain ",
    }
}

fn push_cookie(text: &mut Text, cookie: &Cookie)
    requires { length text.old + 42 ≤ TEXT_ROOM }
    ensures text { text.new ≡ text.old ++ cookie_text cookie.now }
    ensures len { length text.new ≤ length text.old + 42 }
{
    push_field(text, b" ", cookie.address);
    push_field(text, b":", cookie.size);
}

fn push_cookies(text: &mut Text, cookies: &[Cookie])
    requires few { length cookies.now ≤ 14 }
    requires room { length text.old + 588 ≤ TEXT_ROOM }
    ensures text { text.new ≡ text.old ++ flat_map cookie_text cookies.now }
    ensures len { length text.new ≤ length text.old + 588 }
{
    for cookie in cookies {
        push_cookie(text, cookie);
    }
}

fn push_addresses(text: &mut Text, addresses: &[[u8; 6]; 7])
    requires { length text.old + 84 ≤ TEXT_ROOM }
    ensures text { text.new ≡ text.old ++ flat_map encode_lower addresses.now }
    ensures len { length text.new ≤ length text.old + 84 }
{
    for address in addresses {
        text.push_hex(address);
    }
}

/// What a ring's registration says before its cookies.
fn push_ring(text: &mut Text, ident: u64, slots: u32, slot_size: u32, options: u16, count: u32)
    requires { length text.old + 200 ≤ TEXT_ROOM }
    ensures text { text.new ≡ text.old ++ (field_text (codes " ident=") ident ++ field_text (codes " slots=") slots ++ field_text (codes " size=") slot_size
        ++ field_text (codes " options=") options ++ field_text (codes " cookies=") count) }
    ensures len { length text.new ≤ length text.old + 200 }
{
    push_field(text, b" ident=", ident);
    push_field(text, b" slots=", u64::from(slots));
    push_field(text, b" size=", u64::from(slot_size));
    push_field(text, b" options=", u64::from(options));
    push_field(text, b" cookies=", u64::from(count));
}

/// What the announcement of descriptors says.
fn push_data(text: &mut Text, seq: u64, ident: u64, start: u32, end: u32, state: u8)
    requires { length text.old + 200 ≤ TEXT_ROOM }
    ensures text { text.new ≡ text.old ++ (field_text (codes " seq=") seq ++ field_text (codes " ident=") ident ++ field_text (codes " start=") start
        ++ field_text (codes " end=") end ++ field_text (codes " state=") state) }
    ensures len { length text.new ≤ length text.old + 200 }
{
    push_field(text, b" seq=", seq);
    push_field(text, b" ident=", ident);
    push_field(text, b" start=", u64::from(start));
    push_field(text, b" end=", u64::from(end));
    push_field(text, b" state=", u64::from(state));
}

/// What a message says after its tag.
fn push_said(text: &mut Text, body: &MsgBody)
    requires formed { HasForm body.now }
    requires room { length text.old + 1000 ≤ TEXT_ROOM }
    ensures text { text.new ≡ text.old ++ said_text body.now }
    ensures len { length text.new ≤ length text.old + 1000 }
{
    match body {
        MsgBody::Ver {
            major,
            minor,
            class,
        } => {
            push_field(text, b" major=", u64::from(*major));
            push_field(text, b" minor=", u64::from(*minor));
            push_field(text, b" class=", u64::from(*class));
        }
        MsgBody::Attr { bytes } => {
            text.push(b" ");
            text.push_hex(bytes);
        }
        MsgBody::DringReg {
            ident,
            slots,
            slot_size,
            options,
            count,
            cookies,
        } => {
            push_ring(text, *ident, *slots, *slot_size, *options, *count);
            push_cookies(text, &cookies[..*count as usize]);
        }
        MsgBody::DringUnreg { ident } => push_field(text, b" ident=", *ident),
        MsgBody::Rdx => {}
        MsgBody::DringData {
            seq,
            ident,
            start,
            end,
            state,
        } => push_data(text, *seq, *ident, *start, *end, *state),
        MsgBody::Mcast {
            set,
            count,
            addresses,
        } => {
            push_field(text, b" set=", u64::from(*set));
            push_field(text, b" count=", u64::from(*count));
            text.push(b" ");
            push_addresses(text, addresses);
        }
        MsgBody::Plain { envelope } => push_field(text, b" envelope=", u64::from(*envelope)),
    }
}

/// The line of a message.
pub fn push_message(text: &mut Text, message: &Message)
    requires formed { IsWellFormed message.now }
    requires room { length text.old + 1100 ≤ TEXT_ROOM }
    ensures text { text.new ≡ text.old ++ message_line (Ok message.now) }
    ensures len { length text.new ≤ length text.old + 1100 }
{
    let name = message_name(&message.body);
    push_head(
        text,
        name,
        message.subtype,
        b" sid=",
        u64::from(message.sid),
    );
    push_said(text, &message.body);
    text.push(b"\n");
}

/// The line of what is wrong with a message.
pub fn push_message_fault(text: &mut Text, fault: TagFault)
    requires room { length text.old + 100 ≤ TEXT_ROOM }
    ensures text { text.new ≡ text.old ++ message_line (Err fault) }
    ensures len { length text.new ≤ length text.old + 100 }
{
    text.push(b"message fault ");
    text.push(tag_word(fault).as_bytes());
    text.push(b"\n");
}
