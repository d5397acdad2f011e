// From bytes to a message.

ghost use Rattle.std.specs.Prelude.{◌≡◌, ◌≢◌, ◌-◌, ◌+◌, ◌*◌, ◌≤◌, ◌⊎◌, length, take, drop, replicate, Some, None, OnOk, IfOk, IfErr, IfSome, IfNone, IsTrue, false};
ghost use Rattle.vio_bytes.specs.Place.{number_at};
ghost use Rattle.map_table.specs.Cookies.{cookies_at, no_cookie};
ghost use Rattle.ldc_packet.specs.Spelling.{subtype_code};
ghost use Rattle.vio_tag.specs.Decoding.{Decodes, decoded};
ghost use Rattle.vio_tag.specs.Fault.{body_fault, first_fault, is_subtype};
ghost use Rattle.vio_tag.specs.Form.{HasForm, IsWellFormed};
ghost use Rattle.vio_tag.specs.Spelling.{SpellsBodyOf, SpellsMessage, addresses_at, bytes_at, count_at, envelope_at, type_at};
ghost use Rattle.vio_tag.specs.declared.message.Message.{Message};
ghost use Rattle.vio_tag.specs.declared.message.TagFault.{TagFault};
ghost use Rattle.vio_tag.specs.declared.message.TagFault.TheVariants.{Length, Cookies};

use crate::layout::{
    ATTR_LENGTH, COUNT, DATA_IDENT, DATA_STATE, DESCR_SIZE, DEV_CLASS, DRING_DATA, DRING_IDENT,
    DRING_REG, DRING_REG_HEAD, DRING_UNREG, END_IDX, ETH_ALEN, FIXED_LENGTH, MAJOR, MCAST_ADDR,
    MCAST_INFO, MINOR, MOST_RING_COOKIES, NUM_COOKIES, NUM_DESCR, OPTIONS, SEQ, SET, SID,
    START_IDX, STYPE, STYPE_ENV, TAG, TAG_LENGTH, TYPE, UNREG_IDENT, VER_INFO, VIO_ATTR_INFO,
    VIO_DESC_DATA, VIO_DRING_DATA, VIO_DRING_REG, VIO_DRING_UNREG, VIO_PKT_DATA, VIO_RDX,
    VIO_SUBTYPE_ACK, VIO_SUBTYPE_INFO, VIO_SUBTYPE_NACK, VIO_TYPE_CTRL, VIO_TYPE_DATA,
    VIO_VER_INFO, VNET_MCAST_INFO,
};
use crate::message::{Message, MsgBody, TagFault};
use ldc_packet::Subtype;
use map_table::{Cookie, get_cookies};
use vio_bytes::{get_field, get_u8, get_u16, get_u32, get_u64};

/// The message that the bytes spell, or their first fault in the order of `TagFault`.
///
/// Bytes that the message's form doesn't name are free, and of a plain message all after the tag.
#[tactic(auto, using(crate::proofs::Reading::only_spelled, crate::proofs::Reading::only_refused))]
pub fn decode(bytes: &[u8]) -> Result<Message, TagFault>
    ensures decodes { Decodes bytes.now result }

    // No other message is spelled by the bytes, and no other fault is their first.
    ensures only { (message : Message) → IsWellFormed message → SpellsMessage bytes.now message → result ≡ Ok message }
    ensures refused { (fault : TagFault) → first_fault bytes.now ≡ Some fault → result ≡ Err fault }
{
    let mut message = Message {
        subtype: Subtype::Info,
        sid: 0,
        body: MsgBody::Rdx,
    };
    match message_into(bytes, &mut message) {
        Ok(()) => Ok(message),
        Err(fault) => Err(fault),
    }
}

// Written over a message of the caller's. After a fault nothing is said of that.
fn message_into(bytes: &[u8], message: &mut Message) -> Result<(), TagFault>
    ensures decodes { Decodes bytes.now (decoded result message.new) }
{
    if bytes.len() < TAG_LENGTH {
        return Err(TagFault::Short);
    }
    let kind = get_field!(get_u8, TAG, bytes, TYPE);
    if kind != VIO_TYPE_CTRL && kind != VIO_TYPE_DATA {
        return Err(TagFault::Kind);
    }
    let Some(subtype) = subtype_of(get_field!(get_u8, TAG, bytes, STYPE)) else {
        return Err(TagFault::Subtype);
    };
    body_into(kind, bytes, &mut message.body)?;
    message.subtype = subtype;
    message.sid = get_field!(get_u32, TAG, bytes, SID);
    Ok(())
}

fn subtype_of(code: u8) -> Option<Subtype>
    ensures some { IfSome result (λ subtype. code ≡ subtype_code subtype) }
    ensures none { IfNone result (is_subtype code ≡ false) }
{
    match code {
        VIO_SUBTYPE_INFO => Some(Subtype::Info),
        VIO_SUBTYPE_ACK => Some(Subtype::Ack),
        VIO_SUBTYPE_NACK => Some(Subtype::Nack),
        _ => None,
    }
}

fn body_into(kind: u8, bytes: &[u8], body: &mut MsgBody) -> Result<(), TagFault>
    requires long { 8 ≤ length bytes.now }
    requires of_type { (kind ≡ 1) ⊎ (kind ≡ 2) }
    ensures body { OnOk result (HasForm body.new × SpellsBodyOf kind bytes.now body.new) }
    ensures fault { IfErr result (λ fault. body_fault kind (envelope_at bytes.now) (count_at bytes.now) (length bytes.now) ≡ Some fault) }
{
    if kind == VIO_TYPE_CTRL {
        control_into(bytes, body)
    } else {
        data_into(bytes, body)
    }
}

// Not within its caller, so that a message of the type DATA passes by the long locals of the others.
#[inline(never)]
fn control_into(bytes: &[u8], body: &mut MsgBody) -> Result<(), TagFault>
    requires { 8 ≤ length bytes.now }
    ensures body { OnOk result (HasForm body.new × SpellsBodyOf 1 bytes.now body.new) }
    ensures fault { IfErr result (λ fault. body_fault 1 (envelope_at bytes.now) (count_at bytes.now) (length bytes.now) ≡ Some fault) }
{
    *body = control_body(bytes)?;
    Ok(())
}

/// The body of a message of the type CTRL.
fn control_body(bytes: &[u8]) -> Result<MsgBody, TagFault>
    requires { 8 ≤ length bytes.now }
    ensures body { IfOk result (λ body. HasForm body × SpellsBodyOf 1 bytes.now body) }
    ensures fault { IfErr result (λ fault. body_fault 1 (envelope_at bytes.now) (count_at bytes.now) (length bytes.now) ≡ Some fault) }
{
    match get_field!(get_u16, TAG, bytes, STYPE_ENV) {
        VIO_VER_INFO => Ok(ver_info(whole(bytes)?)),
        VIO_ATTR_INFO => Ok(attr_info(whole(bytes)?)),
        VIO_DRING_REG => dring_reg(bytes),
        VIO_DRING_UNREG => Ok(dring_unreg(whole(bytes)?)),
        VIO_RDX => {
            let _ = whole(bytes)?;
            Ok(MsgBody::Rdx)
        }
        VNET_MCAST_INFO => Ok(mcast_info(whole(bytes)?)),
        _ => Err(TagFault::Envelope),
    }
}

/// The body of a message of the type DATA.
fn data_into(bytes: &[u8], body: &mut MsgBody) -> Result<(), TagFault>
    requires { 8 ≤ length bytes.now }
    ensures body { OnOk result (HasForm body.new × SpellsBodyOf 2 bytes.now body.new) }
    ensures fault { IfErr result (λ fault. body_fault 2 (envelope_at bytes.now) (count_at bytes.now) (length bytes.now) ≡ Some fault) }
{
    match get_field!(get_u16, TAG, bytes, STYPE_ENV) {
        envelope @ (VIO_PKT_DATA | VIO_DESC_DATA) => *body = MsgBody::Plain { envelope },
        VIO_DRING_DATA => *body = dring_data(whole(bytes)?),
        _ => return Err(TagFault::Envelope),
    }
    Ok(())
}

/// All of the bytes, where they are 56.
fn whole(bytes: &[u8]) -> Result<&[u8], TagFault>
    ensures whole { IfOk result (λ whole. (whole.now ≡ bytes.now) × (length bytes.now ≡ 56)) }
    ensures fault { IfErr result (λ fault. (fault ≡ TagFault.Length) × (length bytes.now ≢ 56)) }
{
    if bytes.len() != FIXED_LENGTH {
        return Err(TagFault::Length);
    }
    Ok(bytes)
}

fn ver_info(bytes: &[u8]) -> MsgBody
    requires { length bytes.now ≡ 56 }
    ensures { result ≡ MsgBody.Ver (number_at 2 8 bytes.now) (number_at 2 10 bytes.now) (number_at 1 12 bytes.now) }
{
    MsgBody::Ver {
        major: get_field!(get_u16, VER_INFO, bytes, MAJOR),
        minor: get_field!(get_u16, VER_INFO, bytes, MINOR),
        class: get_field!(get_u8, VER_INFO, bytes, DEV_CLASS),
    }
}

fn attr_info(bytes: &[u8]) -> MsgBody
    requires { length bytes.now ≡ 56 }
    ensures { result ≡ MsgBody.Attr (bytes_at 48 8 bytes.now) }
{
    let mut attr = [0; ATTR_LENGTH];
    attr.copy_from_slice(&bytes[TAG_LENGTH..]);
    MsgBody::Attr { bytes: attr }
}

fn dring_unreg(bytes: &[u8]) -> MsgBody
    requires { length bytes.now ≡ 56 }
    ensures { result ≡ MsgBody.DringUnreg (number_at 8 8 bytes.now) }
{
    MsgBody::DringUnreg {
        ident: get_field!(get_u64, DRING_UNREG, bytes, UNREG_IDENT),
    }
}

fn dring_data(bytes: &[u8]) -> MsgBody
    requires { length bytes.now ≡ 56 }
    ensures { result ≡ MsgBody.DringData (number_at 8 8 bytes.now) (number_at 8 16 bytes.now) (number_at 4 24 bytes.now) (number_at 4 28 bytes.now) (number_at 1 32 bytes.now) }
{
    MsgBody::DringData {
        seq: get_field!(get_u64, DRING_DATA, bytes, SEQ),
        ident: get_field!(get_u64, DRING_DATA, bytes, DATA_IDENT),
        start: get_field!(get_u32, DRING_DATA, bytes, START_IDX),
        end: get_field!(get_u32, DRING_DATA, bytes, END_IDX),
        state: get_field!(get_u8, DRING_DATA, bytes, DATA_STATE),
    }
}

fn mcast_info(bytes: &[u8]) -> MsgBody
    requires { length bytes.now ≡ 56 }
    ensures { result ≡ MsgBody.Mcast (number_at 1 8 bytes.now) (number_at 1 9 bytes.now) (addresses_at 10 7 bytes.now) }
{
    MsgBody::Mcast {
        set: get_field!(get_u8, MCAST_INFO, bytes, SET),
        count: get_field!(get_u8, MCAST_INFO, bytes, COUNT),
        addresses: addresses(bytes),
    }
}

fn addresses(bytes: &[u8]) -> [[u8; 6]; 7]
    requires { length bytes.now ≡ 56 }
    ensures { result ≡ addresses_at 10 7 bytes.now }
{
    let mut addresses = [[0; ETH_ALEN]; 7];
    for i in 0..7 {
        addresses[i] = address_at(bytes, MCAST_ADDR + ETH_ALEN * i);
    }
    addresses
}

fn address_at(bytes: &[u8], at: usize) -> [u8; 6]
    requires { at + 6 ≤ length bytes.now }
    ensures { result ≡ bytes_at 6 at bytes.now }
{
    let mut address = [0; ETH_ALEN];
    address.copy_from_slice(&bytes[at..at + ETH_ALEN]);
    address
}

/// A registration: the first `count` cookies stand after its head.
fn dring_reg(bytes: &[u8]) -> Result<MsgBody, TagFault>
    requires { envelope_at bytes.now ≡ 3 }
    ensures body { IfOk result (λ body. HasForm body × SpellsBodyOf 1 bytes.now body) }
    ensures fault { IfErr result (λ fault. body_fault 1 3 (count_at bytes.now) (length bytes.now) ≡ Some fault) }
{
    if bytes.len() < DRING_REG_HEAD {
        return Err(TagFault::Length);
    }
    let count = get_field!(get_u32, DRING_REG, bytes, NUM_COOKIES);
    if count > MOST_RING_COOKIES || bytes.len() != DRING_REG_HEAD + 16 * count as usize {
        return Err(TagFault::Cookies);
    }
    Ok(MsgBody::DringReg {
        ident: get_field!(get_u64, DRING_REG, bytes, DRING_IDENT),
        slots: get_field!(get_u32, DRING_REG, bytes, NUM_DESCR),
        slot_size: get_field!(get_u32, DRING_REG, bytes, DESCR_SIZE),
        options: get_field!(get_u16, DRING_REG, bytes, OPTIONS),
        count,
        cookies: ring_cookies(bytes, count as usize),
    })
}

/// The cookies of a registration, and none after them.
fn ring_cookies(bytes: &[u8], count: usize) -> [Cookie; 14]
    requires most { count ≤ 14 }
    requires long { 32 + 16 * count ≤ length bytes.now }
    ensures cookies { take count result ≡ cookies_at 32 count bytes.now }
    ensures none { drop count result ≡ replicate (14 - count) no_cookie }
{
    let mut cookies = [Cookie::NONE; 14];
    get_cookies(bytes, DRING_REG_HEAD, &mut cookies[..count]);
    cookies
}
