// From a message to bytes.

ghost use Rattle.std.specs.Prelude.{◌≡◌, ◌+◌, ◌*◌, ◌^◌, ◌<◌, ◌≤◌, ◌++◌, [], Ok, length, take, drop, replicate};
ghost use Rattle.std.specs.List.{AllByRecursion, flat_map};
ghost use Rattle.vio_bytes.specs.Place.{put_at};
ghost use Rattle.map_table.specs.Cookies.{IsCookie, cookies_bytes};
ghost use Rattle.ldc_packet.specs.Spelling.{subtype_code};
ghost use Rattle.vio_tag.specs.Decoding.{Decodes};
ghost use Rattle.vio_tag.specs.Form.{AreCookies, BodyHasWidths, HasForm, IsWellFormed};
ghost use Rattle.vio_tag.specs.Spelling.{SpellsMessage, body_bytes, canonical, envelope_code, tag_bytes, type_code};

use crate::layout::{
    COUNT, DATA_IDENT, DATA_STATE, DESCR_SIZE, DEV_CLASS, DRING_DATA, DRING_IDENT, DRING_REG,
    DRING_REG_HEAD, DRING_UNREG, END_IDX, ETH_ALEN, FIXED_LENGTH, MAJOR, MCAST_ADDR, MCAST_INFO,
    MINOR, NUM_COOKIES, NUM_DESCR, OPTIONS, SEQ, SET, SID, START_IDX, STYPE, STYPE_ENV, TAG,
    TAG_LENGTH, TYPE, UNREG_IDENT, VER_INFO, VIO_ATTR_INFO, VIO_DRING_DATA, VIO_DRING_REG,
    VIO_DRING_UNREG, VIO_RDX, VIO_SUBTYPE_ACK, VIO_SUBTYPE_INFO, VIO_SUBTYPE_NACK, VIO_TYPE_CTRL,
    VIO_TYPE_DATA, VIO_VER_INFO, VNET_MCAST_INFO,
};
use crate::message::{Message, MsgBody};
use ldc_packet::Subtype;
use map_table::{Cookie, put_cookies};
use vio_bytes::{put_field, put_u8, put_u16, put_u32, put_u64};

/// Writes the canonical spelling of a well-formed message to the front of `out`, its fields and zeros
/// elsewhere, and answers its length. The bytes after it stay.
#[tactic(auto, unfolding(crate::specs::Spelling::canonical))]
pub fn encode(message: &Message, out: &mut [u8; 256]) -> usize
    requires { IsWellFormed message.now }
    ensures length { result ≡ length (canonical message.now) }
    ensures room { result ≤ 256 }
    ensures written { out.new ≡ canonical message.now ++ drop (length (canonical message.now)) out.old }

    // What was written spells the message, and decodes to it.
    ensures spells { SpellsMessage (take result out.new) message.now }
    ensures decodes { Decodes (take result out.new) (Ok message.now) }
{
    let length = put_body(&message.body, out);
    let tag = tag_of(message);
    out[..TAG_LENGTH].copy_from_slice(&tag);
    length
}

fn tag_of(message: &Message) -> [u8; 8]
    ensures written { result ≡ tag_bytes message.now }
    ensures width { message.now.sid < 2 ^ 32 }
{
    let mut tag = [0; TAG_LENGTH];
    put_field!(put_u8, TAG, &mut tag, TYPE, type_of(&message.body));
    put_field!(put_u8, TAG, &mut tag, STYPE, code_of(message.subtype));
    put_field!(
        put_u16,
        TAG,
        &mut tag,
        STYPE_ENV,
        envelope_of(&message.body)
    );
    put_field!(put_u32, TAG, &mut tag, SID, message.sid);
    tag
}

fn type_of(body: &MsgBody) -> u8
    ensures { result ≡ type_code body.now }
{
    match body {
        MsgBody::DringData { .. } | MsgBody::Plain { .. } => VIO_TYPE_DATA,
        _ => VIO_TYPE_CTRL,
    }
}

fn code_of(subtype: Subtype) -> u8
    ensures { result ≡ subtype_code subtype }
{
    match subtype {
        Subtype::Info => VIO_SUBTYPE_INFO,
        Subtype::Ack => VIO_SUBTYPE_ACK,
        Subtype::Nack => VIO_SUBTYPE_NACK,
    }
}

fn envelope_of(body: &MsgBody) -> u16
    ensures { result ≡ envelope_code body.now }
{
    match *body {
        MsgBody::Ver { .. } => VIO_VER_INFO,
        MsgBody::Attr { .. } => VIO_ATTR_INFO,
        MsgBody::DringReg { .. } => VIO_DRING_REG,
        MsgBody::DringUnreg { .. } => VIO_DRING_UNREG,
        MsgBody::Rdx => VIO_RDX,
        MsgBody::DringData { .. } => VIO_DRING_DATA,
        MsgBody::Mcast { .. } => VNET_MCAST_INFO,
        MsgBody::Plain { envelope } => envelope,
    }
}

/// Writes a message whose tag is zeros, and answers its length.
fn put_body(body: &MsgBody, out: &mut [u8; 256]) -> usize
    requires { HasForm body.now }
    ensures length { result ≡ 8 + length (body_bytes body.now) }
    ensures room { result ≤ 256 }
    ensures written { out.new ≡ replicate 8 0 ++ body_bytes body.now ++ drop (8 + length (body_bytes body.now)) out.old }

    // A number behind a reference is of its type once it is read, as all are here.
    ensures widths { BodyHasWidths body.now }
{
    match body {
        MsgBody::Ver {
            major,
            minor,
            class,
        } => put_front(&ver_info(*major, *minor, *class), out),
        MsgBody::Attr { bytes } => put_front(&attr_info(bytes), out),
        MsgBody::DringReg {
            ident,
            slots,
            slot_size,
            options,
            count,
            cookies,
        } => {
            let head = dring_reg_head(*ident, *slots, *slot_size, *options, *count);
            put_dring_reg(&head, first_cookies(cookies, *count), out)
        }
        MsgBody::DringUnreg { ident } => put_front(&dring_unreg(*ident), out),
        MsgBody::Rdx => put_front(&[0; FIXED_LENGTH], out),
        MsgBody::DringData {
            seq,
            ident,
            start,
            end,
            state,
        } => { put_front(&dring_data(*seq, *ident, *start, *end, *state), out) }
        MsgBody::Mcast {
            set,
            count,
            addresses,
        } => put_front(&mcast_info(*set, *count, addresses), out),
        MsgBody::Plain { .. } => put_front(&[0; TAG_LENGTH], out),
    }
}

/// Writes bytes to the front, and answers how many.
fn put_front(bytes: &[u8], out: &mut [u8; 256]) -> usize
    requires { length bytes.now ≤ 256 }
    ensures length { result ≡ length bytes.now }
    ensures written { out.new ≡ bytes.now ++ drop (length bytes.now) out.old }
{
    out[..bytes.len()].copy_from_slice(bytes);
    bytes.len()
}

fn ver_info(major: u16, minor: u16, class: u8) -> [u8; 56]
    ensures { result ≡ replicate 8 0 ++ body_bytes (MsgBody.Ver major minor class) }
{
    let mut bytes = [0; FIXED_LENGTH];
    put_field!(put_u16, VER_INFO, &mut bytes, MAJOR, major);
    put_field!(put_u16, VER_INFO, &mut bytes, MINOR, minor);
    put_field!(put_u8, VER_INFO, &mut bytes, DEV_CLASS, class);
    bytes
}

fn attr_info(attr: &[u8; 48]) -> [u8; 56]
    ensures { result ≡ replicate 8 0 ++ attr.now }
{
    let mut bytes = [0; FIXED_LENGTH];
    bytes[TAG_LENGTH..].copy_from_slice(attr);
    bytes
}

fn dring_unreg(ident: u64) -> [u8; 56]
    ensures { result ≡ replicate 8 0 ++ body_bytes (MsgBody.DringUnreg ident) }
{
    let mut bytes = [0; FIXED_LENGTH];
    put_field!(put_u64, DRING_UNREG, &mut bytes, UNREG_IDENT, ident);
    bytes
}

fn dring_data(seq: u64, ident: u64, start: u32, end: u32, state: u8) -> [u8; 56]
    ensures { result ≡ replicate 8 0 ++ body_bytes (MsgBody.DringData seq ident start end state) }
{
    let mut bytes = [0; FIXED_LENGTH];
    put_field!(put_u64, DRING_DATA, &mut bytes, SEQ, seq);
    put_field!(put_u64, DRING_DATA, &mut bytes, DATA_IDENT, ident);
    put_field!(put_u32, DRING_DATA, &mut bytes, START_IDX, start);
    put_field!(put_u32, DRING_DATA, &mut bytes, END_IDX, end);
    put_field!(put_u8, DRING_DATA, &mut bytes, DATA_STATE, state);
    bytes
}

fn mcast_info(set: u8, count: u8, addresses: &[[u8; 6]; 7]) -> [u8; 56]
    ensures widths { BodyHasWidths (MsgBody.Mcast set count addresses.now) }
    ensures written { result ≡ replicate 8 0 ++ body_bytes (MsgBody.Mcast set count addresses.now) }
{
    let mut bytes = [0; FIXED_LENGTH];
    put_field!(put_u8, MCAST_INFO, &mut bytes, SET, set);
    put_field!(put_u8, MCAST_INFO, &mut bytes, COUNT, count);
    put_addresses(&mut bytes, addresses);
    bytes
}

fn put_addresses(bytes: &mut [u8; 56], addresses: &[[u8; 6]; 7])
    ensures each { AllByRecursion (λ address. length address ≡ 6) addresses.now }
    ensures long { length (flat_map (λ address. address) addresses.now) ≡ 42 }
    ensures written { bytes.new ≡ put_at 10 (flat_map (λ address. address) addresses.now) bytes.old }
{
    for (i, address) in addresses.iter().enumerate() {
        let at = MCAST_ADDR + ETH_ALEN * i;
        bytes[at..at + ETH_ALEN].copy_from_slice(address);
    }
}

/// The first `count` of the cookies.
fn first_cookies(cookies: &[Cookie; 14], count: u32) -> &[Cookie]
    requires { count ≤ 14 }
    ensures first { result.now ≡ take count cookies.now }
    ensures fourteen { length cookies.now ≡ 14 }
{
    &cookies[..count as usize]
}

/// Writes a registration, with its cookies after its head, and answers its length.
fn put_dring_reg(head: &[u8; 32], cookies: &[Cookie], out: &mut [u8; 256]) -> usize
    requires { length cookies.now ≤ 14 }
    ensures each { AllByRecursion IsCookie cookies.now }
    ensures length { result ≡ 32 + 16 * length cookies.now }
    ensures written { out.new ≡ head.now ++ (cookies_bytes cookies.now ++ drop (32 + 16 * length cookies.now) out.old) }
{
    out[..DRING_REG_HEAD].copy_from_slice(head);
    put_cookies(out, DRING_REG_HEAD, cookies);
    DRING_REG_HEAD + 16 * cookies.len()
}

fn dring_reg_head(ident: u64, slots: u32, slot_size: u32, options: u16, count: u32) -> [u8; 32]
    ensures { result ≡ replicate 8 0 ++ body_bytes (MsgBody.DringReg ident slots slot_size options count []) }
{
    let mut head = [0; DRING_REG_HEAD];
    put_field!(put_u64, DRING_REG, &mut head, DRING_IDENT, ident);
    put_field!(put_u32, DRING_REG, &mut head, NUM_DESCR, slots);
    put_field!(put_u32, DRING_REG, &mut head, DESCR_SIZE, slot_size);
    put_field!(put_u16, DRING_REG, &mut head, OPTIONS, options);
    put_field!(put_u32, DRING_REG, &mut head, NUM_COOKIES, count);
    head
}
