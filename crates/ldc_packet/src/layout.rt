// The layout of a packet: Linux's `struct ldc_packet` and `struct ldc_version`.

ghost use Rattle.std.specs.Prelude.{◌∷◌, []};
ghost use Rattle.vio_bytes.specs.Layout.{IsLayout};

use vio_bytes::Table;

/// The head of a packet: `struct ldc_packet`.
pub(crate) const PACKET_HEAD: Table<5> = Table {
    fields: [
        (0, 1), // type
        (1, 1), // stype
        (2, 1), // ctrl
        (3, 1), // env
        (4, 4), // seqid
    ],
    length: 64,
};

pub(crate) const TYPE: usize = 0;

pub(crate) const LDC_CTRL: u8 = 0x01;

pub(crate) const LDC_DATA: u8 = 0x02;

pub(crate) const STYPE: usize = 1;

pub(crate) const LDC_INFO: u8 = 0x01;

pub(crate) const LDC_ACK: u8 = 0x02;

pub(crate) const LDC_NACK: u8 = 0x04;

pub(crate) const CTRL: usize = 2;

pub(crate) const LDC_VERS: u8 = 0x01;

pub(crate) const LDC_RTS: u8 = 0x02;

pub(crate) const LDC_RTR: u8 = 0x03;

pub(crate) const LDC_RDX: u8 = 0x04;

/// In RTS and RTR the mode; in a data packet the length and the flags of a part.
pub(crate) const ENV: usize = 3;

pub(crate) const LDC_LEN: u8 = 0x3f;

pub(crate) const LDC_START: u8 = 0x40;

pub(crate) const LDC_STOP: u8 = 0x80;

pub(crate) const SEQID: usize = 4;

/// Where the payload begins, and its length.
pub(crate) const PAYLOAD: usize = 8;

pub(crate) const PAYLOAD_LENGTH: usize = 56;

/// The payload of VERS, by its places in the packet: `struct ldc_version`.
pub(crate) const VERS_PAYLOAD: Table<2> = Table {
    fields: [
        (8, 2), // major
        (10, 2), // minor
    ],
    length: 64,
};

pub(crate) const MAJOR: usize = 0;

pub(crate) const MINOR: usize = 1;

/// Each table has the struct's places, widths and length, so its fields don't overlap and lie within the
/// packet.
pub fn layouts_are_sound()
    ensures packet_head { IsLayout PACKET_HEAD.fields PACKET_HEAD.length (0 ∷ 1 ∷ 2 ∷ 3 ∷ 4 ∷ []) (1 ∷ 1 ∷ 1 ∷ 1 ∷ 4 ∷ []) 64 }
    ensures vers_payload { IsLayout VERS_PAYLOAD.fields VERS_PAYLOAD.length (8 ∷ 10 ∷ []) (2 ∷ 2 ∷ []) 64 }
{}
