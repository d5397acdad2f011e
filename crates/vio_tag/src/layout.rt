// The layouts of messages, by their places in the message, and of attributes, by their places in the 48
// bytes after the tag: the structs of Linux's vio.h.

ghost use Rattle.std.specs.Prelude.{◌≡◌, ◌∷◌, []};
ghost use Rattle.vio_bytes.specs.Layout.{IsLayout};

use vio_bytes::Table;

/// The tag that each message begins with: `struct vio_msg_tag`.
pub(crate) const TAG: Table<4> = Table {
    fields: [
        (0, 1), // type
        (1, 1), // stype
        (2, 2), // stype_env
        (4, 4), // sid
    ],
    length: TAG_LENGTH,
};

pub(crate) const TAG_LENGTH: usize = 8;

pub(crate) const TYPE: usize = 0;

pub(crate) const VIO_TYPE_CTRL: u8 = 0x01;

pub(crate) const VIO_TYPE_DATA: u8 = 0x02;

pub(crate) const STYPE: usize = 1;

pub(crate) const VIO_SUBTYPE_INFO: u8 = 0x01;

pub(crate) const VIO_SUBTYPE_ACK: u8 = 0x02;

pub(crate) const VIO_SUBTYPE_NACK: u8 = 0x04;

pub(crate) const STYPE_ENV: usize = 2;

pub(crate) const VIO_VER_INFO: u16 = 0x0001;

pub(crate) const VIO_ATTR_INFO: u16 = 0x0002;

pub(crate) const VIO_DRING_REG: u16 = 0x0003;

pub(crate) const VIO_DRING_UNREG: u16 = 0x0004;

pub(crate) const VIO_RDX: u16 = 0x0005;

pub(crate) const VIO_PKT_DATA: u16 = 0x0040;

pub(crate) const VIO_DESC_DATA: u16 = 0x0041;

pub(crate) const VIO_DRING_DATA: u16 = 0x0042;

pub(crate) const VNET_MCAST_INFO: u16 = 0x0101;

pub(crate) const SID: usize = 3;

/// The bytes of every message but a registration and a plain one.
pub(crate) const FIXED_LENGTH: usize = 56;

/// A version: `struct vio_ver_info`.
pub(crate) const VER_INFO: Table<3> = Table {
    fields: [
        (8, 2), // major
        (10, 2), // minor
        (12, 1), // dev_class
    ],
    length: FIXED_LENGTH,
};

pub(crate) const MAJOR: usize = 0;

pub(crate) const MINOR: usize = 1;

pub(crate) const DEV_CLASS: usize = 2;

/// The head of a ring's registration, after which its cookies stand: `struct vio_dring_register`.
pub(crate) const DRING_REG: Table<5> = Table {
    fields: [
        (8, 8), // dring_ident
        (16, 4), // num_descr
        (20, 4), // descr_size
        (24, 2), // options
        (28, 4), // num_cookies
    ],
    length: DRING_REG_HEAD,
};

pub(crate) const DRING_REG_HEAD: usize = 32;

pub(crate) const DRING_IDENT: usize = 0;

pub(crate) const NUM_DESCR: usize = 1;

pub(crate) const DESCR_SIZE: usize = 2;

pub(crate) const OPTIONS: usize = 3;

pub(crate) const NUM_COOKIES: usize = 4;

/// The most cookies of a ring that is registered.
pub const MOST_RING_COOKIES: u32 = 14;

/// A ring goes on to be worked: a state of `struct vio_dring_data`.
pub const VIO_DRING_ACTIVE: u8 = 1;

/// A ring isn't worked any more: the other state.
pub const VIO_DRING_STOPPED: u8 = 2;

/// A ring's most cookies and its states have the numbers of the standard.
pub fn rings_have_the_numbers_of_the_standard()
    ensures cookies { MOST_RING_COOKIES ≡ 14 }
    ensures active { VIO_DRING_ACTIVE ≡ 1 }
    ensures stopped { VIO_DRING_STOPPED ≡ 2 }
{}

/// The end of a ring's registration: `struct vio_dring_unregister`.
pub(crate) const DRING_UNREG: Table<1> = Table {
    fields: [
        (8, 8), // dring_ident
    ],
    length: FIXED_LENGTH,
};

pub(crate) const UNREG_IDENT: usize = 0;

/// Descriptors of a ring: `struct vio_dring_data`.
pub(crate) const DRING_DATA: Table<5> = Table {
    fields: [
        (8, 8), // seq
        (16, 8), // dring_ident
        (24, 4), // start_idx
        (28, 4), // end_idx
        (32, 1), // state
    ],
    length: FIXED_LENGTH,
};

pub(crate) const SEQ: usize = 0;

pub(crate) const DATA_IDENT: usize = 1;

pub(crate) const START_IDX: usize = 2;

pub(crate) const END_IDX: usize = 3;

pub(crate) const DATA_STATE: usize = 4;

/// Multicast addresses: `struct vio_net_mcast_info`.
pub(crate) const MCAST_INFO: Table<9> = Table {
    fields: [
        (8, 1), // set
        (9, 1), // count
        (10, 6), // mcast_addr, seven of them
        (16, 6),
        (22, 6),
        (28, 6),
        (34, 6),
        (40, 6),
        (46, 6),
    ],
    length: FIXED_LENGTH,
};

pub(crate) const SET: usize = 0;

pub(crate) const COUNT: usize = 1;

/// Where the addresses begin.
pub(crate) const MCAST_ADDR: usize = 10;

/// The bytes of an address.
pub(crate) const ETH_ALEN: usize = 6;

/// The attributes of a disk: `struct vio_disk_attr_info` after its tag.
pub(crate) const DISK_ATTR: Table<8> = Table {
    fields: [
        (0, 1), // xfer_mode
        (1, 1), // vdisk_type
        (2, 1), // vdisk_mtype, 1.1
        (4, 4), // vdisk_block_size
        (8, 8), // operations
        (16, 8), // vdisk_size, 1.1
        (24, 8), // max_xfer_size
        (32, 4), // phys_block_size, 1.2
    ],
    length: ATTR_LENGTH,
};

/// The bytes after the tag of an ATTR_INFO.
pub(crate) const ATTR_LENGTH: usize = 48;

pub(crate) const DISK_XFER_MODE: usize = 0;

pub(crate) const VDISK_TYPE: usize = 1;

pub(crate) const VDISK_MTYPE: usize = 2;

pub(crate) const VDISK_BLOCK_SIZE: usize = 3;

pub(crate) const OPERATIONS: usize = 4;

pub(crate) const VDISK_SIZE: usize = 5;

pub(crate) const MAX_XFER_SIZE: usize = 6;

pub(crate) const PHYS_BLOCK_SIZE: usize = 7;

/// The attributes of a network device: `struct vio_net_attr_info` after its tag.
pub(crate) const NET_ATTR: Table<9> = Table {
    fields: [
        (0, 1), // xfer_mode
        (1, 1), // addr_type
        (2, 2), // ack_freq
        (4, 1), // plnk_updt
        (5, 1), // options
        (8, 8), // addr
        (16, 8), // mtu
        (24, 2), // cflags
        (26, 2), // ipv4_lso_maxlen
    ],
    length: ATTR_LENGTH,
};

pub(crate) const NET_XFER_MODE: usize = 0;

pub(crate) const ADDR_TYPE: usize = 1;

pub(crate) const ACK_FREQ: usize = 2;

pub(crate) const PLNK_UPDT: usize = 3;

pub(crate) const NET_OPTIONS: usize = 4;

pub(crate) const ADDR: usize = 5;

pub(crate) const MTU: usize = 6;

pub(crate) const CFLAGS: usize = 7;

pub(crate) const IPV4_LSO_MAXLEN: usize = 8;

/// Each table has the struct's places, widths and length, so its fields don't overlap and lie within it.
pub fn layouts_are_sound()
    ensures tag { IsLayout TAG.fields TAG.length (0 ∷ 1 ∷ 2 ∷ 4 ∷ []) (1 ∷ 1 ∷ 2 ∷ 4 ∷ []) 8 }
    ensures ver_info { IsLayout VER_INFO.fields VER_INFO.length (8 ∷ 10 ∷ 12 ∷ []) (2 ∷ 2 ∷ 1 ∷ []) 56 }
    ensures dring_reg { IsLayout DRING_REG.fields DRING_REG.length (8 ∷ 16 ∷ 20 ∷ 24 ∷ 28 ∷ []) (8 ∷ 4 ∷ 4 ∷ 2 ∷ 4 ∷ []) 32 }
    ensures dring_unreg { IsLayout DRING_UNREG.fields DRING_UNREG.length (8 ∷ []) (8 ∷ []) 56 }
    ensures dring_data { IsLayout DRING_DATA.fields DRING_DATA.length (8 ∷ 16 ∷ 24 ∷ 28 ∷ 32 ∷ []) (8 ∷ 8 ∷ 4 ∷ 4 ∷ 1 ∷ []) 56 }
    ensures mcast_info { IsLayout MCAST_INFO.fields MCAST_INFO.length (8 ∷ 9 ∷ 10 ∷ 16 ∷ 22 ∷ 28 ∷ 34 ∷ 40 ∷ 46 ∷ []) (1 ∷ 1 ∷ 6 ∷ 6 ∷ 6 ∷ 6 ∷ 6 ∷ 6 ∷ 6 ∷ []) 56 }
    ensures disk_attr { IsLayout DISK_ATTR.fields DISK_ATTR.length (0 ∷ 1 ∷ 2 ∷ 4 ∷ 8 ∷ 16 ∷ 24 ∷ 32 ∷ []) (1 ∷ 1 ∷ 1 ∷ 4 ∷ 8 ∷ 8 ∷ 8 ∷ 4 ∷ []) 48 }
    ensures net_attr { IsLayout NET_ATTR.fields NET_ATTR.length (0 ∷ 1 ∷ 2 ∷ 4 ∷ 5 ∷ 8 ∷ 16 ∷ 24 ∷ 26 ∷ []) (1 ∷ 1 ∷ 2 ∷ 1 ∷ 1 ∷ 8 ∷ 8 ∷ 2 ∷ 2 ∷ []) 48 }
{}
