use ldc_packet::Subtype;
use map_table::Cookie;

/// A message between the ends of a virtual device (the VIO chapter of the UltraSPARC Virtual Machine
/// Specification; `struct vio_msg_tag` of Linux's vio.h and the structs that begin with it).
///
/// It is well formed where a ring's registration has at most 14 cookies and no memory after them,
/// and the envelope of a plain message is that of PKT_DATA, 0x40, or of DESC_DATA, 0x41.
#[derive(Clone, Copy, Debug, PartialEq, Eq)]
pub struct Message {
    pub subtype: Subtype,
    /// The session.
    pub sid: u32,
    pub body: MsgBody,
}

/// What a message says, by its envelope.
#[derive(Clone, Copy, Debug, PartialEq, Eq)]
pub enum MsgBody {
    /// A version, and what kind of end says it: NETWORK 1, NETWORK_SWITCH 2, DISK 3 or DISK_SERVER 4
    /// (`struct vio_ver_info`).
    Ver {
        major: u16,
        minor: u16,
        class: u8,
    },

    /// The attributes of a device, all bytes after the tag: `DiskAttr` or `NetAttr`.
    Attr {
        bytes: [u8; 48],
    },

    /// A ring of `slots` descriptors of `slot_size` bytes each, in the memory that the first `count`
    /// cookies name (`struct vio_dring_register`). Options: TX 1, RX 2.
    DringReg {
        ident: u64,
        slots: u32,
        slot_size: u32,
        options: u16,
        count: u32,
        cookies: [Cookie; 14],
    },

    /// The ring isn't used any more (`struct vio_dring_unregister`).
    DringUnreg {
        ident: u64,
    },

    /// Ready for data.
    Rdx,

    /// The descriptors from `start` to `end` of a ring are ready, or done (`struct vio_dring_data`).
    /// State: `VIO_DRING_ACTIVE` or `VIO_DRING_STOPPED`.
    DringData {
        seq: u64,
        ident: u64,
        start: u32,
        end: u32,
        state: u8,
    },

    /// The multicast addresses that a guest joins, where `set` is 1, or leaves; the first `count`
    /// (`struct vio_net_mcast_info`).
    Mcast {
        set: u8,
        count: u8,
        addresses: [[u8; 6]; 7],
    },

    /// A message that carries its data itself, of which this profile has no use: only its tag is
    /// looked at, and only its tag is written.
    Plain {
        envelope: u16,
    },
}

/// What is wrong with the bytes of a message, in the order in which it is looked for.
#[derive(Clone, Copy, Debug, PartialEq, Eq)]
pub enum TagFault {
    /// Fewer than the 8 bytes of a tag.
    Short,
    /// The type is neither CTRL nor DATA.
    Kind,
    /// The subtype is none of INFO, ACK and NACK.
    Subtype,
    /// The envelope isn't one of the type's.
    Envelope,
    /// Not 56 bytes; in a ring's registration fewer than 32.
    Length,
    /// A ring's registration with more than 14 cookies, or with more or fewer bytes than they take.
    Cookies,
}
