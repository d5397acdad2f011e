// The attributes of devices, and their bytes.

ghost use Rattle.std.specs.Prelude.{◌≡◌, ◌+◌, ◌^◌};
ghost use Rattle.vio_tag.specs.Attributes.{DiskAttrHasWidths, NetAttrHasWidths, disk_attr_bytes, disk_attr_of, net_attr_bytes, net_attr_of};

use crate::layout::{
    ACK_FREQ, ADDR, ADDR_TYPE, ATTR_LENGTH, CFLAGS, DISK_ATTR, DISK_XFER_MODE, IPV4_LSO_MAXLEN,
    MAX_XFER_SIZE, MTU, NET_ATTR, NET_OPTIONS, NET_XFER_MODE, OPERATIONS, PHYS_BLOCK_SIZE,
    PLNK_UPDT, VDISK_BLOCK_SIZE, VDISK_MTYPE, VDISK_SIZE, VDISK_TYPE,
};
use vio_bytes::{
    get_field, get_u8, get_u16, get_u32, get_u64, put_field, put_u8, put_u16, put_u32, put_u64,
};

/// The operations of a disk in its attributes, a bit for each code (`VD_OP_BREAD`, `VD_OP_BWRITE` and `VD_OP_FLUSH`
/// of Linux's vio.h): read, write and flush.
pub const DISK_OPERATIONS: u64 = 0x0e;

/// They are the bits of the three codes, 1 to 3.
pub fn operations_have_the_bits_of_the_standard()
    ensures { DISK_OPERATIONS ≡ 2 ^ 1 + 2 ^ 2 + 2 ^ 3 }
{}

/// The attributes of a disk (`struct vio_disk_attr_info` of Linux's vio.h).
#[derive(Clone, Copy, Debug, PartialEq, Eq)]
pub struct DiskAttr {
    /// How data moves: DRING 3.
    pub mode: u8,
    /// SLICE 1, DISK 2.
    pub kind: u8,
    /// FIXED 1; from version 1.1.
    pub media: u8,
    /// In bytes.
    pub block_size: u32,
    /// A bit for each operation.
    pub operations: u64,
    /// The disk's size in blocks; from version 1.1.
    pub blocks: u64,
    /// The most that one request moves, in blocks.
    pub max_transfer: u64,
    /// The physical block size in bytes; from version 1.2.
    pub physical: u32,
}

/// The attributes of a network device (`struct vio_net_attr_info` of Linux's vio.h).
#[derive(Clone, Copy, Debug, PartialEq, Eq)]
pub struct NetAttr {
    /// How data moves: DRING 3, from version 1.2 on 4.
    pub mode: u8,
    /// ETHERMAC 1.
    pub address_kind: u8,
    pub ack_freq: u16,
    /// Whether the physical link is reported.
    pub link: u8,
    pub options: u8,
    /// The device's own address, in the low 48 bits.
    pub address: u64,
    /// The most bytes of a frame.
    pub mtu: u64,
    pub cflags: u16,
    /// The most bytes of a frame that is segmented for the sender.
    pub lso: u16,
}

/// The disk's attributes that the bytes after the tag spell: all do.
pub fn disk_attr(bytes: &[u8; 48]) -> DiskAttr
    ensures { result ≡ disk_attr_of bytes.now }
{
    DiskAttr {
        mode: get_field!(get_u8, DISK_ATTR, bytes, DISK_XFER_MODE),
        kind: get_field!(get_u8, DISK_ATTR, bytes, VDISK_TYPE),
        media: get_field!(get_u8, DISK_ATTR, bytes, VDISK_MTYPE),
        block_size: get_field!(get_u32, DISK_ATTR, bytes, VDISK_BLOCK_SIZE),
        operations: get_field!(get_u64, DISK_ATTR, bytes, OPERATIONS),
        blocks: get_field!(get_u64, DISK_ATTR, bytes, VDISK_SIZE),
        max_transfer: get_field!(get_u64, DISK_ATTR, bytes, MAX_XFER_SIZE),
        physical: get_field!(get_u32, DISK_ATTR, bytes, PHYS_BLOCK_SIZE),
    }
}

/// The canonical bytes of a disk's attributes, after the tag.
pub fn put_disk_attr(attr: &DiskAttr) -> [u8; 48]
    ensures written { result ≡ disk_attr_bytes attr.now }
    ensures reads_back { disk_attr_of result ≡ attr.now }
{
    disk_bytes_of(*attr)
}

// By value, so that each field is known to be of its width.
fn disk_bytes_of(attr: DiskAttr) -> [u8; 48]
    ensures written { result ≡ disk_attr_bytes attr }
    ensures widths { DiskAttrHasWidths attr }
{
    let mut bytes = [0; ATTR_LENGTH];
    put_field!(put_u8, DISK_ATTR, &mut bytes, DISK_XFER_MODE, attr.mode);
    put_field!(put_u8, DISK_ATTR, &mut bytes, VDISK_TYPE, attr.kind);
    put_field!(put_u8, DISK_ATTR, &mut bytes, VDISK_MTYPE, attr.media);
    put_field!(
        put_u32,
        DISK_ATTR,
        &mut bytes,
        VDISK_BLOCK_SIZE,
        attr.block_size
    );
    put_field!(put_u64, DISK_ATTR, &mut bytes, OPERATIONS, attr.operations);
    put_field!(put_u64, DISK_ATTR, &mut bytes, VDISK_SIZE, attr.blocks);
    put_field!(
        put_u64,
        DISK_ATTR,
        &mut bytes,
        MAX_XFER_SIZE,
        attr.max_transfer
    );
    put_field!(
        put_u32,
        DISK_ATTR,
        &mut bytes,
        PHYS_BLOCK_SIZE,
        attr.physical
    );
    bytes
}

/// The network device's attributes that the bytes after the tag spell: all do.
pub fn net_attr(bytes: &[u8; 48]) -> NetAttr
    ensures { result ≡ net_attr_of bytes.now }
{
    NetAttr {
        mode: get_field!(get_u8, NET_ATTR, bytes, NET_XFER_MODE),
        address_kind: get_field!(get_u8, NET_ATTR, bytes, ADDR_TYPE),
        ack_freq: get_field!(get_u16, NET_ATTR, bytes, ACK_FREQ),
        link: get_field!(get_u8, NET_ATTR, bytes, PLNK_UPDT),
        options: get_field!(get_u8, NET_ATTR, bytes, NET_OPTIONS),
        address: get_field!(get_u64, NET_ATTR, bytes, ADDR),
        mtu: get_field!(get_u64, NET_ATTR, bytes, MTU),
        cflags: get_field!(get_u16, NET_ATTR, bytes, CFLAGS),
        lso: get_field!(get_u16, NET_ATTR, bytes, IPV4_LSO_MAXLEN),
    }
}

/// The canonical bytes of a network device's attributes, after the tag.
pub fn put_net_attr(attr: &NetAttr) -> [u8; 48]
    ensures written { result ≡ net_attr_bytes attr.now }
    ensures reads_back { net_attr_of result ≡ attr.now }
{
    net_bytes_of(*attr)
}

// By value, so that each field is known to be of its width.
fn net_bytes_of(attr: NetAttr) -> [u8; 48]
    ensures written { result ≡ net_attr_bytes attr }
    ensures widths { NetAttrHasWidths attr }
{
    let mut bytes = [0; ATTR_LENGTH];
    put_field!(put_u8, NET_ATTR, &mut bytes, NET_XFER_MODE, attr.mode);
    put_field!(put_u8, NET_ATTR, &mut bytes, ADDR_TYPE, attr.address_kind);
    put_field!(put_u16, NET_ATTR, &mut bytes, ACK_FREQ, attr.ack_freq);
    put_field!(put_u8, NET_ATTR, &mut bytes, PLNK_UPDT, attr.link);
    put_field!(put_u8, NET_ATTR, &mut bytes, NET_OPTIONS, attr.options);
    put_field!(put_u64, NET_ATTR, &mut bytes, ADDR, attr.address);
    put_field!(put_u64, NET_ATTR, &mut bytes, MTU, attr.mtu);
    put_field!(put_u16, NET_ATTR, &mut bytes, CFLAGS, attr.cflags);
    put_field!(put_u16, NET_ATTR, &mut bytes, IPV4_LSO_MAXLEN, attr.lso);
    bytes
}
