// What a descriptor says.

use map_table::Cookie;

/// A disk descriptor, as a slot of 128 bytes of the ring holds it (`struct vio_disk_desc` of
/// Linux's vio.h).
#[derive(Clone, Copy, Debug, PartialEq, Eq)]
pub struct DiskDesc {
    /// FREE 1, READY 2, ACCEPTED 3 or DONE 4.
    pub state: u8,
    /// 1 where an acknowledgement is asked for.
    pub ack: u8,
    /// The number of the request.
    pub id: u64,
    /// What is asked of the disk, BREAD 1, BWRITE 2, FLUSH 3, GET_WCE 4 or SET_WCE 5.
    pub operation: u8,
    /// The slice of the disk, 0xff for the whole of it.
    pub slice: u8,
    /// The answer: 0 for success, 5 for an I/O error, 22 for an invalid descriptor, 48 for an operation
    /// that isn't supported.
    pub status: u32,
    /// The first block.
    pub offset: u64,
    /// The length in bytes.
    pub size: u64,
    /// How many of the cookies name the buffer.
    pub count: u32,
    /// The buffer, piece by piece. Those past `count` stand as they are.
    pub cookies: [Cookie; 5],
}

/// What is wrong with a descriptor.
#[derive(Clone, Copy, Debug, PartialEq, Eq)]
pub enum DescFault {
    /// The operation is above 63, or its bit isn't in the mask.
    Operation,
    /// A read or a write without 1 to 5 cookies.
    Cookies,
    /// A read or a write of no bytes, of more than 32,768, or of a part of a block.
    Size,
    /// A read or a write that ends past the disk.
    Range,
}
