// What a descriptor says.

use map_table::Cookie;

/// A net descriptor, as a slot of 64 bytes of the ring holds it (`struct vio_net_desc` of Linux's vio.h).
#[derive(Clone, Copy, Debug, PartialEq, Eq)]
pub struct NetDesc {
    /// FREE 1, READY 2, ACCEPTED 3 or DONE 4.
    pub state: u8,
    /// 1 where an acknowledgement is asked for.
    pub ack: u8,
    /// The length of the frame in bytes.
    pub size: u32,
    /// How many of the cookies name the buffer.
    pub count: u32,
    /// The buffer, piece by piece. Those past `count` stand as they are.
    pub cookies: [Cookie; 3],
}
