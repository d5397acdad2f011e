// From bytes to a descriptor.

ghost use Rattle.std.specs.Prelude.{◌≡◌};
ghost use Rattle.vdisk_msg.specs.Descriptor.{disk_desc_of, disk_desc_with};

use crate::desc::DiskDesc;
use crate::layout::{
    ACK, DISK_DESC, HEAD, NCOOKIES, OFFSET, OPERATION, REQ_ID, SIZE, SLICE, STATE, STATUS,
};
use map_table::{Cookie, get_cookies};
use vio_bytes::{get_field, get_u8, get_u32, get_u64};

/// The descriptor that the bytes of a slot spell: all 128 bytes spell one, and nothing is refused. All five
/// cookies are given as they stand.
pub fn decode(bytes: &[u8; 128]) -> DiskDesc
    ensures { result ≡ disk_desc_of bytes.now }
{
    let mut cookies = [Cookie::NONE; 5];
    get_cookies(bytes, HEAD, &mut cookies);
    desc_with(bytes, cookies)
}

// The fields of the head, with these cookies.
fn desc_with(bytes: &[u8; 128], cookies: [Cookie; 5]) -> DiskDesc
    ensures { result ≡ disk_desc_with bytes.now cookies }
{
    DiskDesc {
        state: get_field!(get_u8, DISK_DESC, bytes, STATE),
        ack: get_field!(get_u8, DISK_DESC, bytes, ACK),
        id: get_field!(get_u64, DISK_DESC, bytes, REQ_ID),
        operation: get_field!(get_u8, DISK_DESC, bytes, OPERATION),
        slice: get_field!(get_u8, DISK_DESC, bytes, SLICE),
        status: get_field!(get_u32, DISK_DESC, bytes, STATUS),
        offset: get_field!(get_u64, DISK_DESC, bytes, OFFSET),
        size: get_field!(get_u64, DISK_DESC, bytes, SIZE),
        count: get_field!(get_u32, DISK_DESC, bytes, NCOOKIES),
        cookies,
    }
}
