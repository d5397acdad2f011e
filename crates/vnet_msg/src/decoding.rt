// From bytes to a descriptor.

ghost use Rattle.std.specs.Prelude.{◌≡◌};
ghost use Rattle.vnet_msg.specs.Descriptor.{net_desc_of, net_desc_with};

use crate::desc::NetDesc;
use crate::layout::{ACK, HEAD, NCOOKIES, NET_DESC, SIZE, STATE};
use map_table::{Cookie, get_cookies};
use vio_bytes::{get_field, get_u8, get_u32};

/// The descriptor that the bytes of a slot spell: all 64 bytes spell one, and nothing is refused. All three cookies
/// are given as they stand.
pub fn decode(bytes: &[u8; 64]) -> NetDesc
    ensures { result ≡ net_desc_of bytes.now }
{
    let mut cookies = [Cookie::NONE; 3];
    get_cookies(bytes, HEAD, &mut cookies);
    desc_with(bytes, cookies)
}

// The fields of the head, with these cookies.
fn desc_with(bytes: &[u8; 64], cookies: [Cookie; 3]) -> NetDesc
    ensures { result ≡ net_desc_with bytes.now cookies }
{
    NetDesc {
        state: get_field!(get_u8, NET_DESC, bytes, STATE),
        ack: get_field!(get_u8, NET_DESC, bytes, ACK),
        size: get_field!(get_u32, NET_DESC, bytes, SIZE),
        count: get_field!(get_u32, NET_DESC, bytes, NCOOKIES),
        cookies,
    }
}
