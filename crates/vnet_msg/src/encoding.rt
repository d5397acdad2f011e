// From a descriptor to bytes.

ghost use Rattle.std.specs.Prelude.{◌≡◌};
ghost use Rattle.vnet_msg.specs.Descriptor.{HeadHasWidths, canonical, head_bytes, net_desc_of};

use crate::desc::NetDesc;
use crate::layout::{ACK, HEAD, NCOOKIES, NET_DESC, SIZE, STATE};
use map_table::put_cookies;
use vio_bytes::{put_field, put_u8, put_u32};

/// Writes the canonical spelling of the descriptor: zeros stand in the bytes that no field names.
pub fn encode(desc: &NetDesc, out: &mut [u8; 64])
    ensures written { out.new ≡ canonical desc.now }
    ensures reads_back { net_desc_of out.new ≡ desc.now }
{
    let head = head_of(*desc);
    out[..HEAD].copy_from_slice(&head);
    put_cookies(out, HEAD, &desc.cookies);
}

// By value, so that each field is known to be of its width.
fn head_of(desc: NetDesc) -> [u8; 16]
    ensures written { result ≡ head_bytes desc }
    ensures widths { HeadHasWidths desc }
{
    let mut head = [0; HEAD];
    put_field!(put_u8, NET_DESC, &mut head, STATE, desc.state);
    put_field!(put_u8, NET_DESC, &mut head, ACK, desc.ack);
    put_field!(put_u32, NET_DESC, &mut head, SIZE, desc.size);
    put_field!(put_u32, NET_DESC, &mut head, NCOOKIES, desc.count);
    head
}
