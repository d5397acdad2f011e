// From a descriptor to bytes.

ghost use Rattle.std.specs.Prelude.{◌≡◌};
ghost use Rattle.vdisk_msg.specs.Descriptor.{HeadHasWidths, canonical, disk_desc_of, head_bytes};

use crate::desc::DiskDesc;
use crate::layout::{
    ACK, DISK_DESC, HEAD, NCOOKIES, OFFSET, OPERATION, REQ_ID, SIZE, SLICE, STATE, STATUS,
};
use map_table::put_cookies;
use vio_bytes::{put_field, put_u8, put_u32, put_u64};

/// Writes the canonical spelling of the descriptor: zeros stand in the bytes that no field names.
pub fn encode(desc: &DiskDesc, out: &mut [u8; 128])
    ensures written { out.new ≡ canonical desc.now }
    ensures reads_back { disk_desc_of out.new ≡ desc.now }
{
    let head = head_of(*desc);
    out[..HEAD].copy_from_slice(&head);
    put_cookies(out, HEAD, &desc.cookies);
}

// By value, so that each field is known to be of its width.
fn head_of(desc: DiskDesc) -> [u8; 48]
    ensures written { result ≡ head_bytes desc }
    ensures widths { HeadHasWidths desc }
{
    let mut head = [0; HEAD];
    put_field!(put_u8, DISK_DESC, &mut head, STATE, desc.state);
    put_field!(put_u8, DISK_DESC, &mut head, ACK, desc.ack);
    put_field!(put_u64, DISK_DESC, &mut head, REQ_ID, desc.id);
    put_field!(put_u8, DISK_DESC, &mut head, OPERATION, desc.operation);
    put_field!(put_u8, DISK_DESC, &mut head, SLICE, desc.slice);
    put_field!(put_u32, DISK_DESC, &mut head, STATUS, desc.status);
    put_field!(put_u64, DISK_DESC, &mut head, OFFSET, desc.offset);
    put_field!(put_u64, DISK_DESC, &mut head, SIZE, desc.size);
    put_field!(put_u32, DISK_DESC, &mut head, NCOOKIES, desc.count);
    head
}
