// Requests of a disk's client.

ghost use Rattle.std.specs.Prelude.{IfSome};
ghost use Rattle.vdisk_msg.specs.Fills.{IsRequest};

use crate::digits::packet;
use vdisk_msg::{Fill, Request};

/// `write BLOCK COUNT BYTE`, `read BLOCK COUNT` or `flush`.
pub fn request_of(words: &[&str]) -> Option<Request>
    ensures { IfSome result (λ request. IsRequest request) }
{
    match words {
        ["write", block, count, byte] => {
            let [byte] = packet::<1>(byte)?;
            Some(write(block.parse().ok()?, count.parse().ok()?, byte))
        }
        ["read", block, count] => Some(Request::Read {
            block: block.parse().ok()?,
            count: count.parse().ok()?,
        }),
        ["flush"] => Some(Request::Flush),
        _ => None,
    }
}

// A write whose word is one byte.
fn write(block: u64, count: u64, byte: u8) -> Request
    ensures { IsRequest result }
{
    let mut bytes = [0; 1024];
    bytes[0] = byte;
    let fill = Fill { len: 1, bytes };
    Request::Write { block, count, fill }
}
