// Whether a server can run a descriptor.

ghost use Rattle.std.specs.Prelude.{◌≡◌, Some, None, MatchResult};
ghost use Rattle.vdisk_msg.specs.Check.{first_defect, is_allowed, is_within};

use crate::desc::{DescFault, DiskDesc};
use crate::layout::{BLOCK, MOST_BYTES, MOST_COOKIES, VD_OP_BREAD, VD_OP_BWRITE};

/// Whether a server that takes the operations of `mask`, of a disk of `blocks` blocks, can run the
/// descriptor: the first fault in the order of `DescFault`.
pub fn check(desc: &DiskDesc, blocks: u64, mask: u64) -> Result<(), DescFault>
    ensures { MatchResult result (λ _. first_defect desc.now blocks mask ≡ None) (λ fault. first_defect desc.now blocks mask ≡ Some fault) }
{
    if !is_allowed(desc.operation, mask) {
        return Err(DescFault::Operation);
    }
    if desc.operation != VD_OP_BREAD && desc.operation != VD_OP_BWRITE {
        return Ok(());
    }
    if desc.count < 1 || desc.count > MOST_COOKIES {
        return Err(DescFault::Cookies);
    }
    if desc.size == 0 || desc.size > MOST_BYTES || desc.size % BLOCK != 0 {
        return Err(DescFault::Size);
    }
    if !is_within(desc.offset, desc.size / BLOCK, blocks) {
        return Err(DescFault::Range);
    }
    Ok(())
}

/// Whether the mask has the operation's bit.
fn is_allowed(operation: u8, mask: u64) -> bool
    ensures { result ≡ is_allowed operation mask }
{
    operation < 64 && (mask >> operation) & 1 == 1
}

/// Whether `count` blocks from `offset` on lie in a disk of `blocks` blocks.
fn is_within(offset: u64, count: u64, blocks: u64) -> bool
    ensures { result ≡ is_within offset count blocks }
{
    count <= blocks && offset <= blocks - count
}
