// The descriptor of a request.

ghost use Rattle.std.specs.Prelude.{◌≡◌, ◌+◌, ◌*◌, ◌<◌, ◌≤◌};
ghost use Rattle.vdisk_msg.specs.Check.{most_bytes};
ghost use Rattle.vdisk_msg.specs.Requested.{block_of, buffer_cookie, buffer_cookies, buffer_place, cookie_count, descriptor_of, size_of};
ghost use Rattle.vdisk_msg.specs.Requests.{given_count, operation_of};

use crate::offering::ring_pages;
use dom_memory::PAGE;
use dring::{Ring, VIO_DESC_READY};
use map_table::Cookie;
use vdisk_msg::{BLOCK, BUFFER_PAGES, DiskDesc, Request, VD_OP_BREAD, VD_OP_BWRITE, VD_OP_FLUSH};

/// An acknowledgement is asked for.
const VIO_ACK_ENABLE: u8 = 1;

/// The whole disk.
const WHOLE_DISK: u8 = 0xff;

/// What a request asks of the disk.
pub fn operation_of(request: &Request) -> u8
    ensures { result ≡ operation_of request.now }
{
    match request {
        Request::Read { .. } => VD_OP_BREAD,
        Request::Write { .. } => VD_OP_BWRITE,
        Request::Flush => VD_OP_FLUSH,
    }
}

/// Its first block.
fn block_of(request: &Request) -> u64
    ensures { result ≡ block_of request.now }
{
    match request {
        Request::Read { block, .. } | Request::Write { block, .. } => *block,
        Request::Flush => 0,
    }
}

/// The bytes that it moves.
fn size_of(request: &Request) -> u64
    requires { size_of request.now ≤ most_bytes }
    ensures { result ≡ size_of request.now }
{
    match request {
        Request::Read { count, .. } | Request::Write { count, .. } => BLOCK * *count,
        Request::Flush => 0,
    }
}

/// The ring of so many slots, at the front of the memory.
pub fn ring_of(slots: u32) -> Ring<128>
    ensures { result.slots ≡ slots }
{
    Ring::new(slots)
}

/// Where a slot's buffer begins, after the pages of a ring of so many slots.
pub fn buffer_place(slots: u32, slot: u32) -> u64
    requires few { slots ≤ 256 }
    requires slot { slot < slots }
    ensures { result ≡ buffer_place slots slot }
{
    PAGE as u64 * (ring_pages(slots) + BUFFER_PAGES * slot) as u64
}

/// The descriptor of the request with this id, in a slot of a ring of so many: READY, with the slot's buffer as far as
/// it needs it.
#[tactic(auto, unfolding(vdisk_msg::specs::Requested::descriptor_of))]
pub(crate) fn descriptor_of(id: u64, request: &Request, slot: u32, slots: u32) -> DiskDesc
    requires few { slots ≤ 256 }
    requires slot { slot < slots }
    requires size { size_of request.now ≤ most_bytes }
    ensures { result ≡ descriptor_of id request.now slot slots }
{
    let size = size_of(request);
    DiskDesc {
        state: VIO_DESC_READY,
        ack: VIO_ACK_ENABLE,
        id,
        operation: operation_of(request),
        slice: WHOLE_DISK,
        status: 0,
        offset: block_of(request),
        size,
        count: cookie_count(size),
        cookies: buffer_cookies(buffer_place(slots, slot), size),
    }
}

/// One cookie for the whole of a buffer, and none for a request that moves nothing.
fn cookie_count(size: u64) -> u32
    ensures { result ≡ cookie_count size }
{
    if size > 0 { 1 } else { 0 }
}

/// The cookies of a buffer, of which the last four are never used.
#[tactic(auto, unfolding(vdisk_msg::specs::Requested::buffer_cookies))]
fn buffer_cookies(place: u64, size: u64) -> [Cookie; 5]
    ensures { result ≡ buffer_cookies place size }
{
    [
        buffer_cookie(place, size),
        Cookie::NONE,
        Cookie::NONE,
        Cookie::NONE,
        Cookie::NONE,
    ]
}

/// The buffer's pages follow one another, and page i is granted at index i: so its place is its address.
fn buffer_cookie(place: u64, size: u64) -> Cookie
    ensures { result ≡ buffer_cookie place size }
{
    if size > 0 {
        Cookie {
            address: place,
            size,
        }
    } else {
        Cookie::NONE
    }
}
