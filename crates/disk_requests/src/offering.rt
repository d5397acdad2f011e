// What the ends offer in the handshake of a session.

ghost use Rattle.std.specs.Prelude.{◌≡◌, ◌+◌, ◌*◌, ◌/◌, ◌≤◌, nat_le, [], ◌∷◌, length};
ghost use Rattle.vdisk_msg.specs.Requested.{ring_pages};
ghost use Rattle.vio_tag.specs.Attributes.{disk_attr_bytes};
ghost use Rattle.lane_models.specs.OwnMemory.{filled, page_cookies};
ghost use Rattle.lane_models.specs.Offering.{client_offer, disk_of, own_cookies};

use dom_memory::PAGE;
use map_table::Cookie;
use vdisk_msg::SLOT;
use vio_handshake::Offer;
use vio_tag::{DiskAttr, put_disk_attr};

/// The highest version is 1.1.
const MINOR: u16 = 1;

/// What kind of end this is (`VDEV_DISK` of Linux's vio.h).
const VDEV_DISK: u8 = 3;

/// The client of a disk of so many blocks registers a ring of so many slots, and expects none.
pub fn client_offer(blocks: u64, slots: u32) -> Offer
    requires { slots ≤ 256 }
    ensures { result ≡ client_offer blocks slots }
{
    let (count, cookies) = own_cookies(slots);
    Offer {
        minor: MINOR,
        class: VDEV_DISK,
        attr: disk_bytes(blocks),
        slots,
        slot_size: SLOT as u32,
        count,
        cookies,
        both_rings: false,
        peer_slots: 0,
    }
}

/// The attributes that an end names: its number of blocks, and nothing else.
pub fn disk_bytes(blocks: u64) -> [u8; 48]
    ensures { result ≡ disk_attr_bytes (disk_of blocks) }
{
    put_disk_attr(&DiskAttr {
        mode: 0,
        kind: 0,
        media: 0,
        block_size: 0,
        operations: 0,
        blocks,
        max_transfer: 0,
        physical: 0,
    })
}

/// How many pages a ring has.
pub(crate) fn ring_pages(slots: u32) -> u32
    requires { slots ≤ 256 }
    ensures { result ≡ ring_pages slots }
{
    (SLOT as u32 * slots).div_ceil(PAGE as u32)
}

/// The ring's cookies, one for each page of it, or one of its size where it is below a page; and how many.
fn own_cookies(slots: u32) -> (u32, [Cookie; 14])
    requires { slots ≤ 256 }
    ensures count { result.0 ≡ length (own_cookies slots) }
    ensures cookies { result.1 ≡ filled 14 (own_cookies slots) }
{
    if slots >= (PAGE / SLOT) as u32 {
        let pages = ring_pages(slots);
        return (pages, page_cookies(pages));
    }
    let mut cookies = [Cookie::NONE; 14];
    cookies[0] = Cookie {
        address: 0,
        size: SLOT as u64 * slots as u64,
    };
    (1, cookies)
}

/// A cookie for each of the first pages.
fn page_cookies(pages: u32) -> [Cookie; 14]
    requires { pages ≤ 4 }
    ensures { result ≡ filled 14 (page_cookies 0 pages) }
{
    let mut cookies = [Cookie::NONE; 14];
    for page in 0..pages {
        cookies[page as usize] = Cookie {
            address: PAGE as u64 * page as u64,
            size: PAGE as u64,
        };
    }
    cookies
}
