// To the memory of the other domain.

ghost use Rattle.std.specs.Prelude.{◌≡◌, ◌+◌, ◌^◌, ◌%◌, ◌<◌, ◌≤◌, true, length, map};
ghost use Rattle.std.specs.List.{list_all, range_with_len};
ghost use Rattle.cookie_copy.specs.Faults.{CanMove, PagesWithin, has_page, is_mapped};
ghost use Rattle.cookie_copy.specs.Moved.{moved_out, place_of, write_spots};

use crate::place::place;
use crate::window::{Window, page_rest};
use dom_memory::Memory;
use map_table::{Cookie, MapTable};

/// Writes the bytes in the place of those of the cookies from the offset on.
#[inline(never)]
pub(crate) fn write_cookies(
    table: &MapTable,
    memory: &mut Memory,
    cookies: &[Cookie],
    offset: u64,
    bytes: &[u8],
)
    requires within { PagesWithin table.now (length memory.old) }
    requires can { CanMove table.now cookies.now offset (length bytes.now) }
    ensures written { memory.new ≡ moved_out table.now memory.old cookies.now offset bytes.now }
    ensures same_length { length memory.new ≡ length memory.old }
{
    let mut window = Window {
        skip: offset,
        len: bytes.len() as u64,
    };
    let mut done = 0;
    for cookie in cookies {
        if window.len == 0 {
            return;
        }
        let end = done + window.part(cookie) as usize;
        write_part(table, memory, cookie, &window, &bytes[done..end]);
        done = end;
        window = window.behind(cookie);
    }
}

fn write_part(table: &MapTable, memory: &mut Memory, cookie: &Cookie, window: &Window, bytes: &[u8])
    requires within { PagesWithin table.now (length memory.old) }
    requires paged { list_all has_page (range_with_len (cookie.now.address + window.now.skip) (length bytes.now)) ≡ true }
    requires mapped { list_all (is_mapped table.now) (range_with_len (cookie.now.address + window.now.skip) (length bytes.now)) ≡ true }
    ensures written { memory.new ≡ write_spots (map (place_of table.now) (range_with_len (cookie.now.address + window.now.skip) (length bytes.now))) bytes.now memory.old }
    ensures same_length { length memory.new ≡ length memory.old }
{
    if bytes.is_empty() {
        return;
    }
    write_addresses(table, memory, cookie.address + window.skip, bytes);
}

fn write_addresses(table: &MapTable, memory: &mut Memory, address: u64, bytes: &[u8])
    requires within { PagesWithin table.now (length memory.old) }
    requires below { address + length bytes.now ≤ 2 ^ 60 }
    requires mapped { list_all (is_mapped table.now) (range_with_len address (length bytes.now)) ≡ true }
    ensures written { memory.new ≡ write_spots (map (place_of table.now) (range_with_len address (length bytes.now))) bytes.now memory.old }
    ensures same_length { length memory.new ≡ length memory.old }
{
    let mut done = 0;
    while done < bytes.len() {
        let at = address + done as u64;
        let end = done + page_rest(at).min((bytes.len() - done) as u64) as usize;
        write_page(table, memory, at, &bytes[done..end]);
        done = end;
    }
}

/// Writes bytes of one page.
pub(crate) fn write_page(table: &MapTable, memory: &mut Memory, address: u64, bytes: &[u8])
    requires within { PagesWithin table.now (length memory.old) }
    requires below { address + length bytes.now ≤ 2 ^ 60 }
    requires some { address < 2 ^ 60 }
    requires page { address % 8192 + length bytes.now ≤ 8192 }
    requires mapped { is_mapped table.now address ≡ true }
    ensures written { memory.new ≡ write_spots (map (place_of table.now) (range_with_len address (length bytes.now))) bytes.now memory.old }
    ensures same_length { length memory.new ≡ length memory.old }
{
    memory.write(place(table, address), bytes);
}
