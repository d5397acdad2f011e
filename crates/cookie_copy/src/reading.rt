// From the memory of the other domain.

ghost use Rattle.std.specs.Prelude.{◌≡◌, ◌+◌, ◌^◌, ◌%◌, ◌<◌, ◌≤◌, true, length, map, slice_index};
ghost use Rattle.std.specs.List.{list_all, range_with_len};
ghost use Rattle.cookie_copy.specs.Faults.{CanMove, PagesWithin, has_page, is_mapped};
ghost use Rattle.cookie_copy.specs.Moved.{byte_of, moved_in};

use crate::place::place;
use crate::window::{Window, page_rest};
use dom_memory::Memory;
use map_table::{Cookie, MapTable};

/// Reads the bytes of the cookies from the offset on, as many as `buf` has.
#[inline(never)]
pub(crate) fn read_cookies(
    table: &MapTable,
    memory: &Memory,
    cookies: &[Cookie],
    offset: u64,
    buf: &mut [u8],
)
    requires within { PagesWithin table.now (length memory.now) }
    requires can { CanMove table.now cookies.now offset (length buf.old) }
    ensures { buf.new ≡ moved_in table.now memory.now cookies.now offset (length buf.old) }
{
    let mut window = Window {
        skip: offset,
        len: buf.len() as u64,
    };
    let mut done = 0;
    for cookie in cookies {
        if window.len == 0 {
            return;
        }
        let end = done + window.part(cookie) as usize;
        read_part(table, memory, cookie, &window, &mut buf[done..end]);
        done = end;
        window = window.behind(cookie);
    }
}

fn read_part(table: &MapTable, memory: &Memory, cookie: &Cookie, window: &Window, buf: &mut [u8])
    requires within { PagesWithin table.now (length memory.now) }
    requires paged { list_all has_page (range_with_len (cookie.now.address + window.now.skip) (length buf.old)) ≡ true }
    requires mapped { list_all (is_mapped table.now) (range_with_len (cookie.now.address + window.now.skip) (length buf.old)) ≡ true }
    ensures { buf.new ≡ map (byte_of table.now memory.now) (range_with_len (cookie.now.address + window.now.skip) (length buf.old)) }
{
    if buf.is_empty() {
        return;
    }
    read_addresses(table, memory, cookie.address + window.skip, buf);
}

fn read_addresses(table: &MapTable, memory: &Memory, address: u64, buf: &mut [u8])
    requires within { PagesWithin table.now (length memory.now) }
    requires below { address + length buf.old ≤ 2 ^ 60 }
    requires mapped { list_all (is_mapped table.now) (range_with_len address (length buf.old)) ≡ true }
    ensures { buf.new ≡ map (byte_of table.now memory.now) (range_with_len address (length buf.old)) }
{
    let mut done = 0;
    while done < buf.len() {
        let at = address + done as u64;
        let end = done + page_rest(at).min((buf.len() - done) as u64) as usize;
        read_page(table, memory, at, &mut buf[done..end]);
        done = end;
    }
}

/// Reads bytes of one page.
pub(crate) fn read_page(table: &MapTable, memory: &Memory, address: u64, buf: &mut [u8])
    requires within { PagesWithin table.now (length memory.now) }
    requires below { address + length buf.old ≤ 2 ^ 60 }
    requires some { address < 2 ^ 60 }
    requires page { address % 8192 + length buf.old ≤ 8192 }
    requires mapped { is_mapped table.now address ≡ true }
    ensures { buf.new ≡ map (byte_of table.now memory.now) (range_with_len address (length buf.old)) }
{
    memory.read(place(table, address), buf);
}
