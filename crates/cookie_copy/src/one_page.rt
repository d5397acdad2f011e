// Copies that stay within one page of one cookie, as those of a slot of a ring mostly do.

ghost use Rattle.std.specs.Prelude.{◌≡◌, ◌+◌, ◌-◌, ◌%◌, ◌<◌, ◌≤◌, IfSome};
ghost use Rattle.std.specs.List.{list_all, range_with_len};
ghost use Rattle.cookie_copy.specs.Faults.{held, is_aligned, is_aligned_cookie, may_move};
ghost use Rattle.cookie_copy.specs.Moved.{moved_spots};
ghost use Rattle.cookie_copy.specs.OnePage.{MovesInPage};

use crate::checking::is_aligned_cookie;
use crate::fault::Access;
use crate::window::{Window, page_rest};
use map_table::{Cookie, MapTable};

/// The address of the first byte that is moved, where one page of one cookie holds all of them and no
/// fault is found: the entry of that page is the only one that is looked up. `None` tells nothing.
pub(crate) fn moves_in_page(
    up: bool,
    access: Access,
    table: &MapTable,
    cookies: &[Cookie],
    window: Window,
) -> Option<u64>
    ensures { IfSome result (MovesInPage up access table.now cookies.now window.skip window.len) }
{
    if !up {
        return None;
    }
    if !is_aligned(cookies, window.skip, window.len) {
        return None;
    }
    let address = in_one_page(cookies, window)?;
    if !may_move(access, table, address) {
        return None;
    }
    Some(address)
}

fn is_aligned(cookies: &[Cookie], offset: u64, len: u64) -> bool
    ensures { result ≡ is_aligned cookies.now offset len }
{
    offset % 8 == 0 && len % 8 == 0 && are_aligned(cookies)
}

fn are_aligned(cookies: &[Cookie]) -> bool
    ensures { result ≡ list_all is_aligned_cookie cookies.now }
{
    cookies.iter().all(|cookie| is_aligned_cookie(cookie))
}

// Cookies before the one that holds the bytes are passed over by their sizes alone.
fn in_one_page(cookies: &[Cookie], window: Window) -> Option<u64>
    ensures some { IfSome result (λ _. 0 < window.len) }
    ensures page { IfSome result (λ address. address % 8192 + window.len ≤ 8192) }
    ensures spots { IfSome result
        (λ address. moved_spots cookies.now window.skip window.len ≡ range_with_len address window.len) }
    ensures holds { IfSome result (λ _. window.skip + window.len ≤ held cookies.now) }
{
    let mut skip = window.skip;
    for cookie in cookies {
        if skip < cookie.size {
            return page_part(cookie, skip, window.len);
        }
        skip -= cookie.size;
    }
    None
}

fn page_part(cookie: &Cookie, skip: u64, len: u64) -> Option<u64>
    requires { skip < cookie.now.size }
    ensures some { IfSome result (λ _. 0 < len) }
    ensures page { IfSome result (λ address. address % 8192 + len ≤ 8192) }
    ensures address { IfSome result (λ address. address ≡ cookie.now.address + skip) }
    ensures within { IfSome result (λ _. len ≤ cookie.now.size - skip) }
{
    let address = cookie.address.checked_add(skip)?;
    if len == 0 || len > cookie.size - skip || len > page_rest(address) {
        return None;
    }
    Some(address)
}

fn may_move(access: Access, table: &MapTable, address: u64) -> bool
    ensures { result ≡ may_move access table.now address }
{
    match table.look(address) {
        Ok(spot) => access.is_allowed(spot.rights),
        Err(_) => false,
    }
}
