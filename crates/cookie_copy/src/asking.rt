// What the addresses of a cookie are asked, page by page.

ghost use Rattle.std.specs.Prelude.{◌≡◌, ◌≢◌, ◌+◌, ◌^◌, ◌<◌, ◌≤◌, true, ◌&&◌, nat_le};
ghost use Rattle.std.specs.List.{list_all, range_with_len};
ghost use Rattle.cookie_copy.specs.Faults.{allows, has_page, is_found, may_move};

use crate::fault::Access;
use crate::window::page_rest;
use map_table::{Cookie, MapTable, Rights};

/// Addresses below it have the page size code 0.
const TOP: u64 = 1 << 60;

/// What is known of the addresses that were asked: whether all have the page size code 0, and whether
/// beyond it the entries of all are granted, and have the right.
#[derive(Clone, Copy)]
pub(crate) struct Asked {
    pub(crate) paged: bool,
    pub(crate) mapped: bool,
    pub(crate) allowed: bool,
}

impl Asked {
    /// Of no address.
    pub(crate) const NONE_YET: Asked = Asked {
        paged: true,
        mapped: true,
        allowed: true,
    };

    const NO_PAGE: Asked = Asked {
        paged: false,
        mapped: false,
        allowed: false,
    };

    /// What is known with more that was asked.
    pub(crate) fn and(self, more: Asked) -> Asked
        ensures paged { result.paged ≡ (self.paged && more.paged) }
        ensures mapped { result.mapped ≡ (self.mapped && more.mapped) }
        ensures allowed { result.allowed ≡ (self.allowed && more.allowed) }
    {
        Asked {
            paged: self.paged & more.paged,
            mapped: self.mapped & more.mapped,
            allowed: self.allowed & more.allowed,
        }
    }
}

impl Access {
    pub(crate) fn is_allowed(self, rights: Rights) -> bool
        ensures { result ≡ allows self rights }
    {
        match self {
            Access::Read => rights.read,
            Access::Write => rights.write,
        }
    }
}

/// Asks what is moved of a cookie, some bytes after its first `skip`: its pages only where all of them
/// have the page size code 0.
pub(crate) fn ask_part(
    access: Access,
    table: &MapTable,
    cookie: &Cookie,
    skip: u64,
    part: u64,
) -> Asked
    requires some { part ≢ 0 }
    requires fits { skip + part < 2 ^ 64 }
    ensures paged { result.paged ≡ list_all has_page (range_with_len (cookie.now.address + skip) part) }
    ensures mapped { result.mapped ≡ list_all (is_found table.now) (range_with_len (cookie.now.address + skip) part) }
    ensures allowed { result.allowed
        ≡ list_all (may_move access table.now) (range_with_len (cookie.now.address + skip) part) }
{
    if !ends_in_time(cookie.address, skip + part) {
        return Asked::NO_PAGE;
    }
    let address = cookie.address + skip;
    if part <= page_rest(address) {
        return ask_page(access, table, address);
    }
    ask_pages(access, table, address, part)
}

fn ends_in_time(address: u64, len: u64) -> bool
    ensures { result ≡ nat_le (address + len) (2 ^ 60) }
{
    address <= TOP && len <= TOP - address
}

#[inline(never)]
fn ask_pages(access: Access, table: &MapTable, address: u64, len: u64) -> Asked
    requires { address + len ≤ 2 ^ 60 }
    ensures paged { result.paged ≡ true }
    ensures mapped { result.mapped ≡ list_all (is_found table.now) (range_with_len address len) }
    ensures allowed { result.allowed ≡ list_all (may_move access table.now) (range_with_len address len) }
{
    let mut asked = Asked::NONE_YET;
    let mut done = 0;
    while done < len {
        asked = asked.and(ask_page(access, table, address + done));
        done += page_rest(address + done).min(len - done);
    }
    asked
}

fn ask_page(access: Access, table: &MapTable, address: u64) -> Asked
    requires { address < 2 ^ 60 }
    ensures paged { result.paged ≡ true }
    ensures mapped { result.mapped ≡ is_found table.now address }
    ensures allowed { result.allowed ≡ may_move access table.now address }
{
    match table.look(address) {
        Ok(spot) => Asked {
            paged: true,
            mapped: true,
            allowed: access.is_allowed(spot.rights),
        },
        Err(_) => Asked {
            paged: true,
            mapped: false,
            allowed: false,
        },
    }
}
