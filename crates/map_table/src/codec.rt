ghost use Rattle.std.specs.Prelude.{◌≡◌, ◌+◌, ◌*◌, ◌≤◌, length};
ghost use Rattle.std.specs.List.{AllByRecursion};
ghost use Rattle.map_table.specs.Cookies.{IsCookie, cookie_at, cookies_at, cookie_bytes, cookies_bytes};
ghost use Rattle.vio_bytes.specs.Place.{put_at};

use crate::cookie::Cookie;
use vio_bytes::{get_u64, put_u64};

/// Reads cookies, as many as `cookies` has, which stand one after another from place `at` on.
pub fn get_cookies(bytes: &[u8], at: usize, cookies: &mut [Cookie])
    requires { at + 16 * length cookies.old ≤ length bytes.now }
    ensures { cookies.new ≡ cookies_at at (length cookies.old) bytes.now }
{
    for i in 0..cookies.len() {
        cookies[i] = get_cookie(bytes, at + 16 * i);
    }
}

/// Writes cookies one after another from place `at` on. All other bytes stay, and `get_cookies` reads
/// back what was written.
pub fn put_cookies(bytes: &mut [u8], at: usize, cookies: &[Cookie])
    requires { at + 16 * length cookies.now ≤ length bytes.old }
    ensures written { bytes.new ≡ put_at at (cookies_bytes cookies.now) bytes.old }
    ensures reads_back { cookies_at at (length cookies.now) bytes.new ≡ cookies.now }

    // As each cookie of a program is, which a caller can't see behind a slice.
    ensures each { AllByRecursion IsCookie cookies.now }
{
    for (i, cookie) in cookies.iter().enumerate() {
        put_cookie(bytes, at + 16 * i, cookie);
    }
}

fn get_cookie(bytes: &[u8], at: usize) -> Cookie
    requires { at + 16 ≤ length bytes.now }
    ensures { result ≡ cookie_at at bytes.now }
{
    Cookie {
        address: get_u64(bytes, at),
        size: get_u64(bytes, at + 8),
    }
}

fn put_cookie(bytes: &mut [u8], at: usize, cookie: &Cookie)
    requires { at + 16 ≤ length bytes.old }
    ensures written { bytes.new ≡ put_at at (cookie_bytes cookie.now) bytes.old }
    ensures is { IsCookie cookie.now }
{
    put_u64(bytes, at, cookie.address);
    put_u64(bytes, at + 8, cookie.size);
}
