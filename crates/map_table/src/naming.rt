// Cookies that name granted pages.

ghost use Rattle.std.specs.Prelude.{◌≡◌, ◌+◌, ◌*◌, ◌<◌};

use crate::cookie::Cookie;

/// The cookie of `size` bytes from place `offset` on of the page that is granted at `index`.
pub fn cookie_of(index: u32, offset: u32, size: u64) -> Cookie
    requires { offset < 8192 }
    ensures { result ≡ record { address = index * 8192 + offset; size = size } }
{
    Cookie {
        address: index as u64 * 8192 + offset as u64,
        size,
    }
}
