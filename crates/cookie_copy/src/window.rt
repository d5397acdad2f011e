// The part of cookies that a copy moves.

ghost use Rattle.std.specs.Prelude.{◌≡◌, ◌+◌, ◌-◌, ◌%◌, ◌^◌, ◌<◌, ◌↔◌, IsTrue, min};

use map_table::Cookie;

/// What a copy passes over of the cookies that are left, and how many bytes it moves after that.
#[derive(Clone, Copy)]
pub(crate) struct Window {
    pub(crate) skip: u64,
    pub(crate) len: u64,
}

impl Window {
    /// Whether it moves no byte of a cookie.
    pub(crate) fn misses(&self, cookie: &Cookie) -> bool
        ensures { IsTrue result ↔ (min (cookie.now.size - self.now.skip) self.now.len ≡ 0) }
    {
        cookie.size <= self.skip || self.len == 0
    }

    /// How many bytes of a cookie it moves.
    pub(crate) fn part(&self, cookie: &Cookie) -> u64
        ensures part { result ≡ min (cookie.now.size - self.now.skip) self.now.len }
        ensures fits { 0 < result → self.now.skip + result < 2 ^ 64 }
    {
        cookie.size.saturating_sub(self.skip).min(self.len)
    }

    /// What is left to do after a cookie of which it moves no byte.
    pub(crate) fn past(&self, cookie: &Cookie) -> Window
        requires { min (cookie.now.size - self.now.skip) self.now.len ≡ 0 }
        ensures { result ≡ record {
          skip = self.now.skip - cookie.now.size;
          len = self.now.len - (cookie.now.size - self.now.skip);
        } }
    {
        Window {
            skip: self.skip.saturating_sub(cookie.size),
            len: self.len,
        }
    }

    /// What is left to do after a cookie.
    pub(crate) fn behind(&self, cookie: &Cookie) -> Window
        ensures { result ≡ record { skip = self.now.skip - cookie.now.size; len = self.now.len - (cookie.now.size - self.now.skip) } }
    {
        Window {
            skip: self.skip.saturating_sub(cookie.size),
            len: self
                .len
                .saturating_sub(cookie.size.saturating_sub(self.skip)),
        }
    }
}

/// How many bytes of its page stand from an address on.
pub(crate) fn page_rest(address: u64) -> u64
    ensures { result ≡ 8192 - address % 8192 }
{
    8192 - address % 8192
}
