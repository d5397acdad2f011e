// One walk over the cookies of a copy, which looks for all faults.

ghost use Rattle.std.specs.Prelude.{◌≡◌, ◌+◌, ◌-◌, ◌&&◌, true};
ghost use Rattle.std.specs.List.{list_all};
ghost use Rattle.cookie_copy.specs.Faults.{has_page, held, is_aligned_cookie, is_allowed, is_found, is_mapped};
ghost use Rattle.cookie_copy.specs.Faults.{may_move};
ghost use Rattle.cookie_copy.specs.Moved.{moved_spots, part_spots};

use crate::asking::{Asked, ask_part};
use crate::fault::Access;
use crate::window::Window;
use map_table::{Cookie, MapTable};

/// What is known of the cookies that were looked at, and what of the copy is left after them.
#[derive(Clone, Copy)]
pub(crate) struct Checked {
    pub(crate) aligned: bool,
    pub(crate) asked: Asked,
    pub(crate) left: Window,
}

impl Checked {
    /// What is known with the next cookie.
    fn with(self, access: Access, table: &MapTable, cookie: &Cookie) -> Checked
        ensures aligned { result.aligned ≡ (self.aligned && is_aligned_cookie cookie.now) }
        ensures left { result.left ≡ record {
          skip = self.left.skip - cookie.now.size;
          len = self.left.len - (cookie.now.size - self.left.skip);
        } }
        ensures paged { result.asked.paged ≡ (self.asked.paged
            && list_all has_page (part_spots cookie.now self.left.skip self.left.len)) }
        ensures mapped { result.asked.mapped ≡ (self.asked.mapped
            && list_all (is_found table.now) (part_spots cookie.now self.left.skip self.left.len)) }
        ensures allowed { result.asked.allowed ≡ (self.asked.allowed
            && list_all (may_move access table.now) (part_spots cookie.now self.left.skip self.left.len)) }
    {
        let aligned = self.aligned & is_aligned_cookie(cookie);
        if self.left.misses(cookie) {
            return Checked {
                aligned,
                asked: self.asked,
                left: self.left.past(cookie),
            };
        }
        let part = self.left.part(cookie);
        Checked {
            aligned,
            asked: self
                .asked
                .and(ask_part(access, table, cookie, self.left.skip, part)),
            left: self.left.behind(cookie),
        }
    }
}

/// Looks at each cookie once. An entry that isn't granted, or lacks the right, is known only where all
/// addresses have the page size code 0.
pub(crate) fn check(access: Access, table: &MapTable, cookies: &[Cookie], window: Window) -> Checked
    ensures aligned { result.aligned ≡ list_all is_aligned_cookie cookies.now }
    ensures left { result.left.skip + result.left.len ≡ window.skip + window.len - held cookies.now }
    ensures paged { result.asked.paged ≡ list_all has_page (moved_spots cookies.now window.skip window.len) }
    ensures mapped { result.asked.paged ≡ true
        → result.asked.mapped
        ≡ list_all (is_mapped table.now) (moved_spots cookies.now window.skip window.len) }
    ensures allowed { result.asked.paged ≡ true
        → result.asked.allowed
        ≡ list_all (is_allowed access table.now) (moved_spots cookies.now window.skip window.len) }
{
    let mut checked = Checked {
        aligned: true,
        asked: Asked::NONE_YET,
        left: window,
    };
    for cookie in cookies {
        checked = checked.with(access, table, cookie);
    }
    checked
}

pub(crate) fn is_aligned_cookie(cookie: &Cookie) -> bool
    ensures { result ≡ is_aligned_cookie cookie.now }
{
    (cookie.address % 8 == 0) & (cookie.size % 8 == 0)
}
