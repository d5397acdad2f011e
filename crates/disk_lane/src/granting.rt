// The memory of a lane's client.

ghost use Rattle.std.specs.Prelude.{◌≡◌, ◌+◌, ◌*◌, ◌≤◌};
ghost use Rattle.vdisk_msg.specs.Requested.{ring_pages};

use dom_memory::PAGE;
use vdisk_msg::{BUFFER_PAGES, SLOT};

/// How many pages a ring of so many slots has, with the buffers of the slots.
pub fn pages_for(slots: u32) -> u32
    requires { slots ≤ 256 }
    ensures { result ≡ ring_pages slots + 4 * slots }
{
    (SLOT as u32 * slots).div_ceil(PAGE as u32) + BUFFER_PAGES * slots
}
