// Whether a descriptor may be that of a frame.

ghost use Rattle.std.specs.Prelude.{◌≡◌};
ghost use Rattle.vnet_msg.specs.Frames.{holds_frame};

use crate::desc::NetDesc;
use crate::layout::{LEAST_FRAME, MOST_COOKIES, MOST_FRAME};

/// Whether the descriptor's size is that of a frame, 14 to 1,514 bytes, and it has 1 to 3 cookies.
pub fn holds_frame(desc: &NetDesc) -> bool
    ensures { result ≡ holds_frame desc.now }
{
    LEAST_FRAME <= desc.size
        && desc.size <= MOST_FRAME
        && 1 <= desc.count
        && desc.count <= MOST_COOKIES
}
