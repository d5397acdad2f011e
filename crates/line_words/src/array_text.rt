// The digits of an array.
ghost use Rattle.std.specs.Prelude.{◌≡◌, ◌+◌, ◌≤◌, ◌++◌, length};
ghost use Rattle.hex.specs.Hex.{encode_lower};

use gathered_text::{TEXT_ROOM, Text};
use trimmed_arrays::TrimmedArray;

/// The most bytes of an array.
const MOST_BYTES: usize = 255;

/// An array in hexadecimal digits, the zeros at its end too.
pub fn push_array(text: &mut Text, array: &TrimmedArray<'_>)
    requires { length text.old + 510 ≤ TEXT_ROOM }
    ensures text { text.new ≡ text.old ++ encode_lower array.now }
    ensures len { length text.new ≤ length text.old + 510 }
{
    let front = array.front();
    let len = array.len();
    let mut bytes = [0; MOST_BYTES];
    bytes[..front.len()].copy_from_slice(front);
    text.push_hex(&bytes[..len]);
}
