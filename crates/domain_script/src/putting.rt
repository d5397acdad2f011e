// The words of a line that its table gives, or the names declared, put into a buffer.
ghost use Rattle.std.specs.Prelude.{◌≡◌, ◌+◌, ◌≤◌, ◌∷◌, ◌++◌, length, take};
ghost use Rattle.domain_script.specs.Naming.{side_text};
ghost use Rattle.domain_script.specs.Printed.{HasName, end_text, lane_text};
ghost use Rattle.domain_script.specs.Rows.{row_of};

use crate::rows::RowKind;
use crate::{EndName, Lane, Names, Side};
use script_words::putting::{put, put_name};

/// Puts the word of a row first.
pub fn put_row(kind: RowKind, out: &mut [u8; 3100]) -> usize
    ensures text { take result out.new ≡ (row_of kind).word }
    ensures len { result ≤ 7 }
{
    put(kind.word(), out, 0)
}

/// Puts the name of a declared lane.
pub fn put_lane(lane: Lane, names: &Names, out: &mut [u8; 3100], len: usize) -> usize
    requires name { HasName names.now lane }
    requires room { len + 9 ≤ 3100 }
    ensures text { take result out.new ≡ take len out.old ++ 32 ∷ lane_text names.now lane }
    ensures len { result ≤ len + 9 }
{
    match names.name(lane) {
        Some(name) => put_name(&name, out, len),
        None => unreachable!(),
    }
}

/// Puts an end: its lane's name, and its side.
pub fn put_end(end: EndName, names: &Names, out: &mut [u8; 3100], len: usize) -> usize
    requires name { HasName names.now end.lane }
    requires room { len + 11 ≤ 3100 }
    ensures text { take result out.new ≡ take len out.old ++ 32 ∷ end_text names.now end }
    ensures len { result ≤ len + 11 }
{
    let len = put_lane(end.lane, names, out, len);
    put(side_bytes(end.side), out, len)
}

fn side_bytes(side: Side) -> &'static [u8]
    ensures text { result.now ≡ side_text side }
    ensures len { length result.now ≡ 2 }
{
    match side {
        Side::Client => b".c",
        Side::Server => b".s",
    }
}
