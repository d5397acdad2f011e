ghost use Rattle.std.specs.Prelude.{◌≡◌, ◌≢◌, ◌<◌, ◌≤◌, ◌++◌, length, false, true, vec_capacity};
ghost use Rattle.vio_io.specs.Causes.{Fails};
ghost use Rattle.vio_io.specs.Ends.{SaysEnd};
ghost use Rattle.std.specs.Io.KnownBytes.{prepend_known};
ghost use Rattle.domain_script.specs.Pieces.{HasNoFeed};
ghost use Rattle.script_reader.specs.LinesState.{most_of_a_read};
ghost use Rattle.script_reader.specs.Parts.{Extends, MovesPart, ReadsLine};
ghost use Rattle.domain_script.specs.Limits.{most_line_bytes};

use crate::lines::LinesFault;
use crate::piece::Piece;
use memchr::memchr;
use vio_io::Source;

/// The most bytes that a line has, without its line feed.
pub const MOST_BYTES: usize = 3100;

/// Adds bytes to a line, unless it had more than 3,100 then. There is room for so many.
fn extend(line: &mut Vec<u8>, more: &[u8]) -> Result<(), LinesFault>
    requires short { length line.old.items ≤ most_line_bytes }
    requires room { most_line_bytes ≤ vec_capacity line.old }
    ensures extends { Extends line.old.items more.now result line.new.items }
    ensures room { most_line_bytes ≤ vec_capacity line.new }
{
    if more.len() > MOST_BYTES - line.len() {
        return Err(LinesFault::Long);
    }
    let _has_room = line.extend_from_slice(more);
    Ok(())
}

/// Moves the bytes before the first line feed from a piece to a line, and takes the line feed away. False where the
/// piece has none and was moved whole.
fn take_part(piece: &mut Piece, line: &mut Vec<u8>) -> Result<bool, LinesFault>
    requires short { length line.old.items ≤ most_line_bytes }
    requires no_feed { HasNoFeed line.old.items }
    requires room { most_line_bytes ≤ vec_capacity line.old }
    ensures moves { MovesPart piece.old line.old.items result piece.new line.new.items }
    ensures rest { result ≡ Ok true → length piece.new < most_of_a_read }
    ensures short { length piece.new ≤ most_of_a_read }
    ensures room { most_line_bytes ≤ vec_capacity line.new }
{
    let rest = piece.rest();
    match memchr(b'\n', rest) {
        Some(feed) => {
            extend(line, &rest[..feed])?;
            piece.skip(feed + 1);
            Ok(true)
        }
        None => {
            extend(line, rest)?;
            piece.clear();
            Ok(false)
        }
    }
}

/// Reads on until a line is whole. False at the source's end, where what is there is a last line without a line feed,
/// or nothing.
pub fn read_line<S: Source>(
    piece: &mut Piece,
    line: &mut Vec<u8>,
    source: &mut S,
) -> Result<bool, LinesFault>
    requires short { length line.old.items ≤ most_line_bytes }
    requires no_feed { HasNoFeed line.old.items }
    requires room { most_line_bytes ≤ vec_capacity line.old }
    ensures reads { ReadsLine (prepend_known (line.old.items ++ piece.old) (S.left source.old)) result line.new.items piece.new (S.left source.new) }
    ensures rest { result ≡ Ok true → length piece.new < most_of_a_read }
    ensures short_rest { length piece.new ≤ most_of_a_read }
    ensures short { length line.new.items ≤ most_line_bytes }
    ensures no_feed { HasNoFeed line.new.items }
    ensures room { most_line_bytes ≤ vec_capacity line.new }
    ensures faults { Fails (result ≡ Err LinesFault.Source) (S.faults source.old) (S.faults source.new) }
    ensures ends { SaysEnd (result ≡ Ok false) (S.ends source.old) (S.ends source.new) }
{
    while piece.fill(source)? {
        if take_part(piece, line)? {
            return Ok(true);
        }
    }
    Ok(false)
}
