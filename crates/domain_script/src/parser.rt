ghost use Rattle.std.specs.Prelude.{◌≡◌, ◌↔◌, IfErr, IfNone, IfOk, IsTrue, OnOk, OnSome};
ghost use Rattle.domain_script.specs.declared.event.Event.{Event as event_data};
ghost use Rattle.domain_script.specs.Faults.{first_fault};
ghost use Rattle.domain_script.specs.NamesState.{CanNote};
ghost use Rattle.domain_script.specs.Printed.{CanPrint};
ghost use Rattle.domain_script.specs.Spells.{IsBlank, IsDeclared, Spells};

use crate::faults::fault_of;
use crate::rows::{row_alone, row_with_fields};
use crate::{Event, LineFault, Names};
use script_words::words::{are_printable, split_once};

/// The event that a line spells after the lines that were noted, or what is wrong with it: the first fault of the table
/// that holds. A line, without its line feed, is empty or a comment, or one of the rows of a script, with one space
/// between two words: `disk NAME BLOCKS RING QUEUE`, `net NAME ADDRESS RING QUEUE`, `write NAME BLOCK COUNT HEX`,
/// `read NAME BLOCK COUNT`, `flush NAME`, `send NAME HEX`, `join NAME ADDRESS`, `step END K`, `round K`, `settle`,
/// `reset END`, `restart END`, `stop NAME`, `start NAME`, `drop END`, `tick NAME`, `inject END HEX`, `poke END AT HEX`.
/// An END is the NAME of a disk or a port with `.c` or `.s` after it.
pub fn parse(line: &[u8], names: &Names) -> Result<Event, LineFault>
    ensures event { IfOk result (Spells line.now names.now) }
    ensures fault { IfErr result (λ fault. first_fault line.now names.now ≡ Some fault) }

    // What the caller may do with the event: note it, run it, print it.
    ensures can { IfOk result (CanNote names.now) }
    ensures declared { IfOk result (IsDeclared names.now) }
    ensures printable { IfOk result (CanPrint names.now) }
{
    let mut event = Event::Blank;
    parse_into(line, names, &mut event)?;
    Ok(event)
}

/// Does what `parse` does, and writes the event over one of the caller's: an event takes over a kilobyte, and so isn't
/// moved from call to call. After a fault what the caller's then is, is not specified.
pub fn parse_into(line: &[u8], names: &Names, event: &mut Event) -> Result<(), LineFault>
    ensures event { OnOk result (Spells line.now names.now event.new) }
    ensures fault { IfErr result (λ fault. first_fault line.now names.now ≡ Some fault) }

    // What the caller may do with the event.
    ensures can { OnOk result (CanNote names.now event.new) }
    ensures declared { OnOk result (IsDeclared names.now event.new) }
    ensures printable { OnOk result (CanPrint names.now event.new) }
{
    if is_blank(line) {
        *event = Event::Blank;
        return Ok(());
    }
    match spelled_row(line, names, event) {
        Some(()) => Ok(()),
        None => Err(fault_of(line, names)),
    }
}

/// Writes the event of a line that isn't blank. None where it spells none.
fn spelled_row(line: &[u8], names: &Names, event: &mut Event) -> Option<()>
    requires { IsBlank line.now → ⊥ }
    ensures some { OnSome result (Spells line.now names.now event.new) }
    ensures none { IfNone result ((event : event_data) → Spells line.now names.now event → ⊥) }
{
    match split_once(line) {
        Some((word, fields)) => row_with_fields(word, fields, names, event),
        None => row_alone(line, names, event),
    }
}

/// Whether a line is empty or a comment.
fn is_blank(line: &[u8]) -> bool
    ensures { IsTrue result ↔ IsBlank line.now }
{
    match line {
        [] => true,
        [first, rest @ ..] => *first == b'#' && are_printable(rest),
    }
}
