// What is wrong with a line that spells no event. A run ends at such a line, so each fault is looked for by itself.
ghost use Rattle.std.specs.Prelude.{◌≡◌, length};
ghost use Rattle.std.specs.List.{list_any};
ghost use Rattle.domain_script.specs.declared.event.Event.{Event as event_data};
ghost use Rattle.domain_script.specs.Faults.{first_fault, has_fault, has_no_row, has_other_byte, has_other_count, has_stray_space, is_blank, is_empty, row_in};
ghost use Rattle.domain_script.specs.Spells.{Spells};
ghost use Rattle.script_words.specs.Words.{words};

use crate::field_faults::has_wrong_field;
use crate::rows::{RowKind, row_named};
use crate::{LineFault, Names};
use script_words::words::{are_printable, count_words, split_once};

/// The faults, in their order.
const FAULTS: [LineFault; 12] = [
    LineFault::Byte,
    LineFault::Space,
    LineFault::Word,
    LineFault::Words,
    LineFault::Name,
    LineFault::Place,
    LineFault::Taken,
    LineFault::Unknown,
    LineFault::Number,
    LineFault::Range,
    LineFault::Hex,
    LineFault::Many,
];

/// What is wrong with a line that spells no event.
pub fn fault_of(line: &[u8], names: &Names) -> LineFault
    requires { (event : event_data) → Spells line.now names.now event → ⊥ }
    ensures { first_fault line.now names.now ≡ Some result }
{
    match first_fault(line, names) {
        Some(fault) => fault,
        None => unreachable!(),
    }
}

/// The first fault of a line.
fn first_fault(line: &[u8], names: &Names) -> Option<LineFault>
    ensures { result ≡ first_fault line.now names.now }
{
    for fault in FAULTS {
        if has_fault(fault, line, names) {
            return Some(fault);
        }
    }
    None
}

/// Whether a line has a fault.
fn has_fault(fault: LineFault, line: &[u8], names: &Names) -> bool
    ensures { result ≡ has_fault fault line.now names.now }
{
    match fault {
        LineFault::Byte => has_other_byte(line),
        LineFault::Space => has_stray_space(line),
        LineFault::Word => has_no_row(line),
        LineFault::Words => has_other_count(line),
        _ => has_wrong_field(fault, line, names),
    }
}

/// Whether a byte isn't printable.
fn has_other_byte(line: &[u8]) -> bool
    ensures { result ≡ has_other_byte line.now }
{
    !are_printable(line)
}

/// Whether a line that isn't blank has a space first or last, or two together.
fn has_stray_space(line: &[u8]) -> bool
    ensures { result ≡ has_stray_space line.now }
{
    !is_blank(line) && has_empty_part(line)
}

/// Whether a part between the spaces of a line is empty.
fn has_empty_part(line: &[u8]) -> bool
    ensures { result ≡ list_any is_empty (words line.now) }
{
    let mut rest = line;
    while let Some((part, others)) = split_once(rest) {
        if part.is_empty() {
            return true;
        }
        rest = others;
    }
    rest.is_empty()
}

/// Whether the first word of a line that isn't blank is none of the table.
fn has_no_row(line: &[u8]) -> bool
    ensures { result ≡ has_no_row line.now }
{
    !is_blank(line) && row_in(line).is_none()
}

/// Whether a line's row has another number of words.
fn has_other_count(line: &[u8]) -> bool
    ensures { result ≡ has_other_count line.now }
{
    match row_in(line) {
        Some(kind) => count_words(line) != 1 + kind.fields().len(),
        None => false,
    }
}

/// The row that a line's first word begins.
fn row_in(line: &[u8]) -> Option<RowKind>
    ensures { result ≡ row_in (words line.now) }
{
    match split_once(line) {
        Some((word, _)) => row_named(word),
        None => row_named(line),
    }
}

/// Whether a line is empty or begins as a comment.
fn is_blank(line: &[u8]) -> bool
    ensures { result ≡ is_blank line.now }
{
    match line {
        [] => true,
        [first, ..] => *first == b'#',
    }
}
