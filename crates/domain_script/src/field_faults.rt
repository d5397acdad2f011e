// What is wrong with a word in the place of a field.
ghost use Rattle.std.specs.Prelude.{◌≡◌, zip};
ghost use Rattle.std.specs.List.{list_any};
ghost use Rattle.domain_script.specs.Faults.{has_wrong_field, is_misnamed, is_misplaced, is_no_bytes, is_no_number, is_one_too_many, is_out_of_bounds, is_taken, is_unknown, is_wrong};
ghost use Rattle.script_words.specs.Words.{words};

use crate::addresses::has_taken_address;
use crate::fields::Field;
use crate::lane_words::{declared_end, declared_lane, declared_number};
use crate::rows::row_named;
use crate::{LineFault, Names};
use script_words::addresses::{is_no_group, is_no_own};
use script_words::numbers::{is_number, is_within, number};
use script_words::spellings::{
    ADDRESS, MOST_FILL, MOST_PIECE, PACKET, is_exactly, is_front, is_name,
};
use script_words::words::split_once;

/// Whether a field of a line's row has a word with this fault.
pub fn has_wrong_field(fault: LineFault, line: &[u8], names: &Names) -> bool
    ensures { result ≡ has_wrong_field fault line.now names.now }
{
    let Some((word, text)) = split_once(line) else {
        return false;
    };
    match row_named(word) {
        Some(kind) => is_any_wrong(fault, names, kind.fields(), text),
        None => false,
    }
}

/// Whether one of these fields has a word of the text with this fault, each in its place.
fn is_any_wrong(fault: LineFault, names: &Names, fields: &[Field], text: &[u8]) -> bool
    ensures { result ≡ list_any (λ place. is_wrong fault names.now place.0 place.1) (zip fields.now (words text.now)) }
{
    let mut text = text;
    for field in fields {
        match split_once(text) {
            Some((word, others)) => {
                if is_wrong(fault, names, *field, word) {
                    return true;
                }
                text = others;
            }
            None => return is_wrong(fault, names, *field, text),
        }
    }
    false
}

/// Whether a field's word has this fault. The first four faults are those of a whole line.
fn is_wrong(fault: LineFault, names: &Names, field: Field, word: &[u8]) -> bool
    ensures { result ≡ is_wrong fault names.now field word.now }
{
    match fault {
        LineFault::Name => is_misnamed(field, word),
        LineFault::Place => is_misplaced(names, field),
        LineFault::Taken => is_taken(names, field, word),
        LineFault::Unknown => is_unknown(names, field, word),
        LineFault::Number => is_no_number(field, word),
        LineFault::Range => is_out_of_bounds(field, word),
        LineFault::Hex => is_no_bytes(field, word),
        LineFault::Many => is_one_too_many(names, field),
        LineFault::Byte | LineFault::Space | LineFault::Word | LineFault::Words => false,
    }
}

/// Whether the name that a declaration gives isn't spelled as a name.
fn is_misnamed(field: Field, word: &[u8]) -> bool
    ensures { result ≡ is_misnamed field word.now }
{
    match field {
        Field::NewName(_) => !is_name(word),
        _ => false,
    }
}

/// Whether a declaration stands after a line that is neither blank nor a declaration.
fn is_misplaced(names: &Names, field: Field) -> bool
    ensures { result ≡ is_misplaced names.now field }
{
    match field {
        Field::NewName(_) => !names.is_open(),
        _ => false,
    }
}

/// Whether the name that a declaration gives, or a port's address, was declared before.
fn is_taken(names: &Names, field: Field, word: &[u8]) -> bool
    ensures { result ≡ is_taken names.now field word.now }
{
    match field {
        Field::NewName(_) => declared_lane(word, names).is_some(),
        Field::NewAddress => has_taken_address(word, names),
        _ => false,
    }
}

/// Whether a name or an end isn't declared, or isn't of the kind that the row needs.
fn is_unknown(names: &Names, field: Field, word: &[u8]) -> bool
    ensures { result ≡ is_unknown names.now field word.now }
{
    match field {
        Field::Named(kind) => declared_number(word, names, kind).is_none(),
        Field::LaneName => declared_lane(word, names).is_none(),
        Field::End(kind) => declared_end(word, names, kind).is_none(),
        _ => false,
    }
}

/// Whether a number isn't spelled as one.
fn is_no_number(field: Field, word: &[u8]) -> bool
    ensures { result ≡ is_no_number field word.now }
{
    match field {
        Field::Number(_) => !is_number(word),
        _ => false,
    }
}

/// Whether a number is outside of its bounds, or an address of the wrong kind.
fn is_out_of_bounds(field: Field, word: &[u8]) -> bool
    ensures { result ≡ is_out_of_bounds field word.now }
{
    match field {
        Field::Number(bounds) => match number(word) {
            Some(n) => !is_within(n, bounds),
            None => false,
        },
        Field::NewAddress => is_no_own(word),
        Field::Group => is_no_group(word),
        _ => false,
    }
}

/// Whether a word of hexadecimal digits isn't one, or has another length than it may have.
fn is_no_bytes(field: Field, word: &[u8]) -> bool
    ensures { result ≡ is_no_bytes field word.now }
{
    match field {
        Field::NewAddress | Field::Group => !is_exactly(word, ADDRESS),
        Field::Bytes => !is_front(word, MOST_FILL),
        Field::Frame => !is_front(word, MOST_PIECE),
        Field::Packet => !is_exactly(word, PACKET),
        _ => false,
    }
}

/// Whether eight lanes of the kind that a declaration adds to are declared.
fn is_one_too_many(names: &Names, field: Field) -> bool
    ensures { result ≡ is_one_too_many names.now field }
{
    match field {
        Field::NewName(kind) => !names.has_room(kind),
        _ => false,
    }
}
