// The text of a reset's cause.
ghost use Rattle.std.specs.Prelude.{◌≡◌, ◌+◌, ◌≤◌, ◌++◌, length, codes, decimal};
ghost use Rattle.vio_tag.specs.CauseText.{cause_text, numbers};
ghost use Rattle.line_words.specs.HasFault.{HasFault};

use crate::words::copy_word;
use gathered_text::{TEXT_ROOM, Text};
use vio_tag::{Cause, packet_word, tag_word};

/// Two words, one after the other.
fn push_two(text: &mut Text, first: &[u8], second: &[u8])
    requires { length text.old + length first.now + length second.now ≤ TEXT_ROOM }
    ensures text { text.new ≡ text.old ++ first.now ++ second.now }
    ensures len { length text.new ≤ length text.old + length first.now + length second.now }
{
    text.push(first);
    text.push(second);
}

/// A number after its name.
fn push_one(text: &mut Text, name: &[u8], number: u64)
    requires { length text.old + length name.now + 20 ≤ TEXT_ROOM }
    ensures text { text.new ≡ text.old ++ name.now ++ decimal number }
    ensures len { length text.new ≤ length text.old + length name.now + 20 }
{
    text.push(name);
    text.push_number(number);
}

/// Two numbers, each after its name.
fn push_numbers(text: &mut Text, first: &[u8], a: u64, second: &[u8], b: u64)
    requires { length text.old + length first.now + length second.now + 40 ≤ TEXT_ROOM }
    ensures text { text.new ≡ text.old ++ numbers first.now a second.now b }
    ensures len { length text.new ≤ length text.old + length first.now + length second.now + 40 }
{
    push_one(text, first, a);
    push_one(text, second, b);
}

/// Two numbers that ought to be the same.
fn push_unlike(text: &mut Text, name: &[u8], expected: u64, found: u64)
    requires { length text.old + length name.now + 60 ≤ TEXT_ROOM }
    ensures text { text.new ≡ text.old ++ numbers name.now expected (codes " found=") found }
    ensures len { length text.new ≤ length text.old + length name.now + 60 }
{
    push_numbers(text, name, expected, b" found=", found);
}

/// The cause of a reset.
pub fn push_reset_cause(text: &mut Text, cause: Cause)
    requires fault { HasFault cause }
    requires room { length text.old + 100 ≤ TEXT_ROOM }
    ensures text { text.new ≡ text.old ++ cause_text cause }
    ensures len { length text.new ≤ length text.old + 100 }
{
    match cause {
        Cause::Asked => text.push(b"asked"),
        Cause::Restart => text.push(b"restart"),
        Cause::Tick => text.push(b"tick"),
        Cause::Packet(fault) => push_two(text, b"packet ", packet_word(fault).as_bytes()),
        Cause::Gap { expected, found } => push_unlike(
            text,
            b"gap expected=",
            u64::from(expected),
            u64::from(found),
        ),
        Cause::Mode { found } => push_one(text, b"mode found=", u64::from(found)),
        Cause::Version => text.push(b"version"),
        Cause::Unexpected => text.push(b"unexpected"),
        Cause::Fragment => text.push(b"fragment"),
        Cause::Tag(fault) => push_two(text, b"tag ", tag_word(fault).as_bytes()),
        Cause::Sid { expected, found } => push_unlike(
            text,
            b"sid expected=",
            u64::from(expected),
            u64::from(found),
        ),
        Cause::Order => text.push(b"order"),
        Cause::Refused => text.push(b"refused"),
        Cause::Ident { expected, found } => push_unlike(text, b"ident expected=", expected, found),
        Cause::Seq { expected, found } => push_unlike(text, b"seq expected=", expected, found),
        Cause::Slot { expected, found } => push_unlike(
            text,
            b"slot expected=",
            u64::from(expected),
            u64::from(found),
        ),
        Cause::RangeEnd { found } => push_one(text, b"end found=", u64::from(found)),
        Cause::NotReady { slot, state } => push_numbers(
            text,
            b"notready slot=",
            u64::from(slot),
            b" state=",
            u64::from(state),
        ),
        Cause::NotDone { slot, state } => push_numbers(
            text,
            b"notdone slot=",
            u64::from(slot),
            b" state=",
            u64::from(state),
        ),
        Cause::Frame { size, count } => push_numbers(
            text,
            b"frame size=",
            u64::from(size),
            b" cookies=",
            u64::from(count),
        ),
        Cause::Copy(fault) => push_two(text, b"copy ", copy_word(fault)),
    }
}
