// Causes of a reset, by their names and the numbers of their fields.

use crate::rows::texts::numbers;
use ldc_packet::PacketFault;
use vio_tag::{Cause, TagFault};

/// The cause that the words name.
pub fn cause_of(words: &str) -> Option<Cause> {
    let Some((name, words)) = words.split_once(' ') else {
        return alone(words);
    };
    if let Some(found) = numbers::<1>(words) {
        return with_number(name, u32::try_from(found[0]).ok()?);
    }
    let [expected, found] = numbers::<2>(words)?;
    match name {
        "Ident" => Some(Cause::Ident { expected, found }),
        "Seq" => Some(Cause::Seq { expected, found }),
        _ => with_numbers(
            name,
            u32::try_from(expected).ok()?,
            u32::try_from(found).ok()?,
        ),
    }
}

fn alone(name: &str) -> Option<Cause> {
    match name {
        "Asked" => Some(Cause::Asked),
        "Restart" => Some(Cause::Restart),
        "Tick" => Some(Cause::Tick),
        "Packet(Ctrl)" => Some(Cause::Packet(PacketFault::Ctrl)),
        "Version" => Some(Cause::Version),
        "Unexpected" => Some(Cause::Unexpected),
        "Fragment" => Some(Cause::Fragment),
        "Tag(Cookies)" => Some(Cause::Tag(TagFault::Cookies)),
        "Order" => Some(Cause::Order),
        "Refused" => Some(Cause::Refused),
        _ => None,
    }
}

fn with_number(name: &str, found: u32) -> Option<Cause> {
    let small = u8::try_from(found).ok();
    match name {
        "RangeEnd" => Some(Cause::RangeEnd { found }),
        "Mode" => Some(Cause::Mode { found: small? }),
        "Copy" => Some(Cause::Copy(small?)),
        _ => None,
    }
}

fn with_numbers(name: &str, one: u32, found: u32) -> Option<Cause> {
    let (expected, slot, size, count) = (one, one, one, found);
    match name {
        "Gap" => Some(Cause::Gap { expected, found }),
        "Sid" => Some(Cause::Sid { expected, found }),
        "Slot" => Some(Cause::Slot { expected, found }),
        "Frame" => Some(Cause::Frame { size, count }),
        _ => with_state(name, slot, u8::try_from(found).ok()?),
    }
}

fn with_state(name: &str, slot: u32, state: u8) -> Option<Cause> {
    match name {
        "NotReady" => Some(Cause::NotReady { slot, state }),
        "NotDone" => Some(Cause::NotDone { slot, state }),
        _ => None,
    }
}
