// Rows of numbers.

ghost use Rattle.std.specs.Prelude.{◌≤◌};

use crate::rows::causes::cause_of;
use crate::rows::texts::{array, numbers, shown, shown_with};
use map_table::{Cookie, cookie_of};
use std::alloc::Global;
use vdisk_msg::DiskDesc;
use vio_bytes::{
    Table, get_u8, get_u16, get_u32, get_u64, put_u8, put_u16, put_u32, put_u64, table_is_sound,
};

/// The answer to a command whose words are numbers.
pub fn answer(alloc: Global, command: &str, words: &str) -> Option<String> {
    match command {
        "number" => number(alloc, words),
        "table" => table(alloc, words),
        "cookie_of" => cookie(alloc, words),
        "check" => check(alloc, words),
        "slot_of" => slot_of(alloc, words),
        "cause" => cause(alloc, words),
        _ => None,
    }
}

// Puts a number of a width at a place into 20 bytes. The number that stands there then, and the bytes.
fn number(alloc: Global, words: &str) -> Option<String> {
    let (front, words) = words.split_once(" in ")?;
    let [width, place, value] = numbers::<3>(front)?;
    let mut bytes = array::<20>(alloc, words)?;
    if place > 12 {
        return None;
    }
    let there = put_number(width, place as usize, value, &mut bytes)?;
    shown_with(alloc, there, &bytes)
}

fn put_number(width: u64, place: usize, value: u64, bytes: &mut [u8; 20]) -> Option<u64>
    requires { place ≤ 12 }
{
    match width {
        1 => put_u8(bytes, place, u8::try_from(value).ok()?),
        2 => put_u16(bytes, place, u16::try_from(value).ok()?),
        4 => put_u32(bytes, place, u32::try_from(value).ok()?),
        _ => put_u64(bytes, place, value),
    }
    Some(match width {
        1 => get_u8(bytes, place) as u64,
        2 => get_u16(bytes, place) as u64,
        4 => get_u32(bytes, place) as u64,
        _ => get_u64(bytes, place),
    })
}

fn table(alloc: Global, words: &str) -> Option<String> {
    let [first, width, second, other_width, length] = numbers::<5>(words)?;
    let first = (first as usize, width as usize);
    let second = (second as usize, other_width as usize);
    let table = Table {
        fields: [first, second],
        length: length as usize,
    };
    shown(alloc, table_is_sound(&table))
}

fn cookie(alloc: Global, words: &str) -> Option<String> {
    let [index, offset, size] = numbers::<3>(words)?;
    let index = u32::try_from(index).ok()?;
    if offset >= 8192 {
        return None;
    }
    shown(alloc, cookie_of(index, offset as u32, size))
}

// The first request of a ring of 8 slots, but for its operation, offset, size and count. The server is of a disk of so
// many blocks, and takes the operations of a mask.
fn check(alloc: Global, words: &str) -> Option<String> {
    let [operation, offset, size, count, blocks, mask] = numbers::<6>(words)?;
    let mut cookies = [Cookie::NONE; 5];
    cookies[0] = cookie_of(1, 0, 1024);
    let desc = DiskDesc {
        state: 2,
        ack: 1,
        id: 0,
        operation: u8::try_from(operation).ok()?,
        slice: 0xff,
        status: 0,
        offset,
        size,
        count: u32::try_from(count).ok()?,
        cookies,
    };
    shown(alloc, vdisk_msg::check(&desc, blocks, mask))
}

fn slot_of(alloc: Global, words: &str) -> Option<String> {
    let [id, base, slots] = numbers::<3>(words)?;
    let slots = u32::try_from(slots).ok()?;
    if id < base || slots == 0 {
        return None;
    }
    shown(alloc, dring::slot_of(id, base, slots))
}

// The text of a cause, with `_` for its blanks.
fn cause(alloc: Global, words: &str) -> Option<String> {
    let text = format!(in alloc; "{}", cause_of(words)?).ok()?;
    text.as_str().replace(alloc, ' ', "_").ok()
}
