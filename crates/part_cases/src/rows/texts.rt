// What the words of rows stand for, and how answers are written.

use hex::FromHex;
use std::alloc::{AllocError, Global};
use std::fmt::Debug;

/// The text without its blanks, where `UNIT*COUNT` stands for that many units.
pub fn expanded(alloc: Global, text: &str) -> Result<String, AllocError> {
    let mut out = String::new(alloc);
    for word in text.split(' ') {
        match repetition(word) {
            Some((unit, count)) => out.push_str(unit.repeat(alloc, count)?.as_str())?,
            None => out.push_str(word)?,
        }
    }
    Ok(out)
}

fn repetition(word: &str) -> Option<(&str, usize)> {
    let (unit, count) = word.rsplit_once('*')?;
    Some((unit, count.parse::<u16>().ok()? as usize))
}

/// The bytes that hexadecimal digits say.
pub fn bytes_of(alloc: Global, words: &str) -> Option<Vec<u8>> {
    hex::decode(alloc, expanded(alloc, words).ok()?.as_str()).ok()
}

/// So many bytes, and nothing else.
pub fn array<const N: usize>(alloc: Global, words: &str) -> Option<[u8; N]> {
    <[u8; N]>::from_hex(expanded(alloc, words).ok()?.as_str()).ok()
}

/// A buffer of one byte.
pub fn filled<const N: usize>(byte: u8) -> [u8; N] {
    [byte; N]
}

/// So many numbers, and nothing else.
pub fn numbers<const N: usize>(words: &str) -> Option<[u64; N]> {
    let mut numbers = [0; N];
    let mut words = words.split(' ');
    for number in numbers.iter_mut() {
        *number = words.next()?.parse::<u64>().ok()?;
    }
    match words.next() {
        Some(_) => None,
        None => Some(numbers),
    }
}

/// A value, as Rust writes it by `{:?}`.
pub fn shown<T: Debug + Drop>(alloc: Global, value: T) -> Option<String> {
    format!(in alloc; "{value:?}").ok()
}

/// Bytes as hexadecimal digits.
pub fn digits(alloc: Global, bytes: &[u8]) -> Option<String> {
    hex::encode(alloc, bytes).ok()
}

/// A value, and bytes behind it.
pub fn shown_with<T: Debug + Drop>(alloc: Global, value: T, bytes: &[u8]) -> Option<String> {
    let digits = digits(alloc, bytes)?;
    format!(in alloc; "{value:?} {digits}").ok()
}
