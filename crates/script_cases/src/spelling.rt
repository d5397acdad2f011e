use crate::fault::Fault;
use std::alloc::{AllocError, Global};

/// How many repetitions a line may have.
const MOST: u32 = 1_000;

/// The text that this one spells: `{TEXT*N}` is N times TEXT, `~` zeros up to the digits of a packet or a descriptor,
/// and `\NN` the character of that number.
pub fn spelled(alloc: Global, text: &str) -> Result<String, Fault> {
    let text = repeated(alloc, text)?;
    let text = padded(alloc, text.as_str())?;
    characters(alloc, text.as_str())
}

/// The text with its repetitions written out, the inner ones first.
fn repeated(alloc: Global, text: &str) -> Result<String, Fault> {
    let mut text = String::from_str(alloc, text)?;
    for _ in 0..MOST {
        let Some((front, behind)) = text.as_str().split_once('}') else {
            return Ok(text);
        };
        text = one_repeated(alloc, front, behind)?;
    }
    Err(Fault::Wrong("too many repetitions"))
}

/// The text with the last repetition of its front written out.
fn one_repeated(alloc: Global, front: &str, behind: &str) -> Result<String, Fault> {
    match repetition(front) {
        Some((front, unit, count)) => {
            let units = unit.repeat(alloc, count.parse()?)?;
            Ok(format!(in alloc; "{front}{units}{behind}")?)
        }
        None => Err(Fault::Wrong("a repetition that is none")),
    }
}

/// The last repetition at the end of a text: what stands before it, its text and its count.
fn repetition(text: &str) -> Option<(&str, &str, &str)> {
    let (front, inner) = text.rsplit_once('{')?;
    let (unit, count) = inner.rsplit_once('*')?;
    Some((front, unit, count))
}

/// The text with zeros in place of `~`, as many as bring its word to the digits of a packet, or in a line that tells a
/// descriptor to those of one.
fn padded(alloc: Global, text: &str) -> Result<String, AllocError> {
    let Some((front, behind)) = text.split_once('~') else {
        return String::from_str(alloc, text);
    };
    let digits: usize = if front.starts_with("desc ") { 256 } else { 128 };
    let word = front.rsplit(' ').next().unwrap_or("");
    let word = word.rsplit('=').next().unwrap_or("");
    let zeros = "0".repeat(alloc, digits.saturating_sub(word.len()))?;
    format!(in alloc; "{front}{zeros}{behind}")
}

/// The text with the characters that stand in it by their numbers.
fn characters(alloc: Global, text: &str) -> Result<String, Fault> {
    let mut pieces = text.split('\\');
    let mut all = String::from_str(alloc, pieces.next().unwrap_or(""))?;
    for piece in pieces {
        push_piece(&mut all, piece)?;
    }
    Ok(all)
}

/// Appends a character by its number, and what stands behind that.
fn push_piece(all: &mut String, piece: &str) -> Result<(), Fault> {
    let Some((digits, rest)) = piece.split_at_checked(2) else {
        return Err(Fault::Wrong("a character without a number"));
    };
    all.push(char::from(u8::from_str_radix(digits, 16)?))?;
    all.push_str(rest)?;
    Ok(())
}
