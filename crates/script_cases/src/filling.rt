use crate::fault::Fault;
use std::alloc::Global;
use std::ops::Range;

/// Where the values of an `each` line go.
const PLACES: [&str; 5] = ["$1", "$2", "$3", "$4", "$5"];

/// The values of a line `each`.
pub fn values_of(line: &str) -> Option<&str> {
    if line == "each" {
        return Some("");
    }
    line.strip_prefix("each ")
}

/// The numbers of a case's `count` line; 0 alone where it has no such line.
pub fn numbers_of(text: &str) -> Range<u32> {
    for line in text.lines() {
        if let Some(range) = line.strip_prefix("count ") {
            return range_of(range);
        }
    }
    0..1
}

fn range_of(text: &str) -> Range<u32> {
    let (first, end) = text.split_once("..").unwrap_or(("", ""));
    first.parse().unwrap_or(0)..end.parse().unwrap_or(0)
}

/// A case's text with values in place of `$1`, `$2` .. and a number in place of `$n`.
pub fn filled(
    alloc: Global,
    text: &str,
    values: Option<&str>,
    number: u32,
) -> Result<String, Fault> {
    let number = format!(in alloc; "{number}")?;
    let mut text = text.replace(alloc, "$n", number.as_str())?;
    if let Some(values) = values {
        text = put_values(alloc, text, values)?;
    }
    if text.as_str().contains('$') {
        return Err(Fault::Wrong("a place without a value"));
    }
    Ok(text)
}

fn put_values(alloc: Global, text: String, values: &str) -> Result<String, Fault> {
    let mut text = text;
    let mut places = PLACES.iter();
    for value in values.split(" => ") {
        match places.next() {
            Some(place) if text.as_str().contains(*place) => {
                text = text.as_str().replace(alloc, *place, value)?;
            }
            _ => return Err(Fault::Wrong("a value without a place")),
        }
    }
    Ok(text)
}
