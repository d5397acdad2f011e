use crate::case::Case;
use crate::fault::Fault;
use flat_store::MemStore;
use ldom_replay::Outcome;
use std::alloc::{AllocError, Global};
use vio_io::Store;

/// Compares what came of a case with what the case wants.
pub fn look_at(
    alloc: Global,
    case: &Case,
    outcome: &Outcome<MemStore>,
    report: &[u8],
) -> Result<(), Fault> {
    match str::from_utf8(report) {
        Ok(report) => look_at_report(alloc, case, report)?,
        Err(_) => return Err(Fault::Wrong("a report that is no text")),
    }
    let status = usize::from(outcome.status.number());
    look_at_number(alloc, case, "status", status)?;
    let ran = usize::from(outcome.ran.number());
    look_at_number(alloc, case, "ran", ran)?;
    look_at_number(alloc, case, "journal", outcome.journal.len())?;
    let lanes = if outcome.lanes.is_some() {
        "given"
    } else {
        "none"
    };
    look_at_word(alloc, case, "lanes", lanes)?;
    look_at_image(alloc, case, &outcome.image)
}

fn look_at_image(alloc: Global, case: &Case, image: &Option<MemStore>) -> Result<(), Fault> {
    if is_faulty(image) != case.has("faulty") {
        return Err(Fault::Wrong("an image failed, or one that should didn't"));
    }
    let image = image_word(case.get("image").unwrap_or(""), image)?;
    look_at_word(alloc, case, "image", image)
}

fn look_at_number(alloc: Global, case: &Case, key: &str, came: usize) -> Result<(), Fault> {
    let came = format!(in alloc; "{came}")?;
    look_at_word(alloc, case, key, came.as_str())
}

/// Compares what came with the text behind a key, if there is one.
fn look_at_word(alloc: Global, case: &Case, key: &str, came: &str) -> Result<(), Fault> {
    match case.get(key) {
        Some(wanted) if wanted != came => Err(Fault::Differs(format!(in alloc;
            "{key}: wanted {wanted}, came {came}"
        )?)),
        _ => Ok(()),
    }
}

/// Compares a report with the case's lines.
fn look_at_report(alloc: Global, case: &Case, report: &str) -> Result<(), Fault> {
    let wanted = case.text(alloc, ">", ">.")?;
    let told = without(alloc, report, case.get("without").unwrap_or(""))?;
    if fits(case, wanted.as_str(), told.as_str())? {
        return Ok(());
    }
    Err(Fault::Differs(difference(alloc, wanted.as_str(), told.as_str())?))
}

/// Whether what was told is what a case wants, or a front of it.
fn fits(case: &Case, wanted: &str, told: &str) -> Result<bool, Fault> {
    let least = case.number("front", 0)?;
    if case.has("front") {
        Ok(is_front(wanted, told, least))
    } else {
        Ok(is_told(wanted, told))
    }
}

/// Whether these lines were told, in which `...` at a line's end is any text up to another line's end.
fn is_told(wanted: &str, told: &str) -> bool {
    match wanted.split_once("...\n") {
        Some((front, behind)) => match told.strip_prefix(front) {
            Some(rest) => rest.ends_with(behind),
            None => false,
        },
        None => told == wanted,
    }
}

/// Whether a front of these lines was told, of so many bytes at least, and not all of them.
fn is_front(wanted: &str, told: &str, least: usize) -> bool {
    wanted.starts_with(told) && told.len() >= least && told.len() < wanted.len()
}

/// A report without the lines that begin so, if anything is said.
fn without(alloc: Global, report: &str, front: &str) -> Result<String, AllocError> {
    let mut rest = String::new(alloc);
    for line in report.split_inclusive('\n') {
        if front.is_empty() || !line.starts_with(front) {
            rest.push_str(line)?;
        }
    }
    Ok(rest)
}

/// The first lines that differ; behind any text all that was wanted, and all that came.
fn difference(alloc: Global, wanted: &str, told: &str) -> Result<String, AllocError> {
    let (front, behind) = wanted.split_once("...\n").unwrap_or((wanted, ""));
    let mut lines = told.lines();
    for line in front.lines() {
        let came = lines.next().unwrap_or("no line");
        if line != came {
            return format!(in alloc; "wanted {line}, came {came}");
        }
    }
    format!(in alloc; "wanted at the end {behind}, came {told}")
}

fn is_faulty(image: &Option<MemStore>) -> bool {
    match image {
        Some(image) => image.faulty(),
        None => false,
    }
}

/// What is said of an image: what is wanted, where it is that.
fn image_word<'a>(wanted: &'a str, image: &Option<MemStore>) -> Result<&'a str, Fault> {
    let Some(image) = image else {
        return Ok("none");
    };
    if wanted == "" || wanted == "given" || has_blocks(image.bytes(), wanted)? {
        return Ok(wanted);
    }
    Ok("another")
}

/// Whether an image has a length and the bytes of its first blocks, and zeros in all others.
fn has_blocks(image: &[u8], wanted: &str) -> Result<bool, Fault> {
    let mut words = wanted.split_whitespace();
    let length: usize = words.next().unwrap_or("").parse()?;
    let mut fits = image.len() == length;
    for block in image.chunks(512) {
        let fill = u8::from_str_radix(words.next().unwrap_or("00"), 16)?;
        fits &= is_filled(block, fill);
    }
    Ok(fits && words.next().is_none())
}

fn is_filled(block: &[u8], fill: u8) -> bool {
    for byte in block {
        if *byte != fill {
            return false;
        }
    }
    true
}
