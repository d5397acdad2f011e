// Layouts, tables, copies and rings, row by row. A row is a command and, behind ` = `, the answer that it must have. A
// line that begins with two blanks goes on with the row before it, and one that begins with `#` is a comment. Blanks
// don't count in an answer, and `UNIT*COUNT` stands for that many units. A row without an answer, as `configure A`, is a
// step and no case.

mod causes;
mod domain;
mod layouts;
mod numbers;
mod rings;
mod texts;

use domain::Domain;
use std::alloc::{AllocError, Global};
use std::rt::Files;
use std::{fs, io};
use texts::expanded;

/// Compares the rows of a file, and tells how many cases it has.
pub fn run_file(rt: &(impl AllocGlobal + Files + Print), file: &str) -> io::Result<u64> {
    let text = fs::read_to_string(rt, file)?;
    let rows = text.as_str().replace(rt.alloc(), "\n  ", " ")?;
    let Ok(mut domain) = Domain::new(rt.alloc(), 1, 1) else {
        return Err(AllocError.into());
    };
    let cases = run_rows(rt, &mut domain, file, rows.as_str())?;
    println!(rt; "{file}: {cases} cases")?;
    Ok(cases)
}

fn run_rows(
    rt: &(impl AllocGlobal + Print),
    domain: &mut Domain,
    file: &str,
    rows: &str,
) -> io::Result<u64> {
    let mut cases = 0u64;
    for row in rows.lines() {
        if !row.is_empty() && !row.starts_with('#') {
            cases = cases.saturating_add(run_row(rt, domain, file, row)?);
        }
    }
    Ok(cases)
}

// How many cases the row is, none or one.
fn run_row(
    rt: &(impl AllocGlobal + Print),
    domain: &mut Domain,
    file: &str,
    row: &str,
) -> io::Result<u64> {
    let (asked, answer) = row.split_once(" = ").unwrap_or((row, ""));
    let wanted = expanded(rt.alloc(), answer)?;
    match answer_of(rt.alloc(), domain, asked) {
        Some(came) => compare(rt, file, asked, wanted.as_str(), came.as_str())?,
        None => return print_unknown(rt, file, row),
    }
    Ok(u64::from(!wanted.is_empty()))
}

fn compare(
    rt: &(impl AllocGlobal + Print),
    file: &str,
    asked: &str,
    wanted: &str,
    came: &str,
) -> io::Result<()> {
    let came = came.replace(rt.alloc(), ' ', "")?;
    if came.as_str() == wanted {
        return Ok(());
    }
    print_difference(rt, file, asked, wanted, came.as_str())
}

fn print_difference(
    rt: &impl Print,
    file: &str,
    asked: &str,
    wanted: &str,
    came: &str,
) -> io::Result<()> {
    println!(rt; "{file}: {asked}\n  wanted {wanted}\n  came   {came}")
}

// A row that isn't understood is no case.
fn print_unknown(rt: &impl Print, file: &str, row: &str) -> io::Result<u64> {
    println!(rt; "{file}: not understood: {row}")?;
    Ok(0)
}

// What comes of a command, an empty text for a step, and nothing where it isn't understood.
fn answer_of(alloc: Global, domain: &mut Domain, asked: &str) -> Option<String> {
    let (command, words) = asked.split_once(' ').unwrap_or((asked, ""));
    if let Some(answer) = layouts::answer(alloc, command, words) {
        return Some(answer);
    }
    if let Some(answer) = numbers::answer(alloc, command, words) {
        return Some(answer);
    }
    if let Some(answer) = rings::answer(alloc, domain, command, words) {
        return Some(answer);
    }
    domain.answer(alloc, command, words)
}
