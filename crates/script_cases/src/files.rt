use crate::case::Case;
use crate::fault::Fault;
use crate::filling::{filled, numbers_of, values_of};
use crate::replaying::replay_case;
use std::alloc::Global;
use std::rt::Files;
use std::{fs, io};

/// Runs the cases of a file, prints what differs, and answers how many ran.
pub fn run_file<R: Files + Print + AllocGlobal>(rt: &R, file: &str) -> io::Result<u64> {
    let text = fs::read_to_string(rt, file)?;
    run_cases(rt, file, text.as_str())
}

/// Runs the cases of a file's text.
fn run_cases<R: Print + AllocGlobal>(rt: &R, file: &str, text: &str) -> io::Result<u64> {
    let mut cases = text.split("\ncase ");
    let head = cases.next().unwrap_or("");
    if !head.starts_with('#') {
        println!(rt; "{file}: no comment at its head")?;
    }
    let mut count = 0u64;
    for case in cases {
        count = count.saturating_add(run_case(rt, file, case)?);
    }
    Ok(count)
}

/// Runs a case for each of its `each` lines, or once where it has none.
fn run_case<R: Print + AllocGlobal>(rt: &R, file: &str, case: &str) -> io::Result<u64> {
    let (name, text) = case.split_once('\n').unwrap_or((case, ""));
    let mut count = 0u64;
    for line in text.lines() {
        if let Some(values) = values_of(line) {
            count = count.saturating_add(run_numbers(rt, file, name, text, Some(values))?);
        }
    }
    if count == 0 {
        count = run_numbers(rt, file, name, text, None)?;
    }
    if count == 0 {
        println!(rt; "{file}: {name}: no case")?;
    }
    Ok(count)
}

/// Runs a case with these values for each of its numbers.
fn run_numbers<R: Print + AllocGlobal>(
    rt: &R,
    file: &str,
    name: &str,
    text: &str,
    values: Option<&str>,
) -> io::Result<u64> {
    let mut count = 0u64;
    for number in numbers_of(text) {
        match run_one(rt.alloc(), text, values, number) {
            Ok(()) => {}
            Err(fault) => print_fault(rt, file, name, values.unwrap_or(""), number, &fault)?,
        }
        count = count.saturating_add(1);
    }
    Ok(count)
}

fn print_fault<R: Print>(
    rt: &R,
    file: &str,
    name: &str,
    values: &str,
    number: u32,
    fault: &Fault,
) -> io::Result<()> {
    let fault = fault.text();
    println!(rt; "{file}: {name} ({values}, {number}): {fault}")
}

/// Runs a case, and looks at what came of it.
fn run_one(alloc: Global, text: &str, values: Option<&str>, number: u32) -> Result<(), Fault> {
    let text = filled(alloc, text, values, number)?;
    let case = Case::read(alloc, text.as_str())?;
    replay_case(alloc, &case)
}
