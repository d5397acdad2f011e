//! Cases of the parts of the stack, each word of the command a kind of case and a file of such, as `switch calls.txt`:
//! `rows` are of layouts, tables, copies and rings (src/rows.rt), and `switch` has the calls of a switch
//! (src/switch.rt). The program prints what differs, how many cases of each file went as they are written, and how many
//! of all.
#![tactic(auto)]

mod rows;
mod switch;

use std::rt::{Env, Files};
use std::{env, io};

fn main(rt: HostRuntime) -> io::Result<()> {
    run_words(&rt)
}

fn run_words(rt: &(impl AllocGlobal + Env + Files + Print)) -> io::Result<()> {
    let mut all = 0u64;
    for word in env::args(rt)?.skip(1) {
        all = all.saturating_add(run_word(rt, word.as_str())?);
    }
    println!(rt; "{all} cases")
}

// How many cases of a file of this kind went as they are written.
fn run_word(rt: &(impl AllocGlobal + Files + Print), word: &str) -> io::Result<u64> {
    let (kind, file) = word.split_once(' ').unwrap_or((word, ""));
    match kind {
        "rows" => rows::run_file(rt, file),
        "switch" => switch::run_file(rt, file),
        _ => print_unknown(rt, word),
    }
}

fn print_unknown(rt: &impl Print, word: &str) -> io::Result<u64> {
    println!(rt; "not understood: {word}")?;
    Ok(0)
}
