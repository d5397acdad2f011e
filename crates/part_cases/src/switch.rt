// Calls of a switch and their answers. A line is one call with its answer, in words with one space between; `#` begins
// a comment.
//
// | line | |
// |---|---|
// | `switch ROOM..` | a new switch, with a port for each room |
// | `port K - ` or `port K ADDRESS GROUP..` | port K has no session, or this address and these groups |
// | `owner ADDRESS K` | port K has the address; `-` where none has |
// | `for ADDRESS FROM SET` | the set of ports for a destination |
// | `accept FROM FRAME OUT FULL` | a frame, the ports that got it and those that were full |
// | `next K FRAME` | what has waited longest for port K; `-` where nothing waits |
// | `queued K COUNT`, `kept COUNT` | how many frames wait for port K, and how many are kept |
//
// An address has twelve hexadecimal digits. A frame is written in digits, or as `DIGITS+LENGTH`: then byte I, from the
// end of the digits up to the length, is I modulo 251. A set is a number with bit K for port K.

mod answers;
mod call;

use answers::agrees;
use call::Call;
use std::alloc::{AllocError, Global};
use std::rt::Files;
use std::{fs, io};
use vnet_switch::Switch;

/// Makes the calls of a file, and tells how many answers agree.
pub fn run_file(rt: &(impl AllocGlobal + Files + Print), file: &str) -> io::Result<u64> {
    let text = fs::read_to_string(rt, file)?;
    let Ok(mut switch) = Switch::new(rt.alloc(), &[]) else {
        return Err(AllocError.into());
    };
    let mut agree = 0u64;
    for (place, line) in text.lines().enumerate() {
        if line.is_empty() || line.starts_with('#') {
            continue;
        }
        if line_agrees(rt.alloc(), &mut switch, line) {
            agree = agree.saturating_add(1);
        } else {
            println!(rt; "{file}: line {}: {line}", place.saturating_add(1))?;
        }
    }
    println!(rt; "{file}: {agree} calls")?;
    Ok(agree)
}

// A line that isn't a call, or whose call the switch doesn't allow, doesn't agree.
fn line_agrees(alloc: Global, switch: &mut Switch, line: &str) -> bool {
    match Call::of(alloc, line) {
        Some(call) => agrees(alloc, switch, &call),
        None => false,
    }
}
