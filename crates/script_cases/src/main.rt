//! Prints the report of an example, and runs the cases of the files that its arguments name. It prints what differs
//! from what a case wants, and counts them.
//! A case is a command with its input and what must come of it. So tests over whole scripts are data, and a test more
//! is lines of text.
//!
//! A file begins with lines `# ..`, and each case with a line `case NAME`. What a case has behind it:
//!
//! | line | |
//! |---|---|
//! | `words A,B` | the words of the command; `no-words`: there are none |
//! | `< TEXT` | a line of the input; `<. TEXT`: TEXT without a line feed |
//! | `> TEXT` | a line of the report; `>. TEXT`: likewise. Without such a line the report is empty |
//! | `status N` | the number of the status; each case has this line |
//! | `ran N` | the number of how the run ended before its report, which a failing sink hides |
//! | `image none`, `image given` | whether an image comes back |
//! | `image LENGTH BYTE ..` | its length, and which byte fills each of its first blocks; 00 fills those after them |
//! | `faulty` | a call of the image failed; without this line none did |
//! | `lanes none`, `lanes given` | whether lanes come back |
//! | `journal N` | how many entries the journal has |
//! | `without TEXT` | lines of the report that begin with TEXT are left out before it is compared |
//! | `front N` | the report is a front of the lines, of N bytes at least, and not all of them |
//! | `host LENGTH BYTE NAME` | the host's image is LENGTH times BYTE under NAME; without this line `0 00 img` |
//! | `attach-fails` | the host gives no image |
//! | `disk-fails N,N` | its disk fails these calls, counted from 0; `source-fails`, `sink-fails`: likewise |
//! | `piece N` | the source gives at most N bytes a call; without this line 16 |
//! | `sink-room N` | the sink takes N bytes; without this line 65536 |
//! | `each A => B` | the case is run once for each such line, with A in place of `$1`, B in place of `$2` |
//! | `count A..B` | and once for each number from A on and below B, in place of `$n` |
//! | `# ..`, an empty line | nothing |
//!
//! In what stands behind a word, `{TEXT*N}` is N times TEXT, `~` are zeros up to the digits of a packet, or in a line
//! `desc ..` of a descriptor, and `\NN` is the character of that number, as `\20` for a blank at a line's end. The
//! first `...` at the end of a line of the report is any text up to another line's end.
#![tactic(auto)]

mod case;
mod example;
mod fault;
mod files;
mod filling;
mod looking;
mod replaying;
mod spelling;

use example::print_example;
use files::run_file;
use std::{env, io};

fn main(rt: HostRuntime) -> io::Result<()> {
    print_example(&rt)?;
    let mut all = 0u64;
    for file in env::args(&rt)?.skip(1) {
        let count = run_file(&rt, file.as_str())?;
        println!(rt; "{file}: {count} cases")?;
        all = all.saturating_add(count);
    }
    println!(rt; "{all} cases")
}
