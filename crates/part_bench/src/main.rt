//! Parts of the stack alone, for the clock. Each word asks for a job, whose own words stand between blanks:
//!
//! - `copies COUNT SHAPE` makes COUNT copies of 8 KiB, by the shape `plain` from one buffer to another, by `in` and `out`
//!   through four cookies;
//! - `switch COUNT CAST LENGTH` lets COUNT frames of LENGTH bytes come to a switch of eight ports, by the cast
//!   `broadcast` or `unicast`, and takes each from the queues that hold it;
//! - `disk COUNT SHAPE` asks both ends of a disk over memory for COUNT requests of the shape, `writes` of one block,
//!   `large-writes` and `large-reads` of 64, and settles after every 32. Or it makes COUNT rounds in which both ends
//!   rest, `idle`;
//! - `ports COUNT WAYS LENGTH` gives COUNT frames of LENGTH bytes to the guest of a port, `one-way`, or to those of two
//!   in turn, `both-ways`, and makes rounds until nothing is left after every 32. Each frame crosses both ends of both
//!   ports.
//!
//! It prints for each how many succeeded or were taken. The status is 2 where a word asks for no job, and 9 where memory
//! was wanted.
#![tactic(auto)]

mod copies;
mod frames;
mod lane;
mod ports;
mod requests;
mod switch;

use std::alloc::{AllocError, Global};
use std::process::ExitCode;
use std::rt::Env;
use std::{env, io};
use vio_bytes::NoMemory;

/// A part, and how often what is done to it.
#[derive(Clone, Copy)]
enum Job {
    Copies(copies::Shape, u32),
    Switch(switch::Shape, u32),
    Disk(requests::Shape, u32),
    Ports(frames::Shape, u32),
}

impl Job {
    /// The job for which a word asks.
    fn of(word: &str) -> Option<Job> {
        let (part, rest) = word.split_once(' ')?;
        let (count, shape) = rest.split_once(' ')?;
        let count = count.parse::<u32>().ok()?;
        match part {
            "copies" => Some(Job::Copies(copies::Shape::of(shape)?, count)),
            "switch" => Some(Job::Switch(switch::Shape::of(shape)?, count)),
            "disk" => Some(Job::Disk(requests::Shape::of(shape)?, count)),
            "ports" => Some(Job::Ports(frames::Shape::of(shape)?, count)),
            _ => None,
        }
    }

    /// Does it, and tells how many succeeded or were taken.
    fn run(self, alloc: Global) -> Result<u64, NoMemory> {
        match self {
            Job::Copies(shape, count) => Ok(u64::from(copies::run(alloc, shape, count)?)),
            Job::Switch(shape, count) => switch::run(alloc, shape, count),
            Job::Disk(shape, count) => requests::run(alloc, shape, count),
            Job::Ports(shape, count) => frames::run(alloc, shape, count),
        }
    }
}

fn main(rt: HostRuntime) -> io::Result<ExitCode> {
    let words = match words_of(&rt) {
        Ok(words) => words,
        Err(AllocError) => return Ok(ExitCode::from(9)),
    };
    for word in &words {
        let Some(job) = Job::of(word.as_str()) else {
            return Ok(ExitCode::from(2));
        };
        match job.run(rt.alloc()) {
            Ok(count) => println!(rt; "{count}")?,
            Err(_) => return Ok(ExitCode::from(9)),
        }
    }
    Ok(ExitCode::SUCCESS)
}

// The words after the program's name.
fn words_of<R: Env + AllocGlobal>(rt: &R) -> Result<Vec<String>, AllocError> {
    let mut words = Vec::new(rt.alloc());
    let args = match env::args(rt) {
        Ok(args) => args,
        Err(error) if error.kind() == io::ErrorKind::OutOfMemory => return Err(AllocError),
        Err(_) => return Ok(words),
    };
    for word in args.skip(1) {
        words.push(word)?;
    }
    Ok(words)
}
