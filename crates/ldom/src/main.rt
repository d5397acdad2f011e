//! The program: its words, standard input, standard output and the machine's images, handed to the top call. It ends
//! with the number of the run's status.
#![tactic(auto)]

use flat_store::StdHost;
use ldom_replay::replay;
use std::alloc::AllocError;
use std::process::ExitCode;
use std::rt::Env;
use std::{env, io};
use vio_io::{StdSink, StdSource};

fn main(rt: HostRuntime) -> ExitCode {
    let words = match words_of(&rt) {
        Ok(words) => words,
        Err(AllocError) => return ExitCode::from(9),
    };
    let mut script = StdSource::new(rt.stdin());
    let mut report = StdSink::new(rt.stdout());
    let outcome = replay(
        rt.alloc(),
        &words,
        &mut StdHost::new(&rt),
        &mut script,
        &mut report,
    );
    ExitCode::from(outcome.status.number())
}

// The words after the program's name. Words that are no text are none of the program's: they count as no words.
fn words_of<R: Env + AllocGlobal>(rt: &R) -> Result<Vec<String>, AllocError> {
    let mut words = Vec::new(rt.alloc());
    let args = match env::args(rt) {
        Ok(args) => args,
        Err(error) if error.kind() == io::ErrorKind::OutOfMemory => return Err(AllocError),
        Err(_) => return Ok(words),
    };
    for word in args.skip(1) {
        words.push(word)?;
    }
    Ok(words)
}
