// The words as `clap` reads them.
ghost use Rattle.std.specs.Prelude.{◌≡◌, true, map, option_map, string_bytes, IfOk, IfErr};
ghost use Rattle.clap.specs.Words.{app_of, subcommand_of, subcommand_rows_of, takes};
ghost use Rattle.ldom_words.specs.Asking.{program_app, wanted_in, wanted_of, with_word_app};

use crate::words::{Asked, asked_with};
use clap::error::ErrorKind;
use clap::{Arg, ArgMatches, Command};
use std::alloc::{AllocError, Global};

/// Why `clap` took no words.
#[derive(Clone, Copy, Debug, PartialEq, Eq)]
pub enum Refusal {
    Memory,
    Words,
}

/// What `clap` makes of the words, without the program's name.
pub fn parse<'a>(alloc: Global, words: &'a [String]) -> Result<Option<Asked<'a>>, Refusal>
    ensures ok { IfOk result (λ asked. option_map wanted_of asked ≡ wanted_in (subcommand_of program_app (map string_bytes words.now))) }
    ensures err { IfErr result (λ refusal. takes program_app (map string_bytes words.now) ≡ true → refusal ≡ Refusal.Memory) }
{
    let program = match program(alloc) {
        Ok(program) => program,
        Err(AllocError) => return Err(Refusal::Memory),
    };
    match program.try_get_matches_from(words) {
        Ok(matches) => Ok(asked_of(&matches)),
        Err(error) => Err(refusal_of(error.kind())),
    }
}

fn refusal_of(kind: ErrorKind) -> Refusal
    ensures { kind ≡ ErrorKind.OutOfMemory → result ≡ Refusal.Memory }
{
    match kind {
        ErrorKind::OutOfMemory => Refusal::Memory,
        _ => Refusal::Words,
    }
}

// The program's commands: `run IMAGE`, `trace IMAGE`, `sample N` and `dump`.
fn program<'a>(alloc: Global) -> Result<Command<'a>, AllocError>
    ensures { IfOk result (λ program. app_of program ≡ program_app) }
{
    let program = Command::new(alloc, "ldom").no_binary_name(true);
    let program = with_command_of_word(alloc, program, "run")?;
    let program = with_command_of_word(alloc, program, "trace")?;
    let program = with_command_of_word(alloc, program, "sample")?;
    program.subcommand(Command::new(alloc, "dump"))
}

// The program with one command more, which has one word after it.
fn with_command_of_word<'a>(
    alloc: Global,
    program: Command<'a>,
    name: &'a str,
) -> Result<Command<'a>, AllocError>
    ensures { IfOk result (λ more. app_of more ≡ with_word_app (app_of program.entry) name.entry.now) }
{
    let word = Arg::new(alloc, "word").required(true);
    let command = Command::new(alloc, name).arg(word)?;
    program.subcommand(command)
}

// What the command that was met asks for.
fn asked_of<'a>(matches: &ArgMatches<'a>) -> Option<Asked<'a>>
    ensures { option_map wanted_of result ≡ wanted_in (subcommand_rows_of matches.now) }
{
    let (name, own) = matches.subcommand()?;
    if name == "dump" {
        return Some(Asked::Dump);
    }
    let word = own.get_str("word")?;
    asked_with(name, word)
}
