ghost use Rattle.std.specs.Prelude.{◌≡◌, None, map, option_map, string_bytes};
ghost use Rattle.std.specs.List.{list_all};
ghost use Rattle.ldom_words.specs.Words.{all_plain, begins_with_help, is_plain_word};
ghost use Rattle.ldom_words.specs.Asking.{sample_number, wanted, wanted_of, wanted_with};

use crate::clap_words::{Refusal, parse};
use script_words::numbers::number;
use std::alloc::Global;

/// So many sample scripts there are.
const SAMPLES: u64 = 2_147_483_648;

/// What a command line asks for.
#[derive(Clone, Copy, Debug, PartialEq, Eq)]
pub enum Asked<'a> {
    /// `run IMAGE`: a script is run over the image of this name.
    Run { image: &'a str },

    /// `trace IMAGE`: the same run, of which each entry is shown.
    Trace { image: &'a str },

    /// `sample N`: the sample script of this number, below 2^31, is run.
    Sample { number: u32 },

    /// `dump`: packets are dumped.
    Dump,
}

/// What the words ask for, without the program's name; nothing where they are none of the program's. Words that begin with
/// `-` and `help` don't come to `clap`. Where it finds no memory, the definition alone decides.
pub fn read_words<'a>(alloc: Global, words: &'a [String]) -> Option<Asked<'a>>
    ensures { option_map wanted_of result ≡ wanted (map string_bytes words.now) }
{
    if !are_plain(words) {
        return None;
    }
    match parse(alloc, words) {
        Ok(asked) => confirmed(asked, defined(words)),
        Err(Refusal::Memory) => defined(words),
        Err(Refusal::Words) => None,
    }
}

// What `clap` read, where the definition says the same.
fn confirmed<'a>(asked: Option<Asked<'a>>, defined: Option<Asked<'a>>) -> Option<Asked<'a>>
    ensures same { option_map wanted_of asked.entry ≡ option_map wanted_of defined.entry → option_map wanted_of result ≡ option_map wanted_of defined.entry }
    ensures none { option_map wanted_of defined.entry ≡ None → option_map wanted_of result ≡ None }
{
    match (asked, defined) {
        (Some(Asked::Run { image }), Some(Asked::Run { image: named })) if image == named => asked,
        (Some(Asked::Trace { image }), Some(Asked::Trace { image: named })) if image == named =>
            asked,
        (Some(Asked::Sample { number }), Some(Asked::Sample { number: named }))
            if number == named => asked,
        (Some(Asked::Dump), Some(Asked::Dump)) => asked,
        _ => None,
    }
}

// What the words ask for by their definition.
fn defined<'a>(words: &'a [String]) -> Option<Asked<'a>>
    ensures { option_map wanted_of result ≡ wanted (map string_bytes words.now) }
{
    match words {
        [command] if command.as_str() == "dump" => Some(Asked::Dump),
        [command, word] if is_plain(word.as_str()) => asked_with(command.as_str(), word.as_str()),
        _ => None,
    }
}

// What a command asks for with one word after it: an image's name, or a number.
pub(crate) fn asked_with<'a>(command: &str, word: &'a str) -> Option<Asked<'a>>
    ensures { option_map wanted_of result ≡ wanted_with command.now word.now }
{
    if command == "run" {
        return Some(Asked::Run { image: word });
    }
    if command == "trace" {
        return Some(Asked::Trace { image: word });
    }
    if command == "sample" {
        let number = sample_number(word)?;
        return Some(Asked::Sample { number });
    }
    None
}

// The number of a sample that a word spells.
fn sample_number(word: &str) -> Option<u32>
    ensures { result ≡ sample_number word.now }
{
    let n = number(word.as_bytes())?;
    if n < SAMPLES { Some(n as u32) } else { None }
}

// Whether no word is empty, none but `-` alone begins with `-`, and the first isn't `help`.
#[tactic(auto, using(crate::proofs::Deciding::plain_as))]
fn are_plain(words: &[String]) -> bool
    ensures { result ≡ all_plain (map string_bytes words.now) }
{
    !helps(words) && are_all_plain(words)
}

fn helps(words: &[String]) -> bool
    ensures { result ≡ begins_with_help (map string_bytes words.now) }
{
    match words {
        [first, ..] => first.as_str() == "help",
        [] => false,
    }
}

fn are_all_plain(words: &[String]) -> bool
    ensures { result ≡ list_all (λ word. is_plain_word (string_bytes word)) words.now }
{
    words.iter().all(|word| is_plain(word.as_str()))
}

fn is_plain(word: &str) -> bool
    ensures { result ≡ is_plain_word word.now }
{
    match word.as_bytes() {
        [] => false,
        [_] => true,
        [first, ..] => *first != b'-',
    }
}
