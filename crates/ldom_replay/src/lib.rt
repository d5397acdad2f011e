//! The top: the call that replays a script through a world of lanes over an image and writes the report, and the laws
//! of every run. The program `ldom` and the tests stand on it. For every script each accepted request completes at most
//! once, in the order of issue; the journal is one part for each line; the report is the journal's.
#![tactic(auto)]

mod blocks;
mod command;
mod reading;
mod run;
mod sample;
mod top_call;

pub use ldom_report::{LimitKind, Status};
pub use ldom_world::{Lanes, World};
pub use script_laws::{
    a_quiet_script_runs_plainly, bytes_outside_of_writes_stay, completions_succeed_or_fail,
    entries_have_their_words, failed_completions_are_counted, requests_are_admitted,
    requests_complete_once_in_order, the_headline_holds,
};
pub use top_call::{Outcome, replay};
