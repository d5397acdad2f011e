//! What a script's run is, as definitions over lists, and its laws: how far a script is read. What its journal says of
//! the requests of its disks, of failures and of the image. The headline, which holds of each disk whatever disturbs
//! it; what a quiet script comes to. And how a run's journal, image and lanes are put together. The top call's contract
//! cites them. It has no code: its functions carry laws, so they do nothing and promise a theorem.
#![tactic(auto)]

mod headline;
mod isolation;
mod laws;
mod plain;

pub use headline::the_headline_holds;
pub use isolation::a_line_changes_its_own_lane_alone;
pub use laws::{
    a_journal_cuts_in_one_way, bytes_outside_of_writes_stay, calls_of_the_image_are_told,
    completions_succeed_or_fail, entries_have_their_words, failed_completions_are_counted,
    requests_are_admitted, requests_complete_once_in_order,
};
pub use plain::a_quiet_script_runs_plainly;
