//! Worlds of disks' lanes over one image: rounds, ticks and what a settle comes to. What each line of a script does and
//! the part of the journal that it gives. Then each disk's requests, its region of the image, and failures. It has no
//! code: the code of a world stands on it.
#![tactic(auto)]

mod fault_laws;
mod image_laws;
mod loop_laws;
mod moves_laws;
mod request_laws;
mod settle_laws;
mod word_laws;

pub use fault_laws::{
    an_image_that_never_failed, calls_of_the_image_are_told, failed_completions_are_counted,
    statuses_tell_failing_stores,
};
pub use image_laws::{
    completions_of_each_disk_show_the_last_write, each_disk_has_its_own_image,
    each_disk_holds_what_is_done, images_keep_what_no_write_names, images_outside_all_disks_stay,
    stores_stay_within_their_disks,
};
pub use loop_laws::each_event_gives_an_id_where_it_accepts;
pub use moves_laws::each_lane_runs_by_its_events;
pub use request_laws::{
    accepted_counts, forging_is_told, requests_of_a_lane_are_pending_in_order,
    requests_of_each_disk_are_admitted_and_complete_once,
};
pub use settle_laws::{
    a_settle_moves_each_lane_by_its_part, a_settle_of_unforged_lanes_ends_settled,
    all_ends_are_still_behind_a_quiet_round, each_round_of_a_settle_moves,
    lanes_at_rest_settle_at_once, running_lanes_are_finished_behind_a_settle,
};
pub use word_laws::{events_have_their_words, lanes_are_lawful};
