//! What always holds of a disk's lane, whatever was lost, reset, stopped or restarted. It is the invariant of its ends,
//! its ring and its wire, what its buffers hold, and how near its image is to what is done. It is also where each event
//! of a run may stand in its log. It has no code.
#![tactic(auto)]

mod contents_laws;
mod invariant_laws;
mod run_laws;

pub use contents_laws::{
    a_store_has_the_image_as_its_region, an_image_holds_what_is_done, buffers_hold_what_was_asked,
    completions_show_the_last_write, completions_show_their_content, images_stay_near,
    later_writes_were_disturbed, near_counts_are_the_logs, near_counts_stand_in_order,
    near_images_hold_the_content, statuses_are_zero,
};
pub use invariant_laws::{
    a_client_writes_one_slot, a_completion_carries_the_servers_status,
    a_lane_is_lossy_behind_a_loss, a_lane_is_two_ends_on_a_channel,
    a_server_fetches_the_next_request, a_tick_begins_a_lane_anew, an_idle_end_has_nothing_to_do,
    completions_carry_their_blocks, ends_of_a_lane_stand, ends_say_what_their_handshakes_hold,
    events_stand_by_states_and_queues, heard_is_a_front_of_said_on_a_lane,
    little_remains_where_nobody_forged, open_sessions_are_one,
    open_sessions_rest_on_what_was_heard, pages_of_a_lane_stay_granted,
    requests_complete_once_in_order_on_a_lane, sessions_count_alike, slots_stand_in_order,
    the_ring_is_as_its_log_says, ticks_are_calm_where_all_is_done,
    what_is_heard_is_as_the_other_end_has_it, what_is_heard_may_come,
    what_remains_falls_by_what_an_end_does,
};
pub use run_laws::{
    a_lane_agrees_with_its_log, a_step_lowers_what_remains_or_is_calm,
    an_end_ends_its_work_before_it_takes, an_end_resets_itself_behind_a_loss_alone,
    an_end_works_where_it_is_up, an_idle_end_has_done_all, calm_ends_have_finished,
    every_run_of_a_lane_is_lawful, no_frames_are_lost, nothing_of_an_old_session_is_done,
    one_log_has_one_state, ranges_name_what_was_done, resets_say_why,
    resets_without_a_packet_have_their_ground, sessions_open_in_order, two_idle_ends_have_finished,
    what_is_done_is_the_next_piece, what_is_said_is_cut_and_numbered, work_has_its_numbers,
    work_is_done_as_it_was_asked,
};
