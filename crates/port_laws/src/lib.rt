//! What always holds of a port's lane: it is two ends on a channel with rings both ways, so all that holds of such ends
//! holds of a port's. It has no code.
#![tactic(auto)]

mod arrival_laws;
mod core_laws;
mod frame_laws;
mod group_laws;
mod remaining_laws;
mod reset_laws;
mod rest_laws;
mod ring_laws;
mod rule_laws;
mod wire_laws;

pub use arrival_laws::{
    all_frames_arrive_where_none_is_lost, each_frame_arrives_or_is_held_or_lost,
};
pub use core_laws::{
    a_port_is_lossy_behind_a_loss, a_port_is_two_ends_on_a_channel,
    a_port_resets_itself_behind_a_loss_or_for_its_session,
    an_end_heard_a_front_of_what_the_other_said, an_end_of_a_port_always_has_a_step,
    open_sessions_of_a_port_are_one, sessions_of_a_port_open_in_order,
};
pub use frame_laws::an_ack_alone_lets_frames_go;
pub use group_laws::{
    a_guest_joins_each_group_once, each_answer_to_groups_is_the_one_that_is_owed,
    the_switch_knows_the_groups_that_its_session_told,
};
pub use remaining_laws::{
    each_frame_of_a_guest_crosses_once, each_step_of_a_port_but_a_calm_one_lowers_what_remains,
    little_remains_on_a_port_that_nobody_forged,
    what_remains_on_a_port_falls_by_a_reset_behind_a_loss,
    what_remains_on_a_port_falls_by_what_an_end_does,
};
pub use reset_laws::{
    a_packet_resets_a_session_of_a_port_for_its_first_cause,
    a_slot_that_is_not_done_is_one_that_an_ack_names, resets_of_a_port_say_why,
};
pub use rest_laws::{
    a_calm_turn_finishes_a_port, a_tick_is_calm_where_the_port_is_finished,
    an_end_resets_itself_without_a_packet_for_a_slot, an_idle_end_of_a_port_has_nothing_to_do,
    only_an_end_that_is_up_moves_frames, two_idle_ends_of_a_port_are_in_session,
};
pub use ring_laws::{
    a_frame_that_is_taken_is_the_next_that_was_published,
    at_most_one_announcement_of_an_end_is_on_the_way, frames_arrive_in_order_and_at_most_once,
    no_end_of_a_port_resets_itself_for_a_slot, no_frame_is_left_where_both_ends_are_idle,
    no_group_is_left_untold_where_both_ends_are_idle, the_ring_of_each_end_holds_its_frames,
};
pub use rule_laws::{
    a_frame_is_queued_or_refused_rightly, a_frame_is_taken_while_an_announcement_waits,
    an_end_holds_the_frames_that_it_was_given, each_ack_names_the_frames_taken_since_the_last,
    each_announcement_begins_at_the_first_frame_left, each_announcement_that_is_taken_is_the_next,
    frames_are_published_in_order, lost_frames_are_published_and_not_acknowledged,
    no_ack_goes_beyond_what_is_published,
};
pub use wire_laws::{
    a_port_opens_behind_its_handshake, an_end_of_a_port_resets_itself_behind_a_loss_alone,
    each_event_of_a_port_stands_by_its_ends_and_queues, every_run_of_a_port_is_lawful,
    what_a_port_hears_may_come, what_a_port_says_is_cut_and_numbered,
    what_changes_nothing_on_a_port_is_answered_rightly,
};
