//! Models of lanes, and what always holds of two ends on a channel. First come two ends of any kind of lane: an end as
//! its channel sees it, what may happen to it, and two of them with the wire between. Over that stand the lane of a disk
//! and the port of a virtual network, each as a state, its steps and its events. One relation for each says exactly what
//! a step of an end, a call of the lane and a disturbance does, also where somebody forges packets or memory.
//!
//! The ends' code and the laws of lanes stand on it. It has no code but laws: of an end by its role, of both ends where
//! nobody forged, whatever was lost, reset or closed, and of the models' definitions.
#![tactic(auto)]

mod disk_laws;
mod end_laws;
mod frame_laws;
mod pair_laws;
mod port_laws;
mod session_laws;
mod wire_laws;

pub use disk_laws::{first_rounds_are_steps, steps_reset_for_their_own_causes};
pub use end_laws::{
    a_reset_of_an_end_says_why, an_end_rests_on_what_it_heard,
    an_end_says_what_its_handshake_holds, an_end_stands_by_its_role,
    sessions_of_an_end_open_in_order, sids_count_how_often_a_link_came_up,
    what_an_end_hears_may_come, what_an_end_says_is_cut_and_numbered,
};
pub use frame_laws::frames_stand_in_order;
pub use pair_laws::{
    a_wire_is_lossy_behind_a_loss, an_end_resets_itself_behind_a_loss_or_for_its_session,
    events_stand_by_both_ends, links_stand_at_one_place, open_sessions_of_both_ends_are_one,
    two_ends_converse, what_an_end_heard_is_as_the_other_has_it,
};
pub use port_laws::{
    an_end_always_has_a_step, an_end_has_one_step, an_end_resets_itself_for_its_own_causes,
    lists_of_groups_are_sets, slots_are_looked_at_in_ring_order,
};
pub use session_laws::{
    a_packet_resets_a_session_for_its_first_cause, open_sessions_know_each_others_attributes,
    two_ends_at_rest_are_in_session,
};
pub use wire_laws::transcripts_count_messages;
