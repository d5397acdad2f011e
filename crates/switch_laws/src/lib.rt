//! The ports of one switch: what holds of all of them together, where each frame that a guest sends goes to others. A
//! port on a switch is a kind of lane, whose events give the other ports frames. It has no code.
#![tactic(auto)]

mod forward_laws;
mod settle_laws;

pub use forward_laws::{
    a_frame_goes_to_its_forwarding_set, a_step_of_a_port_is_one_on_its_switch,
    an_event_of_a_port_leaves_the_others, each_entry_of_a_settle_is_a_step_of_the_switch,
};
pub use settle_laws::{
    a_settle_of_an_unforged_switch_ends_settled, each_port_is_run_by_what_happened_to_it,
    no_end_of_a_port_is_stuck_in_a_settle, ports_are_finished_behind_a_settle,
    rounds_of_a_switch_that_run_out_move_and_name,
};
