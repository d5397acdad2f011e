//! Laws of any kind of lane, tried on made-up kinds: ports of two switches beside each other, small, whose events give
//! the others of their switch events, and a kind with rings both ways on one channel. It has no code and nothing stands
//! on it.
#![tactic(auto)]

mod switches;
mod toy_laws;

pub use switches::{
    each_port_is_run_by_what_happened_to_it, fronts_of_a_settle_keep_its_rules,
    no_port_is_stuck_in_a_settle, ports_are_finished_behind_a_settle,
    rounds_that_run_out_move_and_name, two_switches_end_settled,
};
pub use toy_laws::toys_with_rings_both_ways_have_their_row_and_one_session;
