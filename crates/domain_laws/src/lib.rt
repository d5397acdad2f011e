//! A world of disks and ports: the disks over one image, and beside them the ports of one switch. Here is what its
//! journal says of each kind, what a settle over all of them does, and what each entry leaves of the others. Then what
//! each line of a script does, and the part of the journal that it gives. It has no code.
#![tactic(auto)]

mod frame_laws;
mod line_laws;
mod loop_laws;
mod plain_laws;
mod run_laws;
mod settle_laws;

pub use frame_laws::{
    a_journal_tells_the_frames_of_each_port,
    all_frames_of_a_port_arrive_where_a_world_ends_settled, frames_of_each_port_arrive_in_order,
};
pub use line_laws::{
    a_line_forges_no_other_lane, a_line_of_a_lane_leaves_all_other_lanes,
    a_script_runs_a_world_by_its_parts, entries_name_lanes_of_the_world, nobody_forges_by_lines,
};
pub use loop_laws::{
    a_round_is_made_lane_by_lane, a_settle_is_made_round_by_round, names_are_given_lane_by_lane,
    ticks_are_made_lane_by_lane, want_of_memory_leaves_a_front_of_a_settle,
};
pub use plain_laws::a_quiet_world_is_a_plain_list;
pub use run_laws::{
    an_entry_of_a_disk_leaves_all_other_lanes, an_entry_of_a_port_leaves_all_other_lanes,
    each_kind_runs_by_the_one_journal, each_port_runs_by_its_events, forging_of_ports_is_told,
};
pub use settle_laws::{
    a_settle_of_unforged_disks_and_ports_ends_settled,
    disks_and_ports_are_finished_behind_a_settle, rounds_that_run_out_move_and_name_a_lane,
    the_part_of_a_settle_runs_the_ports,
};
