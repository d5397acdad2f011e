// What follows for a settle over the ports of one switch.

ghost use Rattle.std.specs.Prelude.{ℕ, ◌*◌, ◌+◌, ◌≤◌, length, List};
ghost use Rattle.ldc_queue.specs.declared.end.End.{End};
ghost use Rattle.lane_kinds.specs.Lanes.{AllMove, AreClean, EachMarked, EachOf, IsLaneAtRest, LaneFalls, sum_of};
ghost use Rattle.lane_kinds.specs.Settles.{most_rounds, RunsOut, SettlePart, Settles};
ghost use Rattle.lane_kinds.specs.Stuck.{NeverThree, sum_over};
ghost use Rattle.port_laws.specs.PortState.{PortState};
ghost use Rattle.switch_laws.specs.Events.{SwitchStep};
ghost use Rattle.switch_laws.specs.PortCounts.{moves, port_stuck, port_ticks};
ghost use Rattle.switch_laws.specs.Ports.{pending, ports, said_port, switch, SwitchEntry};
ghost use Rattle.switch_laws.specs.Reached.{IsClean, IsReached, IsUnforged};
ghost use Rattle.switch_laws.specs.Remaining.{port_raises, port_remaining};

/// The part of a settle says what happened to each port of a switch. The port is run by its own events, and by the frames
/// that those of other ports gave it.
pub fn each_port_is_run_by_what_happened_to_it()
    ensures { (start : List PortState) (part : List SwitchEntry) (behind : List PortState) → SettlePart switch start part behind
        → AllMove SwitchStep said_port 0 start part behind }
{}

/// In the part of a settle each port has one tick at most, and neither end of it finds no room three times with nothing
/// else between.
pub fn no_end_of_a_port_is_stuck_in_a_settle()
    ensures ticks { (start : List PortState) (part : List SwitchEntry) (behind : List PortState) (k : ℕ) → SettlePart switch start part behind
        → sum_over (port_ticks k) part ≤ 1 }
    ensures stuck { (start : List PortState) (part : List SwitchEntry) (behind : List PortState) (k : ℕ) (e : End)
        → SettlePart switch start part behind → NeverThree (port_stuck k e) 0 part }
{}

/// Where the rounds of a settle run out, as many entries at least move as rounds were made, and a port is named.
pub fn rounds_of_a_switch_that_run_out_move_and_name()
    ensures moving { (start : List PortState) (part : List SwitchEntry) (behind : List PortState) → RunsOut switch start part behind
        → most_rounds switch start ≤ sum_over moves part }
    ensures named { (start : List PortState) (part : List SwitchEntry) (behind : List PortState) (out : RunsOut switch start part behind)
        → EachOf IsReached start → 1 ≤ length (switch.names out.last.steps behind) }
{}

/// A settle over at most eight ports of a switch, none of them forged, ends settled, whatever was lost and reset before.
/// Each round that goes on lowers what remains on all of them together, though a frame that is switched stands in the
/// out queues of up to seven others then. At its begin that is at most 189 for each port, and 64 for each frame held.
pub fn a_settle_of_an_unforged_switch_ends_settled()
    ensures settled { (start : List PortState) (part : List SwitchEntry) (behind : List PortState) → AreClean IsClean start
        → SettlePart switch start part behind → Settles switch start part behind }
    ensures falls { LaneFalls ports IsClean port_remaining port_raises }
    ensures bound { (lanes : List PortState) → EachOf IsClean lanes
        → sum_of port_remaining lanes ≤ 189 * length lanes + 64 * sum_of pending lanes }
{}

/// Behind a settle of a switch that ends settled each port is finished or had its tick. One that nobody forged is
/// finished, also beside ports that somebody forged: its guest is in session and told its groups, and no frame is held.
pub fn ports_are_finished_behind_a_settle()
    ensures { (start : List PortState) (part : List SwitchEntry) (behind : List PortState) (at : Settles switch start part behind)
        → EachOf IsReached start → EachMarked (IsLaneAtRest ports IsUnforged) behind at.now.marks }
{}
