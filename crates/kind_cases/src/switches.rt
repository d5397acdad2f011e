// What follows for a world of two switches.

ghost use Rattle.std.specs.Prelude.{ℕ, ◌≤◌, List, length};
ghost use Rattle.lane_kinds.specs.Both.{BothHold, BothStand, Two};
ghost use Rattle.lane_kinds.specs.Fronts.{SettleFront};
ghost use Rattle.lane_kinds.specs.Lanes.{AllMove, AreClean, EachMarked, EachOf, IsLaneAtRest};
ghost use Rattle.lane_kinds.specs.Settles.{most_rounds, RunsOut, SettlePart, Settles};
ghost use Rattle.lane_kinds.specs.Stuck.{NeverThree, sum_over};
ghost use Rattle.kind_cases.specs.PortCounts.{moves, port_stuck, port_ticks};
ghost use Rattle.kind_cases.specs.Ports.{WayHasRoom, IsClean, IsUnforged, Port, ports};
ghost use Rattle.kind_cases.specs.World.{said_port, said_twin, two_fronts, two_switches, WorldEntry};

/// A settle over the ports of two switches, at most eight each, none of them forged, ends settled, though each frame
/// that is switched gives one to every other port. What remains on all of them falls by each round that goes on.
pub fn two_switches_end_settled()
    ensures { (start : Two (List Port) (List Port)) (part : List WorldEntry) (behind : Two (List Port) (List Port))
        → BothHold (AreClean IsClean) (AreClean IsClean) start → SettlePart two_switches start part behind
        → Settles two_switches start part behind }
{}

/// Behind a settle that ends settled each port is finished or had its tick; and one that nobody forged is finished, also
/// beside ports that somebody forged.
pub fn ports_are_finished_behind_a_settle()
    ensures { (start : Two (List Port) (List Port)) (part : List WorldEntry) (behind : Two (List Port) (List Port))
        (at : Settles two_switches start part behind) → BothHold (EachOf WayHasRoom) (EachOf WayHasRoom) start
        → BothStand (EachMarked (IsLaneAtRest ports IsUnforged)) (EachMarked (IsLaneAtRest ports IsUnforged)) behind
        at.now.marks }
{}

/// The part of a settle says what happened to each port of both switches. It is run by its own events and by what the
/// others of its switch gave it, and entries of the other switch say nothing of it.
pub fn each_port_is_run_by_what_happened_to_it()
    ensures one { (start : Two (List Port) (List Port)) (part : List WorldEntry) (behind : Two (List Port) (List Port))
        → SettlePart two_switches start part behind → AllMove ports.Step said_port 0 start.first part behind.first }
    ensures other { (start : Two (List Port) (List Port)) (part : List WorldEntry)
        (behind : Two (List Port) (List Port))
        → SettlePart two_switches start part behind → AllMove ports.Step said_twin 0 start.second part behind.second }
{}

/// In the part of a settle each port has one tick at most, and its end at the switch finds no room at most twice with
/// nothing else between.
pub fn no_port_is_stuck_in_a_settle()
    ensures ticks { (start : Two (List Port) (List Port)) (part : List WorldEntry)
        (behind : Two (List Port) (List Port)) (k : ℕ) → SettlePart two_switches start part behind
        → sum_over (port_ticks k) part ≤ 1 }
    ensures stuck { (start : Two (List Port) (List Port)) (part : List WorldEntry)
        (behind : Two (List Port) (List Port)) (k : ℕ) → SettlePart two_switches start part behind
        → NeverThree (port_stuck k) 0 part }
{}

/// Where the rounds of a settle run out as many entries move as rounds were made, and a port is named.
pub fn rounds_that_run_out_move_and_name()
    ensures moving { (start : Two (List Port) (List Port)) (part : List WorldEntry)
        (behind : Two (List Port) (List Port)) → RunsOut two_switches start part behind
        → most_rounds two_switches start ≤ sum_over moves part }
    ensures named { (start : Two (List Port) (List Port)) (part : List WorldEntry)
        (behind : Two (List Port) (List Port)) (out : RunsOut two_switches start part behind)
        → BothHold (EachOf WayHasRoom) (EachOf WayHasRoom) start → 1 ≤ length (two_switches.names out.last.steps behind) }
{}

/// Where memory is wanted in a settle its part, as far as it goes, says what happened to each port of both switches, and
/// keeps its rules.
pub fn fronts_of_a_settle_keep_its_rules()
    ensures one { (start : Two (List Port) (List Port)) (part : List WorldEntry) (behind : Two (List Port) (List Port))
        → SettleFront two_switches two_fronts start part behind
        → AllMove ports.Step said_port 0 start.first part behind.first }
    ensures other { (start : Two (List Port) (List Port)) (part : List WorldEntry)
        (behind : Two (List Port) (List Port)) → SettleFront two_switches two_fronts start part behind
        → AllMove ports.Step said_twin 0 start.second part behind.second }
    ensures ticks { (start : Two (List Port) (List Port)) (part : List WorldEntry)
        (behind : Two (List Port) (List Port)) (k : ℕ) → SettleFront two_switches two_fronts start part behind
        → sum_over (port_ticks k) part ≤ 1 }
    ensures stuck { (start : Two (List Port) (List Port)) (part : List WorldEntry)
        (behind : Two (List Port) (List Port)) (k : ℕ) → SettleFront two_switches two_fronts start part behind
        → NeverThree (port_stuck k) 0 part }
{}
