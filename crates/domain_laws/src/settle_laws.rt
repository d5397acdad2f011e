// What follows for a settle over disks and ports.

ghost use Rattle.std.specs.Prelude.{ℕ, ◌*◌, ◌+◌, ◌≤◌, length, List};
ghost use Rattle.runs.specs.Run.{Run};
ghost use Rattle.ldc_queue.specs.declared.end.End.{End};
ghost use Rattle.lane_kinds.specs.Lanes.{sum_of};
ghost use Rattle.lane_kinds.specs.Settles.{most_rounds, RunsOut, SettlePart, Settles};
ghost use Rattle.lane_kinds.specs.Stuck.{NeverThree};
ghost use Rattle.switch_laws.specs.Remaining.{port_remaining};
ghost use Rattle.world_laws.specs.Ended.{LanesEnd};
ghost use Rattle.world_laws.specs.Moves.{ticks_in};
ghost use Rattle.world_laws.specs.Settle.{SettleEntry};
ghost use Rattle.world_laws.specs.Sums.{remaining_on};
ghost use Rattle.domain_laws.specs.Counts.{disk_stuck, moves_in, port_stuck};
ghost use Rattle.domain_laws.specs.Domain.{Lanes, lanes, PortsStep};
ghost use Rattle.domain_laws.specs.Settling.{AreFew, AreReached, AreUnforged, port_ticks_in, PortsEnd};

/// A settle over at most eight disks and eight ports, none of them forged, ends settled, whatever was lost, reset,
/// stopped or restarted before. It makes fewer than 4,096 rounds, and 64 for each pending request and each frame that is
/// held or queued. For each round that goes on lowers what remains. That is at most 69 for each disk and 189 for each
/// port as it begins, and 64 for each of those.
pub fn a_settle_of_unforged_disks_and_ports_ends_settled()
    ensures settled { (start : Lanes) (part : List SettleEntry) (behind : Lanes) → AreReached start → AreUnforged start → AreFew start
        → SettlePart lanes start part behind → Settles lanes start part behind }
    ensures bound { (start : Lanes) → AreReached start → AreUnforged start → AreFew start
        → remaining_on start.first + sum_of port_remaining start.second
        ≤ (69 * length start.first + 189 * length start.second) + 64 * lanes.pending start }
{}

/// After a settle over disks and ports that ends settled each disk whose server runs and each port is finished, or had
/// its one tick. Where nobody forged it, it is finished, also beside lanes that somebody forged. Then a disk has nothing
/// pending, its client in session. A port's guest is in session, and no frame is held: at neither end, nor in its out
/// queue. In one settle each lane gets one tick at most.
pub fn disks_and_ports_are_finished_behind_a_settle()
    ensures disks { (start : Lanes) (part : List SettleEntry) (behind : Lanes) → AreReached start
        → Settles lanes start part behind → LanesEnd 0 part behind.first }
    ensures ports { (start : Lanes) (part : List SettleEntry) (behind : Lanes) → AreReached start
        → Settles lanes start part behind → PortsEnd part behind.second }
    ensures ticks { (start : Lanes) (part : List SettleEntry) (behind : Lanes) (k : ℕ) → SettlePart lanes start part behind
        → ticks_in k part ≤ 1 }
    ensures port_ticks { (start : Lanes) (part : List SettleEntry) (behind : Lanes) (k : ℕ) → SettlePart lanes start part behind
        → port_ticks_in k part ≤ 1 }
{}

/// Where the rounds of a settle over disks and ports run out, as many steps other than Blocked and ticks at least stand in
/// its part as rounds were made. Then a disk or a port is named: one that wasn't quiet in the last round, or
/// that isn't finished though its server runs. In no settle does an end find no room three times with nothing but
/// Blocked between, whosesoever.
pub fn rounds_that_run_out_move_and_name_a_lane()
    ensures moving { (start : Lanes) (part : List SettleEntry) (behind : Lanes) → RunsOut lanes start part behind
        → most_rounds lanes start ≤ moves_in part }
    ensures named { (start : Lanes) (part : List SettleEntry) (behind : Lanes) (out : RunsOut lanes start part behind)
        → AreReached start → 1 ≤ length (lanes.names out.last.steps behind) }
    ensures disks { (start : Lanes) (part : List SettleEntry) (behind : Lanes) (k : ℕ) (e : End)
        → SettlePart lanes start part behind → NeverThree (disk_stuck k e) 0 part }
    ensures ports { (start : Lanes) (part : List SettleEntry) (behind : Lanes) (k : ℕ) (e : End)
        → SettlePart lanes start part behind → NeverThree (port_stuck k e) 0 part }
{}

/// The part of a settle over disks and ports runs the ports, entry by entry, also where its rounds run out. So each frame
/// that is switched in it goes to the forwarding set of the states of all ports directly before its entry.
pub fn the_part_of_a_settle_runs_the_ports()
    ensures { (start : Lanes) (part : List SettleEntry) (behind : Lanes) → SettlePart lanes start part behind
        → Run PortsStep start.second part behind.second }
{}
