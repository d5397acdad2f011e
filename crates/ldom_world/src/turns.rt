// Steps of ends turn by turn, and rounds.

ghost use Rattle.std.specs.Prelude.{◌∷◌, [], OnErr, OnOk};
ghost use Rattle.recorded_lanes.specs.world_parts.domain_laws.Domain.{lanes_in};
ghost use Rattle.recorded_lanes.specs.world_parts.domain_laws.Lines.{both_ends, round_turns, Rounds, Steps};
ghost use Rattle.recorded_lanes.specs.ldom_report.LaneEvents.{end_of};
ghost use Rattle.recorded_lanes.specs.Steps.{Counted};
ghost use Rattle.ldom_world.specs.TurnsMade.{kind_turns, SameNumbers, TurnsBegun, TurnsMade};
ghost use Rattle.recorded_lanes.specs.world_parts.Lines.{IsLaneOf, lane_named};
ghost use Rattle.recorded_lanes.specs.world_parts.Parts.{Fits, FitsSoFar};

use crate::world::World;
use domain_script::{Lane, LaneKind, Side};
use recorded_lanes::Journal;
use vio_bytes::NoMemory;
use vio_io::Store;

impl<D: Store> World<D> {
    /// So many steps of an end of a lane.
    #[tactic(auto, using(crate::proofs::Turning::steps_on))]
    pub(crate) fn steps(
        &mut self,
        lane: Lane,
        side: Side,
        count: u32,
        journal: &mut Journal,
    ) -> Result<(), NoMemory>
        requires lane { IsLaneOf self.old lane }
        requires agrees { Counted journal.old.entries self.old }
        ensures fits { OnOk result (Fits self.old (Steps (lane_named lane) (end_of side) count) journal.old.entries
            journal.new.entries self.new) }
        ensures so_far { OnErr result (FitsSoFar self.old (Steps (lane_named lane) (end_of side) count) journal.old.entries
            journal.new.entries self.new) }
        ensures agrees { Counted journal.new.entries self.new }
    {
        for _ in 0..count {
            self.step(lane, side, journal)?;
        }
        Ok(())
    }

    /// So many rounds: in each, every disk in order makes a step of its client and then one of its server. Then every port
    /// makes one of its guest and one of its end at the switch.
    #[tactic(auto, using(crate::proofs::Turning::rounds_on))]
    pub(crate) fn rounds(&mut self, count: u32, journal: &mut Journal) -> Result<(), NoMemory>
        requires agrees { Counted journal.old.entries self.old }
        ensures fits { OnOk result (Fits self.old (Rounds count) journal.old.entries journal.new.entries self.new) }
        ensures so_far { OnErr result (FitsSoFar self.old (Rounds count) journal.old.entries journal.new.entries
            self.new) }
        ensures agrees { Counted journal.new.entries self.new }
    {
        for _ in 0..count {
            self.round(journal)?;
        }
        Ok(())
    }

    /// One round over all lanes.
    fn round(&mut self, journal: &mut Journal) -> Result<(), NoMemory>
        requires agrees { Counted journal.old.entries self.old }
        ensures made { OnOk result (TurnsMade (round_turns (lanes_in self.old)) self.old journal.old.entries
            journal.new.entries self.new) }
        ensures begun { OnErr result (TurnsBegun (round_turns (lanes_in self.old)) self.old journal.old.entries
            journal.new.entries self.new) }
        ensures many { SameNumbers self.old self.new }
        ensures agrees { Counted journal.new.entries self.new }
    {
        self.turns_of(LaneKind::Disk, journal)?;
        self.turns_of(LaneKind::Port, journal)?;
        Ok(())
    }

    /// The turns of all lanes of a kind in a round.
    #[tactic(auto, using(crate::proofs::Turning::round_on))]
    fn turns_of(&mut self, kind: LaneKind, journal: &mut Journal) -> Result<(), NoMemory>
        requires agrees { Counted journal.old.entries self.old }
        ensures made { OnOk result (TurnsMade (kind_turns kind self.old) self.old journal.old.entries
            journal.new.entries self.new) }
        ensures begun { OnErr result (TurnsBegun (kind_turns kind self.old) self.old journal.old.entries
            journal.new.entries self.new) }
        ensures many { SameNumbers self.old self.new }
        ensures agrees { Counted journal.new.entries self.new }
    {
        for number in 0..self.count_of(kind) {
            self.step_both(Lane { kind, number }, journal)?;
        }
        Ok(())
    }

    /// A step of a lane's first end, and then one of its second.
    fn step_both(&mut self, lane: Lane, journal: &mut Journal) -> Result<(), NoMemory>
        requires lane { IsLaneOf self.old lane }
        requires agrees { Counted journal.old.entries self.old }
        ensures made { OnOk result (TurnsMade (both_ends (lane_named lane ∷ [])) self.old journal.old.entries
            journal.new.entries self.new) }
        ensures begun { OnErr result (TurnsBegun (both_ends (lane_named lane ∷ [])) self.old journal.old.entries
            journal.new.entries self.new) }
        ensures many { SameNumbers self.old self.new }
        ensures agrees { Counted journal.new.entries self.new }
    {
        self.step(lane, Side::Client, journal)?;
        self.step(lane, Side::Server, journal)?;
        Ok(())
    }
}
