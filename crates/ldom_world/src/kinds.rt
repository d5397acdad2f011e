// What a lane of any kind is asked goes to its own kind, whose module has a function of that name.

ghost use Rattle.std.specs.Prelude.{◌≡◌, ◌≤◌, ◌<◌, ◌∷◌, [], length, slice_get, Some, IfOk, IsOk, OnErr, OnOk};
ghost use Rattle.recorded_lanes.specs.world_parts.domain_laws.Lines.{Calls, Pokes, turn};
ghost use Rattle.recorded_lanes.specs.ldom_report.LaneEvents.{end_of};
ghost use Rattle.recorded_lanes.specs.Called.{call_of};
ghost use Rattle.recorded_lanes.specs.OnePort.{IsCallOf};
ghost use Rattle.recorded_lanes.specs.Steps.{Counted, moment};
ghost use Rattle.ldom_world.specs.SettleParts.{MakesQuiet};
ghost use Rattle.ldom_world.specs.TurnsMade.{SameNumbers, TurnsMade};
ghost use Rattle.recorded_lanes.specs.world_parts.WorldKinds.{in_world};
ghost use Rattle.recorded_lanes.specs.world_parts.Lines.{HasMemory, IsLaneOf, lane_named, number_of_kind};
ghost use Rattle.recorded_lanes.specs.world_parts.Parts.{Fits, FitsSoFar};

pub(crate) mod disks;
pub(crate) mod ports;

use crate::world::World;
use domain_script::{EndName, Lane, LaneKind, Side};
use recorded_lanes::{Journal, LaneCall};
use vio_bytes::NoMemory;
use vio_io::Store;

/// The function of this name for the lanes of a kind, called.
macro_rules! of_kind {
    ($kind:expr, $function:ident($($word:expr),*)) => {
        match $kind {
            LaneKind::Disk => disks::$function($($word),*),
            LaneKind::Port => ports::$function($($word),*),
        }
    };
}

#[tactic(auto, using(crate::proofs::NumbersStay::none_in_world))]
impl<D: Store> World<D> {
    /// How many lanes of a kind there are.
    pub(crate) fn count_of(&self, kind: LaneKind) -> u32
        ensures count { result ≡ number_of_kind kind self.now }
        ensures few { number_of_kind kind self.now ≤ 8 }
    {
        of_kind!(kind, count(self))
    }

    /// Whether a lane isn't finished, nor a disk's whose server is stopped.
    pub(crate) fn waits(&self, lane: Lane) -> bool
        requires lane { IsLaneOf self.now lane }
        ensures { (s : (in_world lane.kind).Lane) → slice_get ((in_world lane.kind).lanes self.now) lane.number ≡ Some s
            → result ≡ (in_world lane.kind).kind.waits_on s }
    {
        of_kind!(lane.kind, waits(self, lane.number))
    }

    /// One step of an end of a lane, once there is room for its entry.
    pub(crate) fn step(
        &mut self,
        lane: Lane,
        side: Side,
        journal: &mut Journal,
    ) -> Result<(), NoMemory>
        requires lane { IsLaneOf self.old lane }
        requires agrees { Counted journal.old.entries self.old }
        ensures made { OnOk result (TurnsMade (turn (lane_named lane) (end_of side) ∷ []) self.old journal.old.entries
            journal.new.entries self.new) }
        ensures same { OnErr result ((self.new ≡ self.old) × (journal.new.entries ≡ journal.old.entries)) }
        ensures many { SameNumbers self.old self.new }
        ensures agrees { Counted journal.new.entries self.new }
    {
        of_kind!(lane.kind, step(self, lane.number, side, journal))
    }

    /// The same in a settle, where a step that idles leaves no entry, nor one of a stopped server; and whether it was calm.
    pub(crate) fn quiet_step(
        &mut self,
        lane: Lane,
        side: Side,
        journal: &mut Journal,
    ) -> Result<bool, NoMemory>
        requires lane { IsLaneOf self.old lane }
        requires agrees { Counted journal.old.entries self.old }
        ensures made { IfOk result (λ calm. MakesQuiet lane (end_of side) (moment self.old journal.old.entries) calm
            (moment self.new journal.new.entries)) }
        ensures same { OnErr result ((self.new ≡ self.old) × (journal.new.entries ≡ journal.old.entries)) }
        ensures many { SameNumbers self.old self.new }
        ensures agrees { Counted journal.new.entries self.new }
    {
        of_kind!(lane.kind, quiet_step(self, lane.number, side, journal))
    }

    /// Calls a lane, among those of its kind.
    pub(crate) fn call_on(
        &mut self,
        lane: Lane,
        call: LaneCall<'_>,
        journal: &mut Journal,
    ) -> Result<(), NoMemory>
        requires lane { IsLaneOf self.old lane }
        requires call { IsCallOf lane.kind call }
        requires agrees { Counted journal.old.entries self.old }
        ensures fits { OnOk result (Fits self.old (Calls (lane_named lane) (call_of call.entry)) journal.old.entries
            journal.new.entries self.new) }
        ensures so_far { OnErr result (FitsSoFar self.old (Calls (lane_named lane) (call_of call.entry)) journal.old.entries
            journal.new.entries self.new) }
        ensures agrees { Counted journal.new.entries self.new }
        ensures there { 0 < journal.old.room → IsOk result }
    {
        of_kind!(lane.kind, answer(self, lane.number, call, journal))
    }

    /// Pokes the memory of an end, among the lanes of its kind: a disk's is its client's, and a port has one at each.
    pub(crate) fn poke_on(
        &mut self,
        end: EndName,
        at: u64,
        bytes: &[u8],
        journal: &mut Journal,
    ) -> Result<(), NoMemory>
        requires lane { IsLaneOf self.old end.lane }
        requires memory { HasMemory end.lane.kind end.side }
        requires agrees { Counted journal.old.entries self.old }
        ensures fits { OnOk result (Fits self.old (Calls (lane_named end.lane) (Pokes (end_of end.side) at bytes.now))
            journal.old.entries journal.new.entries self.new) }
        ensures so_far { OnErr result (FitsSoFar self.old
            (Calls (lane_named end.lane) (Pokes (end_of end.side) at bytes.now)) journal.old.entries
            journal.new.entries self.new) }
        ensures agrees { Counted journal.new.entries self.new }
        ensures there { length bytes.now ≤ 16 → 0 < journal.old.room → IsOk result }
    {
        of_kind!(
            end.lane.kind,
            poke(self, end.lane.number, end.side, at, bytes, journal)
        )
    }
}
