// A settle: rounds, until one in which all lanes are quiet and after which none gets a tick.

ghost use Rattle.std.specs.Prelude.{◌≡◌, ◌&&◌, ◌<◌, ◌≤◌, length, not, replicate, slice_get, slice_set, take, Some, IfOk, IsOk, OnErr, OnOk};
ghost use Rattle.recorded_lanes.specs.world_parts.domain_laws.Going.{most_rounds};
ghost use Rattle.recorded_lanes.specs.world_parts.domain_laws.Lines.{Settles};
ghost use Rattle.recorded_lanes.specs.world_parts.domain_laws.RoundMade.{all_quiet};
ghost use Rattle.lane_kinds.specs.Lanes.{gets_tick};
ghost use Rattle.lane_kinds.specs.LanesMade.{all_true};
ghost use Rattle.lane_kinds.specs.Rounds.{tick_marks};
ghost use Rattle.ldom_world.specs.SettleParts.{LaneNamesAdd, LaneNamesAddFront, LanesAdd, LanesAddFront, LaneTicksAdd};
ghost use Rattle.ldom_world.specs.SettleParts.{LaneTicksAddFront, marks_of, NamesAdd, NamesAddFront, NamesGoOn};
ghost use Rattle.ldom_world.specs.SettleParts.{RoundAdds, RoundAddsFront, RoundBreaks, RoundGoesOn};
ghost use Rattle.ldom_world.specs.SettleParts.{TicksAdd, TicksAddFront, TicksGoOn, PassBreaks, PassGoesOn, pass_moment};
ghost use Rattle.recorded_lanes.specs.Steps.{Counted, moment};
ghost use Rattle.ldom_world.specs.TurnsMade.{SameNumbers};
ghost use Rattle.recorded_lanes.specs.world_parts.WorldKinds.{in_world};
ghost use Rattle.recorded_lanes.specs.world_parts.Lines.{IsLaneOf, number_of_kind};
ghost use Rattle.recorded_lanes.specs.world_parts.Parts.{Fits, FitsSoFar};

use crate::kinds::ports;
use crate::world::World;
use domain_script::{Lane, LaneKind, MOST_DISKS, Side};
use recorded_lanes::{Entry, Journal, LaneCall, Who};
use vio_bytes::NoMemory;
use vio_io::Store;

/// The most lanes of each kind: disks and ports have one bound.
const MOST_LANES: usize = MOST_DISKS;

/// So many rounds a settle may make where nothing is pending.
const IDLE_ROUNDS: u64 = 4096;

/// And so many more for each request and each frame that is pending.
const ROUNDS_EACH: u64 = 64;

/// A mark for each lane, of both kinds.
#[derive(Drop)]
pub struct LaneMarks {
    pub disks: [bool; MOST_LANES],
    pub ports: [bool; MOST_LANES],
}

impl LaneMarks {
    /// The same mark for all.
    fn all(mark: bool) -> Self
        ensures { marks_of result ≡ record { first = replicate 8 mark; second = replicate 8 mark } }
    {
        LaneMarks {
            disks: [mark; MOST_LANES],
            ports: [mark; MOST_LANES],
        }
    }
}

impl<D: Store> World<D> {
    /// Makes rounds until all lanes rest, and ticks those that rest unfinished, once each. Where the most rounds are
    /// made without that, the lanes that are left over are named.
    #[tactic(auto, using(crate::proofs::SettlingAdds::rounds_begin))]
    pub(crate) fn settle(&mut self, journal: &mut Journal) -> Result<(), NoMemory>
        requires agrees { Counted journal.old.entries self.old }
        ensures fits { OnOk result (Fits self.old (Settles) journal.old.entries journal.new.entries self.new) }
        ensures so_far { OnErr result (FitsSoFar self.old (Settles) journal.old.entries journal.new.entries self.new) }
        ensures agrees { Counted journal.new.entries self.new }
    {
        let mut had = LaneMarks::all(false);
        let mut quiet = LaneMarks::all(true);
        for _ in 0..self.most_rounds() {
            if self.settle_pass(&mut had, &mut quiet, journal)? {
                return Ok(());
            }
        }
        self.name_left(&quiet, journal)
    }

    /// One round of a settle, with the ticks after it where all lanes were quiet. Tells whether the settle ended: then
    /// the journal has its answer.
    #[tactic(auto, using(crate::proofs::SettlingAdds::turn_is_loud, crate::proofs::SettlingAdds::turn_ticks))]
    fn settle_pass(
        &mut self,
        had: &mut LaneMarks,
        quiet: &mut LaneMarks,
        journal: &mut Journal,
    ) -> Result<bool, NoMemory>
        requires agrees { Counted journal.old.entries self.old }
        ensures turned { IfOk result (λ ended. PassGoesOn ended
            (pass_moment (moment self.old journal.old.entries) (marks_of had.old) (marks_of quiet.old))
            (pass_moment (moment self.new journal.new.entries) (marks_of had.new) (marks_of quiet.new))) }
        ensures breaks { OnErr result (PassBreaks
            (pass_moment (moment self.old journal.old.entries) (marks_of had.old) (marks_of quiet.old))
            (moment self.new journal.new.entries)) }
        ensures agrees { Counted journal.new.entries self.new }
    {
        if !self.settle_round(quiet, journal)? {
            return Ok(false);
        }
        if self.tick_lanes(had, journal)? {
            return Ok(false);
        }
        journal.reserve(1)?;
        journal.push(Entry::Settled);
        Ok(true)
    }

    /// One round over all lanes, whose steps that idle leave no entry. Tells whether all lanes were quiet in it, and
    /// marks those that were.
    fn settle_round(
        &mut self,
        quiet: &mut LaneMarks,
        journal: &mut Journal,
    ) -> Result<bool, NoMemory>
        requires agrees { Counted journal.old.entries self.old }
        ensures made { OnOk result (RoundAdds (marks_of quiet.new) (moment self.old journal.old.entries)
            (moment self.new journal.new.entries)) }
        ensures calm { IfOk result (λ calm. all_quiet self.old (marks_of quiet.new) ≡ calm) }
        ensures begun { OnErr result (RoundAddsFront (moment self.old journal.old.entries)
            (moment self.new journal.new.entries)) }
        ensures agrees { Counted journal.new.entries self.new }
    {
        let disks = self.round_of(LaneKind::Disk, &mut quiet.disks, journal)?;
        let ports = self.round_of(LaneKind::Port, &mut quiet.ports, journal)?;
        Ok(disks && ports)
    }

    /// The steps of all lanes of a kind in a round.
    #[tactic(auto, using(crate::proofs::KindAdding::round_adds_none, crate::proofs::KindAdding::round_of_all))]
    fn round_of(
        &mut self,
        kind: LaneKind,
        quiet: &mut [bool; MOST_LANES],
        journal: &mut Journal,
    ) -> Result<bool, NoMemory>
        requires agrees { Counted journal.old.entries self.old }
        ensures made { OnOk result (LanesAdd kind (number_of_kind kind self.old) quiet.new
            (moment self.old journal.old.entries) (moment self.new journal.new.entries)) }
        ensures calm { IfOk result (λ calm. all_true (take (number_of_kind kind self.old) quiet.new) ≡ calm) }
        ensures begun { OnErr result (LanesAddFront kind (moment self.old journal.old.entries)
            (moment self.new journal.new.entries)) }
        ensures many { SameNumbers self.old self.new }
        ensures agrees { Counted journal.new.entries self.new }
    {
        let mut all = true;
        for number in 0..self.count_of(kind) {
            let calm = self.round_of_lane(Lane { kind, number }, quiet, journal)?;
            all &= calm;
        }
        Ok(all)
    }

    /// The two steps of one lane in a round. Tells whether it was quiet, and marks it so.
    #[tactic(auto, using(crate::proofs::KindAdding::lane_wants, crate::proofs::KindAdding::second_wants))]
    fn round_of_lane(
        &mut self,
        lane: Lane,
        quiet: &mut [bool; MOST_LANES],
        journal: &mut Journal,
    ) -> Result<bool, NoMemory>
        requires lane { IsLaneOf self.old lane }
        requires place { lane.number < length quiet.old }
        requires agrees { Counted journal.old.entries self.old }
        ensures made { OnOk result (RoundGoesOn lane quiet.old (moment self.old journal.old.entries) quiet.new
            (moment self.new journal.new.entries)) }
        ensures begun { OnErr result (RoundBreaks lane quiet.old (moment self.old journal.old.entries)
            (moment self.new journal.new.entries)) }
        ensures marked { IfOk result (λ calm. quiet.new ≡ slice_set quiet.old lane.number calm) }
        ensures many { SameNumbers self.old self.new }
        ensures agrees { Counted journal.new.entries self.new }
    {
        let client = self.quiet_step(lane, Side::Client, journal)?;
        let server = self.quiet_step(lane, Side::Server, journal)?;
        let calm = client && server;
        quiet[lane.number as usize] = calm;
        Ok(calm)
    }

    /// Ticks each lane that isn't finished, that isn't a disk's whose server is stopped, and that had none in this
    /// settle. Tells whether there was one.
    fn tick_lanes(&mut self, had: &mut LaneMarks, journal: &mut Journal) -> Result<bool, NoMemory>
        requires agrees { Counted journal.old.entries self.old }
        ensures ticked { IfOk result (λ some. TicksAdd (tick_marks (marks_of had.old) some (marks_of had.new))
            (moment self.old journal.old.entries) (moment self.new journal.new.entries)) }
        ensures begun { OnErr result (TicksAddFront (marks_of had.old) (moment self.old journal.old.entries)
            (moment self.new journal.new.entries)) }
        ensures agrees { Counted journal.new.entries self.new }
    {
        let disks = self.ticks_of(LaneKind::Disk, &mut had.disks, journal)?;
        let ports = self.ticks_of(LaneKind::Port, &mut had.ports, journal)?;
        Ok(disks || ports)
    }

    /// The ticks of all lanes of a kind.
    #[tactic(auto, using(crate::proofs::KindAdding::ticks_add_none, crate::proofs::KindAdding::ticks_of_all))]
    fn ticks_of(
        &mut self,
        kind: LaneKind,
        had: &mut [bool; MOST_LANES],
        journal: &mut Journal,
    ) -> Result<bool, NoMemory>
        requires agrees { Counted journal.old.entries self.old }
        ensures ticked { IfOk result (λ some. LaneTicksAdd kind (number_of_kind kind self.old)
            (tick_marks had.old some had.new) (moment self.old journal.old.entries)
            (moment self.new journal.new.entries)) }
        ensures begun { OnErr result (LaneTicksAddFront kind had.old (moment self.old journal.old.entries)
            (moment self.new journal.new.entries)) }
        ensures agrees { Counted journal.new.entries self.new }
    {
        let mut some = false;
        for number in 0..self.count_of(kind) {
            let ticked = self.tick_of(Lane { kind, number }, had, journal)?;
            some |= ticked;
        }
        Ok(some)
    }

    /// Ticks one lane where it is its turn, and tells whether it was.
    #[tactic(auto, using(crate::proofs::SettlingLanes::tick_wants, crate::proofs::NumbersStay::fits_many))]
    fn tick_of(
        &mut self,
        lane: Lane,
        had: &mut [bool; MOST_LANES],
        journal: &mut Journal,
    ) -> Result<bool, NoMemory>
        requires lane { IsLaneOf self.old lane }
        requires place { lane.number < length had.old }
        requires agrees { Counted journal.old.entries self.old }
        ensures ticked { IfOk result (λ ticked. TicksGoOn lane ticked had.old
            (moment self.old journal.old.entries) had.new (moment self.new journal.new.entries)) }
        ensures same { OnErr result ((self.new ≡ self.old) × (journal.new.entries ≡ journal.old.entries)) }
        ensures same_marks { OnErr result (had.new ≡ had.old) }
        ensures many { SameNumbers self.old self.new }
        ensures agrees { Counted journal.new.entries self.new }
    {
        if !self.gets_tick(lane, had[lane.number as usize]) {
            return Ok(false);
        }
        self.call_on(lane, LaneCall::Tick, journal)?;
        had[lane.number as usize] = true;
        Ok(true)
    }

    /// Names each lane that wasn't quiet in the last round, or isn't finished though its server runs.
    fn name_left(&self, quiet: &LaneMarks, journal: &mut Journal) -> Result<(), NoMemory>
        requires agrees { Counted journal.old.entries self.now }
        ensures named { OnOk result (NamesAdd self.now (marks_of quiet.now) journal.old.entries
            journal.new.entries) }
        ensures begun { OnErr result (NamesAddFront self.now (marks_of quiet.now) journal.old.entries
            journal.new.entries) }
        ensures agrees { Counted journal.new.entries self.now }
    {
        self.names_of(LaneKind::Disk, &quiet.disks, journal)?;
        self.names_of(LaneKind::Port, &quiet.ports, journal)
    }

    /// The names of all lanes of a kind that are left over.
    #[tactic(auto, using(crate::proofs::KindAdding::names_add_none, crate::proofs::KindAdding::names_of_all))]
    fn names_of(
        &self,
        kind: LaneKind,
        quiet: &[bool; MOST_LANES],
        journal: &mut Journal,
    ) -> Result<(), NoMemory>
        requires agrees { Counted journal.old.entries self.now }
        ensures named { OnOk result (LaneNamesAdd kind (number_of_kind kind self.now) self.now quiet.now
            journal.old.entries journal.new.entries) }
        ensures begun { OnErr result (LaneNamesAddFront kind self.now (number_of_kind kind self.now) quiet.now
            journal.old.entries journal.new.entries) }
        ensures agrees { Counted journal.new.entries self.now }
    {
        for number in 0..self.count_of(kind) {
            self.name(Lane { kind, number }, quiet[number as usize], journal)?;
        }
        Ok(())
    }

    /// Names one lane where it is left over.
    fn name(&self, lane: Lane, calm: bool, journal: &mut Journal) -> Result<(), NoMemory>
        requires lane { IsLaneOf self.now lane }
        requires agrees { Counted journal.old.entries self.now }
        ensures named { OnOk result (NamesGoOn lane calm self.now journal.old.entries journal.new.entries) }
        ensures same { OnErr result (journal.new.entries ≡ journal.old.entries) }
        ensures agrees { Counted journal.new.entries self.now }
        ensures there { 0 < journal.old.room → IsOk result }
    {
        if self.rests(lane, calm) {
            return Ok(());
        }
        journal.reserve(1)?;
        journal.push(Entry::Unsettled {
            who: Who::Lane(lane),
        });
        Ok(())
    }

    /// Whether a lane gets a tick, where `had` says whether it had one before.
    fn gets_tick(&self, lane: Lane, had: bool) -> bool
        requires lane { IsLaneOf self.now lane }
        ensures { (s : (in_world lane.kind).Lane) → slice_get ((in_world lane.kind).lanes self.now) lane.number ≡ Some s
            → result ≡ gets_tick (in_world lane.kind).kind s had }
    {
        !had && self.waits(lane)
    }

    /// Whether nothing is left to do on a lane, where `calm` says whether it was quiet in the last round.
    fn rests(&self, lane: Lane, calm: bool) -> bool
        requires lane { IsLaneOf self.now lane }
        ensures { (s : (in_world lane.kind).Lane) → slice_get ((in_world lane.kind).lanes self.now) lane.number ≡ Some s
            → result ≡ (calm && not ((in_world lane.kind).kind.waits_on s)) }
    {
        calm && !self.waits(lane)
    }

    /// How many rounds a settle may make: 4,096, and 64 for each pending request and frame.
    fn most_rounds(&self) -> u64
        ensures most { result ≡ most_rounds self.now }
        ensures few { length self.now.first.lanes ≤ 8 }
        ensures few_ports { length self.now.second ≤ 8 }
    {
        // That there are at most eight ports is known by this call alone.
        let _ports = ports::count(self);
        IDLE_ROUNDS + ROUNDS_EACH * (self.disks.pending() + self.ports.pending())
    }
}
