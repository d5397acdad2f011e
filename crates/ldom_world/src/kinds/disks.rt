// What a lane is asked, among the disks of a world.

ghost use Rattle.std.specs.Prelude.{◌≡◌, ◌<◌, ◌≤◌, length, slice_get, Some, IfOk, IsOk, OnErr, OnOk};
ghost use Rattle.recorded_lanes.specs.world_parts.lane_models.LaneState.{LaneState};
ghost use Rattle.recorded_lanes.specs.world_parts.domain_laws.Domain.{DomainStep};
ghost use Rattle.recorded_lanes.specs.world_parts.domain_laws.Lines as script;
ghost use Rattle.recorded_lanes.specs.world_parts.domain_laws.Lines.{Calls, Pokes};
ghost use Rattle.recorded_lanes.specs.world_parts.world_laws.DiskKind.{waits_on};
ghost use Rattle.domain_script.specs.declared.fields.LaneKind.TheVariants as kinds;
ghost use Rattle.ldc_queue.specs.declared.end.End.TheVariants.{A};
ghost use Rattle.recorded_lanes.specs.ldom_report.LaneEvents.{end_of};
ghost use Rattle.recorded_lanes.specs.Called.{call_of};
ghost use Rattle.recorded_lanes.specs.Steps.{Counted, MakesQuietStep, MakesStep, moment};
ghost use Rattle.domain_script.specs.LaneKinds.{disk_lane};
ghost use Rattle.ldom_world.specs.TurnsMade.{SameNumbers};
ghost use Rattle.recorded_lanes.specs.world_parts.Lines.{HasMemory};
ghost use Rattle.recorded_lanes.specs.world_parts.Parts.{Fits, FitsSoFar};

use crate::world::World;
use domain_script::Side;
use recorded_lanes::{Journal, LaneCall};
use vio_bytes::NoMemory;
use vio_io::Store;

/// How many disks there are.
pub(crate) fn count<D: Store>(world: &World<D>) -> u32
    ensures count { result ≡ length world.now.first.lanes }
    ensures few { length world.now.first.lanes ≤ 8 }
{
    world.disks.count()
}

/// Whether a disk's lane isn't finished though its server runs.
pub(crate) fn waits<D: Store>(world: &World<D>, disk: u32) -> bool
    requires disk { disk < length world.now.first.lanes }
    ensures { (s : LaneState) → slice_get world.now.first.lanes disk ≡ Some s → result ≡ waits_on s }
{
    world.disks.waits(disk)
}

/// One step of an end of the disk with this number.
pub(crate) fn step<D: Store>(
    world: &mut World<D>,
    disk: u32,
    side: Side,
    journal: &mut Journal,
) -> Result<(), NoMemory>
    requires disk { disk < length world.old.first.lanes }
    requires agrees { Counted journal.old.entries world.old }
    ensures made { OnOk result (MakesStep DomainStep (disk_lane disk) (end_of side)
        (moment world.old journal.old.entries) (moment world.new journal.new.entries)) }
    ensures same { OnErr result ((world.new ≡ world.old) × (journal.new.entries ≡ journal.old.entries)) }
    ensures many { SameNumbers world.old world.new }
    ensures agrees { Counted journal.new.entries world.new }
{
    world.disks.step(disk, side, journal)
}

/// The same in a settle.
pub(crate) fn quiet_step<D: Store>(
    world: &mut World<D>,
    disk: u32,
    side: Side,
    journal: &mut Journal,
) -> Result<bool, NoMemory>
    requires disk { disk < length world.old.first.lanes }
    requires agrees { Counted journal.old.entries world.old }
    ensures made { IfOk result (λ calm. MakesQuietStep DomainStep (disk_lane disk) (end_of side)
        (moment world.old journal.old.entries) calm (moment world.new journal.new.entries)) }
    ensures same { OnErr result ((world.new ≡ world.old) × (journal.new.entries ≡ journal.old.entries)) }
    ensures many { SameNumbers world.old world.new }
    ensures agrees { Counted journal.new.entries world.new }
{
    world.disks.quiet_step(disk, side, journal)
}

/// Calls the lane of the disk with this number.
pub(crate) fn answer<D: Store>(
    world: &mut World<D>,
    disk: u32,
    call: LaneCall<'_>,
    journal: &mut Journal,
) -> Result<(), NoMemory>
    requires disk { disk < length world.old.first.lanes }
    requires agrees { Counted journal.old.entries world.old }
    ensures fits { OnOk result (Fits world.old (Calls (script.DiskLane disk) (call_of call.entry)) journal.old.entries
        journal.new.entries world.new) }
    ensures so_far { OnErr result (FitsSoFar world.old (Calls (script.DiskLane disk) (call_of call.entry))
        journal.old.entries journal.new.entries world.new) }
    ensures agrees { Counted journal.new.entries world.new }
    ensures there { 0 < journal.old.room → IsOk result }
{
    world.disks.answer_call(disk, call, journal)
}

/// Pokes the memory of an end of the disk with this number, which its client alone has.
pub(crate) fn poke<D: Store>(
    world: &mut World<D>,
    disk: u32,
    side: Side,
    at: u64,
    bytes: &[u8],
    journal: &mut Journal,
) -> Result<(), NoMemory>
    requires disk { disk < length world.old.first.lanes }
    requires memory { HasMemory kinds.Disk side }
    requires agrees { Counted journal.old.entries world.old }
    ensures fits { OnOk result (Fits world.old (Calls (script.DiskLane disk) (Pokes (end_of side) at bytes.now))
        journal.old.entries journal.new.entries world.new) }
    ensures so_far { OnErr result (FitsSoFar world.old (Calls (script.DiskLane disk) (Pokes (end_of side) at bytes.now))
        journal.old.entries journal.new.entries world.new) }
    ensures agrees { Counted journal.new.entries world.new }
    ensures there { length bytes.now ≤ 16 → 0 < journal.old.room → IsOk result }
{
    match side {
        Side::Client => poke_client(world, disk, at, bytes, journal),
        Side::Server => unreachable!(),
    }
}

/// Pokes the memory of the client of the disk with this number.
fn poke_client<D: Store>(
    world: &mut World<D>,
    disk: u32,
    at: u64,
    bytes: &[u8],
    journal: &mut Journal,
) -> Result<(), NoMemory>
    requires disk { disk < length world.old.first.lanes }
    requires agrees { Counted journal.old.entries world.old }
    ensures fits { OnOk result (Fits world.old (Calls (script.DiskLane disk) (Pokes A at bytes.now))
        journal.old.entries journal.new.entries world.new) }
    ensures so_far { OnErr result (FitsSoFar world.old (Calls (script.DiskLane disk) (Pokes A at bytes.now))
        journal.old.entries journal.new.entries world.new) }
    ensures agrees { Counted journal.new.entries world.new }
    ensures there { length bytes.now ≤ 16 → 0 < journal.old.room → IsOk result }
{
    world.disks.poke(disk, at, bytes, journal)
}
