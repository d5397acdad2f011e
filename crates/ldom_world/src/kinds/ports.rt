// What a lane is asked, among the ports of a world.

ghost use Rattle.std.specs.Prelude.{◌≡◌, ◌<◌, ◌≤◌, length, slice_get, Some, IfOk, IsOk, OnErr, OnOk};
ghost use Rattle.recorded_lanes.specs.world_parts.lane_models.PortState.{PortState};
ghost use Rattle.recorded_lanes.specs.world_parts.domain_laws.Domain.{DomainStep};
ghost use Rattle.recorded_lanes.specs.world_parts.domain_laws.Lines as script;
ghost use Rattle.recorded_lanes.specs.world_parts.domain_laws.Lines.{Calls, Pokes};
ghost use Rattle.recorded_lanes.specs.world_parts.switch_laws.Ports.{waits_on};
ghost use Rattle.recorded_lanes.specs.ldom_report.LaneEvents.{end_of};
ghost use Rattle.recorded_lanes.specs.Called.{call_of};
ghost use Rattle.recorded_lanes.specs.OnePort.{IsPortCall};
ghost use Rattle.recorded_lanes.specs.Steps.{Counted, MakesQuietStep, MakesStep, moment};
ghost use Rattle.domain_script.specs.LaneKinds.{port_lane};
ghost use Rattle.ldom_world.specs.TurnsMade.{SameNumbers};
ghost use Rattle.recorded_lanes.specs.world_parts.Parts.{Fits, FitsSoFar};

use crate::world::World;
use domain_script::Side;
use recorded_lanes::{Journal, LaneCall};
use vio_bytes::NoMemory;
use vio_io::Store;

/// How many ports there are.
pub(crate) fn count<D: Store>(world: &World<D>) -> u32
    ensures count { result ≡ length world.now.second }
    ensures few { length world.now.second ≤ 8 }
{
    world.ports.count()
}

/// Whether a port isn't finished.
pub(crate) fn waits<D: Store>(world: &World<D>, port: u32) -> bool
    requires port { port < length world.now.second }
    ensures { (s : PortState) → slice_get world.now.second port ≡ Some s → result ≡ waits_on s }
{
    world.ports.waits(port)
}

/// One step of an end of the port with this number.
pub(crate) fn step<D: Store>(
    world: &mut World<D>,
    port: u32,
    side: Side,
    journal: &mut Journal,
) -> Result<(), NoMemory>
    requires port { port < length world.old.second }
    requires agrees { Counted journal.old.entries world.old }
    ensures made { OnOk result (MakesStep DomainStep (port_lane port) (end_of side)
        (moment world.old journal.old.entries) (moment world.new journal.new.entries)) }
    ensures same { OnErr result ((world.new ≡ world.old) × (journal.new.entries ≡ journal.old.entries)) }
    ensures many { SameNumbers world.old world.new }
    ensures agrees { Counted journal.new.entries world.new }
{
    world.ports.step(port, side, journal)
}

/// The same in a settle.
pub(crate) fn quiet_step<D: Store>(
    world: &mut World<D>,
    port: u32,
    side: Side,
    journal: &mut Journal,
) -> Result<bool, NoMemory>
    requires port { port < length world.old.second }
    requires agrees { Counted journal.old.entries world.old }
    ensures made { IfOk result (λ calm. MakesQuietStep DomainStep (port_lane port) (end_of side)
        (moment world.old journal.old.entries) calm (moment world.new journal.new.entries)) }
    ensures same { OnErr result ((world.new ≡ world.old) × (journal.new.entries ≡ journal.old.entries)) }
    ensures many { SameNumbers world.old world.new }
    ensures agrees { Counted journal.new.entries world.new }
{
    world.ports.quiet_step(port, side, journal)
}

/// Calls the port with this number.
pub(crate) fn answer<D: Store>(
    world: &mut World<D>,
    port: u32,
    call: LaneCall<'_>,
    journal: &mut Journal,
) -> Result<(), NoMemory>
    requires port { port < length world.old.second }
    requires call { IsPortCall call }
    requires agrees { Counted journal.old.entries world.old }
    ensures fits { OnOk result (Fits world.old (Calls (script.PortLane port) (call_of call.entry))
        journal.old.entries journal.new.entries world.new) }
    ensures so_far { OnErr result (FitsSoFar world.old (Calls (script.PortLane port) (call_of call.entry))
        journal.old.entries journal.new.entries world.new) }
    ensures agrees { Counted journal.new.entries world.new }
    ensures there { 0 < journal.old.room → IsOk result }
{
    world.ports.answer_call(port, call, journal)
}

/// Pokes the memory of an end of the port with this number.
pub(crate) fn poke<D: Store>(
    world: &mut World<D>,
    port: u32,
    side: Side,
    at: u64,
    bytes: &[u8],
    journal: &mut Journal,
) -> Result<(), NoMemory>
    requires port { port < length world.old.second }
    requires agrees { Counted journal.old.entries world.old }
    ensures fits { OnOk result (Fits world.old (Calls (script.PortLane port) (Pokes (end_of side) at bytes.now))
        journal.old.entries journal.new.entries world.new) }
    ensures so_far { OnErr result (FitsSoFar world.old (Calls (script.PortLane port) (Pokes (end_of side) at bytes.now))
        journal.old.entries journal.new.entries world.new) }
    ensures agrees { Counted journal.new.entries world.new }
    ensures there { length bytes.now ≤ 16 → 0 < journal.old.room → IsOk result }
{
    world.ports.poke(port, side, at, bytes, journal)
}
