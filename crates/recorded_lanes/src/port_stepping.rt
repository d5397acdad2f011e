// Steps of the ends of ports.

ghost use Rattle.std.specs.Prelude.{◌≡◌, ◌<◌, ◌+◌, ◌-◌, ◌^◌, length, IfOk, IsOk, OnErr, OnOk};
ghost use Rattle.world_parts.specs.domain_laws.Domain.{PortsStep};
ghost use Rattle.domain_script.specs.LaneKinds.{port_lane};
ghost use Rattle.ldom_report.specs.LaneEvents.{end_of};
ghost use Rattle.ldom_report.specs.Report.{accepted_count};
ghost use Rattle.recorded_lanes.specs.OnePort.{PortEndSteps};
ghost use Rattle.recorded_lanes.specs.Steps.{MakesQuietStep, MakesStep, moment};
ghost use Rattle.switched_ports.specs.Given.{GivenBelow};
ghost use Rattle.switched_ports.specs.States.{last_at};

use crate::entries::end_of;
use crate::port_entries::{leave_port, port_end};
use crate::ports::PortLanes;
use domain_script::Side;
use ldom_report::Journal;
use switched_ports::{NetOut, Ports};
use vio_bytes::NoMemory;

impl PortLanes {
    /// One step of an end of the port with this number, once there is room for its entry.
    pub fn step(&mut self, port: u32, side: Side, journal: &mut Journal) -> Result<(), NoMemory>
        requires port { port < length self.old }
        requires agrees { GivenBelow (length journal.old.entries + 1) self.old }
        ensures made { OnOk result (MakesStep PortsStep (port_lane port) (end_of side)
            (moment self.old journal.old.entries) (moment self.new journal.new.entries)) }
        ensures same { OnErr result ((self.new ≡ self.old) × (journal.new.entries ≡ journal.old.entries)) }
        ensures many { length self.new ≡ length self.old }
        ensures agrees { GivenBelow (length journal.new.entries + 1) self.new }
        ensures accepted { accepted_count journal.new.entries ≡ accepted_count journal.old.entries }
        ensures there { 0 < journal.old.room → IsOk result }
    {
        journal.reserve(1)?;
        // That there are fewer than 2^63 entries is known by this call alone. So the ids never run out.
        let _len = journal.len();
        self.step_end(port, side, false, journal);
        Ok(())
    }

    /// The same in a settle, where a step that idles leaves no entry; and whether it was calm.
    pub fn quiet_step(
        &mut self,
        port: u32,
        side: Side,
        journal: &mut Journal,
    ) -> Result<bool, NoMemory>
        requires port { port < length self.old }
        requires agrees { GivenBelow (length journal.old.entries + 1) self.old }
        ensures made { IfOk result (λ calm. MakesQuietStep PortsStep (port_lane port) (end_of side)
            (moment self.old journal.old.entries) calm (moment self.new journal.new.entries)) }
        ensures same { OnErr result ((self.new ≡ self.old) × (journal.new.entries ≡ journal.old.entries)) }
        ensures many { length self.new ≡ length self.old }
        ensures agrees { GivenBelow (length journal.new.entries + 1) self.new }
        ensures accepted { accepted_count journal.new.entries ≡ accepted_count journal.old.entries }
        ensures there { 0 < journal.old.room → IsOk result }
    {
        journal.reserve(1)?;
        // That there are fewer than 2^63 entries is known by this call alone. So the ids never run out.
        let _len = journal.len();
        Ok(self.step_end(port, side, true, journal))
    }

    /// One step of an end, in a settle or not, into room for its entry. Tells whether it was calm.
    fn step_end(&mut self, port: u32, side: Side, in_settle: bool, journal: &mut Journal) -> bool
        requires port { port < length self.old }
        requires few { GivenBelow (2 ^ 64 - 1) self.old }
        requires ready { 0 < journal.old.room }
        ensures { PortEndSteps in_settle port (end_of side) self.old journal.old result journal.new self.new }
    {
        step_port(&mut self.lanes, port, side, in_settle, journal)
    }
}

/// One step of an end of a port. Tells whether it was calm.
fn step_port(
    lanes: &mut Ports,
    port: u32,
    side: Side,
    in_settle: bool,
    journal: &mut Journal,
) -> bool
    requires port { port < length lanes.old }
    requires few { GivenBelow (2 ^ 64 - 1) lanes.old }
    requires ready { 0 < journal.old.room }
    ensures { PortEndSteps in_settle port (end_of side) lanes.old journal.old result journal.new lanes.new }
{
    let mut out = NetOut::Idle;
    let switched = lanes.step_into(port, end_of(side), &mut out);
    let end = port_end(port, side);
    let frame = last_frame(lanes, port, side);
    leave_port(end, &out, switched, frame, in_settle, journal)
}

/// The frame that an end of a port took last.
fn last_frame(lanes: &Ports, port: u32, side: Side) -> &[u8]
    requires { port < length lanes.now }
    ensures { result.now ≡ last_at (end_of side) port lanes.now }
{
    let lane = lanes.lane(port);
    match side {
        Side::Client => lane.guest().frame(),
        Side::Server => lane.hub().frame(),
    }
}
