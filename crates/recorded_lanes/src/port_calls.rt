// What a script does to a port beside stepping it: frames and groups for its guest, resets, losses, ticks, packets and
// bytes that it forges.

ghost use Rattle.std.specs.Prelude.{◌≡◌, ◌<◌, ◌≤◌, ◌+◌, ◌-◌, ◌^◌, length, IsOk, OnErr, OnOk};
ghost use Rattle.world_parts.specs.domain_laws.Domain.{PortsStep};
ghost use Rattle.world_parts.specs.domain_laws.Lines as script;
ghost use Rattle.world_parts.specs.domain_laws.Lines.{AnswersFrame, AnswersGroup, AnswersPortCall, Calls, Joins, Pokes, Sends};
ghost use Rattle.ldom_report.specs.LaneEvents.{end_of};
ghost use Rattle.ldom_report.specs.Report.{accepted_count};
ghost use Rattle.recorded_lanes.specs.Called.{call_of, unsent_entry};
ghost use Rattle.recorded_lanes.specs.OnePort.{IsPortCall, PortAnswers, RecordsPortAnswer};
ghost use Rattle.recorded_lanes.specs.Steps.{MakesAnswer, moment};
ghost use Rattle.domain_script.specs.LaneKinds.{port_lane};
ghost use Rattle.kept_requests.specs.Bytes.{filled};
ghost use Rattle.switched_ports.specs.Given.{GivenBelow};

use crate::calls::LaneCall;
use crate::entries::end_of;
use crate::port_entries::{port_end, port_lane};
use crate::ports::PortLanes;
use domain_script::Side;
use ldom_report::{Bytes, Entry, Journal, Who, Why};
use switched_ports::{Ports, PutFault, SendFault};
use vio_bytes::NoMemory;
use vio_tag::Cause;

#[tactic(auto, using(crate::proofs::PortLifting::port_answered))]
impl PortLanes {
    /// The guest of a port is given a frame, once there is room for the entry with a copy of the bytes: it is held with
    /// its id, or refused, or finds no room.
    pub fn send(&mut self, port: u32, frame: &[u8], journal: &mut Journal) -> Result<(), NoMemory>
        requires port { port < length self.old }
        requires agrees { GivenBelow (length journal.old.entries + 1) self.old }
        ensures made { OnOk result (MakesAnswer PortsStep (port_lane port) (Sends port frame.now)
            (AnswersFrame frame.now) (moment self.old journal.old.entries) (moment self.new journal.new.entries)) }
        ensures same { OnErr result ((self.new ≡ self.old) × (journal.new.entries ≡ journal.old.entries)) }
        ensures many { length self.new ≡ length self.old }
        ensures agrees { GivenBelow (length journal.new.entries + 1) self.new }
        ensures accepted { accepted_count journal.new.entries ≡ accepted_count journal.old.entries }
        ensures there { 0 < journal.old.room → IsOk result }
    {
        journal.reserve(1)?;
        // That there are fewer than 2^63 entries is known by this call alone. So the ids never run out.
        let _len = journal.len();
        give_frame(&mut self.lanes, port, frame, journal);
        Ok(())
    }

    /// The guest of a port joins a group, once there is room for the entry: it is a member, was one, or is one of
    /// seven others.
    pub fn join(
        &mut self,
        port: u32,
        address: [u8; 6],
        journal: &mut Journal,
    ) -> Result<(), NoMemory>
        requires port { port < length self.old }
        requires agrees { GivenBelow (length journal.old.entries + 1) self.old }
        ensures made { OnOk result (MakesAnswer PortsStep (port_lane port) (Joins port address) (AnswersGroup address)
            (moment self.old journal.old.entries) (moment self.new journal.new.entries)) }
        ensures same { OnErr result ((self.new ≡ self.old) × (journal.new.entries ≡ journal.old.entries)) }
        ensures many { length self.new ≡ length self.old }
        ensures agrees { GivenBelow (length journal.new.entries + 1) self.new }
        ensures accepted { accepted_count journal.new.entries ≡ accepted_count journal.old.entries }
        ensures there { 0 < journal.old.room → IsOk result }
    {
        journal.reserve(1)?;
        let entry = join_group(&mut self.lanes, port, address);
        journal.push(entry);
        Ok(())
    }

    /// Calls the port with this number, once there is room for the entry.
    pub fn answer_call(
        &mut self,
        port: u32,
        call: LaneCall<'_>,
        journal: &mut Journal,
    ) -> Result<(), NoMemory>
        requires port { port < length self.old }
        requires call { IsPortCall call }
        requires agrees { GivenBelow (length journal.old.entries + 1) self.old }
        ensures made { OnOk result (MakesAnswer PortsStep (port_lane port)
            (Calls (script.PortLane port) (call_of call.entry)) (AnswersPortCall (call_of call.entry))
            (moment self.old journal.old.entries) (moment self.new journal.new.entries)) }
        ensures same { OnErr result ((self.new ≡ self.old) × (journal.new.entries ≡ journal.old.entries)) }
        ensures many { length self.new ≡ length self.old }
        ensures agrees { GivenBelow (length journal.new.entries + 1) self.new }
        ensures accepted { accepted_count journal.new.entries ≡ accepted_count journal.old.entries }
        ensures there { 0 < journal.old.room → IsOk result }
    {
        journal.reserve(1)?;
        call_port(&mut self.lanes, port, call, journal);
        Ok(())
    }

    /// Pokes the memory of an end of a port, once there is room for the entry and a copy of the bytes, which takes memory
    /// where they are more than 16.
    pub fn poke(
        &mut self,
        port: u32,
        side: Side,
        at: u64,
        bytes: &[u8],
        journal: &mut Journal,
    ) -> Result<(), NoMemory>
        requires port { port < length self.old }
        requires agrees { GivenBelow (length journal.old.entries + 1) self.old }
        ensures made { OnOk result (MakesAnswer PortsStep (port_lane port)
            (Calls (script.PortLane port) (Pokes (end_of side) at bytes.now))
            (AnswersPortCall (Pokes (end_of side) at bytes.now)) (moment self.old journal.old.entries)
            (moment self.new journal.new.entries)) }
        ensures same { OnErr result ((self.new ≡ self.old) × (journal.new.entries ≡ journal.old.entries)) }
        ensures many { length self.new ≡ length self.old }
        ensures agrees { GivenBelow (length journal.new.entries + 1) self.new }
        ensures accepted { accepted_count journal.new.entries ≡ accepted_count journal.old.entries }
        ensures there { length bytes.now ≤ 16 → 0 < journal.old.room → IsOk result }
    {
        journal.reserve(1)?;
        let kept = Bytes::from_slice(self.alloc, bytes)?;
        let entry = poke_port(&mut self.lanes, port, side, at, bytes, kept);
        journal.push(entry);
        Ok(())
    }
}

/// Gives a guest a frame, and puts the entry, with the bytes where it is held.
fn give_frame(lanes: &mut Ports, port: u32, frame: &[u8], journal: &mut Journal)
    requires port { port < length lanes.old }
    requires few { GivenBelow (2 ^ 64 - 1) lanes.old }
    requires ready { 0 < journal.old.room }
    ensures { RecordsPortAnswer (Sends port frame.now) port (AnswersFrame frame.now) lanes.old journal.old journal.new
        lanes.new }
{
    match lanes.send(port, frame) {
        Ok(id) => journal.push_queued(port, id, frame),
        Err(fault) => journal.push(unsent(port, fault)),
    }
}

/// The entry of a frame that wasn't held.
fn unsent(port: u32, fault: SendFault) -> Entry
    ensures { result ≡ unsent_entry port fault }
{
    let who = Who::Lane(port_lane(port));
    match fault {
        SendFault::Length => Entry::Refused {
            who,
            why: Why::Length,
        },
        SendFault::Full => Entry::Full { who },
    }
}

/// Lets a guest join a group, and gives the entry.
fn join_group(lanes: &mut Ports, port: u32, address: [u8; 6]) -> Entry
    requires port { port < length lanes.old }
    ensures { PortAnswers (Joins port address) port (AnswersGroup address) lanes.old result lanes.new }
{
    let who = Who::Lane(port_lane(port));
    match lanes.join_group(port, address) {
        Ok(true) => Entry::Member { port, address },
        Ok(false) => Entry::Calm { who },
        Err(_) => Entry::Refused {
            who,
            why: Why::Groups,
        },
    }
}

/// Calls a port, and puts the entry of what came of it.
#[tactic(auto, using(crate::proofs::PortAnswering::port_recorded))]
fn call_port(lanes: &mut Ports, port: u32, call: LaneCall<'_>, journal: &mut Journal)
    requires port { port < length lanes.old }
    requires call { IsPortCall call }
    requires ready { 0 < journal.old.room }
    ensures { RecordsPortAnswer (Calls (script.PortLane port) (call_of call.entry)) port (AnswersPortCall (call_of call.entry))
        lanes.old journal.old journal.new lanes.new }
{
    match call {
        LaneCall::Reset(side) => journal.push(reset_end(lanes, port, side)),
        LaneCall::Lose(side) => journal.push(lose_packet(lanes, port, side)),
        LaneCall::Tick => journal.push(tick_guest(lanes, port)),
        LaneCall::Inject(side, packet) => inject_packet(lanes, port, side, packet, journal),
        LaneCall::Restart | LaneCall::Stop | LaneCall::Start => unreachable!(),
    }
}

/// Resets an end, and gives the entry.
fn reset_end(lanes: &mut Ports, port: u32, side: Side) -> Entry
    requires port { port < length lanes.old }
    ensures { PortAnswers (Calls (script.PortLane port) (script.Resets (end_of side))) port
        (AnswersPortCall (script.Resets (end_of side))) lanes.old result lanes.new }
{
    let lost = lanes.reset(port, end_of(side));
    Entry::Reset {
        end: port_end(port, side),
        cause: Cause::Asked,
        packet: None,
        lost,
    }
}

/// Loses the packet that has waited longest for an end, and gives the entry.
fn lose_packet(lanes: &mut Ports, port: u32, side: Side) -> Entry
    requires port { port < length lanes.old }
    ensures { PortAnswers (Calls (script.PortLane port) (script.Loses (end_of side))) port
        (AnswersPortCall (script.Loses (end_of side))) lanes.old result lanes.new }
{
    let end = port_end(port, side);
    match lanes.lose(port, end_of(side)) {
        Some(packet) => Entry::Lost { end, packet },
        None => Entry::Calm { who: Who::End(end) },
    }
}

/// Ticks a guest, and gives the entry: it is reset where the port isn't finished.
fn tick_guest(lanes: &mut Ports, port: u32) -> Entry
    requires port { port < length lanes.old }
    ensures { PortAnswers (Calls (script.PortLane port) script.Ticks) port (AnswersPortCall script.Ticks) lanes.old
        result lanes.new }
{
    match lanes.tick(port) {
        Some(lost) => Entry::Reset {
            end: port_end(port, Side::Client),
            cause: Cause::Tick,
            packet: None,
            lost,
        },
        None => Entry::Calm {
            who: Who::Lane(port_lane(port)),
        },
    }
}

/// Forges a packet, and puts the entry: there is no room for it, or the end isn't up, or it waits.
fn inject_packet(lanes: &mut Ports, port: u32, side: Side, packet: &[u8; 64], journal: &mut Journal)
    requires port { port < length lanes.old }
    requires ready { 0 < journal.old.room }
    ensures { RecordsPortAnswer (Calls (script.PortLane port) (script.Injects (end_of side) packet.now)) port
        (AnswersPortCall (script.Injects (end_of side) packet.now)) lanes.old journal.old journal.new lanes.new }
{
    let end = port_end(port, side);
    match lanes.inject(port, end_of(side), packet) {
        Ok(()) => journal.push_injected(end, packet),
        Err(PutFault::NotUp) => journal.push_calm(Who::End(end)),
        Err(PutFault::Full) => journal.push_full(Who::End(end)),
    }
}

/// Pokes the memory of an end, and gives the entry, with this copy of the bytes where they lie within it.
fn poke_port(lanes: &mut Ports, port: u32, side: Side, at: u64, bytes: &[u8], kept: Bytes) -> Entry
    requires port { port < length lanes.old }
    requires kept { kept ≡ filled bytes.now }
    ensures { PortAnswers (Calls (script.PortLane port) (Pokes (end_of side) at bytes.now)) port
        (AnswersPortCall (Pokes (end_of side) at bytes.now)) lanes.old result lanes.new }
{
    let end = port_end(port, side);
    if lanes.poke(port, end_of(side), at, bytes) {
        Entry::Poked {
            end,
            at,
            bytes: kept,
        }
    } else {
        Entry::Refused {
            who: Who::End(end),
            why: Why::Range,
        }
    }
}
