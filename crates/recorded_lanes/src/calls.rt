// What a script does to a lane beside asking and stepping it: resets, restarts, stops, starts, losses, ticks, and packets
// that it forges.

ghost use Rattle.std.specs.Prelude.{◌≡◌, ◌<◌, length, None, IsOk, OnErr, OnOk};
ghost use Rattle.domain_script.specs.LaneKinds.{disk_lane};
ghost use Rattle.ldom_report.specs.LaneEvents.{end_of};
ghost use Rattle.ldom_report.specs.Report.{accepted_count};
ghost use Rattle.ldom_entries.specs.declared.entry.Entry.TheVariants as the_entry;
ghost use Rattle.ldom_entries.specs.declared.entry.Who.TheVariants as the_who;
ghost use Rattle.recorded_lanes.specs.Called.{call_of};
ghost use Rattle.recorded_lanes.specs.OneLane.{LaneAnswers, RecordsAnswer};
ghost use Rattle.world_parts.specs.domain_laws.Lines as script;
ghost use Rattle.world_parts.specs.domain_laws.Lines.{AnswersCall, Calls, Injects, Loses, Resets, Restarts, Starts, Stops, Ticks};
ghost use Rattle.recorded_lanes.specs.Steps.{MakesAnswer, moment};
ghost use Rattle.domain_script.specs.LaneKinds.{disk_lane};
ghost use Rattle.world_parts.specs.world_laws.World.{WorldStep};
ghost use Rattle.world_parts.specs.world_laws.Issued.{issued_on};

use crate::disks::Disks;
use crate::entries::{client_of, disk_end, end_of, server_of};
use disk_lane::{DiskLane, PutFault};
use domain_script::{EndName, Lane, LaneKind, Side};
use ldom_report::{Entry, Journal, Who};
use vio_bytes::NoMemory;
use vio_io::Store;
use vio_tag::Cause;

/// A call of a lane.
#[derive(Clone, Copy)]
pub enum LaneCall<'a> {
    /// Resets an end, but a stopped server's.
    Reset(Side),

    /// Restarts a server, but a stopped one.
    Restart,

    /// Stops a server that runs.
    Stop,

    /// Starts a server that is stopped.
    Start,

    /// Loses the packet that has waited longest for an end.
    Lose(Side),

    /// Nothing comes any more for a client, which is reset where it isn't finished.
    Tick,

    /// Makes a packet wait for an end as if its peer had put it.
    Inject(Side, &'a [u8; 64]),
}

#[tactic(auto, using(crate::proofs::Opened::answered))]
impl<D: Store> Disks<D> {
    /// Calls the lane of the disk with this number, once there is room for the entry.
    pub fn answer_call(
        &mut self,
        disk: u32,
        call: LaneCall<'_>,
        journal: &mut Journal,
    ) -> Result<(), NoMemory>
        requires disk { disk < length self.old.lanes }
        requires agrees { accepted_count journal.old.entries ≡ issued_on self.old.lanes }
        ensures made { OnOk result (MakesAnswer WorldStep (disk_lane disk)
            (Calls (script.DiskLane disk) (call_of call.entry)) (AnswersCall (call_of call.entry))
            (moment self.old journal.old.entries) (moment self.new journal.new.entries)) }
        ensures same { OnErr result ((self.new ≡ self.old) × (journal.new.entries ≡ journal.old.entries)) }
        ensures many { length self.new.lanes ≡ length self.old.lanes }
        ensures agrees { accepted_count journal.new.entries ≡ issued_on self.new.lanes }
        ensures there { 0 < journal.old.room → IsOk result }
    {
        journal.reserve(1)?;
        call_lane(&mut self.lanes[disk as usize], disk, call, journal);
        Ok(())
    }
}

/// Calls a lane, and puts the entry of what came of it.
#[tactic(auto, using(crate::proofs::Answering::recorded))]
fn call_lane(lane: &mut DiskLane, disk: u32, call: LaneCall<'_>, journal: &mut Journal)
    requires room { 0 < journal.old.room }
    ensures answers { RecordsAnswer (Calls (script.DiskLane disk) (call_of call.entry)) disk (AnswersCall (call_of call.entry)) lane.old
        journal.old journal.new lane.new }
    ensures shape { lane.new.shape ≡ lane.old.shape }
{
    match call {
        LaneCall::Reset(side) => journal.push(reset_end(lane, disk, side)),
        LaneCall::Restart => journal.push(restart_server(lane, disk)),
        LaneCall::Stop => journal.push(stop_server(lane, disk)),
        LaneCall::Start => journal.push(start_server(lane, disk)),
        LaneCall::Lose(side) => journal.push(lose_packet(lane, disk, side)),
        LaneCall::Tick => journal.push(tick_client(lane, disk)),
        LaneCall::Inject(side, packet) => inject_packet(lane, disk, side, packet, journal),
    }
}

fn reset_end(lane: &mut DiskLane, disk: u32, side: Side) -> Entry
    ensures answers { LaneAnswers (Calls (script.DiskLane disk) (Resets (end_of side))) disk (AnswersCall (Resets (end_of side)))
        lane.old result lane.new }
    ensures shape { lane.new.shape ≡ lane.old.shape }
{
    let end = disk_end(disk, side);
    if lane.reset(end_of(side)) {
        reset_entry(end, Cause::Asked)
    } else {
        Entry::Calm { who: Who::End(end) }
    }
}

fn restart_server(lane: &mut DiskLane, disk: u32) -> Entry
    ensures answers { LaneAnswers (Calls (script.DiskLane disk) Restarts) disk (AnswersCall Restarts) lane.old result lane.new }
    ensures shape { lane.new.shape ≡ lane.old.shape }
{
    let end = server_of(disk);
    if lane.restart() {
        reset_entry(end, Cause::Restart)
    } else {
        Entry::Calm { who: Who::End(end) }
    }
}

fn stop_server(lane: &mut DiskLane, disk: u32) -> Entry
    ensures answers { LaneAnswers (Calls (script.DiskLane disk) Stops) disk (AnswersCall Stops) lane.old result lane.new }
    ensures shape { lane.new.shape ≡ lane.old.shape }
{
    if lane.stop() {
        Entry::Stopped { disk }
    } else {
        calm_lane(disk)
    }
}

fn start_server(lane: &mut DiskLane, disk: u32) -> Entry
    ensures answers { LaneAnswers (Calls (script.DiskLane disk) Starts) disk (AnswersCall Starts) lane.old result lane.new }
    ensures shape { lane.new.shape ≡ lane.old.shape }
{
    if lane.start() {
        Entry::Started { disk }
    } else {
        calm_lane(disk)
    }
}

fn lose_packet(lane: &mut DiskLane, disk: u32, side: Side) -> Entry
    ensures answers { LaneAnswers (Calls (script.DiskLane disk) (Loses (end_of side))) disk (AnswersCall (Loses (end_of side)))
        lane.old result lane.new }
    ensures shape { lane.new.shape ≡ lane.old.shape }
{
    let end = disk_end(disk, side);
    match lane.lose(end_of(side)) {
        Some(packet) => Entry::Lost { end, packet },
        None => Entry::Calm { who: Who::End(end) },
    }
}

/// Ticks a client, and gives the entry: it is reset where it isn't finished.
fn tick_client(lane: &mut DiskLane, disk: u32) -> Entry
    ensures answers { LaneAnswers (Calls (script.DiskLane disk) Ticks) disk (AnswersCall Ticks) lane.old result lane.new }
    ensures shape { lane.new.shape ≡ lane.old.shape }
{
    if lane.tick() {
        reset_entry(client_of(disk), Cause::Tick)
    } else {
        calm_lane(disk)
    }
}

/// Forges a packet, and puts the entry: there is no room for it, or the end isn't up, or it waits.
fn inject_packet(
    lane: &mut DiskLane,
    disk: u32,
    side: Side,
    packet: &[u8; 64],
    journal: &mut Journal,
)
    requires room { 0 < journal.old.room }
    ensures answers { RecordsAnswer (Calls (script.DiskLane disk) (Injects (end_of side) packet.now)) disk
        (AnswersCall (Injects (end_of side) packet.now)) lane.old journal.old journal.new lane.new }
    ensures shape { lane.new.shape ≡ lane.old.shape }
{
    let end = disk_end(disk, side);
    match lane.inject(end_of(side), packet) {
        Ok(()) => journal.push_injected(end, packet),
        Err(PutFault::NotUp) => journal.push_calm(Who::End(end)),
        Err(PutFault::Full) => journal.push_full(Who::End(end)),
    }
}

/// A reset that no step gave.
fn reset_entry(end: EndName, cause: Cause) -> Entry
    ensures { result ≡ the_entry.Reset end cause None 0 }
{
    Entry::Reset {
        end,
        cause,
        packet: None,
        lost: 0,
    }
}

/// Nothing changed on the disk with this number.
fn calm_lane(disk: u32) -> Entry
    ensures { result ≡ the_entry.Calm (the_who.Lane (disk_lane disk)) }
{
    Entry::Calm {
        who: Who::Lane(Lane {
            kind: LaneKind::Disk,
            number: disk,
        }),
    }
}
