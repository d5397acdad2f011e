// What an answer of a lane leaves in the journal.

ghost use Rattle.std.specs.Prelude.{◌≡◌, ◌≤◌, ◌<◌, ◌||◌, [], length, true};
ghost use Rattle.disk_lane.specs.Events.{answered, served_event};
ghost use Rattle.world_parts.specs.lane_models.DiskEvent.{Off, Switches};
ghost use Rattle.domain_script.specs.declared.event.Side.TheVariants.{Client, Server};
ghost use Rattle.domain_script.specs.LaneKinds.{disk_lane};
ghost use Rattle.ldom_report.specs.LaneEvents.{end_of};
ghost use Rattle.recorded_lanes.specs.Called.{disk_end};
ghost use Rattle.recorded_lanes.specs.Fitting.{FitsRoom};
ghost use Rattle.recorded_lanes.specs.OneLane.{LeavesEntry, Records};
ghost use Rattle.recorded_lanes.specs.Resting.{client_blocked, client_rests, server_blocked, server_rests};
ghost use Rattle.disk_lane.specs.vdisk_client.Calls.{client_event};
ghost use Rattle.disk_lane.specs.Answering.{server_event};

use disk_lane::{ClientOut, DiskLane, End, ServerOut};
use domain_script::{EndName, Lane, LaneKind, Side};
use ldom_report::{Bytes, Journal};
use std::alloc::Global;

/// The end of a channel that a side has.
pub fn end_of(side: Side) -> End
    ensures { result ≡ end_of side }
{
    match side {
        Side::Client => End::A,
        Side::Server => End::B,
    }
}

/// An end of the disk with this number.
pub fn disk_end(disk: u32, side: Side) -> EndName
    ensures { result ≡ disk_end disk side }
{
    EndName {
        lane: Lane {
            kind: LaneKind::Disk,
            number: disk,
        },
        side,
    }
}

/// The client of the disk with this number.
pub fn client_of(disk: u32) -> EndName
    ensures { result ≡ record { lane = disk_lane disk; side = Client } }
{
    disk_end(disk, Side::Client)
}

/// Its server.
pub fn server_of(disk: u32) -> EndName
    ensures { result ≡ record { lane = disk_lane disk; side = Server } }
{
    disk_end(disk, Side::Server)
}

/// Puts what the step of this lane's client leaves in the journal, and tells whether the step was calm. In a settle a
/// step that idles leaves nothing.
#[tactic(auto, using(crate::proofs::Leaving::client_leaves_none, crate::proofs::Leaving::client_leaves_entry))]
pub fn leave_client(
    disk: u32,
    out: &ClientOut,
    lane: &DiskLane,
    in_settle: bool,
    room: &mut Bytes,
    alloc: Global,
    journal: &mut Journal,
) -> bool
    requires ready { 0 < journal.old.room }
    requires room { FitsRoom out.now lane.now.client.last room.old.room }
    requires empty { room.old.items ≡ [] }
    ensures leaves { LeavesEntry in_settle disk (client_event out.now lane.now.client.last) journal.old result journal.new }
    ensures empty { room.new.items ≡ [] }
{
    let rests = client_rests(out);
    if in_settle && rests {
        return true;
    }
    let calm = rests || client_blocked(out);
    record_client(disk, out, lane, room, alloc, journal);
    calm
}

/// Whether a client had nothing to do.
fn client_rests(out: &ClientOut) -> bool
    ensures { result ≡ client_rests out.now }
{
    matches!(out, ClientOut::Idle)
}

/// Whether a client found no room for its packet.
fn client_blocked(out: &ClientOut) -> bool
    ensures { result ≡ client_blocked out.now }
{
    matches!(out, ClientOut::Blocked)
}

/// Puts the entry of a client's step last. The bytes that a completion carries are put into the room that was made for
/// them.
#[tactic(auto, using(crate::proofs::Leaving::recorded))]
fn record_client(
    disk: u32,
    out: &ClientOut,
    lane: &DiskLane,
    room: &mut Bytes,
    alloc: Global,
    journal: &mut Journal,
)
    requires ready { 0 < journal.old.room }
    requires room { FitsRoom out.now lane.now.client.last room.old.room }
    requires empty { room.old.items ≡ [] }
    ensures records { Records disk (client_event out.now lane.now.client.last) journal.old journal.new }
    ensures empty { room.new.items ≡ [] }
{
    let end = client_of(disk);
    match out {
        ClientOut::Idle => journal.push_idle(end),
        ClientOut::Blocked => journal.push_blocked(end),
        ClientOut::Joined => journal.push_joined(end, 0),
        ClientOut::Took { packet, opens } => journal.push_took(end, packet, *opens),
        ClientOut::Sent { packet, opens } => journal.push_sent(end, packet, *opens),
        ClientOut::Published { id } => journal.push_published(end, *id),
        ClientOut::Done {
            id,
            operation,
            status,
            len: _,
        } => {
            let bytes = filled(room, lane.bytes(), alloc);
            journal.push_done(disk, *id, *operation, *status, bytes);
        }
        ClientOut::Reset { cause, packet } => journal.push_reset(end, *cause, packet, 0),
    }
}

/// These bytes, by the room that was made for them; without bytes it stays.
fn filled(room: &mut Bytes, bytes: &[u8], alloc: Global) -> Bytes
    requires room { length bytes.now ≤ room.old.room }
    requires empty { room.old.items ≡ [] }
    ensures bytes { result.items ≡ bytes.now }
    ensures empty { room.new.items ≡ [] }
    ensures stays { length bytes.now ≡ 0 → room.new ≡ room.old }
{
    if bytes.is_empty() {
        return Bytes::empty(alloc);
    }
    room.fill(bytes);
    room.take_out(alloc)
}

/// Puts what a server's step leaves in the journal, and tells whether the step was calm. The server runs and answered
/// this, or it is stopped. In a settle a step that idles leaves nothing, nor does that of a stopped server.
pub fn leave_server(
    disk: u32,
    runs: bool,
    out: &ServerOut,
    in_settle: bool,
    journal: &mut Journal,
) -> bool
    requires ready { 0 < journal.old.room }
    ensures leaves { LeavesEntry in_settle disk (served_event (answered runs out.now)) journal.old result journal.new }
{
    if runs {
        leave_answer(disk, out, in_settle, journal)
    } else {
        leave_off(disk, in_settle, journal);
        true
    }
}

/// Puts what the step of a stopped server leaves.
#[tactic(auto, using(crate::proofs::Leaving::off_leaves_none, crate::proofs::Leaving::off_leaves_entry))]
fn leave_off(disk: u32, in_settle: bool, journal: &mut Journal)
    requires ready { 0 < journal.old.room }
    ensures leaves { LeavesEntry in_settle disk (Switches Off) journal.old true journal.new }
{
    if !in_settle {
        journal.push_off(server_of(disk));
    }
}

/// Puts what the answer of a server that runs leaves, and tells whether the step was calm.
#[tactic(auto, using(crate::proofs::Leaving::server_leaves_none, crate::proofs::Leaving::server_leaves_entry))]
fn leave_answer(disk: u32, out: &ServerOut, in_settle: bool, journal: &mut Journal) -> bool
    requires ready { 0 < journal.old.room }
    ensures leaves { LeavesEntry in_settle disk (server_event out.now) journal.old result journal.new }
{
    let rests = server_rests(out);
    if in_settle && rests {
        return true;
    }
    let calm = rests || server_blocked(out);
    record_server(disk, out, journal);
    calm
}

/// Whether a server had nothing to do.
fn server_rests(out: &ServerOut) -> bool
    ensures { result ≡ server_rests out.now }
{
    matches!(out, ServerOut::Idle)
}

/// Whether a server found no room for its packet.
fn server_blocked(out: &ServerOut) -> bool
    ensures { result ≡ server_blocked out.now }
{
    matches!(out, ServerOut::Blocked)
}

/// Puts the entry of a server's answer last.
#[tactic(auto, using(crate::proofs::Leaving::recorded))]
fn record_server(disk: u32, out: &ServerOut, journal: &mut Journal)
    requires ready { 0 < journal.old.room }
    ensures records { Records disk (server_event out.now) journal.old journal.new }
{
    let end = server_of(disk);
    match out {
        ServerOut::Idle => journal.push_idle(end),
        ServerOut::Blocked => journal.push_blocked(end),
        ServerOut::Joined => journal.push_joined(end, 0),
        ServerOut::Took { packet, opens } => journal.push_took(end, packet, *opens),
        ServerOut::Sent { packet, opens } => journal.push_sent(end, packet, *opens),
        ServerOut::Desc { slot, bytes } => journal.push_desc(end, *slot, bytes),
        ServerOut::Moved { unit, fault } => journal.push_moved(end, *unit, *fault),
        ServerOut::Stored {
            operation,
            block,
            count,
            failed,
        } => journal.push_stored(end, *operation, *block, u64::from(*count), *failed),
        ServerOut::Finished { slot, status } => journal.push_finished(end, *slot, *status),
        ServerOut::Reset { cause, packet } => journal.push_reset(end, *cause, packet, 0),
    }
}
