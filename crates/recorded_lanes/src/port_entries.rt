// What an answer of a port's end leaves in the journal.

ghost use Rattle.std.specs.Prelude.{◌≡◌, ◌<◌, ◌≤◌, ◌||◌, is_some, length};
ghost use Rattle.domain_script.specs.LaneKinds.{port_lane};
ghost use Rattle.domain_script.specs.declared.fields.LaneKind.TheVariants as kinds;
ghost use Rattle.ldom_report.specs.LaneEvents.{end_of};
ghost use Rattle.recorded_lanes.specs.Called.{port_end};
ghost use Rattle.ldom_entries.specs.JournalState.{PutsEntry};
ghost use Rattle.recorded_lanes.specs.OnePort.{frame_entry, port_blocked, port_rests, PortLeaves, PortRecords};
ghost use Rattle.switched_ports.specs.net_lane.Stepping.{net_answer};
ghost use Rattle.switched_ports.specs.Events.{is_switched, ResetsOwn, step_event};
ghost use Rattle.switched_ports.specs.HubSteps.{TakesFrame};
ghost use Rattle.kept_requests.specs.Bytes.{filled};

use domain_script::{EndName, Lane, LaneKind, Side};
use ldom_report::Journal;
use switched_ports::{NetOut, Switched};

/// The port with this number, as a lane.
pub fn port_lane(port: u32) -> Lane
    ensures { result ≡ port_lane port }
{
    Lane {
        kind: LaneKind::Port,
        number: port,
    }
}

/// An end of it.
pub fn port_end(port: u32, side: Side) -> EndName
    ensures { result ≡ port_end port side }
{
    EndName {
        lane: port_lane(port),
        side,
    }
}

/// Puts what the step of a port's end leaves in the journal, and tells whether the step was calm. Where the end took a
/// frame, the switch says where that went. In a settle a step that idles leaves nothing.
#[tactic(auto, using(crate::proofs::PortLeaving::port_leaves_none, crate::proofs::PortLeaving::port_leaves_entry))]
pub fn leave_port(
    end: EndName,
    out: &NetOut,
    switched: Option<Switched>,
    frame: &[u8],
    in_settle: bool,
    journal: &mut Journal,
) -> bool
    requires port { end.lane.kind ≡ kinds.Port }
    requires ready { 0 < journal.old.room }
    requires frame { TakesFrame out.now frame.now }
    requires switched { is_some switched ≡ is_switched (end_of end.side) out.now }
    requires own { ResetsOwn out.now }
    ensures { PortLeaves in_settle end.lane.number
        (step_event (end_of end.side) (net_answer out.now frame.now) switched) journal.old result journal.new }
{
    let rests = port_rests(out);
    if in_settle && rests {
        return true;
    }
    let calm = rests || port_blocked(out);
    record_port(end, out, switched, frame, journal);
    calm
}

/// Whether an end had nothing to do.
fn port_rests(out: &NetOut) -> bool
    ensures { result ≡ port_rests out.now }
{
    matches!(out, NetOut::Idle)
}

/// Whether an end found no room for its packet.
fn port_blocked(out: &NetOut) -> bool
    ensures { result ≡ port_blocked out.now }
{
    matches!(out, NetOut::Blocked)
}

/// Puts the entry of the step of a port's end last.
fn record_port(
    end: EndName,
    out: &NetOut,
    switched: Option<Switched>,
    frame: &[u8],
    journal: &mut Journal,
)
    requires port { end.lane.kind ≡ kinds.Port }
    requires ready { 0 < journal.old.room }
    requires frame { TakesFrame out.now frame.now }
    requires switched { is_some switched ≡ is_switched (end_of end.side) out.now }
    requires own { ResetsOwn out.now }
    ensures { PortRecords end.lane.number
        (step_event (end_of end.side) (net_answer out.now frame.now) switched) journal.old journal.new }
{
    match out {
        NetOut::Idle => journal.push_idle(end),
        NetOut::Blocked => journal.push_blocked(end),
        NetOut::Joined { lost } => journal.push_joined(end, *lost),
        NetOut::Took { packet, opens } => journal.push_took(end, packet, *opens),
        NetOut::Sent { packet, opens } => journal.push_sent(end, packet, *opens),
        NetOut::Published { id } => journal.push_published(end, *id),
        NetOut::Frame { .. } => record_frame(end, switched, frame, journal),
        NetOut::Reset {
            cause,
            packet,
            lost,
        } => journal.push_reset(end, *cause, packet, *lost),
    }
}

/// Puts the entry of a frame last: a guest took it, or the switch, with the ports that it is for.
fn record_frame(end: EndName, switched: Option<Switched>, frame: &[u8], journal: &mut Journal)
    requires ready { 0 < journal.old.room }
    requires short { length frame.now ≤ 1514 }
    ensures { PutsEntry journal.old (frame_entry end switched (filled frame.now)) journal.new }
{
    match switched {
        Some(sets) => journal.push_switched(end, sets.out, sets.full, frame),
        None => journal.push_frame(end, frame),
    }
}
