// The lines of what happens to ports, before the bytes of a frame and the line feed.
ghost use Rattle.std.specs.Prelude.{◌≡◌, ◌+◌, ◌≤◌, ◌++◌, length, codes};
ghost use Rattle.hex.specs.Hex.{encode_lower};
ghost use Rattle.domain_script.specs.LaneKinds.{port_lane};
ghost use Rattle.ldom_report.specs.EntryText.{end_text, first_line, full_text, id_text, lane_name, sets_text, switched_text, unknown_text};
ghost use Rattle.ldom_report.specs.HasWords.{IsEnd, IsLane};

use crate::Mode;
use domain_script::{EndName, Lane, LaneKind};
use gathered_text::{TEXT_ROOM, Text};
use line_words::{LineNames, push_end, push_end_number, push_id, push_lane};

/// The lane of a port.
fn port_lane(number: u32) -> Lane
    ensures { result ≡ port_lane number }
{
    Lane {
        kind: LaneKind::Port,
        number,
    }
}

/// A frame that was handed to a guest.
pub fn push_queued(text: &mut Text, port: u32, id: u64, names: &LineNames<'_>)
    requires declared { IsLane names.now (port_lane port) }
    requires room { length text.old + 100 ≤ TEXT_ROOM }
    ensures text { text.new ≡ text.old ++ (id_text (codes "queued ") names.now (port_lane port) id ++ codes " ") }
    ensures len { length text.new ≤ length text.old + 100 }
{
    push_id(text, b"queued ", port_lane(port), id, names);
    text.push(b" ");
}

/// A group that a port is a member of.
pub fn push_member(text: &mut Text, port: u32, address: &[u8; 6], names: &LineNames<'_>)
    requires declared { IsLane names.now (port_lane port) }
    requires room { length text.old + 100 ≤ TEXT_ROOM }
    ensures text { text.new ≡ text.old ++ (codes "member " ++ lane_name names.now (port_lane port) ++ codes " "
        ++ encode_lower address.now) }
    ensures len { length text.new ≤ length text.old + 100 }
{
    text.push(b"member ");
    push_lane(text, port_lane(port), names);
    text.push(b" ");
    text.push_hex(address);
}

/// An end that took a frame.
pub fn push_frame(text: &mut Text, end: EndName, names: &LineNames<'_>)
    requires declared { IsEnd names.now end }
    requires room { length text.old + 100 ≤ TEXT_ROOM }
    ensures text { text.new ≡ text.old ++ (end_text (codes "frame ") names.now end ++ codes " ") }
    ensures len { length text.new ≤ length text.old + 100 }
{
    push_end(text, b"frame ", end, names);
    text.push(b" ");
}

/// A frame whose address is that of no port.
fn push_unknown(text: &mut Text, end: EndName, names: &LineNames<'_>)
    requires declared { IsEnd names.now end }
    requires room { length text.old + 100 ≤ TEXT_ROOM }
    ensures text { text.new ≡ text.old ++ unknown_text names.now end }
    ensures len { length text.new ≤ length text.old + 100 }
{
    push_end(text, b"dropped ", end, names);
    text.push(b" unknown");
}

/// The ports that have a frame, and those whose queues were full.
fn push_sets(text: &mut Text, end: EndName, out: u64, full: u64, names: &LineNames<'_>)
    requires declared { IsEnd names.now end }
    requires room { length text.old + 100 ≤ TEXT_ROOM }
    ensures text { text.new ≡ text.old ++ sets_text names.now end out full }
    ensures len { length text.new ≤ length text.old + 100 }
{
    push_end_number(text, b"switched ", end, out, names);
    text.push(b" ");
    text.push_number(full);
}

/// For how many ports a frame was dropped, since their queues were full.
fn push_full(text: &mut Text, end: EndName, full: u64, names: &LineNames<'_>)
    requires declared { IsEnd names.now end }
    requires room { length text.old + 100 ≤ TEXT_ROOM }
    ensures text { text.new ≡ text.old ++ full_text names.now end full }
    ensures len { length text.new ≤ length text.old + 100 }
{
    push_end(text, b"dropped ", end, names);
    text.push(b" full ");
    text.push_number(u64::from(full.count_ones()));
}

/// The first line of a frame that was dropped for some ports, which a trace alone shows.
fn push_first_line(
    text: &mut Text,
    mode: Mode,
    end: EndName,
    out: u64,
    full: u64,
    names: &LineNames<'_>,
)
    requires declared { IsEnd names.now end }
    requires room { length text.old + 101 ≤ TEXT_ROOM }
    ensures text { text.new ≡ text.old ++ first_line mode (sets_text names.now end out full) }
    ensures len { length text.new ≤ length text.old + 101 }
{
    match mode {
        Mode::Trace => {
            push_sets(text, end, out, full, names);
            text.push(b"\n");
        }
        _ => {}
    }
}

/// A frame that was dropped for some ports.
fn push_dropped(
    text: &mut Text,
    mode: Mode,
    end: EndName,
    out: u64,
    full: u64,
    names: &LineNames<'_>,
)
    requires declared { IsEnd names.now end }
    requires room { length text.old + 201 ≤ TEXT_ROOM }
    ensures text { text.new ≡ text.old ++ (first_line mode (sets_text names.now end out full) ++ full_text names.now end full) }
    ensures len { length text.new ≤ length text.old + 201 }
{
    push_first_line(text, mode, end, out, full, names);
    push_full(text, end, full, names);
}

/// What became of a frame at the switch.
pub fn push_switched(
    text: &mut Text,
    mode: Mode,
    end: EndName,
    out: u64,
    full: u64,
    names: &LineNames<'_>,
)
    requires declared { IsEnd names.now end }
    requires room { length text.old + 201 ≤ TEXT_ROOM }
    ensures text { text.new ≡ text.old ++ switched_text mode names.now end out full }
    ensures len { length text.new ≤ length text.old + 201 }
{
    match (out, full) {
        (0, 0) => push_unknown(text, end, names),
        (_, 0) => push_sets(text, end, out, full, names),
        _ => push_dropped(text, mode, end, out, full, names),
    }
}
