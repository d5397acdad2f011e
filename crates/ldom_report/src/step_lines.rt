// The lines of the steps of an end, before the line feed.
ghost use Rattle.std.specs.Prelude.{◌≡◌, ◌+◌, ◌≤◌, ◌++◌, length, codes, decimal};
ghost use Rattle.hex.specs.Hex.{encode_lower};
ghost use Rattle.vio_tag.specs.CauseText.{cause_text};
ghost use Rattle.vdisk_msg.specs.Requests.{IsOperation};
ghost use Rattle.ldom_report.specs.EntryText.{bytes_text, call_text, end_text, lost_text, moved_text, number_text, opens_text, reset_text, stored_text, took_text};
ghost use Rattle.ldom_report.specs.HasWords.{HasFault, IsEnd};

use crate::Mode;
use crate::request_lines::push_range;
use cookie_copy::CopyFault;
use domain_script::EndName;
use gathered_text::{TEXT_ROOM, Text};
use line_words::{
    LineNames, failed_word, fault_word, opens_word, operation_word, push_array, push_end,
    push_end_number, push_reset_cause,
};
use trimmed_arrays::TrimmedArray;
use vio_tag::Cause;

/// An end and a packet, after the kind of their entry.
pub fn push_packet(
    text: &mut Text,
    kind: &[u8],
    end: EndName,
    packet: &TrimmedArray<'_>,
    names: &LineNames<'_>,
)
    requires declared { IsEnd names.now end }
    requires room { length text.old + length kind.now + 527 ≤ TEXT_ROOM }
    ensures text { text.new ≡ text.old ++ bytes_text kind.now names.now end packet.now }
    ensures len { length text.new ≤ length text.old + length kind.now + 527 }
{
    push_end(text, kind, end, names);
    text.push(b" ");
    push_array(text, packet);
}

/// The same, and whether the session opened.
pub fn push_carried(
    text: &mut Text,
    kind: &[u8],
    end: EndName,
    packet: &TrimmedArray<'_>,
    opens: bool,
    names: &LineNames<'_>,
)
    requires declared { IsEnd names.now end }
    requires room { length text.old + length kind.now + 600 ≤ TEXT_ROOM }
    ensures text { text.new ≡ text.old ++ bytes_text kind.now names.now end packet.now ++ opens_text opens }
    ensures len { length text.new ≤ length text.old + length kind.now + 600 }
{
    push_packet(text, kind, end, packet, names);
    text.push(opens_word(opens));
}

pub fn push_joined(text: &mut Text, end: EndName, lost: u64, names: &LineNames<'_>)
    requires declared { IsEnd names.now end }
    requires room { length text.old + 100 ≤ TEXT_ROOM }
    ensures text { text.new ≡ text.old ++ end_text (codes "joined ") names.now end ++ codes " lost="
        ++ decimal lost }
    ensures len { length text.new ≤ length text.old + 100 }
{
    push_end(text, b"joined ", end, names);
    text.push(b" lost=");
    text.push_number(lost);
}

pub fn push_descriptor(
    text: &mut Text,
    end: EndName,
    slot: u64,
    bytes: &TrimmedArray<'_>,
    names: &LineNames<'_>,
)
    requires declared { IsEnd names.now end }
    requires room { length text.old + 600 ≤ TEXT_ROOM }
    ensures text { text.new ≡ text.old ++ number_text (codes "desc ") names.now end slot ++ codes " "
        ++ encode_lower bytes.now }
    ensures len { length text.new ≤ length text.old + 600 }
{
    push_end_number(text, b"desc ", end, slot, names);
    text.push(b" ");
    push_array(text, bytes);
}

pub fn push_moved(
    text: &mut Text,
    end: EndName,
    unit: u64,
    fault: Option<CopyFault>,
    names: &LineNames<'_>,
)
    requires declared { IsEnd names.now end }
    requires room { length text.old + 100 ≤ TEXT_ROOM }
    ensures text { text.new ≡ text.old ++ moved_text names.now end unit fault }
    ensures len { length text.new ≤ length text.old + 100 }
{
    push_end_number(text, b"moved ", end, unit, names);
    text.push(b" ");
    text.push(fault_word(fault));
}

/// A call of the store, but for how it ended.
fn push_store_call(
    text: &mut Text,
    end: EndName,
    operation: u8,
    block: u64,
    count: u64,
    names: &LineNames<'_>,
)
    requires declared { IsEnd names.now end }
    requires one { IsOperation operation }
    requires room { length text.old + 100 ≤ TEXT_ROOM }
    ensures text { text.new ≡ text.old ++ call_text names.now end operation block count }
    ensures len { length text.new ≤ length text.old + 80 }
{
    push_end(text, b"stored ", end, names);
    text.push(b" ");
    text.push(operation_word(operation));
    text.push(b" ");
    push_range(text, block, count);
}

pub fn push_stored(
    text: &mut Text,
    end: EndName,
    operation: u8,
    block: u64,
    count: u64,
    failed: bool,
    names: &LineNames<'_>,
)
    requires declared { IsEnd names.now end }
    requires one { IsOperation operation }
    requires room { length text.old + 100 ≤ TEXT_ROOM }
    ensures text { text.new ≡ text.old ++ stored_text names.now end operation block count failed }
    ensures len { length text.new ≤ length text.old + 100 }
{
    push_store_call(text, end, operation, block, count, names);
    text.push(b" ");
    text.push(failed_word(failed));
}

pub fn push_finished(text: &mut Text, end: EndName, slot: u64, status: u64, names: &LineNames<'_>)
    requires declared { IsEnd names.now end }
    requires room { length text.old + 100 ≤ TEXT_ROOM }
    ensures text { text.new ≡ text.old ++ number_text (codes "finished ") names.now end slot ++ codes " "
        ++ decimal status }
    ensures len { length text.new ≤ length text.old + 100 }
{
    push_end_number(text, b"finished ", end, slot, names);
    text.push(b" ");
    text.push_number(status);
}

/// How many frames were lost, where some were.
fn push_lost(text: &mut Text, lost: u64)
    requires { length text.old + 26 ≤ TEXT_ROOM }
    ensures text { text.new ≡ text.old ++ lost_text lost }
    ensures len { length text.new ≤ length text.old + 26 }
{
    if lost > 0 {
        text.push(b" lost=");
        text.push_number(lost);
    }
}

fn push_took_packet(text: &mut Text, packet: &TrimmedArray<'_>)
    requires { length text.old + 516 ≤ TEXT_ROOM }
    ensures text { text.new ≡ text.old ++ codes " took=" ++ encode_lower packet.now }
    ensures len { length text.new ≤ length text.old + 516 }
{
    text.push(b" took=");
    push_array(text, packet);
}

/// The packet that a reset took, which a trace shows.
fn push_took(text: &mut Text, mode: Mode, packet: &Option<TrimmedArray<'_>>)
    requires { length text.old + 516 ≤ TEXT_ROOM }
    ensures text { text.new ≡ text.old ++ took_text mode packet.now }
    ensures len { length text.new ≤ length text.old + 516 }
{
    match (mode, packet) {
        (Mode::Trace, Some(packet)) => push_took_packet(text, packet),
        _ => {}
    }
}

/// An end and the cause for which it was reset.
fn push_reset_head(text: &mut Text, end: EndName, cause: Cause, names: &LineNames<'_>)
    requires declared { IsEnd names.now end }
    requires fault { HasFault cause }
    requires room { length text.old + 200 ≤ TEXT_ROOM }
    ensures text { text.new ≡ text.old ++ end_text (codes "reset ") names.now end ++ codes " " ++ cause_text cause }
    ensures len { length text.new ≤ length text.old + 130 }
{
    push_end(text, b"reset ", end, names);
    text.push(b" ");
    push_reset_cause(text, cause);
}

/// An end that was reset. It stands apart, so that the lines of other entries make no room for a cause.
#[inline(never)]
pub fn push_reset(
    text: &mut Text,
    mode: Mode,
    end: EndName,
    cause: &Cause,
    packet: &Option<TrimmedArray<'_>>,
    lost: u64,
    names: &LineNames<'_>,
)
    requires declared { IsEnd names.now end }
    requires fault { HasFault cause.now }
    requires room { length text.old + 700 ≤ TEXT_ROOM }
    ensures text { text.new ≡ text.old ++ reset_text mode names.now end cause.now packet.now lost }
    ensures len { length text.new ≤ length text.old + 700 }
{
    push_reset_head(text, end, *cause, names);
    push_lost(text, lost);
    push_took(text, mode, packet);
}
