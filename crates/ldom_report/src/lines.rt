// The lines of a report.
ghost use Rattle.std.specs.Prelude.{◌≡◌, ◌+◌, ◌≤◌, ◌<◌, true, [], ◌∷◌, ◌++◌, length, codes, IsErr};
ghost use Rattle.vio_io.specs.Causes.{Fails};
ghost use Rattle.std.specs.Prelude.{All, IsFalse, IsTrue, OnOk, OnErr};
ghost use Rattle.std.specs.Io.KnownBytes.{Appends};
ghost use Rattle.domain_script.specs.NamesState.{declared_by};
ghost use Rattle.ldom_report.specs.EntryText.{entry_lines, head_text, line_text, may_be_seen, may_show};
ghost use Rattle.ldom_report.specs.EntryText.{report_entries, tail_text};
ghost use Rattle.gathered_text.specs.Gathered.{Gathers, WroteFront};
ghost use Rattle.ldom_report.specs.HasWords.{HasWords};
ghost use Rattle.ldom_report.specs.LeftOut.{LeavesOut};
ghost use Rattle.ldom_entries.specs.Seen.{PassesUnseen};
ghost use Rattle.ldom_entries.specs.Told.{told};
ghost use Rattle.kept_requests.specs.BlockWord.{blocks_text};

use crate::port_lines::{push_frame, push_queued, push_switched};
use crate::request_lines::{push_about, push_accepted, push_done, push_of_disk, push_refused};
use crate::shown::shows;
use crate::step_lines::{
    push_carried, push_descriptor, push_finished, push_joined, push_moved, push_packet, push_reset,
    push_stored,
};
use crate::whole_lines::{push_whole, put_frame, put_whole_rest};
use crate::{Bytes, Entries, EntryRef, Journal, Mode, VD_OP_BREAD};
use domain_script::{LaneKind, Names};
use gathered_text::{TEXT_ROOM, Text};
use line_words::{LineNames, names_of_lanes, push_end, push_end_number, put_blocks};
use vio_io::{Failed, Sink};

/// More bytes than a line has, but for the words of a read.
const LINE_ROOM: usize = 4096;

/// Puts the line of an entry, up to the words of a read, or the bytes of a poke or a frame, and the line feed.
fn push_front(text: &mut Text, mode: Mode, entry: &EntryRef<'_>, names: &LineNames<'_>)
    requires words { HasWords names.now (told entry.now) }
    requires room { length text.old + LINE_ROOM ≤ TEXT_ROOM }
    ensures room { length text.new < TEXT_ROOM }
    ensures text { text.new ≡ text.old ++ head_text mode names.now (told entry.now) }
{
    match entry {
        EntryRef::Accepted { disk, id, request } => push_accepted(text, *disk, *id, request, names),
        EntryRef::Full { who } => push_about(text, b"full ", who, names),
        EntryRef::Refused { who, why } => push_refused(text, who, *why, names),
        EntryRef::Queued { port, id, .. } => push_queued(text, *port, *id, names),
        EntryRef::Lost { end, packet } => push_packet(text, b"lost ", *end, packet, names),
        EntryRef::Injected { end, packet } => push_packet(text, b"injected ", *end, packet, names),
        EntryRef::Stopped { disk } => push_of_disk(text, b"stopped ", *disk, names),
        EntryRef::Started { disk } => push_of_disk(text, b"started ", *disk, names),
        EntryRef::Calm { who } => push_about(text, b"calm ", who, names),
        EntryRef::Settled => text.push(b"settled"),
        EntryRef::Unsettled { who } => push_about(text, b"unsettled ", who, names),
        EntryRef::Idle { end } => push_end(text, b"idle ", *end, names),
        EntryRef::Off { end } => push_end(text, b"off ", *end, names),
        EntryRef::Blocked { end } => push_end(text, b"blocked ", *end, names),
        EntryRef::Joined { end, lost } => push_joined(text, *end, *lost, names),
        EntryRef::Took { end, packet, opens } => push_carried(
            text, b"took ", *end, packet, *opens, names,
        ),
        EntryRef::Sent { end, packet, opens } => push_carried(
            text, b"sent ", *end, packet, *opens, names,
        ),
        EntryRef::Published { end, id } => push_end_number(text, b"published ", *end, *id, names),
        EntryRef::Done {
            disk,
            id,
            operation,
            status,
        } => push_done(text, *disk, *id, *operation, *status, names),
        EntryRef::Read {
            disk,
            id,
            operation,
            status,
            bytes: _,
        } => push_done(text, *disk, *id, *operation, *status, names),
        EntryRef::Desc { end, slot, bytes } => push_descriptor(text, *end, *slot, bytes, names),
        EntryRef::Moved { end, unit, fault } => push_moved(text, *end, *unit, *fault, names),
        EntryRef::Stored {
            end,
            operation,
            block,
            count,
            failed,
        } => push_stored(text, *end, *operation, *block, *count, *failed, names),
        EntryRef::Finished { end, slot, status } => push_finished(
            text, *end, *slot, *status, names,
        ),
        EntryRef::Frame { end, .. } => push_frame(text, *end, names),
        EntryRef::Switched { end, out, full, .. } => push_switched(
            text, mode, *end, *out, *full, names,
        ),
        EntryRef::Reset {
            end,
            cause,
            packet,
            lost,
        } => push_reset(text, mode, *end, cause, packet, *lost, names),
        EntryRef::Whole(whole) => push_whole(text, mode, whole.entry(), names),
    }
}

/// Puts the words of blocks, and the line feed.
#[tactic(auto, using(crate::proofs::LineParts::in_two_parts))]
fn put_words<K: Sink>(text: &mut Text, bytes: &Bytes, out: &mut K) -> Result<(), Failed>
    requires { length text.old < TEXT_ROOM }
    ensures told { OnOk result (Gathers (K.written out.old) (K.written out.new) text.new
        (text.old ++ (blocks_text bytes.now.items ++ codes "\n"))) }
    ensures front { OnErr result (WroteFront (K.written out.old) (K.written out.new)
        (text.old ++ (blocks_text bytes.now.items ++ codes "\n"))) }
    ensures faults { Fails (IsErr result) (K.faults out.old) (K.faults out.new) }
{
    put_blocks(text, bytes, out)?;
    text.push(b"\n");
    Ok(())
}

/// Puts what is left of an entry's line: the words of a read with status 0, or the bytes of a poke or a frame, and the
/// line feed.
#[tactic(auto, unfolding(kept_requests::specs::BlockWord::blocks_text))]
fn put_rest<K: Sink>(text: &mut Text, entry: &EntryRef<'_>, out: &mut K) -> Result<(), Failed>
    requires { length text.old < TEXT_ROOM }
    ensures told { OnOk result (Gathers (K.written out.old) (K.written out.new) text.new
        (text.old ++ (tail_text (told entry.now) ++ codes "\n"))) }
    ensures front { OnErr result (WroteFront (K.written out.old) (K.written out.new)
        (text.old ++ (tail_text (told entry.now) ++ codes "\n"))) }
    ensures faults { Fails (IsErr result) (K.faults out.old) (K.faults out.new) }
{
    match entry {
        EntryRef::Whole(whole) => put_whole_rest(text, whole.entry(), out),
        EntryRef::Queued { bytes, .. } | EntryRef::Frame { bytes, .. } => put_frame(
            text, bytes, out,
        ),
        EntryRef::Read {
            operation: VD_OP_BREAD,
            status: 0,
            bytes,
            ..
        } => put_words(text, bytes, out),
        _ => {
            text.push(b"\n");
            Ok(())
        }
    }
}

/// Puts the line of an entry.
fn put_shown<K: Sink>(
    text: &mut Text,
    mode: Mode,
    entry: &EntryRef<'_>,
    names: &LineNames<'_>,
    out: &mut K,
) -> Result<(), Failed>
    requires { HasWords names.now (told entry.now) }
    ensures told { OnOk result (Gathers (K.written out.old) (K.written out.new) text.new
        (text.old ++ line_text mode names.now (told entry.now))) }
    ensures front { OnErr result (WroteFront (K.written out.old) (K.written out.new)
        (text.old ++ line_text mode names.now (told entry.now))) }
    ensures faults { Fails (IsErr result) (K.faults out.old) (K.faults out.new) }
{
    text.make_room(LINE_ROOM, out)?;
    push_front(text, mode, entry, names);
    put_rest(text, entry, out)
}

/// The same where the mode shows the entry.
fn put_line<K: Sink>(
    text: &mut Text,
    mode: Mode,
    entry: &EntryRef<'_>,
    names: &LineNames<'_>,
    out: &mut K,
) -> Result<(), Failed>
    requires words { HasWords names.now (told entry.now) }
    requires may { may_show mode (told entry.now) ≡ true }
    ensures told { OnOk result (Gathers (K.written out.old) (K.written out.new) text.new
        (text.old ++ entry_lines mode names.now (told entry.now))) }
    ensures front { OnErr result (WroteFront (K.written out.old) (K.written out.new)
        (text.old ++ entry_lines mode names.now (told entry.now))) }
    ensures faults { Fails (IsErr result) (K.faults out.old) (K.faults out.new) }
{
    if shows(mode, entry) {
        put_shown(text, mode, entry, names, out)
    } else {
        Ok(())
    }
}

/// Reads the next entry that a user of the disks and ports may see. False where no further one is left.
fn read_seen<'a>(entries: &mut Entries<'a>, entry: &mut EntryRef<'a>) -> bool
    ensures some { IsTrue result → PassesUnseen entries.old (told entry.new ∷ entries.new) }
    ensures seen { IsTrue result → may_be_seen (told entry.new) ≡ true }
    ensures none { IsFalse result → PassesUnseen entries.old [] }
{
    entries.pass_unseen();
    entries.read_next(entry)
}

/// Reads the next entry that the mode may show. False where it shows no further one.
#[tactic(auto, using(crate::proofs::ReportLines::leaving_out))]
fn read_to_show<'a>(entries: &mut Entries<'a>, mode: Mode, entry: &mut EntryRef<'a>) -> bool
    ensures some { IsTrue result → LeavesOut mode entries.old (told entry.new ∷ entries.new) }
    ensures may { IsTrue result → may_show mode (told entry.new) ≡ true }
    ensures none { IsFalse result → LeavesOut mode entries.old [] }
{
    match mode {
        Mode::Run => read_seen(entries, entry),
        Mode::Trace => entries.read_next(entry),
        Mode::EndOnly => false,
    }
}

/// Writes the lines of the entries that the mode shows.
fn write_lines<K: Sink>(
    journal: &Journal,
    mode: Mode,
    names: &LineNames<'_>,
    out: &mut K,
) -> Result<(), Failed>
    requires words { All (HasWords names.now) journal.now.entries }
    ensures told { OnOk result (Appends (K.written out.old) (K.written out.new)
        (report_entries mode names.now journal.now.entries)) }
    ensures front { OnErr result (WroteFront (K.written out.old) (K.written out.new)
        (report_entries mode names.now journal.now.entries)) }
    ensures faults { Fails (IsErr result) (K.faults out.old) (K.faults out.new) }
{
    let mut text = Text::new();
    let mut rest = journal.entries();
    // Only a place: each entry is written over it.
    let mut entry = EntryRef::Settled;
    while read_to_show(&mut rest, mode, &mut entry) {
        put_line(&mut text, mode, &entry, names, out)?;
    }
    text.flush(out)
}

/// Writes the lines of the entries that the mode shows. After `Failed` a front of their text was written.
pub fn write_text<K: Sink>(
    journal: &Journal,
    mode: Mode,
    names: &Names,
    out: &mut K,
) -> Result<(), Failed>
    requires words { All (HasWords (declared_by names.now)) journal.now.entries }
    ensures told { OnOk result (Appends (K.written out.old) (K.written out.new)
        (report_entries mode (declared_by names.now) journal.now.entries)) }
    ensures front { OnErr result (WroteFront (K.written out.old) (K.written out.new)
        (report_entries mode (declared_by names.now) journal.now.entries)) }
    ensures faults { Fails (IsErr result) (K.faults out.old) (K.faults out.new) }
{
    let disks = names_of_lanes(names, LaneKind::Disk);
    let ports = names_of_lanes(names, LaneKind::Port);
    write_lines(journal, mode, &LineNames::new(names, &disks, &ports), out)
}
