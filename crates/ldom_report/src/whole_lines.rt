// The lines of entries that are kept whole.
ghost use Rattle.std.specs.Prelude.{◌≡◌, ◌+◌, ◌<◌, ◌≤◌, true, ◌++◌, length, codes, OnOk, OnErr, IsErr};
ghost use Rattle.vio_io.specs.Causes.{Fails};
ghost use Rattle.hex.specs.Hex.{encode_lower};
ghost use Rattle.ldom_entries.specs.Whole.{is_whole};
ghost use Rattle.ldom_report.specs.EntryText.{head_text, number_text, tail_text};
ghost use Rattle.ldom_report.specs.HasWords.{HasWords, IsEnd};
ghost use Rattle.gathered_text.specs.Gathered.{Gathers, WroteFront};

use crate::port_lines::{push_frame, push_member, push_queued, push_switched};
use crate::{Bytes, Entry, Mode};
use domain_script::EndName;
use gathered_text::{TEXT_ROOM, Text};
use line_words::{LineNames, push_end_number, put_bytes, put_pieces};
use vio_io::{Failed, Sink};

/// An end and a place, after the kind of their entry, and a space.
fn push_place(text: &mut Text, kind: &[u8], end: EndName, at: u64, names: &LineNames<'_>)
    requires declared { IsEnd names.now end }
    requires room { length text.old + length kind.now + 38 ≤ TEXT_ROOM }
    ensures text { text.new ≡ text.old ++ (number_text kind.now names.now end at ++ codes " ") }
    ensures len { length text.new ≤ length text.old + length kind.now + 38 }
{
    push_end_number(text, kind, end, at, names);
    text.push(b" ");
}

/// Puts the head of the line of an entry that is kept whole. Each such kind has its arm.
pub fn push_whole(text: &mut Text, mode: Mode, entry: &Entry, names: &LineNames<'_>)
    requires whole { is_whole entry.now ≡ true }
    requires words { HasWords names.now entry.now }
    requires room { length text.old + 600 ≤ TEXT_ROOM }
    ensures text { text.new ≡ text.old ++ head_text mode names.now entry.now }
    ensures len { length text.new ≤ length text.old + 600 }
{
    match entry {
        Entry::Queued { port, id, .. } => push_queued(text, *port, *id, names),
        Entry::Member { port, address } => push_member(text, *port, address, names),
        Entry::Poked { end, at, .. } => push_place(text, b"poked ", *end, *at, names),
        Entry::Frame { end, .. } => push_frame(text, *end, names),
        Entry::Switched { end, out, full, .. } => {
            let (out, full) = (u64::from(*out), u64::from(*full));
            push_switched(text, mode, *end, out, full, names);
        }
        _ => unreachable!(),
    }
}

/// Puts the bytes of a poke or of a frame in digits, and the line feed.
#[tactic(auto, using(crate::proofs::LineParts::in_two_parts))]
fn put_digits<K: Sink>(text: &mut Text, bytes: &Bytes, out: &mut K) -> Result<(), Failed>
    ensures told { OnOk result (Gathers (K.written out.old) (K.written out.new) text.new
        (text.old ++ (encode_lower bytes.now.items ++ codes "\n"))) }
    ensures front { OnErr result (WroteFront (K.written out.old) (K.written out.new)
        (text.old ++ (encode_lower bytes.now.items ++ codes "\n"))) }
    ensures faults { Fails (IsErr result) (K.faults out.old) (K.faults out.new) }
{
    put_bytes(text, bytes, out)?;
    text.push(b"\n");
    Ok(())
}

/// Puts what is left of the line of an entry that is kept whole: the bytes of a poke or of a frame, and the line feed.
pub fn put_whole_rest<K: Sink>(text: &mut Text, entry: &Entry, out: &mut K) -> Result<(), Failed>
    requires whole { is_whole entry.now ≡ true }
    requires room { length text.old < TEXT_ROOM }
    ensures told { OnOk result (Gathers (K.written out.old) (K.written out.new) text.new
        (text.old ++ (tail_text entry.now ++ codes "\n"))) }
    ensures front { OnErr result (WroteFront (K.written out.old) (K.written out.new)
        (text.old ++ (tail_text entry.now ++ codes "\n"))) }
    ensures faults { Fails (IsErr result) (K.faults out.old) (K.faults out.new) }
{
    match entry {
        Entry::Queued { bytes, .. } | Entry::Poked { bytes, .. } | Entry::Frame { bytes, .. } => {
            put_digits(text, bytes, out)
        }
        _ => {
            text.push(b"\n");
            Ok(())
        }
    }
}

/// The same for bytes that are lent.
#[tactic(auto, using(crate::proofs::LineParts::in_two_parts))]
pub fn put_frame<K: Sink>(text: &mut Text, bytes: &[u8], out: &mut K) -> Result<(), Failed>
    ensures told { OnOk result (Gathers (K.written out.old) (K.written out.new) text.new
        (text.old ++ (encode_lower bytes.now ++ codes "\n"))) }
    ensures front { OnErr result (WroteFront (K.written out.old) (K.written out.new)
        (text.old ++ (encode_lower bytes.now ++ codes "\n"))) }
    ensures faults { Fails (IsErr result) (K.faults out.old) (K.faults out.new) }
{
    put_pieces(text, bytes, out)?;
    text.push(b"\n");
    Ok(())
}
