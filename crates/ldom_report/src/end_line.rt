ghost use Rattle.std.specs.Prelude.{◌≡◌, ◌+◌, ◌≤◌, ◌++◌, length, OnOk, OnErr, IsErr};
ghost use Rattle.vio_io.specs.Causes.{Fails};
ghost use Rattle.std.specs.Io.KnownBytes.{Appends};
ghost use Rattle.gathered_text.specs.Gathered.{WroteFront};
ghost use Rattle.ldom_report.specs.Report.{cause_text, counts_text, end_line, fault_text, last_line, limit_text, resets_text};

use crate::{Journal, LimitKind, Status};
use domain_script::LineFault;
use gathered_text::{TEXT_ROOM, Text};
use vio_io::{Failed, Sink};

fn push_counts(text: &mut Text, journal: &Journal)
    requires { length text.old + 100 ≤ TEXT_ROOM }
    ensures text { text.new ≡ text.old ++ counts_text journal.now.entries }
    ensures len { length text.new ≤ length text.old + 100 }
{
    let accepted = journal.accepted() as u64;
    let done = journal.done() as u64;
    text.push(b" accepted=");
    text.push_number(accepted);
    text.push(b" done=");
    text.push_number(done);
    text.push(b" pending=");
    text.push_number(accepted.saturating_sub(done));
}

fn push_resets(text: &mut Text, journal: &Journal)
    requires { length text.old + 100 ≤ TEXT_ROOM }
    ensures text { text.new ≡ text.old ++ resets_text journal.now.entries }
    ensures len { length text.new ≤ length text.old + 100 }
{
    text.push(b" resets=");
    text.push_number(journal.resets() as u64);
    text.push(b" frames=");
    text.push_number(journal.frames() as u64);
}

fn fault_bytes(fault: LineFault) -> &'static [u8]
    ensures bytes { result.now ≡ fault_text fault }
    ensures short { length result.now ≤ 20 }
{
    match fault {
        LineFault::Byte => b"byte",
        LineFault::Space => b"space",
        LineFault::Word => b"word",
        LineFault::Words => b"words",
        LineFault::Name => b"name",
        LineFault::Place => b"place",
        LineFault::Taken => b"taken",
        LineFault::Unknown => b"unknown",
        LineFault::Number => b"number",
        LineFault::Range => b"range",
        LineFault::Hex => b"hex",
        LineFault::Many => b"many",
    }
}

fn limit_bytes(kind: LimitKind) -> &'static [u8]
    ensures bytes { result.now ≡ limit_text kind }
    ensures short { length result.now ≤ 20 }
{
    match kind {
        LimitKind::Lines => b"lines",
        LimitKind::Bytes => b"bytes",
        LimitKind::Entries => b"entries",
    }
}

/// After a status: the line at which the run ended, and why; or how long the image had to be, and is. Nothing where
/// the status tells neither.
pub fn push_cause(text: &mut Text, status: &Status)
    requires { length text.old + 100 ≤ TEXT_ROOM }
    ensures text { text.new ≡ text.old ++ cause_text status.now }
    ensures len { length text.new ≤ length text.old + 100 }
{
    match status {
        Status::Script { line, fault } => {
            text.push(b" at=");
            text.push_number(u64::from(*line));
            text.push(b" fault=");
            text.push(fault_bytes(*fault));
        }
        Status::ImageSize { need, have } => {
            text.push(b" need=");
            text.push_number(*need);
            text.push(b" have=");
            text.push_number(*have);
        }
        Status::Limit { line, kind } => {
            text.push(b" at=");
            text.push_number(u64::from(*line));
            text.push(b" limit=");
            text.push(limit_bytes(*kind));
        }
        _ => {}
    }
}

fn push_end_line(text: &mut Text, journal: &Journal, lines: u32, status: &Status)
    requires { length text.old + 400 ≤ TEXT_ROOM }
    ensures { text.new ≡ text.old ++ end_line lines journal.now.entries status.now }
{
    text.push(b"end lines=");
    text.push_number(u64::from(lines));
    push_counts(text, journal);
    push_resets(text, journal);
    text.push(b" status=");
    text.push_number(u64::from(status.number()));
    push_cause(text, status);
    text.push(b"\n");
}

fn push_last_line(text: &mut Text, journal: &Journal, lines: u32, status: &Status)
    requires { length text.old + 400 ≤ TEXT_ROOM }
    ensures { text.new ≡ text.old ++ last_line lines journal.now.entries status.now }
{
    match status {
        Status::Usage => text.push(b"usage: ldom COMMAND [WORD]\n"),
        _ => push_end_line(text, journal, lines, status),
    }
}

/// Writes the last line of a report: the end line with the numbers of the journal, or the usage line. `lines` is how
/// many lines of the script were taken up. After `Failed` a front of the line was written.
pub fn write_end<K: Sink>(
    journal: &Journal,
    lines: u32,
    status: &Status,
    out: &mut K,
) -> Result<(), Failed>
    ensures told { OnOk result (Appends (K.written out.old) (K.written out.new) (last_line lines journal.now.entries status.now)) }
    ensures front { OnErr result (WroteFront (K.written out.old) (K.written out.new) (last_line lines journal.now.entries status.now)) }
    ensures faults { Fails (IsErr result) (K.faults out.old) (K.faults out.new) }
{
    let mut text = Text::new();
    push_last_line(&mut text, journal, lines, status);
    text.flush(out)
}
