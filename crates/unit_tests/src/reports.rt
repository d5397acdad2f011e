// Lines of a report that no script reaches, and a sink that fails.
ghost use Rattle.std.specs.Prelude.{◌≡◌, ◌%◌, ◌≤◌, ◌<◌, ◌++◌, All, length, OnOk};
ghost use Rattle.domain_script.specs.Declarations.{AreDisks, ArePorts, Declared};
ghost use Rattle.ldom_report.specs.HasWords.{HasFault, HasWords, IsEnd};
ghost use Rattle.ldom_world.specs.world_parts.Declared.{bytes_needed};

use crate::journals::note_each_kind;
use domain_script::{DiskDecl, Event, Name};
use ldom_report::{
    Bytes, Cause, CopyFault, EndName, Entry, Journal, Lane, LaneKind, LimitKind, Mode, Names,
    NoMemory, Side, Status, VD_OP_BREAD, VD_OP_BWRITE, Who, write_end, write_text,
};
use std::alloc::Global;
use std::test::Fail;
use vio_io::{ListSink, Sink};

const DISK: Lane = Lane {
    kind: LaneKind::Disk,
    number: 0,
};

const SERVER: EndName = EndName {
    lane: DISK,
    side: Side::Server,
};

/// One disk, `d0`.
pub(crate) fn one_disk() -> Names
    ensures few { length result.disks ≡ 1 }
    ensures disks { AreDisks result.disks }
    ensures ports { ArePorts result.ports }
    ensures blocks { bytes_needed result.disks ≡ 32768 }
{
    let mut names = Names::new();
    names.note(&Event::Disk(DiskDecl {
        name: Name {
            len: 2,
            bytes: *b"d0\0\0\0\0\0\0",
        },
        blocks: 64,
        ring: 8,
        queue: 16,
    }));
    names
}

/// Puts an entry of the disk last.
fn note(journal: &mut Journal, entry: Entry) -> Result<(), NoMemory>
    requires words { (all : Declared) → length all.disks ≡ 1 → All (HasWords all) journal.old.entries }
    requires fits { (all : Declared) → length all.disks ≡ 1 → HasWords all entry }
    ensures { OnOk result ((all : Declared) → length all.disks ≡ 1 → All (HasWords all) journal.new.entries) }
{
    journal.reserve(1)?;
    journal.push(entry);
    Ok(())
}

/// Whether the text of a journal of the disk is written, in a mode.
fn writes<K: Sink>(journal: &Journal, mode: Mode, out: &mut K) -> bool
    requires { (all : Declared) → length all.disks ≡ 1 → All (HasWords all) journal.now.entries }
{
    write_text(journal, mode, &one_disk(), out).is_ok()
}

/// Whether it is written to a sink some of whose calls fail, and the sink.
fn shown(
    alloc: Global,
    mode: Mode,
    journal: &Journal,
    failing: &[u64],
) -> Result<(bool, ListSink), NoMemory>
    requires { (all : Declared) → length all.disks ≡ 1 → All (HasWords all) journal.now.entries }
{
    let mut sink = ListSink::new(alloc, 200_000, failing)?;
    let told = writes(journal, mode, &mut sink);
    Ok((told, sink))
}

/// A completion of the disk's request 0.
fn done(operation: u8, status: u32, bytes: Bytes) -> Entry
    requires least { 1 ≤ operation }
    requires most { operation ≤ 3 }
    requires some { operation ≡ 1 → status ≡ 0 → 0 < length bytes.items }
    requires blocks { operation ≡ 1 → status ≡ 0 → length bytes.items % 512 ≡ 0 }
    ensures { (all : Declared) → length all.disks ≡ 1 → HasWords all result }
{
    Entry::Done {
        disk: 0,
        id: 0,
        operation,
        status,
        bytes,
    }
}

/// A reset of the server.
fn reset(cause: Cause, packet: Option<[u8; 64]>, lost: u32) -> Entry
    requires { HasFault cause }
    ensures { (all : Declared) → length all.disks ≡ 1 → HasWords all result }
{
    Entry::Reset {
        end: SERVER,
        cause,
        packet,
        lost,
    }
}

/// Completions and work that failed or found no room, and a settle that ran out of rounds.
fn note_failures(alloc: Global, journal: &mut Journal) -> Result<(), NoMemory>
    requires { (all : Declared) → length all.disks ≡ 1 → All (HasWords all) journal.old.entries }
    ensures { OnOk result ((all : Declared) → length all.disks ≡ 1 → All (HasWords all) journal.new.entries) }
{
    let who = Who::Lane(DISK);
    note(journal, Entry::Unsettled { who })?;
    note(journal, done(VD_OP_BWRITE, 5, Bytes::empty(alloc)))?;
    note(journal, done(VD_OP_BREAD, 5, Bytes::empty(alloc)))?;
    let end = SERVER;
    note(journal, Entry::Blocked { end })?;
    let (unit, fault) = (2, Some(CopyFault::BadPage));
    note(journal, Entry::Moved { end, unit, fault })?;
    let stored = Entry::Stored {
        end,
        operation: VD_OP_BWRITE,
        block: 16,
        count: 2,
        failed: true,
    };
    note(journal, stored)?;
    let (slot, status) = (3, 22);
    note(journal, Entry::Finished { end, slot, status })
}

/// Puts entries last that no script reaches, some of them only over an image that fails.
fn note_unreached(alloc: Global, journal: &mut Journal) -> Result<(), NoMemory>
    requires { (all : Declared) → length all.disks ≡ 1 → All (HasWords all) journal.old.entries }
    ensures { OnOk result ((all : Declared) → length all.disks ≡ 1 → All (HasWords all) journal.new.entries) }
{
    note_failures(alloc, journal)?;
    note(journal, reset(Cause::Copy(5), None, 4))?;
    let cause = Cause::Gap {
        expected: 7,
        found: 9,
    };
    note(journal, reset(cause, Some([0xab; 64]), 1))
}

/// What a trace shows of them.
const TRACED: &str = "unsettled d0
done d0 0 write 5
done d0 0 read 5
blocked d0.s
moved d0.s 2 badpage
stored d0.s write 16 2 failed
finished d0.s 3 22
reset d0.s copy nomap lost=4
reset d0.s gap expected=7 found=9 lost=1 took=\
abababababababababababababababababababababababababababababababab\
abababababababababababababababababababababababababababababababab
";

/// What a run shows of them.
const RUN: &str = "unsettled d0
done d0 0 write 5
done d0 0 read 5
reset d0.s copy nomap lost=4
reset d0.s gap expected=7 found=9 lost=1
";

/// Whether a mode shows this text of a journal of the disk.
fn shows(alloc: Global, mode: Mode, journal: &Journal, text: &str) -> Result<bool, NoMemory>
    requires { (all : Declared) → length all.disks ≡ 1 → All (HasWords all) journal.now.entries }
{
    let (told, sink) = shown(alloc, mode, journal, &[])?;
    Ok(told && sink.bytes() == text.as_bytes())
}

/// Whether each mode shows its text of them.
fn shows_each(alloc: Global, journal: &Journal) -> Result<bool, NoMemory>
    requires { (all : Declared) → length all.disks ≡ 1 → All (HasWords all) journal.now.entries }
{
    Ok(
        shows(alloc, Mode::Trace, journal, TRACED)?
            && shows(alloc, Mode::Run, journal, RUN)?
            && shows(alloc, Mode::EndOnly, journal, "")?,
    )
}

/// The same of a journal of those alone.
fn shows_unreached(alloc: Global) -> Result<bool, NoMemory> {
    let mut journal = Journal::new(alloc);
    note_unreached(alloc, &mut journal)?;
    shows_each(alloc, &journal)
}

#[test]
fn entries_that_no_script_reaches_have_their_lines(rt: HostRuntime) -> Result<(), Fail> {
    assert!(rt; shows_unreached(rt.alloc())?);
    Ok(())
}

/// 128 blocks, none of which repeats a shorter word.
fn without_repetition(alloc: Global) -> Result<Vec<u8>, NoMemory> {
    let mut bytes = Vec::new(alloc);
    for k in 0..65_536u32 {
        bytes.push((k / 2 % 256) as u8)?;
    }
    Ok(bytes)
}

/// Puts a read last that gave these bytes.
fn note_read(alloc: Global, journal: &mut Journal, bytes: &[u8]) -> Result<(), NoMemory>
    requires words { (all : Declared) → length all.disks ≡ 1 → All (HasWords all) journal.old.entries }
    requires some { 0 < length bytes.now }
    requires blocks { length bytes.now % 512 ≡ 0 }
    ensures { OnOk result ((all : Declared) → length all.disks ≡ 1 → All (HasWords all) journal.new.entries) }
{
    let bytes = Bytes::from_slice(alloc, bytes)?;
    note(journal, done(VD_OP_BREAD, 0, bytes))
}

/// Whether a sink that fails at a call gets a front of a journal's lines, of so many bytes at least.
fn fails_at(
    alloc: Global,
    journal: &Journal,
    lines: &[u8],
    call: u64,
    least: usize,
) -> Result<bool, NoMemory>
    requires { (all : Declared) → length all.disks ≡ 1 → All (HasWords all) journal.now.entries }
{
    let (told, sink) = shown(alloc, Mode::Run, journal, &[call])?;
    let front = sink.bytes();
    let partly = front.len() >= least && front.len() < lines.len();
    Ok(!told && partly && lines.starts_with(front))
}

/// Whether a sink that fails at its first calls gets a front of a journal's lines.
fn fails_at_each(alloc: Global, journal: &Journal, lines: &[u8]) -> Result<bool, NoMemory>
    requires { (all : Declared) → length all.disks ≡ 1 → All (HasWords all) journal.now.entries }
{
    Ok(
        fails_at(alloc, journal, lines, 0, 0)?
            && fails_at(alloc, journal, lines, 1, 61_440)?
            && fails_at(alloc, journal, lines, 2, 122_880)?,
    )
}

/// The same of a journal of 128 blocks without repetition, whose lines are of the right length.
fn is_told_in_front(alloc: Global, journal: &Journal) -> Result<bool, NoMemory>
    requires { (all : Declared) → length all.disks ≡ 1 → All (HasWords all) journal.now.entries }
{
    let (told, whole) = shown(alloc, Mode::Run, journal, &[])?;
    // A block without repetition has 1,024 digits.
    let is_whole = told && whole.bytes().len() == 16 + 128 * (2 + 1024) + 1;
    Ok(is_whole && fails_at_each(alloc, journal, whole.bytes())?)
}

/// The same of a read that gave these bytes.
fn is_read_in_front(alloc: Global, bytes: &[u8]) -> Result<bool, NoMemory>
    requires some { 0 < length bytes.now }
    requires blocks { length bytes.now % 512 ≡ 0 }
{
    let mut journal = Journal::new(alloc);
    note_read(alloc, &mut journal, bytes)?;
    is_told_in_front(alloc, &journal)
}

#[test]
fn a_failing_sink_gets_a_front_of_the_lines(rt: HostRuntime) -> Result<(), Fail> {
    let bytes = without_repetition(rt.alloc())?;
    assert!(rt; bytes.len() == 65_536);
    assert!(rt; is_read_in_front(rt.alloc(), &bytes)?);
    Ok(())
}

/// Whether the last line over a journal of each kind is written. That has one request that was taken up, two
/// completions, two resets and two frames.
fn ends<K: Sink>(
    alloc: Global,
    lines: u32,
    status: &Status,
    out: &mut K,
) -> Result<bool, NoMemory> {
    let mut journal = Journal::new(alloc);
    note_each_kind(alloc, &mut journal)?;
    Ok(write_end(&journal, lines, status, out).is_ok())
}

/// Whether it is this line.
fn ends_by(alloc: Global, lines: u32, status: &Status, line: &str) -> Result<bool, NoMemory> {
    let mut sink = ListSink::new(alloc, 4096, &[])?;
    let told = ends(alloc, lines, status, &mut sink)?;
    Ok(told && sink.bytes() == line.as_bytes())
}

/// How many lines were taken up, how the run ended, and the last line.
fn last_lines() -> [(u32, Status, &'static str); 3] {
    let (need, have) = (u64::MAX, 0);
    let (line, kind) = (3, LimitKind::Entries);
    [
        (
            2,
            Status::Limit { line, kind },
            "end lines=2 accepted=1 done=2 pending=0 resets=2 frames=2 status=8 at=3 limit=entries\n",
        ),
        (
            20000,
            Status::ImageSize { need, have },
            "end lines=20000 accepted=1 done=2 pending=0 resets=2 frames=2 status=7 need=18446744073709551615 have=0\n",
        ),
        (0, Status::Usage, "usage: ldom COMMAND [WORD]\n"),
    ]
}

#[test]
fn last_lines_that_no_script_reaches(rt: HostRuntime) -> Result<(), Fail> {
    for (lines, status, line) in last_lines() {
        assert!(rt; ends_by(rt.alloc(), lines, &status, line)?);
    }
    Ok(())
}
