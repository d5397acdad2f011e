// A journal of each kind of entry, and what is read of it.

use ldom_report::{
    Bytes, Cause, CopyFault, EndName, Entries, Entry, EntryRef, Journal, KeptRequest, Lane,
    LaneKind, NoMemory, Request, Side, VD_OP_BREAD, VD_OP_BWRITE, VD_OP_FLUSH, Who, Why,
};
use std::alloc::Global;
use std::test::Fail;
use trimmed_arrays::TrimmedArray;

/// What is looked at of an entry: its kind, whom it is about, and one of its numbers or the length of its bytes.
type Row = (&'static str, u64, u64);

const DISK: Lane = Lane {
    kind: LaneKind::Disk,
    number: 3,
};

const CLIENT: EndName = EndName {
    lane: DISK,
    side: Side::Client,
};

const SERVER: EndName = EndName {
    lane: DISK,
    side: Side::Server,
};

const LANE: Who = Who::Lane(DISK);

const PORT: Lane = Lane {
    kind: LaneKind::Port,
    number: 2,
};

const GUEST: EndName = EndName {
    lane: PORT,
    side: Side::Client,
};

/// A port's end at the switch.
const HUB: EndName = EndName {
    lane: PORT,
    side: Side::Server,
};

/// The row of no entry.
const NOTHING: Row = ("nothing", 0, 0);

/// The rows of `of_lines`, `of_ends`, `of_servers`, `of_ports`, `of_forgers` and `note_lent`, and whether a user may
/// see the entry.
fn rows() -> [(Row, bool); 34] {
    [
        (("accepted", 3, 2), false),
        (("full", 13, 0), true),
        (("refused", 13, 0), true),
        (("refused", 13, 1), true),
        (("stopped", 3, 0), false),
        (("started", 3, 0), false),
        (("calm", 31, 0), false),
        (("settled", 0, 0), true),
        (("unsettled", 30, 0), true),
        (("done", 3, 5), true),
        (("read", 3, 512), true),
        (("idle", 30, 0), false),
        (("off", 31, 0), false),
        (("blocked", 30, 0), false),
        (("joined", 30, 4), false),
        (("lost", 31, 64), false),
        (("took", 30, 0), false),
        (("sent", 31, 3), false),
        (("published", 30, 6), false),
        (("reset", 31, 0), true),
        (("reset", 30, 3), true),
        (("desc", 31, 1), false),
        (("moved", 31, 1), false),
        (("stored", 31, 8), false),
        (("finished", 31, 5), false),
        (("queued", 2, 14), true),
        (("member", 2, 9), true),
        (("frame", 20, 14), true),
        (("switched", 21, 65), true),
        (("injected", 20, 64), false),
        (("poked", 21, 8191), true),
        (("queued", 2, 14), true),
        (("frame", 20, 3), true),
        (("switched", 21, 65), true),
    ]
}

/// A packet that begins with three bytes, and has zeros after them.
fn short_packet() -> [u8; 64] {
    let mut packet = [0; 64];
    packet[..3].copy_from_slice(b"abc");
    packet
}

/// A descriptor that begins with a byte, and has zeros after it.
fn short_descriptor() -> [u8; 128] {
    let mut descriptor = [0; 128];
    descriptor[0] = 1;
    descriptor
}

/// What lines ask for, and what becomes of it.
fn of_lines(alloc: Global) -> Result<[Entry; 11], NoMemory> {
    let request = KeptRequest::new(alloc, &Request::Read { block: 2, count: 1 })?;
    let bytes = Bytes::from_slice(alloc, &[7; 512])?;
    Ok(lines_with(request, Bytes::empty(alloc), bytes))
}

/// The same with what took memory.
fn lines_with(request: KeptRequest, none: Bytes, bytes: Bytes) -> [Entry; 11] {
    [
        Entry::Accepted {
            disk: 3,
            id: 7,
            request,
        },
        Entry::Full { who: LANE },
        refused(Why::Count),
        refused(Why::Range),
        Entry::Stopped { disk: 3 },
        Entry::Started { disk: 3 },
        Entry::Calm {
            who: Who::End(SERVER),
        },
        Entry::Settled,
        Entry::Unsettled {
            who: Who::End(CLIENT),
        },
        done(8, VD_OP_FLUSH, 5, none),
        done(9, VD_OP_BREAD, 0, bytes),
    ]
}

fn refused(why: Why) -> Entry {
    Entry::Refused { who: LANE, why }
}

fn done(id: u64, operation: u8, status: u32, bytes: Bytes) -> Entry {
    Entry::Done {
        disk: 3,
        id,
        operation,
        status,
        bytes,
    }
}

/// What ends do.
fn of_ends() -> [Entry; 10] {
    [
        Entry::Idle { end: CLIENT },
        Entry::Off { end: SERVER },
        Entry::Blocked { end: CLIENT },
        Entry::Joined {
            end: CLIENT,
            lost: 4,
        },
        Entry::Lost {
            end: SERVER,
            packet: [1; 64],
        },
        Entry::Took {
            end: CLIENT,
            packet: [0; 64],
            opens: true,
        },
        Entry::Sent {
            end: SERVER,
            packet: short_packet(),
            opens: false,
        },
        Entry::Published { end: CLIENT, id: 6 },
        reset(SERVER, None, 5),
        reset(CLIENT, Some(short_packet()), 2),
    ]
}

fn reset(end: EndName, packet: Option<[u8; 64]>, lost: u32) -> Entry {
    Entry::Reset {
        end,
        cause: Cause::Asked,
        packet,
        lost,
    }
}

/// What servers alone do.
fn of_servers() -> [Entry; 4] {
    [
        Entry::Desc {
            end: SERVER,
            slot: 2,
            bytes: short_descriptor(),
        },
        Entry::Moved {
            end: SERVER,
            unit: 1,
            fault: Some(CopyFault::NoMap),
        },
        Entry::Stored {
            end: SERVER,
            operation: VD_OP_BWRITE,
            block: 16,
            count: 8,
            failed: true,
        },
        Entry::Finished {
            end: SERVER,
            slot: 2,
            status: 5,
        },
    ]
}

/// What comes of ports alone.
fn of_ports(alloc: Global) -> Result<[Entry; 4], NoMemory> {
    let frame = [7; 14];
    Ok(frames_with(
        Bytes::from_slice(alloc, &frame)?,
        Bytes::from_slice(alloc, &frame)?,
        Bytes::from_slice(alloc, &frame)?,
    ))
}

/// The same with the frames, which took memory.
fn frames_with(given: Bytes, taken: Bytes, switched: Bytes) -> [Entry; 4] {
    [
        Entry::Queued {
            port: 2,
            id: 3,
            bytes: given,
        },
        Entry::Member {
            port: 2,
            address: [1, 0, 0x5e, 0, 0, 9],
        },
        Entry::Frame {
            end: GUEST,
            bytes: taken,
        },
        Entry::Switched {
            end: HUB,
            out: 6,
            full: 5,
            bytes: switched,
        },
    ]
}

/// What nobody put or wrote.
fn of_forgers(alloc: Global) -> Result<[Entry; 2], NoMemory> {
    Ok([
        Entry::Injected {
            end: GUEST,
            packet: [1; 64],
        },
        Entry::Poked {
            end: HUB,
            at: 8191,
            bytes: Bytes::from_slice(alloc, &[1])?,
        },
    ])
}

/// Puts an entry last.
fn note(journal: &mut Journal, entry: Entry) -> Result<(), NoMemory> {
    journal.reserve(1)?;
    journal.push(entry);
    Ok(())
}

/// Puts what lines ask for last.
fn note_lines(alloc: Global, journal: &mut Journal) -> Result<(), NoMemory> {
    for entry in of_lines(alloc)? {
        note(journal, entry)?;
    }
    Ok(())
}

/// Puts what ends do last.
fn note_ends(journal: &mut Journal) -> Result<(), NoMemory> {
    for entry in of_ends() {
        note(journal, entry)?;
    }
    Ok(())
}

/// Puts what servers do last.
fn note_servers(journal: &mut Journal) -> Result<(), NoMemory> {
    for entry in of_servers() {
        note(journal, entry)?;
    }
    Ok(())
}

/// Puts what comes of ports last.
fn note_ports(alloc: Global, journal: &mut Journal) -> Result<(), NoMemory> {
    for entry in of_ports(alloc)? {
        note(journal, entry)?;
    }
    Ok(())
}

/// Puts what nobody put or wrote last.
fn note_forgers(alloc: Global, journal: &mut Journal) -> Result<(), NoMemory> {
    for entry in of_forgers(alloc)? {
        note(journal, entry)?;
    }
    Ok(())
}

/// Puts what comes of frames last whose bytes are lent.
fn note_lent(journal: &mut Journal) -> Result<(), NoMemory> {
    journal.reserve(3)?;
    journal.push_queued(2, 3, &[7; 14]);
    journal.push_frame(GUEST, &[8; 3]);
    journal.push_switched(HUB, 6, 5, &[]);
    Ok(())
}

/// Puts an entry of each kind last.
pub(crate) fn note_each_kind(alloc: Global, journal: &mut Journal) -> Result<(), NoMemory> {
    note_lines(alloc, journal)?;
    note_ends(journal)?;
    note_servers(journal)?;
    note_ports(alloc, journal)?;
    note_forgers(alloc, journal)?;
    note_lent(journal)
}

/// An end's lane and its side, as a number of two digits.
fn at(end: EndName) -> u64 {
    let side = match end.side {
        Side::Client => 0,
        Side::Server => 1,
    };
    10 * u64::from(end.lane.number) + side
}

/// An end as its number, or a lane's number with a 1 before it.
fn whom(who: Who) -> u64 {
    match who {
        Who::Lane(lane) => 10 + u64::from(lane.number),
        Who::End(end) => at(end),
    }
}

/// How long the front of an array is, where there is one.
fn front(array: Option<TrimmedArray<'_>>) -> u64 {
    match array {
        Some(array) => array.front().len() as u64,
        None => 0,
    }
}

/// The first block of a request, where it has one.
fn block(request: &KeptRequest) -> u64 {
    match request.get() {
        Request::Read { block, .. } | Request::Write { block, .. } => block,
        Request::Flush => 0,
    }
}

/// The row of an entry.
fn row(entry: Option<EntryRef<'_>>) -> Row {
    let Some(entry) = entry else {
        return NOTHING;
    };
    match entry {
        EntryRef::Accepted { disk, request, .. } => ("accepted", disk.into(), block(request)),
        EntryRef::Full { who } => ("full", whom(who), 0),
        EntryRef::Refused { who, why } => ("refused", whom(who), (why == Why::Range).into()),
        EntryRef::Stopped { disk } => ("stopped", disk.into(), 0),
        EntryRef::Started { disk } => ("started", disk.into(), 0),
        EntryRef::Calm { who } => ("calm", whom(who), 0),
        EntryRef::Settled => ("settled", 0, 0),
        EntryRef::Unsettled { who } => ("unsettled", whom(who), 0),
        EntryRef::Idle { end } => ("idle", at(end), 0),
        EntryRef::Off { end } => ("off", at(end), 0),
        EntryRef::Blocked { end } => ("blocked", at(end), 0),
        EntryRef::Joined { end, lost } => ("joined", at(end), lost),
        EntryRef::Took { end, packet, .. } => ("took", at(end), front(Some(packet))),
        EntryRef::Sent { end, packet, .. } => ("sent", at(end), front(Some(packet))),
        EntryRef::Published { end, id } => ("published", at(end), id),
        EntryRef::Done { disk, status, .. } => ("done", disk.into(), status),
        EntryRef::Read { disk, bytes, .. } => ("read", disk.into(), bytes.len() as u64),
        EntryRef::Desc { end, bytes, .. } => ("desc", at(end), front(Some(bytes))),
        EntryRef::Moved { end, unit, .. } => ("moved", at(end), unit),
        EntryRef::Stored { end, count, .. } => ("stored", at(end), count),
        EntryRef::Finished { end, status, .. } => ("finished", at(end), status),
        EntryRef::Lost { end, packet } => ("lost", at(end), front(Some(packet))),
        EntryRef::Injected { end, packet } => ("injected", at(end), front(Some(packet))),
        EntryRef::Queued { port, bytes, .. } => ("queued", port.into(), bytes.len() as u64),
        EntryRef::Frame { end, bytes } => ("frame", at(end), bytes.len() as u64),
        EntryRef::Switched { end, out, full, .. } => {
            (
                "switched",
                at(end),
                out.saturating_mul(10).saturating_add(full),
            )
        }
        EntryRef::Reset { end, packet, .. } => ("reset", at(end), front(packet)),
        EntryRef::Whole(whole) => whole_row(whole.entry()),
    }
}

/// The row of an entry that is kept whole.
fn whole_row(entry: &Entry) -> Row {
    match entry {
        Entry::Queued { port, bytes, .. } => ("queued", (*port).into(), bytes.len() as u64),
        Entry::Member { port, address } => ("member", (*port).into(), address[5].into()),
        Entry::Frame { end, bytes } => ("frame", at(*end), bytes.len() as u64),
        Entry::Switched { end, out, full, .. } => {
            (
                "switched",
                at(*end),
                10 * u64::from(*out) + u64::from(*full),
            )
        }
        Entry::Poked { end, at: place, .. } => ("poked", at(*end), *place),
        _ => ("other", 0, 0),
    }
}

/// The row of the next entry.
fn next_row(rest: &mut Entries<'_>) -> Row {
    row(rest.next_entry())
}

/// The row of the next entry that a user may see.
fn next_seen_row(rest: &mut Entries<'_>) -> Row {
    rest.pass_unseen();
    row(rest.next_entry())
}

/// The row of the entry at a place.
fn row_at(journal: &Journal, k: usize) -> Row {
    row(journal.get(k))
}

/// What is looked at of a journal of an entry of each kind. A proof pays for each journal that stands in a function.
fn of_each_kind(alloc: Global, look: Look) -> Result<bool, NoMemory> {
    let mut journal = Journal::new(alloc);
    note_each_kind(alloc, &mut journal)?;
    Ok(match look {
        Look::Each => reads_each(&journal),
        Look::Seen => reads_seen(&journal),
        Look::Counts => is_counted(&journal),
    })
}

/// What is looked at.
#[derive(Clone, Copy)]
enum Look {
    Each,
    Seen,
    Counts,
}

/// Whether each entry is read as it was put, one after the other and at its place, and nothing behind the last.
fn reads_each(journal: &Journal) -> bool {
    let mut rest = journal.entries();
    for (k, (expected, _)) in rows().iter().enumerate() {
        if next_row(&mut rest) != *expected || row_at(journal, k) != *expected {
            return false;
        }
    }
    next_row(&mut rest) == NOTHING && row_at(journal, 34) == NOTHING
}

#[test]
fn each_kind_is_read_as_it_was_put(rt: HostRuntime) -> Result<(), Fail> {
    assert!(rt; of_each_kind(rt.alloc(), Look::Each)?);
    Ok(())
}

/// Whether the entries that a user may see are read, and no other.
fn reads_seen(journal: &Journal) -> bool {
    let mut rest = journal.entries();
    for (expected, may_be_seen) in rows() {
        if may_be_seen && next_seen_row(&mut rest) != expected {
            return false;
        }
    }
    next_seen_row(&mut rest) == NOTHING
}

#[test]
fn entries_that_nobody_may_see_are_passed_over(rt: HostRuntime) -> Result<(), Fail> {
    assert!(rt; of_each_kind(rt.alloc(), Look::Seen)?);
    Ok(())
}

/// Whether the journal of each kind is counted.
fn is_counted(journal: &Journal) -> bool {
    let counts = [
        journal.accepted(),
        journal.done(),
        journal.resets(),
        journal.frames(),
        journal.len(),
    ];
    counts == [1, 2, 2, 2, 34] && !journal.is_empty()
}

fn new_is_empty(alloc: Global) -> bool {
    Journal::new(alloc).is_empty()
}

#[test]
fn a_journal_is_counted(rt: HostRuntime) -> Result<(), Fail> {
    assert!(rt; of_each_kind(rt.alloc(), Look::Counts)?);
    assert!(rt; new_is_empty(rt.alloc()));
    Ok(())
}

/// Puts 1,001 entries last, the last of them of another kind.
fn note_many(journal: &mut Journal) -> Result<(), NoMemory> {
    for _ in 0..1000 {
        note(journal, Entry::Settled)?;
    }
    note(journal, Entry::Full { who: LANE })
}

/// Whether it holds those, and no more.
fn holds_many(journal: &Journal) -> bool {
    journal.len() == 1001
        && row_at(journal, 0) == ("settled", 0, 0)
        && row_at(journal, 1000) == ("full", 13, 0)
        && row_at(journal, 1001) == NOTHING
}

/// Whether an empty journal makes room for many entries, refuses it for too many, and holds those that are put.
fn makes_room(journal: &mut Journal) -> Result<bool, NoMemory> {
    journal.reserve(1000)?;
    let refuses = journal.reserve(usize::MAX).is_err();
    note_many(journal)?;
    Ok(refuses && holds_many(journal))
}

/// The same of a new journal.
fn new_makes_room(alloc: Global) -> Result<bool, NoMemory> {
    let mut journal = Journal::new(alloc);
    makes_room(&mut journal)
}

#[test]
fn room_is_made_for_many_entries(rt: HostRuntime) -> Result<(), Fail> {
    assert!(rt; new_makes_room(rt.alloc())?);
    Ok(())
}
