ghost use Rattle.std.specs.Prelude.{◌≡◌, ◌<◌, ◌≤◌, true, ◌∷◌, length};
ghost use Rattle.ldom_entries.specs.Beside.{HoldsShare, Lists, made, rest_of, share_of};
ghost use Rattle.ldom_entries.specs.Decoded.{a_whole, cause_in, descriptor_in, entry_of, first_entry, first_number};
ghost use Rattle.ldom_entries.specs.Decoded.{frame_in, framed, kind_of, needs, one_where, packet_in, packet_where};
ghost use Rattle.ldom_entries.specs.Decoded.{read_in, request_in, second_number, share, these, whole_in};
ghost use Rattle.kept_requests.specs.Bytes.{filled};
ghost use Rattle.ldom_entries.specs.Told.{told};
ghost use Rattle.ldom_entries.specs.declared.entry.Entry.TheVariants as the_entry;
ghost use Rattle.ldom_entries.specs.declared.header.Header.TheVariants as the_header;

use crate::entry_ref::EntryRef;
use crate::header::{EndMark, Header, Part, end_at, who_at};
use crate::{Bytes, KeptRequest, WholeEntry, Why};
use cookie_copy::CopyFault;
use domain_script::{EndName, LaneKind, Side};
use std::marker::Model;
use trimmed_arrays::{StringsRest, TrimmedArray, TrimmedRest};
use vio_tag::Cause;

/// The mark of an entry that is written over.
pub(crate) const NO_MARK: EndMark = EndMark {
    side: Side::Client,
    kind: LaneKind::Disk,
};

/// What stands beside the headers that are still to be read, in their order.
#[derive(Drop)]
pub struct Beside<'a> {
    numbers: &'a [u64],
    packets: TrimmedRest<'a>,
    descriptors: TrimmedRest<'a>,
    reads: &'a [Bytes],
    requests: &'a [KeptRequest],
    causes: &'a [Cause],
    frames: StringsRest<'a>,
    wholes: &'a [WholeEntry],
}

impl<'a> Model for Beside<'a> {
    ghost use Rattle.ldom_entries.specs.Beside.{Lists, made};

    ghost Value = { Lists };

    ghost view = { λ b.
        made b.numbers.now b.packets b.descriptors b.reads.now b.requests.now b.causes.now b.frames.items b.wholes.now };
}

impl<'a> Beside<'a> {
    /// These lists.
    pub fn new(
        numbers: &'a [u64],
        packets: TrimmedRest<'a>,
        descriptors: TrimmedRest<'a>,
        reads: &'a [Bytes],
        requests: &'a [KeptRequest],
        causes: &'a [Cause],
        frames: StringsRest<'a>,
        wholes: &'a [WholeEntry],
    ) -> Self
        ensures { result ≡
            made numbers.now packets.entry descriptors.entry reads.now requests.now causes.now frames.entry.items
            wholes.now }
    {
        Beside {
            numbers,
            packets,
            descriptors,
            reads,
            requests,
            causes,
            frames,
            wholes,
        }
    }

    /// Takes the next number.
    fn number(&mut self) -> u64
        requires { 0 < length self.old.numbers }
        ensures number { result ≡ first_number (share_of (needs 1 0) self.old) }
        ensures rest { self.new ≡ rest_of (needs 1 0) self.old }
    {
        let (number, rest) = first_of(self.numbers);
        self.numbers = rest;
        *number
    }

    /// Takes the next two numbers.
    fn two_numbers(&mut self) -> (u64, u64)
        requires { 2 ≤ length self.old.numbers }
        ensures first { result.0 ≡ first_number (share_of (needs 2 0) self.old) }
        ensures second { result.1 ≡ second_number (share_of (needs 2 0) self.old) }
        ensures rest { self.new ≡ rest_of (needs 2 0) self.old }
    {
        let (first, others) = first_of(self.numbers);
        let (second, rest) = first_of(others);
        self.numbers = rest;
        (*first, *second)
    }

    /// Takes the next packet.
    fn packet(&mut self) -> TrimmedArray<'a>
        requires { 0 < length self.old.packets }
        ensures packet { result ≡ packet_in (share_of (needs 0 1) self.old) }
        ensures rest { self.new ≡ rest_of (needs 0 1) self.old }
    {
        match self.packets.next_array() {
            Some(packet) => packet,
            None => unreachable!(),
        }
    }

    /// Takes the next packet, if the entry has one.
    fn packet_where(&mut self, has: bool) -> Option<TrimmedArray<'a>>
        requires { one_where has ≤ length self.old.packets }
        ensures packet { result ≡ packet_where has (share_of (needs 0 (one_where has)) self.old) }
        ensures rest { self.new ≡ rest_of (needs 0 (one_where has)) self.old }
    {
        if has { Some(self.packet()) } else { None }
    }

    /// Takes the next descriptor.
    fn descriptor(&mut self) -> TrimmedArray<'a>
        requires { 0 < length self.old.descriptors }
        ensures descriptor { result ≡ descriptor_in (share_of (these 0 0 1 0 0 0) self.old) }
        ensures rest { self.new ≡ rest_of (these 0 0 1 0 0 0) self.old }
    {
        match self.descriptors.next_array() {
            Some(descriptor) => descriptor,
            None => unreachable!(),
        }
    }

    /// Takes the bytes of the next read.
    fn read(&mut self) -> &'a Bytes
        requires { 0 < length self.old.reads }
        ensures read { result.now ≡ read_in true (share_of (these 0 0 0 1 0 0) self.old) }
        ensures rest { self.new ≡ rest_of (these 0 0 0 1 0 0) self.old }
    {
        let (read, rest) = first_of(self.reads);
        self.reads = rest;
        read
    }

    /// Takes the next request.
    fn request(&mut self) -> &'a KeptRequest
        requires { 0 < length self.old.requests }
        ensures request { result.now ≡ request_in (share_of (these 0 0 0 0 1 0) self.old) }
        ensures rest { self.new ≡ rest_of (these 0 0 0 0 1 0) self.old }
    {
        let (request, rest) = first_of(self.requests);
        self.requests = rest;
        request
    }

    /// Takes the next cause.
    fn cause(&mut self) -> Cause
        requires { 0 < length self.old.causes }
        ensures cause { result ≡ cause_in (share_of (these 0 0 0 0 0 1) self.old) }
        ensures rest { self.new ≡ rest_of (these 0 0 0 0 0 1) self.old }
    {
        let (cause, rest) = first_of(self.causes);
        self.causes = rest;
        *cause
    }

    /// Takes the next frame.
    fn frame(&mut self) -> &'a [u8]
        requires { 0 < length self.old.frames }
        ensures frame { filled result.now ≡ frame_in (share_of (framed 0) self.old) }
        ensures rest { self.new ≡ rest_of (framed 0) self.old }
    {
        match self.frames.next_string() {
            Some(frame) => frame,
            None => unreachable!(),
        }
    }

    /// Takes the next entry that is kept whole.
    fn whole(&mut self) -> &'a WholeEntry
        requires { 0 < length self.old.wholes }
        ensures whole { result.now ≡ whole_in (share_of a_whole self.old) }
        ensures rest { self.new ≡ rest_of a_whole self.old }
    {
        let (whole, rest) = first_of(self.wholes);
        self.wholes = rest;
        whole
    }

    /// Reads the entry of a header, whose share is taken from the front of the lists. It is written where it lies, and
    /// this isn't inlined: else each kind of entry would be made with the parts of all others.
    #[inline(never)]
    pub(crate) fn read_into(&mut self, header: Header, entry: &mut EntryRef<'a>)
        requires { HoldsShare (share header) self.old }
        ensures told { told entry.new ≡ first_entry header self.old }
        ensures rest { self.new ≡ rest_of (share header) self.old }
    {
        match header {
            Header::Accepted { disk } => *entry = self.accepted(disk),
            Header::Queued { port } => *entry = self.queued(port),
            Header::Lost { at, number } => *entry = self.lost(at, number),
            Header::Injected { at, number } => *entry = self.injected(at, number),
            Header::Joined { at, number } => *entry = self.joined(at, number),
            Header::Took { at, opens, number } => *entry = self.took(at, opens, number),
            Header::Sent { at, opens, number } => *entry = self.sent(at, opens, number),
            Header::Published { at, number } => *entry = self.published(at, number),
            Header::Done {
                operation,
                read,
                disk,
            } => *entry = self.done(operation, read, disk),
            Header::Desc { at, number } => *entry = self.desc(at, number),
            Header::Moved { at, number } => *entry = self.moved(end_at(at, number), None),
            Header::NotMoved { at, fault, number } => *entry = self.moved(
                end_at(at, number),
                Some(fault),
            ),
            Header::Stored {
                at,
                operation,
                number,
            } => *entry = self.stored(end_at(at, number), operation, false),
            Header::NotStored {
                at,
                operation,
                number,
            } => *entry = self.stored(end_at(at, number), operation, true),
            Header::Finished { at, number } => *entry = self.finished(at, number),
            Header::Frame { at, number } => *entry = self.frame_taken(at, number),
            Header::Switched { at, number } => *entry = self.switched(at, number),
            Header::Reset { at, packet, number } => *entry = self.reset(at, packet, number),
            Header::Whole => *entry = EntryRef::Whole(self.whole()),
            plain => read_plain(plain, entry),
        }
    }

    /// Takes the share of a header from the front of the lists, as `read_into` does, and hands on no entry. Of the
    /// kinds that most steps give none is made.
    pub(crate) fn pass(&mut self, header: Header)
        requires { HoldsShare (share header) self.old }
        ensures { self.new ≡ rest_of (share header) self.old }
    {
        match header {
            Header::Idle { .. } | Header::Off { .. } | Header::Blocked { .. } => {}
            Header::Stopped { .. } | Header::Started { .. } | Header::Calm { .. } => {}
            Header::Took { .. } | Header::Sent { .. } => {
                self.packet();
            }
            Header::Lost { .. } | Header::Injected { .. } => {
                self.packet();
            }
            Header::Joined { .. } | Header::Published { .. } => {
                self.number();
            }
            Header::Moved { .. } | Header::NotMoved { .. } => {
                self.number();
            }
            Header::Stored { .. } | Header::NotStored { .. } | Header::Finished { .. } => {
                self.two_numbers();
            }
            other => self.read_into(other, &mut idle(NO_MARK, 0)),
        }
    }

    /// A guest's request was taken up. Beside it: its id, and the request.
    fn accepted(&mut self, disk: u32) -> EntryRef<'a>
        requires { HoldsShare (these 1 0 0 0 1 0) self.old }
        ensures told { told result ≡ first_entry (the_header.Accepted disk) self.old }
        ensures rest { self.new ≡ rest_of (these 1 0 0 0 1 0) self.old }
    {
        EntryRef::Accepted {
            disk,
            id: self.number(),
            request: self.request(),
        }
    }

    /// A frame was handed to a guest. Beside it: its id, and the frame.
    fn queued(&mut self, port: u32) -> EntryRef<'a>
        requires { HoldsShare (framed 1) self.old }
        ensures told { told result ≡ first_entry (the_header.Queued port) self.old }
        ensures rest { self.new ≡ rest_of (framed 1) self.old }
    {
        EntryRef::Queued {
            port,
            id: self.number(),
            bytes: self.frame(),
        }
    }

    /// A packet was lost. Beside it: the packet.
    fn lost(&mut self, at: EndMark, number: u32) -> EntryRef<'a>
        requires { HoldsShare (needs 0 1) self.old }
        ensures told { told result ≡ first_entry (the_header.Lost at number) self.old }
        ensures rest { self.new ≡ rest_of (needs 0 1) self.old }
    {
        EntryRef::Lost {
            end: end_at(at, number),
            packet: self.packet(),
        }
    }

    /// A packet was forged. Beside it: the packet.
    fn injected(&mut self, at: EndMark, number: u32) -> EntryRef<'a>
        requires { HoldsShare (needs 0 1) self.old }
        ensures told { told result ≡ first_entry (the_header.Injected at number) self.old }
        ensures rest { self.new ≡ rest_of (needs 0 1) self.old }
    {
        EntryRef::Injected {
            end: end_at(at, number),
            packet: self.packet(),
        }
    }

    /// An end was configured. Beside it: how many frames were lost by that.
    fn joined(&mut self, at: EndMark, number: u32) -> EntryRef<'a>
        requires { HoldsShare (needs 1 0) self.old }
        ensures told { told result ≡ first_entry (the_header.Joined at number) self.old }
        ensures rest { self.new ≡ rest_of (needs 1 0) self.old }
    {
        EntryRef::Joined {
            end: end_at(at, number),
            lost: self.number(),
        }
    }

    /// An end took a packet. Beside it: the packet.
    fn took(&mut self, at: EndMark, opens: bool, number: u32) -> EntryRef<'a>
        requires { HoldsShare (needs 0 1) self.old }
        ensures told { told result ≡ first_entry (the_header.Took at opens number) self.old }
        ensures rest { self.new ≡ rest_of (needs 0 1) self.old }
    {
        EntryRef::Took {
            end: end_at(at, number),
            packet: self.packet(),
            opens,
        }
    }

    /// An end put a packet. Beside it: the packet.
    fn sent(&mut self, at: EndMark, opens: bool, number: u32) -> EntryRef<'a>
        requires { HoldsShare (needs 0 1) self.old }
        ensures told { told result ≡ first_entry (the_header.Sent at opens number) self.old }
        ensures rest { self.new ≡ rest_of (needs 0 1) self.old }
    {
        EntryRef::Sent {
            end: end_at(at, number),
            packet: self.packet(),
            opens,
        }
    }

    /// The client put a request into its ring. Beside it: its id.
    fn published(&mut self, at: EndMark, number: u32) -> EntryRef<'a>
        requires { HoldsShare (needs 1 0) self.old }
        ensures told { told result ≡ first_entry (the_header.Published at number) self.old }
        ensures rest { self.new ≡ rest_of (needs 1 0) self.old }
    {
        EntryRef::Published {
            end: end_at(at, number),
            id: self.number(),
        }
    }

    /// A request was completed. Beside it: its id, its status and, where `read` says so, the bytes.
    fn done(&mut self, operation: u8, read: bool, disk: u32) -> EntryRef<'a>
        requires { HoldsShare (these 2 0 0 (one_where read) 0 0) self.old }
        ensures told { told result ≡ first_entry (the_header.Done operation read disk) self.old }
        ensures rest { self.new ≡ rest_of (these 2 0 0 (one_where read) 0 0) self.old }
    {
        let (id, status) = self.two_numbers();
        if read {
            EntryRef::Read {
                disk,
                id,
                operation,
                status,
                bytes: self.read(),
            }
        } else {
            EntryRef::Done {
                disk,
                id,
                operation,
                status,
            }
        }
    }

    /// The server fetched the descriptor of a slot. Beside it: the slot, and the descriptor.
    fn desc(&mut self, at: EndMark, number: u32) -> EntryRef<'a>
        requires { HoldsShare (these 1 0 1 0 0 0) self.old }
        ensures told { told result ≡ first_entry (the_header.Desc at number) self.old }
        ensures rest { self.new ≡ rest_of (these 1 0 1 0 0 0) self.old }
    {
        EntryRef::Desc {
            end: end_at(at, number),
            slot: self.number(),
            bytes: self.descriptor(),
        }
    }

    /// The server copied a unit, or why it couldn't. Beside it: the unit.
    fn moved(&mut self, end: EndName, fault: Option<CopyFault>) -> EntryRef<'a>
        requires { HoldsShare (needs 1 0) self.old }
        ensures told { told result ≡ the_entry.Moved end (first_number (share_of (needs 1 0) self.old)) fault }
        ensures rest { self.new ≡ rest_of (needs 1 0) self.old }
    {
        EntryRef::Moved {
            end,
            unit: self.number(),
            fault,
        }
    }

    /// The server called its store. Beside it: the first block, and how many.
    fn stored(&mut self, end: EndName, operation: u8, failed: bool) -> EntryRef<'a>
        requires { HoldsShare (needs 2 0) self.old }
        ensures told { told result ≡ the_entry.Stored end operation (first_number (share_of (needs 2 0) self.old))
            (second_number (share_of (needs 2 0) self.old)) failed }
        ensures rest { self.new ≡ rest_of (needs 2 0) self.old }
    {
        let (block, count) = self.two_numbers();
        EntryRef::Stored {
            end,
            operation,
            block,
            count,
            failed,
        }
    }

    /// The server gave the descriptor of a slot its status. Beside it: the slot, and the status.
    fn finished(&mut self, at: EndMark, number: u32) -> EntryRef<'a>
        requires { HoldsShare (needs 2 0) self.old }
        ensures told { told result ≡ first_entry (the_header.Finished at number) self.old }
        ensures rest { self.new ≡ rest_of (needs 2 0) self.old }
    {
        let (slot, status) = self.two_numbers();
        EntryRef::Finished {
            end: end_at(at, number),
            slot,
            status,
        }
    }

    /// A guest took a frame. Beside it: the frame.
    fn frame_taken(&mut self, at: EndMark, number: u32) -> EntryRef<'a>
        requires { HoldsShare (framed 0) self.old }
        ensures told { told result ≡ first_entry (the_header.Frame at number) self.old }
        ensures rest { self.new ≡ rest_of (framed 0) self.old }
    {
        EntryRef::Frame {
            end: end_at(at, number),
            bytes: self.frame(),
        }
    }

    /// The switch took a frame. Beside it: the ports that have it, those that were full, and the frame.
    fn switched(&mut self, at: EndMark, number: u32) -> EntryRef<'a>
        requires { HoldsShare (framed 2) self.old }
        ensures told { told result ≡ first_entry (the_header.Switched at number) self.old }
        ensures rest { self.new ≡ rest_of (framed 2) self.old }
    {
        let (out, full) = self.two_numbers();
        EntryRef::Switched {
            end: end_at(at, number),
            out,
            full,
            bytes: self.frame(),
        }
    }

    /// An end was reset. Beside it: the cause, the packet where it has one, and how many frames were lost by that.
    fn reset(&mut self, at: EndMark, packet: bool, number: u32) -> EntryRef<'a>
        requires { HoldsShare (these 1 (one_where packet) 0 0 0 1) self.old }
        ensures told { told result ≡ first_entry (the_header.Reset at packet number) self.old }
        ensures rest { self.new ≡ rest_of (these 1 (one_where packet) 0 0 0 1) self.old }
    {
        EntryRef::Reset {
            end: end_at(at, number),
            cause: self.cause(),
            packet: self.packet_where(packet),
            lost: self.number(),
        }
    }
}

/// Reads the entry of a header beside which nothing stands. It is written where it lies, as `read_into` does.
fn read_plain<'a>(header: Header, entry: &mut EntryRef<'a>)
    requires { share header ≡ needs 0 0 }
    ensures { (l : Lists) → told entry.new ≡ entry_of header l }
{
    match header {
        Header::Full { part, kind, number } => *entry = full(part, kind, number),
        Header::Refused {
            part,
            kind,
            why,
            number,
        } => *entry = refused(part, kind, why, number),
        Header::Stopped { disk } => *entry = EntryRef::Stopped { disk },
        Header::Started { disk } => *entry = EntryRef::Started { disk },
        Header::Calm { part, kind, number } => *entry = calm(part, kind, number),
        Header::Settled => *entry = EntryRef::Settled,
        Header::Unsettled { part, kind, number } => *entry = unsettled(part, kind, number),
        Header::Idle { at, number } => *entry = idle(at, number),
        Header::Off { at, number } => *entry = off(at, number),
        Header::Blocked { at, number } => *entry = blocked(at, number),
        _ => unreachable!(),
    }
}

/// As many requests are pending as the ring holds.
fn full<'a>(part: Part, kind: LaneKind, number: u32) -> EntryRef<'a>
    ensures { told result ≡ kind_of (the_header.Full part kind number) }
{
    EntryRef::Full {
        who: who_at(kind, number, part),
    }
}

/// A request was refused.
fn refused<'a>(part: Part, kind: LaneKind, why: Why, number: u32) -> EntryRef<'a>
    ensures { told result ≡ kind_of (the_header.Refused part kind why number) }
{
    EntryRef::Refused {
        who: who_at(kind, number, part),
        why,
    }
}

/// What the line asked for changes nothing.
fn calm<'a>(part: Part, kind: LaneKind, number: u32) -> EntryRef<'a>
    ensures { told result ≡ kind_of (the_header.Calm part kind number) }
{
    EntryRef::Calm {
        who: who_at(kind, number, part),
    }
}

/// A settle ended though something is left to do here.
fn unsettled<'a>(part: Part, kind: LaneKind, number: u32) -> EntryRef<'a>
    ensures { told result ≡ kind_of (the_header.Unsettled part kind number) }
{
    EntryRef::Unsettled {
        who: who_at(kind, number, part),
    }
}

/// An end has nothing to do.
pub(crate) fn idle<'a>(at: EndMark, number: u32) -> EntryRef<'a>
    ensures { told result ≡ kind_of (the_header.Idle at number) }
{
    EntryRef::Idle {
        end: end_at(at, number),
    }
}

/// The end of a stopped server was to make a step.
fn off<'a>(at: EndMark, number: u32) -> EntryRef<'a>
    ensures { told result ≡ kind_of (the_header.Off at number) }
{
    EntryRef::Off {
        end: end_at(at, number),
    }
}

/// An end has no room for its next packet.
fn blocked<'a>(at: EndMark, number: u32) -> EntryRef<'a>
    ensures { told result ≡ kind_of (the_header.Blocked at number) }
{
    EntryRef::Blocked {
        end: end_at(at, number),
    }
}

/// The first of a list, and those after it.
fn first_of<T>(list: &[T]) -> (&T, &[T])
    requires { 0 < length list.now }
    ensures { list.now ≡ result.0.now ∷ result.1.now }
{
    match list {
        [first, rest @ ..] => (first, rest),
        [] => unreachable!(),
    }
}
