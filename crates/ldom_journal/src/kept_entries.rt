ghost use Rattle.std.specs.Prelude.{◌≡◌, ◌+◌, ◌<◌, ◌≤◌, [], ◌∷◌, length, true, vec_capacity, OnErr, OnOk};
ghost use Rattle.ldom_entries.specs.Decoded.{entry_of, framed, needs, share, these};

use crate::parts::Parts;
use domain_script::EndName;
use ldom_entries::{Bytes, Entries, Entry, Header, KeptRequest, mark_of};
use std::alloc::Global;
use std::marker::Model;
use vio_bytes::NoMemory;
use vio_tag::Cause;

/// The entries of a journal as they are kept, and the room that is left for more of them. An entry is a header of eight
/// bytes; what else it has stands in lists beside the headers, each in the order of the entries.
#[derive(Drop)]
pub(crate) struct KeptEntries {
    headers: Vec<Header>,
    parts: Parts,
    room: usize,
}

impl Model for KeptEntries {
    ghost use Rattle.std.specs.Prelude.{vec_capacity};
    ghost use Rattle.ldom_journal.specs.KeptState.{ArePartsKept};
    ghost use Rattle.ldom_entries.specs.Decoded.{entries_of};
    ghost use Rattle.ldom_entries.specs.JournalState.{JournalState};

    ghost Value = { JournalState };

    ghost view = { λ j. record { entries = entries_of j.headers.items j.parts.lists; room = j.room } };

    ghost invariant = { λ j. ArePartsKept j.headers.items j.parts (vec_capacity j.headers) j.room };
}

/// Room is made for so many entries at once, so that most calls of `reserve` look at numbers alone.
const AT_ONCE: usize = 64;

/// For more entries at once there is no memory.
const MOST_AT_ONCE: usize = 1 << 31;

#[tactic(auto, using(crate::proofs::Decoding::entries_more, ldom_entries::proofs::EntryCount::entries_count))]
impl KeptEntries {
    ghost use Rattle.std.specs.Prelude.{◌↔◌, ◌^◌, max, IsOk, IsTrue};
    ghost use Rattle.ldom_entries.specs.Beside.{nothing, only_numbers, only_packets};
    ghost use Rattle.ldom_entries.specs.JournalState.{PutsEntry};
    ghost use Rattle.ldom_journal.specs.PartsState.{with_frame, with_read};
    ghost use Rattle.ldom_entries.specs.Whole.{is_whole};
    ghost use Rattle.ldom_entries.specs.declared.entry.Entry.TheVariants as the_entry;

    /// No entries, and no room. It takes no memory.
    pub(crate) fn new(alloc: Global) -> Self
        ensures { result ≡ record { entries = []; room = 0 } }
    {
        KeptEntries {
            headers: Vec::new(alloc),
            parts: Parts::new(alloc),
            room: 0,
        }
    }

    /// Makes room for n more entries, if there isn't yet. The memory grows by doubling, so that asking for one entry at
    /// a time costs no more than linear time. Where there is that room already, nothing is asked for. After `NoMemory`
    /// the entries are as they were.
    pub(crate) fn reserve(&mut self, n: usize) -> Result<(), NoMemory>
        ensures entries { self.new.entries ≡ self.old.entries }
        ensures room { OnOk result (self.new.room ≡ max self.old.room n) }
        ensures same { OnErr result (self.new.room ≡ self.old.room) }
        ensures there { n ≤ self.old.room → IsOk result }
    {
        if self.room < n {
            if self.parts.ready() < n {
                grow(&mut self.headers, &mut self.parts, n)?;
            }
            self.room = n;
        }
        Ok(())
    }

    /// Puts an entry last beside which nothing stands.
    pub(crate) fn push_plain(&mut self, header: Header)
        requires room { 0 < self.old.room }
        requires share { share header ≡ needs 0 0 }
        ensures { PutsEntry self.old (entry_of header nothing) self.new }
    {
        self.parts.put_none();
        self.headers.push_reserved(header);
        self.room -= 1;
    }

    /// Puts an entry last beside which a number stands.
    pub(crate) fn push_number(&mut self, header: Header, n: u64)
        requires room { 0 < self.old.room }
        requires share { share header ≡ needs 1 0 }
        ensures { PutsEntry self.old (entry_of header (only_numbers (n ∷ []))) self.new }
    {
        self.parts.put_number(n);
        self.headers.push_reserved(header);
        self.room -= 1;
    }

    /// Puts an entry last beside which two numbers stand.
    pub(crate) fn push_numbers(&mut self, header: Header, n: u64, m: u64)
        requires room { 0 < self.old.room }
        requires share { share header ≡ needs 2 0 }
        ensures { PutsEntry self.old (entry_of header (only_numbers (n ∷ m ∷ []))) self.new }
    {
        self.parts.put_numbers(n, m);
        self.headers.push_reserved(header);
        self.room -= 1;
    }

    /// Puts an entry last beside which a packet stands.
    pub(crate) fn push_packet(&mut self, header: Header, packet: &[u8; 64])
        requires room { 0 < self.old.room }
        requires share { share header ≡ needs 0 1 }
        ensures { PutsEntry self.old (entry_of header (only_packets (packet.now ∷ []))) self.new }
    {
        self.parts.put_packet(packet);
        self.headers.push_reserved(header);
        self.room -= 1;
    }

    /// Puts an entry last beside which two numbers and bytes stand.
    fn push_read(&mut self, header: Header, n: u64, m: u64, bytes: Bytes)
        requires room { 0 < self.old.room }
        requires share { share header ≡ these 2 0 0 1 0 0 }
        ensures { PutsEntry self.old (entry_of header (with_read n m bytes)) self.new }
    {
        self.parts.put_read(n, m, bytes);
        self.headers.push_reserved(header);
        self.room -= 1;
    }

    /// Puts an entry last beside which a frame stands, and numbers.
    pub(crate) fn push_frame(&mut self, header: Header, numbers: &[u64], frame: &[u8])
        requires room { 0 < self.old.room }
        requires few { length numbers.now ≤ 2 }
        requires short { length frame.now ≤ 1514 }
        requires share { share header ≡ framed (length numbers.now) }
        ensures { PutsEntry self.old (entry_of header (with_frame numbers.now frame.now)) self.new }
    {
        self.parts.put_frame(numbers, frame);
        self.headers.push_reserved(header);
        self.room -= 1;
    }

    /// A request that was taken up.
    pub(crate) fn push_accepted(&mut self, disk: u32, id: u64, request: KeptRequest)
        requires { 0 < self.old.room }
        ensures { PutsEntry self.old (the_entry.Accepted disk id request) self.new }
    {
        self.parts.put_request(id, request);
        self.headers.push_reserved(Header::Accepted { disk });
        self.room -= 1;
    }

    /// A request that was completed. Its bytes are kept where there are some, or room for some.
    pub(crate) fn push_done(&mut self, disk: u32, id: u64, operation: u8, status: u32, bytes: Bytes)
        requires { 0 < self.old.room }
        ensures { PutsEntry self.old (the_entry.Done disk id operation status bytes) self.new }
    {
        let read = !bytes.is_empty() || bytes.room() > 0;
        let header = Header::Done {
            operation,
            read,
            disk,
        };
        if read {
            self.push_read(header, id, u64::from(status), bytes);
        } else {
            self.push_numbers(header, id, u64::from(status));
        }
    }

    /// A descriptor that the server fetched.
    pub(crate) fn push_desc(&mut self, end: EndName, slot: u32, bytes: &[u8; 128])
        requires { 0 < self.old.room }
        ensures { PutsEntry self.old (the_entry.Desc end slot bytes.now) self.new }
    {
        let header = Header::Desc {
            at: mark_of(end),
            number: end.lane.number,
        };
        self.parts.put_descriptor(u64::from(slot), bytes);
        self.headers.push_reserved(header);
        self.room -= 1;
    }

    /// An end that was reset, maybe by a packet that it took, and so many frames were lost by that.
    pub(crate) fn push_reset(
        &mut self,
        end: EndName,
        cause: Cause,
        packet: &Option<[u8; 64]>,
        lost: u32,
    )
        requires { 0 < self.old.room }
        ensures { PutsEntry self.old (the_entry.Reset end cause packet.now lost) self.new }
    {
        let header = Header::Reset {
            at: mark_of(end),
            packet: packet.is_some(),
            number: end.lane.number,
        };
        self.parts
            .put_cause(u64::from(lost), cause, packet.as_ref());
        self.headers.push_reserved(header);
        self.room -= 1;
    }

    /// An entry of a kind that is kept whole.
    pub(crate) fn push_whole(&mut self, entry: Entry)
        requires room { 0 < self.old.room }
        requires whole { is_whole entry ≡ true }
        ensures { PutsEntry self.old entry self.new }
    {
        self.parts.put_whole(entry);
        self.headers.push_reserved(Header::Whole);
        self.room -= 1;
    }

    /// How many entries there are.
    pub(crate) fn len(&self) -> usize
        ensures count { result ≡ length self.now.entries }
        ensures small { length self.now.entries < 2 ^ 63 }
    {
        self.headers.len()
    }

    /// Whether there are no entries.
    pub(crate) fn is_empty(&self) -> bool
        ensures { IsTrue result ↔ (length self.now.entries ≡ 0) }
    {
        self.headers.is_empty()
    }

    /// The entries, to be read in order.
    pub(crate) fn entries(&self) -> Entries<'_>
        ensures { result ≡ self.now.entries }
    {
        Entries::new(self.headers.as_slice(), self.parts.rest())
    }
}

/// Makes room for n more headers and for what stands beside them. It stands apart so that the test before it is
/// inlined.
#[cold]
#[inline(never)]
fn grow(headers: &mut Vec<Header>, parts: &mut Parts, n: usize) -> Result<(), NoMemory>
    requires more { parts.old.ready ≤ n }
    requires headers { length headers.old.items + parts.old.ready ≤ vec_capacity headers.old }
    ensures items { headers.new.items ≡ headers.old.items }
    ensures lists { parts.new.lists ≡ parts.old.lists }
    ensures headers { length headers.new.items + parts.new.ready ≤ vec_capacity headers.new }
    ensures ready { OnOk result (n ≤ parts.new.ready) }
    ensures same { OnErr result (parts.new.ready ≡ parts.old.ready) }
{
    let many = n.max(AT_ONCE);
    if many > MOST_AT_ONCE {
        return Err(NoMemory);
    }
    headers.reserve(many)?;
    parts.reserve(many)
}
