ghost use Rattle.std.specs.Prelude.{◌≡◌, ◌^◌, ◌≤◌, ◌<◌, [], ◌∷◌, length, true, OnOk, OnErr};

use ldom_entries::{Beside, Bytes, Entry, KeptRequest, WholeEntry};
use std::alloc::Global;
use std::marker::Model;
use trimmed_arrays::{ByteStrings, TrimmedArrays};
use vio_bytes::NoMemory;
use vio_tag::Cause;

/// What stands beside the headers of a journal: eight lists, each in the order of the entries, and the room that is
/// left for more of them.
#[derive(Drop)]
pub(crate) struct Parts {
    numbers: Vec<u64>,
    packets: TrimmedArrays,
    descriptors: TrimmedArrays,
    reads: Vec<Bytes>,
    requests: Vec<KeptRequest>,
    causes: Vec<Cause>,
    frames: ByteStrings,
    wholes: Vec<WholeEntry>,

    /// For how many more entries there is room, whatever their kinds. An entry has two numbers at most, and one of
    /// anything else.
    ready: usize,
}

impl Model for Parts {
    ghost use Rattle.std.specs.Prelude.{◌≡◌, ◌+◌, ◌*◌, ◌≤◌, length, vec_capacity};
    ghost use Rattle.ldom_journal.specs.PartsState.{PartsState};
    ghost use Rattle.ldom_entries.specs.Beside.{made};

    ghost Value = { PartsState };

    ghost view = { λ p. record {
      lists =
          made p.numbers.items p.packets.items p.descriptors.items p.reads.items p.requests.items p.causes.items
          p.frames.items p.wholes.items;
      ready = p.ready;
    } };

    ghost invariant = { λ p. record {
      numbers : length p.numbers.items + 2 * p.ready ≤ vec_capacity p.numbers;
      packets : p.ready ≤ p.packets.room;
      packet_size : p.packets.size ≡ 64;
      descriptors : p.ready ≤ p.descriptors.room;
      descriptor_size : p.descriptors.size ≡ 128;
      reads : length p.reads.items + p.ready ≤ vec_capacity p.reads;
      requests : length p.requests.items + p.ready ≤ vec_capacity p.requests;
      causes : length p.causes.items + p.ready ≤ vec_capacity p.causes;
      frames : p.ready ≤ p.frames.room;
      frame_most : p.frames.most ≡ 1514;
      wholes : length p.wholes.items + p.ready ≤ vec_capacity p.wholes;
    } };
}

/// The bytes of a packet.
const PACKET: usize = 64;

/// The bytes of a descriptor.
const DESCRIPTOR: usize = 128;

/// The most bytes of a frame.
const FRAME: usize = 1514;

impl Parts {
    ghost use Rattle.std.specs.Option.{option_copied};
    ghost use Rattle.ldom_entries.specs.Beside.{nothing, only_numbers, only_packets};
    ghost use Rattle.ldom_journal.specs.PartsState.{PutsParts, only_whole, with_cause, with_descriptor, with_frame};
    ghost use Rattle.ldom_journal.specs.PartsState.{with_read, with_request};
    ghost use Rattle.ldom_entries.specs.Whole.{is_whole};

    /// Nothing, and no room. It takes no memory.
    pub(crate) fn new(alloc: Global) -> Self
        ensures { result ≡ record { lists = nothing; ready = 0 } }
    {
        Parts {
            numbers: Vec::new(alloc),
            packets: TrimmedArrays::new(alloc, PACKET),
            descriptors: TrimmedArrays::new(alloc, DESCRIPTOR),
            reads: Vec::new(alloc),
            requests: Vec::new(alloc),
            causes: Vec::new(alloc),
            frames: ByteStrings::new(alloc, FRAME),
            wholes: Vec::new(alloc),
            ready: 0,
        }
    }

    /// For how many more entries there is room.
    pub(crate) fn ready(&self) -> usize
        ensures { result ≡ self.now.ready }
    {
        self.ready
    }

    /// Makes room for what stands beside n more entries. The memory grows by doubling, so that asking for one entry at
    /// a time costs no more than linear time. After `NoMemory` the parts are as they were.
    pub(crate) fn reserve(&mut self, n: usize) -> Result<(), NoMemory>
        requires few { n ≤ 2 ^ 31 }
        requires more { self.old.ready ≤ n }
        ensures lists { self.new.lists ≡ self.old.lists }
        ensures ready { OnOk result (self.new.ready ≡ n) }
        ensures same { OnErr result (self.new.ready ≡ self.old.ready) }
    {
        self.numbers.reserve(2 * n)?;
        self.packets.reserve(n)?;
        self.descriptors.reserve(n)?;
        self.reads.reserve(n)?;
        self.requests.reserve(n)?;
        self.causes.reserve(n)?;
        self.frames.reserve(n)?;
        self.wholes.reserve(n)?;
        self.ready = n;
        Ok(())
    }

    /// An entry beside which nothing stands. As each of the calls below, it takes no memory and wants room.
    pub(crate) fn put_none(&mut self)
        requires { 0 < self.old.ready }
        ensures { PutsParts self.old nothing self.new }
    {
        self.ready -= 1;
    }

    /// An entry with a number.
    pub(crate) fn put_number(&mut self, n: u64)
        requires { 0 < self.old.ready }
        ensures { PutsParts self.old (only_numbers (n ∷ [])) self.new }
    {
        self.numbers.push_reserved(n);
        self.ready -= 1;
    }

    /// An entry with two numbers.
    pub(crate) fn put_numbers(&mut self, n: u64, m: u64)
        requires { 0 < self.old.ready }
        ensures { PutsParts self.old (only_numbers (n ∷ m ∷ [])) self.new }
    {
        self.numbers.push_reserved(n);
        self.numbers.push_reserved(m);
        self.ready -= 1;
    }

    /// An entry with a packet.
    pub(crate) fn put_packet(&mut self, packet: &[u8; 64])
        requires { 0 < self.old.ready }
        ensures { PutsParts self.old (only_packets (packet.now ∷ [])) self.new }
    {
        self.packets.push(packet);
        self.ready -= 1;
    }

    /// An entry with a number and a descriptor.
    pub(crate) fn put_descriptor(&mut self, n: u64, descriptor: &[u8; 128])
        requires { 0 < self.old.ready }
        ensures { PutsParts self.old (with_descriptor n descriptor.now) self.new }
    {
        self.numbers.push_reserved(n);
        self.descriptors.push(descriptor);
        self.ready -= 1;
    }

    /// An entry with two numbers, and the bytes that a read gave.
    pub(crate) fn put_read(&mut self, n: u64, m: u64, bytes: Bytes)
        requires { 0 < self.old.ready }
        ensures { PutsParts self.old (with_read n m bytes) self.new }
    {
        self.numbers.push_reserved(n);
        self.numbers.push_reserved(m);
        self.reads.push_reserved(bytes);
        self.ready -= 1;
    }

    /// An entry with a number and a request.
    pub(crate) fn put_request(&mut self, n: u64, request: KeptRequest)
        requires { 0 < self.old.ready }
        ensures { PutsParts self.old (with_request n request) self.new }
    {
        self.numbers.push_reserved(n);
        self.requests.push_reserved(request);
        self.ready -= 1;
    }

    /// An entry with a number and the cause of a reset, and maybe the packet that it came by.
    pub(crate) fn put_cause(&mut self, n: u64, cause: Cause, packet: Option<&[u8; 64]>)
        requires { 0 < self.old.ready }
        ensures { PutsParts self.old (with_cause n cause (option_copied packet.entry)) self.new }
    {
        self.numbers.push_reserved(n);
        self.causes.push_reserved(cause);
        if let Some(packet) = packet {
            self.packets.push(packet);
        }
        self.ready -= 1;
    }

    /// An entry with a frame, and two numbers at most.
    pub(crate) fn put_frame(&mut self, numbers: &[u64], frame: &[u8])
        requires room { 0 < self.old.ready }
        requires few { length numbers.now ≤ 2 }
        requires short { length frame.now ≤ 1514 }
        ensures { PutsParts self.old (with_frame numbers.now frame.now) self.new }
    {
        match self.numbers.extend_from_slice(numbers) {
            Ok(()) => {}
            Err(_) => unreachable!(),
        }
        self.frames.push(frame);
        self.ready -= 1;
    }

    /// An entry that is kept whole.
    pub(crate) fn put_whole(&mut self, entry: Entry)
        requires room { 0 < self.old.ready }
        requires whole { is_whole entry ≡ true }
        ensures { PutsParts self.old (only_whole entry) self.new }
    {
        self.wholes.push_reserved(WholeEntry::new(entry));
        self.ready -= 1;
    }

    /// All of it, to be read from its front.
    pub(crate) fn rest(&self) -> Beside<'_>
        ensures { result ≡ self.now.lists }
    {
        Beside::new(
            self.numbers.as_slice(),
            self.packets.rest(),
            self.descriptors.rest(),
            self.reads.as_slice(),
            self.requests.as_slice(),
            self.causes.as_slice(),
            self.frames.rest(),
            self.wholes.as_slice(),
        )
    }
}
