// One of a channel's two queues.

ghost use Rattle.std.specs.Prelude.{◌≡◌, ◌+◌, ◌<◌, ◌≤◌, ◌↔◌, [], ◌∷◌, ◌++◌, drop, length, slice_get, IfOk, IsOk, OnErr, OnOk};
ghost use Rattle.ldc_queue.specs.Waiting.{head_past, tail_place, taken_out};

use circular_buffer::HeapCircularBuffer;
use std::alloc::Global;
use std::marker::Model;
use vio_bytes::NoMemory;

/// The bytes of a packet.
const PACKET: u32 = 64;

/// No packet fits: as many wait as the queue holds.
#[derive(Clone, Copy)]
pub(crate) struct Full;

/// The packets that wait for an end, and the place in bytes where it takes the next one. It holds one packet fewer than it has
/// entries.
#[derive(Drop)]
pub(crate) struct Queue {
    packets: HeapCircularBuffer<[u8; 64]>,
    head: u32,
    entries: u32,
}

impl Model for Queue {
    ghost use Rattle.std.specs.Prelude.{◌≡◌, ◌+◌, ◌*◌, ◌<◌, ◌≤◌, length};
    ghost use Rattle.ldc_queue.specs.Waiting.{Waiting};

    ghost Value = { Waiting };

    ghost view = { λ q. record { packets = q.packets.items; head = q.head; entries = q.entries } };

    ghost invariant = { λ q. record {
      some : 8 ≤ q.entries;
      few : q.entries ≤ 256;
      room : q.packets.capacity + 1 ≡ q.entries;
      waiting : length q.packets.items < q.entries;
      head : q.head < 64 * q.entries;
    } };
}

impl Queue {
    /// An empty queue of so many entries, the next packet at its place 0.
    pub(crate) fn new(alloc: Global, entries: u32) -> Result<Queue, NoMemory>
        requires some { 8 ≤ entries }
        requires few { entries ≤ 256 }
        ensures { IfOk result (λ q. q ≡ record { packets = []; head = 0; entries = entries }) }
    {
        let packets = HeapCircularBuffer::with_capacity(alloc, entries as usize - 1)?;
        Ok(Queue {
            packets,
            head: 0,
            entries,
        })
    }

    /// Lets all packets go, and begins at the place 0 again.
    pub(crate) fn clear(&mut self)
        ensures { self.new ≡ record { packets = []; head = 0; entries = self.old.entries } }
    {
        self.packets.clear();
        self.head = 0;
    }

    /// How many packets wait.
    pub(crate) fn len(&self) -> u32
        ensures count { result ≡ length self.now.packets }
        ensures within { result < self.now.entries }
        ensures few { self.now.entries ≤ 256 }
    {
        self.packets.len() as u32
    }

    /// How many entries there are.
    pub(crate) fn entries(&self) -> u32
        ensures { result ≡ self.now.entries }
    {
        self.entries
    }

    /// The place where the next packet is taken.
    pub(crate) fn head(&self) -> u32
        ensures { result ≡ self.now.head }
    {
        self.head
    }

    /// The place where the next packet is put.
    pub(crate) fn tail(&self) -> u32
        ensures { result ≡ tail_place self.now.entries self.now.head self.now.packets }
    {
        (self.head + PACKET * self.len()) % (PACKET * self.entries)
    }

    /// Puts a packet after those that wait.
    pub(crate) fn push(&mut self, packet: &[u8; 64]) -> Result<(), Full>
        ensures variant { IsOk result ↔ (length self.old.packets + 1 < self.old.entries) }
        ensures full { OnErr result (length self.old.packets + 1 ≡ self.old.entries) }
        ensures ok { OnOk result (self.new ≡ record self.old { packets = self.old.packets ++ packet.now ∷ [] }) }
        ensures err { OnErr result (self.new ≡ self.old) }
    {
        match self.packets.try_push_back(*packet) {
            Ok(()) => Ok(()),
            Err(_) => Err(Full),
        }
    }

    /// Takes the packet that has waited longest.
    pub(crate) fn pop(&mut self) -> Option<[u8; 64]>
        ensures first { result ≡ slice_get self.old.packets 0 }
        ensures rest { self.new ≡ record {
          packets = drop 1 self.old.packets;
          head = head_past self.old.entries self.old.head self.old.packets;
          entries = self.old.entries;
        } }
    {
        match self.packets.pop_front() {
            Some(packet) => {
                self.head = (self.head + PACKET) % (PACKET * self.entries);
                Some(packet)
            }
            None => None,
        }
    }

    /// The same, where the packet is written over the caller's. Tells whether one waited; if none did, nothing is said of
    /// that.
    pub(crate) fn pop_into(&mut self, packet: &mut [u8; 64]) -> bool
        ensures first { taken_out result packet.new ≡ slice_get self.old.packets 0 }
        ensures rest { self.new ≡ record {
          packets = drop 1 self.old.packets;
          head = head_past self.old.entries self.old.head self.old.packets;
          entries = self.old.entries;
        } }
    {
        match self.packets.front() {
            Some(first) => *packet = *first,
            None => return false,
        }
        let _first = self.packets.pop_front();
        self.head = (self.head + PACKET) % (PACKET * self.entries);
        true
    }
}
