ghost use Rattle.std.specs.Prelude.{◌≡◌, ◌≢◌, ◌+◌, ◌<◌, ◌≤◌, ◌↔◌, None, [], length, slice_get, IfOk, IsErr, OnErr, OnOk};
ghost use Rattle.ldc_queue.specs.ChannelView.{channel_with, channel_without_first, closed_channel, configured_channel, fresh_channel, receive_queue, transmit_queue, HasRoom, IsFull};
ghost use Rattle.ldc_queue.specs.Waiting.{taken_out};
ghost use Rattle.ldc_queue.specs.Wire.{peer_of, state_of, waiting_for};
ghost use Rattle.ldc_queue.specs.declared.end.ChannelState.TheVariants.{Up};

use crate::end::{ChannelState, End, NotUp, PutFault, QueueState};
use crate::queue::{Full, Queue};
use std::alloc::Global;
use std::marker::Model;
use vio_bytes::NoMemory;

/// A channel of a domain: two ends, and for each the packets that wait for it, as the LDC chapter of the UltraSPARC Virtual Machine
/// Specification has them. A packet waits for the other end as soon as it is put.
#[derive(Drop)]
pub struct Channel {
    end_a: ChannelState,
    end_b: ChannelState,
    to_a: Queue,
    to_b: Queue,
}

impl Model for Channel {
    ghost use Rattle.std.specs.Prelude.{◌≡◌};
    ghost use Rattle.ldc_queue.specs.ChannelView.{ChannelView};

    ghost Value = { ChannelView };

    ghost view = { λ c. record {
      wire = record { end_a = c.end_a; end_b = c.end_b; to_a = c.to_a.packets; to_b = c.to_b.packets };
      head_a = c.to_a.head;
      head_b = c.to_b.head;
      entries = c.to_a.entries;
    } };

    ghost invariant = { λ c. c.to_b.entries ≡ c.to_a.entries };
}

impl Channel {
    /// A channel with no end configured and nothing waiting. Each queue has so many entries, 8 to 256, a power of two in the
    /// specification, and holds one packet fewer.
    pub fn new(alloc: Global, entries: u32) -> Result<Channel, NoMemory>
        requires some { 8 ≤ entries }
        requires few { entries ≤ 256 }
        ensures { IfOk result (λ channel. channel ≡ fresh_channel entries) }
    {
        let to_a = Queue::new(alloc, entries)?;
        let to_b = Queue::new(alloc, entries)?;
        Ok(Channel {
            end_a: ChannelState::Down,
            end_b: ChannelState::Down,
            to_a,
            to_b,
        })
    }

    /// The state of an end.
    pub fn state(&self, end: End) -> ChannelState
        ensures { result ≡ state_of end self.now.wire }
    {
        match end {
            End::A => self.end_a,
            End::B => self.end_b,
        }
    }

    /// The queue that the end takes from: LDC rx get state.
    pub fn rx_state(&self, end: End) -> QueueState
        ensures { result ≡ receive_queue end self.now }
    {
        let (head, tail) = self.places(end);
        QueueState {
            head,
            tail,
            state: self.state(end),
        }
    }

    /// The queue that the end puts into: LDC tx get state.
    pub fn tx_state(&self, end: End) -> QueueState
        ensures { result ≡ transmit_queue end self.now }
    {
        let (head, tail) = self.places(end.peer());
        QueueState {
            head,
            tail,
            state: self.state(end),
        }
    }

    /// Configures an end: LDC tx qconf and LDC rx qconf. Where it was `Up` both queues are emptied, all places become 0, and the
    /// other end, if it was `Up`, becomes `Resetting`; else nothing but the end's own state changes.
    pub fn configure(&mut self, end: End)
        ensures { self.new ≡ configured_channel end self.old }
    {
        if self.state(end) == ChannelState::Up {
            self.empty();
            self.upset(end.peer());
        }
        self.set_state(end, ChannelState::Up);
    }

    /// Closes an end: both queues are emptied, all places become 0, and the other end, if it was `Up`, becomes `Resetting`.
    pub fn close(&mut self, end: End)
        ensures { self.new ≡ closed_channel end self.old }
    {
        self.empty();
        self.upset(end.peer());
        self.set_state(end, ChannelState::Down);
    }

    /// Puts a packet, which then waits last for the other end.
    pub fn put(&mut self, end: End, packet: &[u8; 64]) -> Result<(), PutFault>
        ensures not_up { (result ≡ Err PutFault.NotUp) ↔ (state_of end self.old.wire ≢ Up) }
        ensures full { (result ≡ Err PutFault.Full) ↔ ((state_of end self.old.wire ≡ Up) × IsFull (peer_of end) self.old) }
        ensures ok { OnOk result ((state_of end self.old.wire ≡ Up) × HasRoom (peer_of end) self.old) }
        ensures waits { OnOk result (self.new ≡ channel_with (peer_of end) packet.now self.old) }
        ensures refused { OnErr result (self.new ≡ self.old) }
    {
        if self.state(end) != ChannelState::Up {
            return Err(PutFault::NotUp);
        }
        self.push(end.peer(), packet)
    }

    /// Takes the packet that has waited longest for the end.
    pub fn take(&mut self, end: End) -> Result<Option<[u8; 64]>, NotUp>
        ensures not_up { IsErr result ↔ (state_of end self.old.wire ≢ Up) }
        ensures up { OnOk result (state_of end self.old.wire ≡ Up) }
        ensures first { IfOk result (λ first. first ≡ slice_get (waiting_for end self.old.wire) 0) }
        ensures gone { OnOk result (self.new ≡ channel_without_first end self.old) }
        ensures refused { OnErr result (self.new ≡ self.old) }
    {
        if self.state(end) != ChannelState::Up {
            return Err(NotUp);
        }
        Ok(self.lose(end))
    }

    /// The same, where the packet is written over the caller's. Tells whether one waited; if none did, or after `NotUp`,
    /// nothing is said of the caller's.
    pub fn take_into(&mut self, end: End, packet: &mut [u8; 64]) -> Result<bool, NotUp>
        ensures not_up { IsErr result ↔ (state_of end self.old.wire ≢ Up) }
        ensures up { OnOk result (state_of end self.old.wire ≡ Up) }
        ensures first { IfOk result (λ took. taken_out took packet.new ≡ slice_get (waiting_for end self.old.wire) 0) }
        ensures gone { OnOk result (self.new ≡ channel_without_first end self.old) }
        ensures refused { OnErr result (self.new ≡ self.old) }
    {
        if self.state(end) != ChannelState::Up {
            return Err(NotUp);
        }
        let took = match end {
            End::A => self.to_a.pop_into(packet),
            End::B => self.to_b.pop_into(packet),
        };
        Ok(took)
    }

    /// How many packets wait for the end.
    pub fn waiting(&self, end: End) -> u32
        ensures count { result ≡ length (waiting_for end self.now.wire) }
        ensures within { result < self.now.entries }
    {
        match end {
            End::A => self.to_a.len(),
            End::B => self.to_b.len(),
        }
    }

    /// How many packets the end could put before the queue is full.
    pub fn room(&self, end: End) -> u32
        ensures { result + length (waiting_for (peer_of end) self.now.wire) + 1 ≡ self.now.entries }
    {
        let waiting = self.waiting(end.peer());
        self.to_a.entries() - waiting - 1
    }

    /// Loses the packet that has waited longest for the end, in any state.
    pub fn lose(&mut self, end: End) -> Option<[u8; 64]>
        ensures first { result ≡ slice_get (waiting_for end self.old.wire) 0 }
        ensures gone { self.new ≡ channel_without_first end self.old }
    {
        match end {
            End::A => self.to_a.pop(),
            End::B => self.to_b.pop(),
        }
    }

    /// Makes a packet wait last for the end, though the other end never put it.
    pub fn forge(&mut self, end: End, packet: &[u8; 64]) -> Result<(), PutFault>
        ensures not_up { (result ≡ Err PutFault.NotUp) ↔ (state_of end self.old.wire ≢ Up) }
        ensures full { (result ≡ Err PutFault.Full) ↔ ((state_of end self.old.wire ≡ Up) × IsFull end self.old) }
        ensures ok { OnOk result ((state_of end self.old.wire ≡ Up) × HasRoom end self.old) }
        ensures waits { OnOk result (self.new ≡ channel_with end packet.now self.old) }
        ensures refused { OnErr result (self.new ≡ self.old) }
    {
        if self.state(end) != ChannelState::Up {
            return Err(PutFault::NotUp);
        }
        self.push(end, packet)
    }
}

impl Channel {
    ghost use Rattle.ldc_queue.specs.ChannelView.{emptied_channel, head_for, tail_for};
    ghost use Rattle.ldc_queue.specs.Wire.{upset, with_state};

    // The places where the end takes next, and where the other end puts next.
    fn places(&self, end: End) -> (u32, u32)
        ensures head { result.0 ≡ head_for end self.now }
        ensures tail { result.1 ≡ tail_for end self.now }
    {
        match end {
            End::A => (self.to_a.head(), self.to_a.tail()),
            End::B => (self.to_b.head(), self.to_b.tail()),
        }
    }

    // Empties both queues.
    fn empty(&mut self)
        ensures { self.new ≡ emptied_channel self.old }
    {
        self.to_a.clear();
        self.to_b.clear();
    }

    fn set_state(&mut self, end: End, state: ChannelState)
        ensures { self.new ≡ record self.old { wire = with_state end state self.old.wire } }
    {
        match end {
            End::A => self.end_a = state,
            End::B => self.end_b = state,
        }
    }

    // A configured end becomes `Resetting`.
    fn upset(&mut self, end: End)
        ensures { self.new ≡ record self.old { wire = with_state end (upset (state_of end self.old.wire)) self.old.wire } }
    {
        if self.state(end) == ChannelState::Up {
            self.set_state(end, ChannelState::Resetting);
        }
    }

    // Puts a packet into the queue of the end that it is for.
    fn push(&mut self, end: End, packet: &[u8; 64]) -> Result<(), PutFault>
        ensures not_up { result ≢ Err PutFault.NotUp }
        ensures full { (result ≡ Err PutFault.Full) ↔ IsFull end self.old }
        ensures ok { OnOk result (HasRoom end self.old) }
        ensures waits { OnOk result (self.new ≡ channel_with end packet.now self.old) }
        ensures refused { OnErr result (self.new ≡ self.old) }
    {
        let pushed = match end {
            End::A => self.to_a.push(packet),
            End::B => self.to_b.push(packet),
        };
        match pushed {
            Ok(()) => Ok(()),
            Err(Full) => Err(PutFault::Full),
        }
    }
}
