//! The switch.

ghost use Rattle.std.specs.Prelude.{◌≡◌, ℕ, ◌+◌, ◌<◌, ◌≤◌, ◌↔◌, ◌==◌, Some, [], if◌then◌else◌, length, slice_get, take, IfNone, IfOk, IfSome, IsBitSet, IsNone};
ghost use Rattle.std.specs.Option.{option_map, ForSome};
ghost use Rattle.vnet_switch.specs.Forward.{GetsFrame, HasAddress, IsGroup, PortIs};
ghost use Rattle.vnet_switch.specs.PortSet.{IsSetOf};
ghost use Rattle.vnet_switch.specs.Queues.{waiting_for, waiting_in_all, with_last, with_session, without_first, written_front, ChangesAt, QueueHasRoom, IsFull};
ghost use Rattle.vnet_switch.specs.Shown.{fresh_switch};

use crate::forwarding::{self, Switched};
use crate::kept_frames::KeptFrames;
use crate::port::Port;
use std::alloc::Global;
use std::marker::Model;
use vio_bytes::NoMemory;

/// A switch of up to 32 ports, numbered from 0.
#[derive(Drop)]
pub struct Switch {
    ports: Vec<Port>,
    frames: KeptFrames,
}

impl Model for Switch {
    ghost use Rattle.vnet_switch.specs.Named.{IsSound};
    ghost use Rattle.vnet_switch.specs.PortView.{SwitchView};
    ghost use Rattle.vnet_switch.specs.Shown.{switch_shown};

    ghost Value = { SwitchView };

    ghost view = { λ s. switch_shown s.ports.items s.frames };

    ghost invariant = { λ s. IsSound s.ports.items s.frames };
}

impl Switch {
    /// A switch with one port for each of these numbers, at most 32, of which none has a session. A port's queue holds as
    /// many frames as its number says. No other call takes memory.
    pub fn new(alloc: Global, slots: &[u32]) -> Result<Switch, NoMemory>
        requires { length slots.now ≤ 32 }
        ensures { IfOk result (λ switch. switch ≡ fresh_switch slots.now) }
    {
        let mut ports = Vec::with_capacity(alloc, slots.len())?;
        let mut room = 0;
        for count in slots {
            ports.push(Port::new(alloc, *count)?)?;
            room += *count as usize;
        }
        let frames = KeptFrames::new(alloc, room)?;
        Ok(Switch { ports, frames })
    }

    /// How many ports there are.
    pub fn ports(&self) -> u32
        ensures count { result ≡ length self.now.ports }
        ensures few { result ≤ 32 }
    {
        self.ports.len() as u32
    }

    /// The port that has this address.
    pub fn port_of(&self, address: &[u8; 6]) -> Option<u32>
        ensures found { IfSome result (HasAddress self.now.ports address.now) }
        ensures only { (k : ℕ) → HasAddress self.now.ports address.now k → result ≡ Some k }
    {
        forwarding::port_of(&self.ports, address)
    }

    /// Tells the port's address and at most seven groups, or by `None` that its end has no open session. What waits for the
    /// port stays.
    pub fn set_port(&mut self, port: u32, address: Option<[u8; 6]>, groups: &[[u8; 6]])
        requires port { port < length self.old.ports }
        // No other port has the address.
        requires differ { ForSome address (λ own. (k : ℕ) → HasAddress self.old.ports own k → k ≡ port) }
        requires few { length groups.now ≤ 7 }
        ensures session { ChangesAt (λ k. k ≡ port) (with_session address groups.now) self.old.ports self.new.ports }
        ensures kept { self.new.kept ≡ self.old.kept }
    {
        self.ports[port as usize].set_session(address, groups);
    }

    /// The ports that a frame for this destination goes to, which came from a port: bit k for port k. It is never that
    /// port, and never one without a session.
    pub fn ports_for(&self, dst: &[u8; 6], from: u32) -> u32
        requires { from < length self.now.ports }
        ensures set { IsSetOf result (GetsFrame self.now.ports dst.now from) }
        // A frame for one address goes to one port at most.
        ensures one { (j k : ℕ) → ¬ (IsGroup dst.now) → IsBitSet result j → IsBitSet result k → j ≡ k }
    {
        forwarding::ports_for(&self.ports, dst, from)
    }

    /// Puts a frame of 14 to 1,514 bytes, which came from a port, last into the queue of each port for its destination. A
    /// port whose queue is full doesn't get it, and others do.
    pub fn accept(&mut self, from: u32, frame: &[u8]) -> Switched
        requires port { from < length self.old.ports }
        requires long { 14 ≤ length frame.now }
        requires short { length frame.now ≤ 1514 }
        // A queue has room or is full, so the two sets are apart, and together all that the frame is for.
        ensures out { IsSetOf result.out (λ k.
            GetsFrame self.old.ports (take 6 frame.now) from k × PortIs self.old.ports k QueueHasRoom) }
        ensures full { IsSetOf result.full (λ k.
            GetsFrame self.old.ports (take 6 frame.now) from k × PortIs self.old.ports k IsFull) }
        ensures queues { ChangesAt (IsBitSet result.out) (with_last frame.now) self.old.ports self.new.ports }
        ensures kept { self.new.kept ≡ (if result.out == 0 then self.old.kept else self.old.kept + 1) }
    {
        let set = forwarding::ports_for(&self.ports, &destination_of(frame), from);
        let key = self.frames.next_key();
        let offered = forwarding::offer(&mut self.ports, set, key);
        self.frames.keep(frame, offered.names);
        offered.switched
    }

    /// Takes the frame that has waited longest for the port. Its bytes are written to the front of the buffer, and the
    /// answer is their number; where none waits the answer is `None`.
    pub fn next(&mut self, port: u32, buf: &mut [u8; 1514]) -> Option<usize>
        requires { port < length self.old.ports }
        ensures none { IsNone result ↔ (waiting_for port self.old.ports ≡ []) }
        ensures count { result ≡ option_map length (slice_get (waiting_for port self.old.ports) 0) }
        ensures within { IfSome result (λ count. (14 ≤ count) × (count ≤ 1514)) }
        ensures bytes { buf.new ≡ written_front (slice_get (waiting_for port self.old.ports) 0) buf.old }
        ensures leaves { ChangesAt (λ k. k ≡ port) without_first self.old.ports self.new.ports }
        ensures kept { (self.new.kept ≤ self.old.kept) × (self.old.kept ≤ self.new.kept + 1) }
        ensures empty { IfNone result (self.new ≡ self.old) }
    {
        let key = self.ports[port as usize].first()?;
        let count = self.frames.read(key, buf);
        self.ports[port as usize].drop_first();
        self.frames.unname(key);
        Some(count)
    }

    /// How many frames wait for the port.
    pub fn queued(&self, port: u32) -> u32
        requires { port < length self.now.ports }
        ensures count { result ≡ length (waiting_for port self.now.ports) }
        ensures within { PortIs self.now.ports port (λ shown. result ≤ shown.room) }
    {
        self.ports[port as usize].queued()
    }

    /// How many frames are kept, each counted once however many ports it waits for.
    pub fn kept(&self) -> usize
        ensures count { result ≡ self.now.kept }
        // Each kept frame is named by a queue.
        ensures named { self.now.kept ≤ waiting_in_all self.now.ports }
    {
        self.frames.len()
    }
}

// The first six bytes.
fn destination_of(frame: &[u8]) -> [u8; 6]
    requires { 14 ≤ length frame.now }
    ensures { result ≡ take 6 frame.now }
{
    let mut destination = [0; 6];
    destination.copy_from_slice(&frame[..6]);
    destination
}
