// One port of a switch.

ghost use Rattle.std.specs.Prelude.{◌≡◌, ℕ, ◌<◌, ◌≤◌, ◌↔◌, length, slice_get, IfOk, IsTrue};
ghost use Rattle.std.specs.Bool.{OnFalse, OnTrue};
ghost use Rattle.vnet_switch.specs.Forward.{IsCast, IsFor};
ghost use Rattle.vnet_switch.specs.Queues.{fresh_port, with_last, with_session, without_first, QueueHasRoom, IsFull};

use crate::cast::Cast;
use arrayvec::ArrayVec;
use circular_buffer::HeapCircularBuffer;
use std::alloc::Global;
use std::marker::Model;
use vio_bytes::NoMemory;

/// A port: its address where its end has an open session, its groups, and the keys of the frames that wait for it.
#[derive(Drop)]
pub(crate) struct Port {
    address: Option<[u8; 6]>,
    groups: ArrayVec<[u8; 6], 7>,
    keys: HeapCircularBuffer<usize>,
}

impl Model for Port {
    ghost use Rattle.std.specs.Prelude.{ℕ, ◌<◌, ◌≤◌, ◌^◌, length};
    ghost use Rattle.vnet_switch.specs.PortView.{PortView};

    ghost Value = { PortView ℕ };

    ghost view = { λ p. record {
      address = p.address;
      groups = p.groups.items;
      room = p.keys.capacity;
      queue = p.keys.items;
    } };

    ghost invariant = { λ p. record {
      fits : length p.keys.items ≤ p.keys.capacity;
      few : p.keys.capacity < 2 ^ 32;
    } };
}

impl Port {
    /// A port without a session, whose queue holds so many frames.
    pub(crate) fn new(alloc: Global, room: u32) -> Result<Port, NoMemory>
        ensures { IfOk result (λ port. port ≡ fresh_port room) }
    {
        let keys = HeapCircularBuffer::with_capacity(alloc, room as usize)?;
        Ok(Port {
            address: None,
            groups: ArrayVec::new(),
            keys,
        })
    }

    /// Its session opened with this address and these groups, or has ended. The queue stays.
    pub(crate) fn set_session(&mut self, address: Option<[u8; 6]>, groups: &[[u8; 6]])
        requires { length groups.now ≤ 7 }
        ensures { self.new ≡ with_session address groups.now self.old }
    {
        self.address = address;
        self.groups.clear();
        let _fits = self.groups.try_extend_from_slice(groups);
    }

    /// Whether it has this address.
    pub(crate) fn has_address(&self, address: &[u8; 6]) -> bool
        ensures { IsTrue result ↔ (self.now.address ≡ Some address.now) }
    {
        match &self.address {
            Some(own) => own == address,
            None => false,
        }
    }

    /// Whether a frame for the destination is for this port.
    pub(crate) fn takes(&self, cast: Cast, destination: &[u8; 6]) -> bool
        requires { IsCast cast destination.now }
        ensures { IsTrue result ↔ IsFor destination.now self.now }
    {
        match cast {
            Cast::Broadcast => self.address.is_some(),
            Cast::Multicast => self.address.is_some() && self.groups.contains(destination),
            Cast::Unicast => self.has_address(destination),
        }
    }

    /// Puts a frame's key last, where there is room.
    pub(crate) fn offer(&mut self, key: usize) -> bool
        ensures room { IsTrue result ↔ QueueHasRoom self.old }
        ensures full { OnFalse result (IsFull self.old) }
        ensures put { OnTrue result (self.new ≡ with_last key self.old) }
        ensures refused { OnFalse result (self.new ≡ self.old) }
    {
        self.keys.try_push_back(key).is_ok()
    }

    /// The key of the frame that has waited longest.
    pub(crate) fn first(&self) -> Option<usize>
        ensures { result ≡ slice_get self.now.queue 0 }
    {
        self.keys.front().copied()
    }

    /// Takes that key out.
    pub(crate) fn drop_first(&mut self)
        ensures { self.new ≡ without_first self.old }
    {
        let _first = self.keys.pop_front();
    }

    /// How many frames wait.
    pub(crate) fn queued(&self) -> u32
        ensures count { result ≡ length self.now.queue }
        ensures within { result ≤ self.now.room }
    {
        self.keys.len() as u32
    }
}
