ghost use Rattle.std.specs.Prelude.{◌≡◌, ℕ, ◌<◌, ◌≤◌, ◌+◌, ◌↔◌, List, [], Option, Some, length, min, vec_capacity, IsErr, IsTrue, OnErr, IfOk};
ghost use Rattle.vio_io.specs.Causes.{Fails};
ghost use Rattle.std.specs.Io.KnownBytes.{WriteAppends};
ghost use Rattle.vio_io.specs.FaultPlan.{unused};
ghost use Rattle.vio_io.specs.Lists.{ListSinkState, after_write, refuses_next};

use crate::{Failed, FaultPlan, NoMemory};
use std::alloc::Global;
use std::marker::Model;

/// Where bytes go.
pub trait Sink {
    /// The bytes written so far, where it tells them.
    ghost written: { Self → Option (List ℕ) };

    /// How often it failed.
    ghost faults: { Self → ℕ };

    /// Appends bytes from the front of `buf`, and answers how many: at least 1. After `Failed` nothing was appended.
    fn write(&mut self, buf: &[u8]) -> Result<usize, Failed>
        requires { 0 < length buf.now }
        ensures some { IfOk result (λ n. 0 < n) }
        ensures within { IfOk result (λ n. n ≤ length buf.now) }
        ensures told { WriteAppends (written self.old) (written self.new) result buf.now }
        ensures faults { Fails (IsErr result) (faults self.old) (faults self.new) };
}

/// A list of bytes as a sink with a room, some of whose calls fail.
#[derive(Drop)]
pub struct ListSink {
    written: Vec<u8>,
    room: usize,
    plan: FaultPlan,
}

impl Model for ListSink {
    ghost Value = { ListSinkState };

    ghost view = { λ s. record { written = s.written.items; room = s.room; plan = s.plan } };

    ghost invariant = { λ s. length s.written.items + s.room ≤ vec_capacity s.written };
}

impl ListSink {
    /// An empty sink that holds up to `room` bytes and fails the calls whose numbers, counted from 0, are in
    /// `failing`.
    pub fn new(alloc: Global, room: usize, failing: &[u64]) -> Result<Self, NoMemory>
        ensures { IfOk result (λ s. s ≡ record {
          written = [];
          room = room;
          plan = unused failing.now;
        }) }
    {
        Ok(ListSink {
            written: Vec::with_capacity(alloc, room)?,
            room,
            plan: FaultPlan::new(alloc, failing)?,
        })
    }

    /// What was written.
    pub fn bytes(&self) -> &[u8]
        ensures { result.now ≡ self.now.written }
    {
        &self.written
    }

    /// How often a write failed.
    pub fn faults(&self) -> u64
        ensures { result ≡ self.now.plan.faults }
    {
        self.plan.faults()
    }
}

impl Sink for ListSink {
    ghost written = { λ s. Some s.written };

    ghost faults = { λ s. s.plan.faults };

    /// Appends all of `buf` that the room left holds. It fails exactly at a call of its list, and where no room is left.
    fn write(&mut self, buf: &[u8]) -> Result<usize, Failed>
        requires { 0 < length buf.now }
        ensures some { IfOk result (λ n. 0 < n) }
        ensures within { IfOk result (λ n. n ≤ length buf.now) }
        ensures told { WriteAppends (Some self.old.written) (Some self.new.written) result buf.now }
        ensures faults { Fails (IsErr result) self.old.plan.faults self.new.plan.faults }

        ensures fails { IsErr result ↔ IsTrue (refuses_next self.old) }
        ensures takes { IfOk result (λ n. n ≡ min (length buf.now) self.old.room) }
        ensures room { IfOk result (λ n. self.new.room + n ≡ self.old.room) }
        ensures refused { OnErr result (self.new.room ≡ self.old.room) }
        ensures plan { self.new.plan ≡ after_write self.old }
    {
        self.plan.call()?;
        let taken = buf.len().min(self.room);
        if taken == 0 {
            self.plan.fail();
            return Err(Failed);
        }
        match self.written.extend_from_slice(&buf[..taken]) {
            Ok(()) => {}
            Err(_) => unreachable!(),
        }
        self.room -= taken;
        Ok(taken)
    }
}
