ghost use Rattle.std.specs.Prelude.{◌≡◌, ◌+◌, ◌≤◌, ◌↔◌, Some, None, length, [], replicate, refl, IsErr, IsTrue, IfOk, OnErr, OnOk, is_err};
ghost use Rattle.vio_bytes.specs.Place.{put_at};
ghost use Rattle.vio_io.specs.Causes.{next_count, FaultsAfter};
ghost use Rattle.vio_io.specs.FaultPlan.{after_call, fails_next, unused};
ghost use Rattle.vio_io.specs.Stores.{IsUnitRange, KeepsOutside, ReadsRange, WritesRange};
ghost use Rattle.flat_store.specs.MemStoreState.{MemStoreState};

use std::alloc::Global;
use std::marker::Model;
use vio_io::{Failed, FaultPlan, NoMemory, Store};

/// A store in memory that fails the calls of its list: reads, writes and flushes, counted together from 0. A failed
/// write changes nothing.
#[derive(Drop)]
pub struct MemStore {
    bytes: Vec<u8>,
    plan: FaultPlan,
    flushes: u64,
    writes: u64,
}

impl Model for MemStore {
    ghost Value = { MemStoreState };

    ghost view = { λ s. record { bytes = s.bytes.items; plan = s.plan; flushes = s.flushes; writes = s.writes } };
}

impl MemStore {
    /// A store of these bytes.
    pub fn new(alloc: Global, bytes: &[u8], failing: &[u64]) -> Result<Self, NoMemory>
        ensures { IfOk result (λ s. s ≡ record { bytes = bytes.now; plan = unused failing.now; flushes = 0; writes = 0 }) }
    {
        Ok(MemStore {
            bytes: Vec::from_slice(alloc, bytes)?,
            plan: FaultPlan::new(alloc, failing)?,
            flushes: 0,
            writes: 0,
        })
    }

    /// A store of zeros that never fails.
    pub fn zeros(alloc: Global, length: usize) -> Result<Self, NoMemory>
        ensures { IfOk result (λ s. s ≡ record { bytes = replicate length 0; plan = unused []; flushes = 0; writes = 0 }) }
    {
        let mut bytes = Vec::with_capacity(alloc, length)?;
        bytes.resize(length, 0)?;
        Ok(MemStore {
            bytes,
            plan: FaultPlan::new(alloc, &[])?,
            flushes: 0,
            writes: 0,
        })
    }

    /// The list.
    pub fn bytes(&self) -> &[u8]
        ensures { result.now ≡ self.now.bytes }
    {
        &self.bytes
    }
}

#[tactic(auto, using(crate::proofs::Outside::keeps_outside))]
impl Store for MemStore {
    ghost content = { λ s. Some s.bytes };

    ghost size = { λ s. length s.bytes };

    ghost calls = { λ s. s.plan.calls };

    ghost flushes = { λ s. s.flushes };

    ghost writes = { λ s. s.writes };

    ghost faults = { λ s. s.plan.faults };

    ghost told_size = { λ s. refl };

    fn len(&self) -> u64 {
        self.bytes.len() as u64
    }

    fn read_at(&mut self, at: u64, buf: &mut [u8]) -> Result<(), Failed>
        requires { IsUnitRange (length self.old.bytes) at (length buf.old) }
        ensures told { OnOk result (ReadsRange (Some self.old.bytes) at buf.new) }
        ensures content { Some self.new.bytes ≡ Some self.old.bytes }
        ensures size { length self.new.bytes ≡ length self.old.bytes }
        ensures calls { self.new.plan.calls ≡ next_count self.old.plan.calls }
        ensures flushes { self.new.flushes ≡ self.old.flushes }
        ensures writes { self.new.writes ≡ self.old.writes }
        ensures faults { FaultsAfter (is_err result) self.old.plan.faults self.new.plan.faults }

        ensures fails { IsErr result ↔ IsTrue (fails_next self.old.plan) }
        ensures plan { self.new.plan ≡ after_call self.old.plan }
    {
        self.plan.call()?;
        let at = at as usize;
        buf.copy_from_slice(&self.bytes[at..at + buf.len()]);
        Ok(())
    }

    fn write_at(&mut self, at: u64, bytes: &[u8]) -> Result<(), Failed>
        requires { IsUnitRange (length self.old.bytes) at (length bytes.now) }
        ensures told { OnOk result (WritesRange (Some self.old.bytes) (Some self.new.bytes) at bytes.now) }
        ensures outside { KeepsOutside (Some self.old.bytes) (Some self.new.bytes) at (length bytes.now) }
        ensures untold { Some self.old.bytes ≡ None → Some self.new.bytes ≡ None }
        ensures size { length self.new.bytes ≡ length self.old.bytes }
        ensures calls { self.new.plan.calls ≡ next_count self.old.plan.calls }
        ensures flushes { self.new.flushes ≡ self.old.flushes }
        ensures writes { self.new.writes ≡ next_count self.old.writes }
        ensures faults { FaultsAfter (is_err result) self.old.plan.faults self.new.plan.faults }

        ensures fails { IsErr result ↔ IsTrue (fails_next self.old.plan) }
        ensures plan { self.new.plan ≡ after_call self.old.plan }
        ensures refused { OnErr result (self.new.bytes ≡ self.old.bytes) }
    {
        self.writes = self.writes.saturating_add(1);
        self.plan.call()?;
        write_range(&mut self.bytes, at as usize, bytes);
        Ok(())
    }

    fn flush(&mut self) -> Result<(), Failed>
        ensures content { Some self.new.bytes ≡ Some self.old.bytes }
        ensures size { length self.new.bytes ≡ length self.old.bytes }
        ensures calls { self.new.plan.calls ≡ next_count self.old.plan.calls }
        ensures flushes { self.new.flushes ≡ next_count self.old.flushes }
        ensures writes { self.new.writes ≡ self.old.writes }
        ensures faults { FaultsAfter (is_err result) self.old.plan.faults self.new.plan.faults }

        ensures fails { IsErr result ↔ IsTrue (fails_next self.old.plan) }
        ensures plan { self.new.plan ≡ after_call self.old.plan }
    {
        self.flushes = self.flushes.saturating_add(1);
        self.plan.call()
    }

    fn faulty(&self) -> bool {
        self.plan.faults() > 0
    }
}

/// Writes bytes at a place.
pub(crate) fn write_range(content: &mut [u8], at: usize, bytes: &[u8])
    requires { at + length bytes.now ≤ length content.old }
    ensures { content.new ≡ put_at at bytes.now content.old }
{
    content[at..at + bytes.len()].copy_from_slice(bytes);
}
