ghost use Rattle.std.specs.Prelude.{◌≡◌, Some, length, replicate, refl, IfOk, IsOk};

use std::alloc::Global;
use std::marker::Model;
use vio_io::{Failed, NoMemory, Store};
use zero_pages::{ZERO_PAGE, ZeroPages};

/// A store in memory that begins as zeros, and whose calls never fail. Memory is taken for all of it, but only pages
/// that a call wrote lie there: the others are zeros without being touched.
#[derive(Drop)]
pub struct ZeroStore {
    /// Those of the size and, where it ends within a page, more zeros after it.
    pages: ZeroPages,
    size: usize,
    calls: u64,
    flushes: u64,
    writes: u64,
}

impl Model for ZeroStore {
    ghost use Rattle.std.specs.Prelude.{◌≤◌, length, take};
    ghost use Rattle.flat_store.specs.ZeroStoreState.{ZeroStoreState};

    ghost Value = { ZeroStoreState };

    ghost view = { λ s. record { bytes = take s.size s.pages; calls = s.calls; flushes = s.flushes; writes = s.writes } };

    ghost invariant = { λ s. s.size ≤ length s.pages };
}

impl ZeroStore {
    /// A store of so many zeros. The one refusal is for want of memory, and a store of no bytes wants none.
    #[tactic(auto, using(crate::proofs::ZeroSizes::size_zeros))]
    pub fn new(alloc: Global, size: usize) -> Result<Self, NoMemory>
        ensures zeros { IfOk result (λ s. s ≡ record { bytes = replicate size 0; calls = 0; flushes = 0; writes = 0 }) }
        ensures none { size ≡ 0 → IsOk result }
    {
        Ok(ZeroStore {
            pages: ZeroPages::new(alloc, size.div_ceil(ZERO_PAGE))?,
            size,
            calls: 0,
            flushes: 0,
            writes: 0,
        })
    }
}

#[tactic(auto, using(crate::proofs::Outside::keeps_outside))]
impl Store for ZeroStore {
    ghost content = { λ s. Some s.bytes };

    ghost size = { λ s. length s.bytes };

    ghost calls = { λ s. s.calls };

    ghost flushes = { λ s. s.flushes };

    ghost writes = { λ s. s.writes };

    ghost faults = { λ _. 0 };

    ghost told_size = { λ s. refl };

    fn len(&self) -> u64 {
        self.size as u64
    }

    fn read_at(&mut self, at: u64, buf: &mut [u8]) -> Result<(), Failed> {
        self.calls = self.calls.saturating_add(1);
        self.pages.read(at as usize, buf);
        Ok(())
    }

    fn write_at(&mut self, at: u64, bytes: &[u8]) -> Result<(), Failed> {
        self.calls = self.calls.saturating_add(1);
        self.writes = self.writes.saturating_add(1);
        self.pages.write(at as usize, bytes);
        Ok(())
    }

    fn flush(&mut self) -> Result<(), Failed> {
        self.calls = self.calls.saturating_add(1);
        self.flushes = self.flushes.saturating_add(1);
        Ok(())
    }

    fn faulty(&self) -> bool {
        false
    }
}
