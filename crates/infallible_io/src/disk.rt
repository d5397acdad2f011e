ghost use Rattle.std.specs.Prelude.{◌≡◌, [], Some, length, replicate, refl, IfOk};
ghost use Rattle.infallible_io.specs.States.{InfallibleDiskState};

use flat_store::MemStore;
use std::alloc::Global;
use std::marker::Model;
use vio_io::{Failed, NoMemory, Store};

/// A list of bytes as a store that can't fail.
#[derive(Drop)]
pub struct InfallibleDisk {
    store: MemStore,
}

impl Model for InfallibleDisk {
    ghost Value = { InfallibleDiskState };

    ghost view = { λ d. record { bytes = d.store.bytes; calls = d.store.plan.calls; flushes = d.store.flushes; writes = d.store.writes } };

    ghost invariant = { λ d. d.store.plan.failing ≡ [] };
}

impl InfallibleDisk {
    /// So many zeros.
    pub fn zeros(alloc: Global, length: usize) -> Result<Self, NoMemory>
        ensures { IfOk result (λ d. d ≡ record { bytes = replicate length 0; calls = 0; flushes = 0; writes = 0 }) }
    {
        Ok(InfallibleDisk {
            store: MemStore::zeros(alloc, length)?,
        })
    }

    /// The list.
    pub fn bytes(&self) -> &[u8]
        ensures { result.now ≡ self.now.bytes }
    {
        self.store.bytes()
    }
}

impl Store for InfallibleDisk {
    ghost content = { λ d. Some d.bytes };

    ghost size = { λ d. length d.bytes };

    ghost calls = { λ d. d.calls };

    ghost flushes = { λ d. d.flushes };

    ghost writes = { λ d. d.writes };

    ghost faults = { λ _. 0 };

    ghost told_size = { λ d. refl };

    fn len(&self) -> u64 {
        self.store.len()
    }

    fn read_at(&mut self, at: u64, buf: &mut [u8]) -> Result<(), Failed> {
        match self.store.read_at(at, buf) {
            Ok(()) => Ok(()),
            Err(Failed) => unreachable!(),
        }
    }

    fn write_at(&mut self, at: u64, bytes: &[u8]) -> Result<(), Failed> {
        match self.store.write_at(at, bytes) {
            Ok(()) => Ok(()),
            Err(Failed) => unreachable!(),
        }
    }

    fn flush(&mut self) -> Result<(), Failed> {
        match self.store.flush() {
            Ok(()) => Ok(()),
            Err(Failed) => unreachable!(),
        }
    }

    fn faulty(&self) -> bool {
        false
    }
}
