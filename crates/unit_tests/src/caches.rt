// A cache before a store in memory that fails at some of its calls, or before one that numbers its calls: which reads
// reach the store.
use cached_store::Cached;
use flat_store::MemStore;
use std::alloc::Global;
use std::test::Fail;
use vio_io::{Failed, NoMemory, Store};

/// A cache of two blocks before a store of four that fails these calls.
fn cache_of_two(alloc: Global, failing: &[u64]) -> Result<Cached<MemStore>, NoMemory> {
    let store = MemStore::new(alloc, &[7; 2048], failing)?;
    match Cached::new(alloc, store, 2) {
        Ok(cached) => Ok(cached),
        Err((fault, _)) => Err(fault),
    }
}

/// Whether a read of this block succeeds, where a store has it.
fn is_read<D: Store>(store: &mut D, block: u64) -> Option<bool> {
    if block >= store.len() / 512 {
        return None;
    }
    Some(store.read_at(512 * block, &mut [0; 512]).is_ok())
}

/// Whether reads of these blocks, one after another, succeed or fail so.
fn answers<D: Store>(store: &mut D, reads: &[(u64, bool)]) -> bool {
    for (block, succeeds) in reads {
        if is_read(store, *block) != Some(*succeeds) {
            return false;
        }
    }
    true
}

#[test]
fn a_block_is_asked_for_once(rt: HostRuntime) -> Result<(), Fail> {
    let mut cached = cache_of_two(rt.alloc(), &[1])?;
    assert!(rt;
        answers(
            &mut cached,
            &[(3, true), (3, true), (2, false), (3, true), (2, true)]
        )
    );
    Ok(())
}

#[test]
fn the_block_that_was_used_least_lately_goes_first(rt: HostRuntime) -> Result<(), Fail> {
    let mut cached = cache_of_two(rt.alloc(), &[3])?;
    let reads = [
        (0, true),
        (1, true),
        (0, true),
        (2, true),
        (0, true),
        (1, false),
    ];
    assert!(rt; answers(&mut cached, &reads));
    Ok(())
}

/// A store of four blocks that tells no bytes. A read gives in each byte 16 times the number of its call, where the first
/// has 1, and the number of its first block.
#[derive(Drop)]
struct NumberedStore {
    calls: u64,
    flushes: u64,
    writes: u64,
}

impl Store for NumberedStore {
    ghost use Rattle.std.specs.Prelude.{None};

    ghost content = { λ _. None };

    ghost size = { λ _. 2048 };

    ghost calls = { λ s. s.calls };

    ghost flushes = { λ s. s.flushes };

    ghost writes = { λ s. s.writes };

    ghost faults = { λ _. 0 };

    ghost told_size = { λ _. tt };

    fn len(&self) -> u64 {
        2048
    }

    fn read_at(&mut self, at: u64, buf: &mut [u8]) -> Result<(), Failed> {
        self.calls = self.calls.saturating_add(1);
        buf.fill((16 * (self.calls % 16) + at / 512 % 16) as u8);
        Ok(())
    }

    fn write_at(&mut self, _: u64, _: &[u8]) -> Result<(), Failed> {
        self.calls = self.calls.saturating_add(1);
        self.writes = self.writes.saturating_add(1);
        Ok(())
    }

    fn flush(&mut self) -> Result<(), Failed> {
        self.calls = self.calls.saturating_add(1);
        self.flushes = self.flushes.saturating_add(1);
        Ok(())
    }

    fn faulty(&self) -> bool {
        false
    }
}

/// Whether a read of two blocks, from the first on, gives this number in each byte, where a store has them.
fn gives<D: Store>(store: &mut D, first: u64, number: u8) -> Option<bool> {
    let blocks = store.len() / 512;
    if blocks < 2 || first > blocks - 2 {
        return None;
    }
    let mut buf = [0; 1024];
    let read = store.read_at(512 * first, &mut buf);
    Some(read.is_ok() && buf.iter().all(|byte| *byte == number))
}

/// Whether reads of two blocks from each of these on, one after another, give these numbers.
fn numbers<D: Store>(store: &mut D, reads: &[(u64, u8)]) -> bool {
    for (first, number) in reads {
        if gives(store, *first, *number) != Some(true) {
            return false;
        }
    }
    true
}

/// A cache of two blocks before a store that numbers its calls.
fn numbered_cache(alloc: Global) -> Result<Cached<NumberedStore>, NoMemory> {
    let store = NumberedStore {
        calls: 0,
        flushes: 0,
        writes: 0,
    };
    match Cached::new(alloc, store, 2) {
        Ok(cached) => Ok(cached),
        Err((fault, _)) => Err(fault),
    }
}

#[test]
fn a_range_that_is_kept_in_part_is_asked_for_whole(rt: HostRuntime) -> Result<(), Fail> {
    let mut cached = numbered_cache(rt.alloc())?;
    assert!(rt; numbers(&mut cached, &[(1, 17), (0, 32), (1, 49), (1, 49)]));
    Ok(())
}
