ghost use Rattle.std.specs.Prelude.{◌≡◌, ◌≢◌, ◌+◌, ◌*◌, ◌/◌, ◌%◌, ◌^◌, ◌<◌, ◌≤◌, [], true, Some, None, length, IfOk, IsSome};
ghost use Rattle.std.specs.Option.{unwrap_or};
ghost use Rattle.vio_bytes.specs.Place.{put_at};
ghost use Rattle.vio_bytes.specs.Range.{range_at};
ghost use Rattle.cached_store.specs.Kept.{KeepsNoneOf, KeepsNoneOfRange, KeepsOf, KeepsOfRange, MayPut, MayPutRange, all_kept, bytes_kept, kept_block, used, used_range, without, without_range};
ghost use Rattle.cached_store.specs.Slots.{AreSlots};

use lru::LruCache;
use std::alloc::{AllocError, Global};
use std::marker::Model;
use std::num::NonZeroUsize;
use vio_bytes::NoMemory;

/// How long a block is.
pub(crate) const BLOCK: usize = 512;

/// Blocks by their numbers, the most recently used first: at most so many, of which the last goes where one more is
/// put.
#[derive(Drop)]
pub struct KeptBlocks {
    /// Where each stands: in which slot of the bytes.
    map: LruCache<u64, usize>,
    bytes: Vec<u8>,

    /// The slot that the next one is written to.
    spare: usize,

    /// Slots in which none stands: the front of these, so many as could still be kept.
    free: Vec<usize>,
    most: usize,
}

impl Model for KeptBlocks {
    ghost use Rattle.std.specs.Prelude.{◌≡◌, ◌<◌};
    ghost use Rattle.cached_store.specs.Kept.{KeptState};
    ghost use Rattle.cached_store.specs.Slots.{IsRoom, kept_of};

    ghost Value = { KeptState };

    ghost view = { λ k. record { kept = kept_of k.bytes.items k.map.entries; most = k.most } };

    ghost invariant = { λ k. IsRoom k.most k.spare k.map.entries k.free.items k.bytes.items
        × (0 < k.most → k.map.cap ≡ k.most) };
}

impl KeptBlocks {
    /// Room for so many, of which none is kept yet.
    pub fn new(alloc: Global, most: usize) -> Result<Self, NoMemory>
        ensures { IfOk result (λ k. k ≡ record { kept = []; most = most }) }
    {
        if most >= usize::MAX / BLOCK {
            return Err(NoMemory);
        }
        let room = match NonZeroUsize::new(most) {
            Some(room) => room,
            None => NonZeroUsize::MIN,
        };
        Ok(KeptBlocks {
            map: LruCache::new(alloc, room)?,
            bytes: vec![in alloc; 0; BLOCK * (most + 1)]?,
            spare: most,
            free: numbers_below(alloc, most)?,
            most,
        })
    }

    /// Whether all `count` blocks from `first` on are kept. It moves none in its order.
    pub(crate) fn holds(&self, first: u64, count: usize) -> bool
        requires { first + count < 2 ^ 64 }
        ensures { result ≡ all_kept first count self.now.kept }
    {
        for i in 0..count {
            let number = first + i as u64;
            if !self.map.contains(&number) {
                return false;
            }
        }
        true
    }

    /// Uses the blocks that are to fill `out`, from `first` on, in rising order: gives their bytes.
    pub(crate) fn use_all(&mut self, first: u64, out: &mut [u8])
        requires numbers { first + length out.old < 2 ^ 64 }
        requires whole { length out.old % 512 ≡ 0 }
        requires kept { all_kept first (length out.old / 512) self.old.kept ≡ true }
        ensures bytes { out.new ≡ bytes_kept first (length out.old / 512) self.old.kept }
        ensures used { self.new.kept ≡ used_range first (length out.old / 512) self.old.kept }
        ensures most { self.new.most ≡ self.old.most }
    {
        for i in 0..out.len() / BLOCK {
            let at = BLOCK * i;
            self.use_block(first + i as u64, &mut out[at..at + BLOCK]);
        }
    }

    /// Puts the blocks of these bytes, from `first` on, in rising order.
    pub(crate) fn put_all(&mut self, first: u64, bytes: &[u8])
        requires numbers { first + length bytes.now < 2 ^ 64 }
        ensures put { MayPutRange self.old.most first (length bytes.now / 512) bytes.now self.old.kept self.new.kept }
        ensures keeps { KeepsOfRange first (length bytes.now / 512) bytes.now self.old.kept self.new.kept }
        ensures most { self.new.most ≡ self.old.most }
    {
        for i in 0..bytes.len() / BLOCK {
            let at = BLOCK * i;
            self.put_block(first + i as u64, &bytes[at..at + BLOCK]);
        }
    }

    /// Takes `count` blocks out, from `first` on.
    pub(crate) fn forget_all(&mut self, first: u64, count: usize)
        requires numbers { first + count < 2 ^ 64 }
        ensures without { self.new.kept ≡ without_range first count self.old.kept }
        ensures gone { KeepsNoneOfRange first count self.old.kept self.new.kept }
        ensures most { self.new.most ≡ self.old.most }
    {
        for i in 0..count {
            self.forget_block(first + i as u64);
        }
    }

    /// Uses a block that is kept: gives its bytes.
    fn use_block(&mut self, number: u64, out: &mut [u8])
        requires kept { IsSome (kept_block number self.old.kept) }
        requires long { length out.old ≡ 512 }
        ensures bytes { kept_block number self.old.kept ≡ Some out.new }
        ensures used { self.new.kept ≡ used number self.old.kept }
        ensures most { self.new.most ≡ self.old.most }
    {
        let Some(slot) = self.map.get(&number) else {
            return;
        };
        let at = BLOCK * *slot;
        out.copy_from_slice(&self.bytes[at..at + BLOCK]);
    }

    /// Puts a block first. One that finds no room isn't kept.
    fn put_block(&mut self, number: u64, bytes: &[u8])
        requires long { length bytes.now ≡ 512 }
        ensures put { MayPut self.old.most number bytes.now self.old.kept self.new.kept }
        ensures fresh { KeepsOf number bytes.now self.old.kept self.new.kept }
        ensures most { self.new.most ≡ self.old.most }
    {
        if self.most == 0 {
            return;
        }
        let left = self.most - self.map.len();
        let Ok(gone) = self.map.push(number, self.spare) else {
            return;
        };
        fill(&mut self.bytes, self.spare, bytes);
        self.spare = match gone {
            Some((_, slot)) => slot,
            None => self.free[left - 1],
        };
    }

    /// Takes a block out.
    fn forget_block(&mut self, number: u64)
        ensures without { self.new.kept ≡ without number self.old.kept }
        ensures gone { KeepsNoneOf number self.old.kept self.new.kept }
        ensures most { self.new.most ≡ self.old.most }
    {
        let left = self.most - self.map.len();
        let Some(slot) = self.map.pop(&number) else {
            return;
        };
        self.free[left] = slot;
    }
}

/// The numbers below this one, in rising order.
fn numbers_below(alloc: Global, most: usize) -> Result<Vec<usize>, AllocError>
    ensures slots { IfOk result (λ v. AreSlots most v.items) }
    ensures many { IfOk result (λ v. length v.items ≡ most) }
{
    let mut numbers = Vec::with_capacity(alloc, most)?;
    for number in 0..most {
        numbers.push(number)?;
    }
    Ok(numbers)
}

/// Writes these bytes to a slot.
fn fill(room: &mut [u8], slot: usize, bytes: &[u8])
    requires long { length bytes.now ≡ 512 }
    requires within { 512 * slot + 512 ≤ length room.old }
    ensures { room.new ≡ put_at (512 * slot) bytes.now room.old }
{
    let at = BLOCK * slot;
    room[at..at + BLOCK].copy_from_slice(bytes);
}
