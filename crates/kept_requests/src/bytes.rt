ghost use Rattle.std.specs.Prelude.{◌≡◌, ◌↔◌, ◌+◌, ◌-◌, ◌*◌, ◌%◌, ◌<◌, ◌≤◌, [], ◌∷◌, ◌++◌, length, take, IsOk, IsTrue, IfOk, OnOk};
ghost use Rattle.std.specs.List.{sum};
ghost use Rattle.kept_requests.specs.Bytes.{filled};
ghost use Rattle.kept_requests.specs.Packed.{AreKept, block_of, unpacked};

use crate::block_words::shortest_word;
use smallvec::SmallVec;
use std::alloc::Global;
use std::marker::Model;
use std::mem;
use vio_bytes::NoMemory;

/// The lengths of words. Those of a few blocks take no memory.
type Lengths = SmallVec<u16, 8>;

/// Words and bytes after them. A few take no memory.
type Kept = SmallVec<u8, 16>;

/// The bytes of an entry, as those that a read gave, and the room that is left for more of them. As long as they come
/// in whole blocks of 512 bytes, a block is kept as the shortest word that it repeats.
#[derive(Debug, Drop)]
pub struct Bytes {
    /// How long the word of each block is.
    lengths: Lengths,

    /// The words of the blocks, one after the other, and the bytes after the blocks.
    kept: Kept,

    /// How many bytes are after the blocks.
    plain: usize,
    room: usize,
}

impl Model for Bytes {
    ghost use Rattle.std.specs.Prelude.{◌≡◌, ◌+◌, ◌*◌, ◌^◌, ◌<◌, ◌≤◌, length};
    ghost use Rattle.std.specs.List.{sum};
    ghost use Rattle.kept_requests.specs.Bytes.{BytesState};
    ghost use Rattle.kept_requests.specs.Packed.{AreKept, unpacked};

    ghost Value = { BytesState };

    ghost view = { λ b. record { items = unpacked b.lengths.items b.kept.items; room = b.room } };

    ghost invariant = { λ b. record {
      kept : AreKept b.lengths.items b.kept.items;
      plain : sum b.lengths.items + b.plain ≡ length b.kept.items;
      small : 512 * length b.lengths.items + b.plain + b.room < 2 ^ 64;
      room : length b.kept.items + b.room ≤ b.kept.capacity;
      length_room : 512 * length b.lengths.items + b.room ≤ 512 * b.lengths.capacity + 511;
    } };
}

impl Bytes {
    /// No bytes, and no room. It takes no memory.
    pub fn empty(alloc: Global) -> Self
        ensures { result ≡ filled [] }
    {
        Bytes {
            lengths: Lengths::new(alloc),
            kept: Kept::new(alloc),
            plain: 0,
            room: 0,
        }
    }

    /// These bytes, and no room. Up to 16 take no memory.
    pub fn from_slice(alloc: Global, bytes: &[u8]) -> Result<Self, NoMemory>
        ensures bytes { IfOk result (λ b. b ≡ filled bytes.now) }
        ensures few { length bytes.now ≤ 16 → IsOk result }
    {
        let mut all = Self::with_room(alloc, bytes.len())?;
        all.fill(bytes);
        Ok(all)
    }

    /// No bytes, and room for n of them. That for up to 16 takes no memory.
    pub fn with_room(alloc: Global, n: usize) -> Result<Self, NoMemory>
        ensures room { IfOk result (λ b. b ≡ record { items = []; room = n }) }
        ensures few { n ≤ 16 → IsOk result }
    {
        Ok(Bytes {
            lengths: Lengths::with_capacity(alloc, n / BLOCK)?,
            kept: Kept::with_capacity(alloc, n)?,
            plain: 0,
            room: n,
        })
    }

    /// Puts bytes last, into the room that is left. It takes no memory.
    pub fn fill(&mut self, bytes: &[u8])
        requires { length bytes.now ≤ self.old.room }
        ensures items { self.new.items ≡ self.old.items ++ bytes.now }
        ensures room { self.new.room + length bytes.now ≡ self.old.room }
    {
        let rest = keep_blocks(&mut self.lengths, &mut self.kept, self.plain, bytes);
        match self.kept.extend_from_slice(rest) {
            Ok(()) => {}
            Err(_) => unreachable!(),
        }
        self.plain += rest.len();
        self.room -= bytes.len();
    }

    /// Takes the bytes out, into memory that they just fill: the room is there for the next ones. Where they fill the
    /// room itself, or there is no such memory, they keep that of the room.
    pub fn take_out(&mut self, alloc: Global) -> Self
        ensures items { result.items ≡ self.old.items }
        ensures empty { self.new.items ≡ [] }
    {
        if self.kept.len() == self.kept.capacity() {
            return mem::replace(self, Self::empty(alloc));
        }
        match self.copy(alloc) {
            Ok(copy) => {
                self.clear();
                copy
            }
            Err(_) => mem::replace(self, Self::empty(alloc)),
        }
    }

    /// The same bytes, and no room.
    fn copy(&self, alloc: Global) -> Result<Self, NoMemory>
        ensures { IfOk result (λ b. b ≡ filled self.now.items) }
    {
        Ok(Bytes {
            lengths: Lengths::from_slice(alloc, self.lengths.as_slice())?,
            kept: Kept::from_slice(alloc, self.kept.as_slice())?,
            plain: self.plain,
            room: 0,
        })
    }

    /// No bytes: all memory is room.
    fn clear(&mut self)
        ensures { self.new.items ≡ [] }
    {
        self.lengths.clear();
        self.kept.clear();
        self.plain = 0;
        self.room = self
            .kept
            .capacity()
            .min(self.lengths.capacity().saturating_mul(BLOCK));
    }

    /// A copy of all the bytes.
    pub fn to_vec(&self, alloc: Global) -> Result<Vec<u8>, NoMemory>
        ensures { IfOk result (λ bytes. bytes.items ≡ self.now.items) }
    {
        let mut bytes = Vec::with_capacity(alloc, self.len())?;
        let (lengths, mut kept) = self.words();
        for n in lengths {
            push_block(&mut bytes, kept, usize::from(*n))?;
            kept = &kept[usize::from(*n)..];
        }
        bytes.extend_from_slice(kept)?;
        Ok(bytes)
    }

    /// How many bytes there are.
    pub fn len(&self) -> usize
        ensures { result ≡ length self.now.items }
    {
        BLOCK * self.lengths.len() + self.plain
    }

    /// How many more bytes there is room for.
    pub fn room(&self) -> usize
        ensures { result ≡ self.now.room }
    {
        self.room
    }

    /// Whether there are no bytes.
    pub fn is_empty(&self) -> bool
        ensures { IsTrue result ↔ (length self.now.items ≡ 0) }
    {
        self.len() == 0
    }

    /// How long the words of the blocks are; and the words, with the bytes after the blocks.
    pub fn words(&self) -> (&[u16], &[u8])
        ensures items { unpacked result.0.now result.1.now ≡ self.now.items }
        ensures kept { AreKept result.0.now result.1.now }
    {
        (self.lengths.as_slice(), self.kept.as_slice())
    }
}

/// The bytes of a block.
const BLOCK: usize = 512;

/// Puts the block that repeats the first n of some bytes last.
fn push_block(all: &mut Vec<u8>, bytes: &[u8], n: usize) -> Result<(), NoMemory>
    requires some { 0 < n }
    requires within { n ≤ length bytes.now }
    ensures { OnOk result (all.new.items ≡ all.old.items ++ block_of n bytes.now) }
{
    for k in 0..BLOCK {
        all.push(bytes[k % n])?;
    }
    Ok(())
}

/// Keeps the blocks at the front of these bytes, unless there are bytes after the blocks that were kept before; so many
/// are `plain`. Answers the bytes that are still to be kept.
fn keep_blocks<'a>(
    lengths: &mut Lengths,
    kept: &mut Kept,
    plain: usize,
    bytes: &'a [u8],
) -> &'a [u8]
    requires kept { AreKept lengths.old.items kept.old.items }
    requires plain { sum lengths.old.items + plain ≡ length kept.old.items }
    requires room { length kept.old.items + length bytes.now ≤ kept.old.capacity }
    requires length_room { 512 * length lengths.old.items + length bytes.now ≤ 512 * lengths.old.capacity + 511 }
    ensures kept { AreKept lengths.new.items kept.new.items }
    ensures plain { sum lengths.new.items + plain ≡ length kept.new.items }
    ensures items { unpacked lengths.new.items kept.new.items ++ result.now ≡ unpacked lengths.old.items kept.old.items ++ bytes.now }
    ensures count { 512 * length lengths.new.items + length result.now ≡ 512 * length lengths.old.items + length bytes.now }
    ensures long { length kept.new.items + length result.now ≤ length kept.old.items + length bytes.now }
    ensures room { kept.old.capacity ≤ kept.new.capacity }
    ensures length_room { lengths.old.capacity ≤ lengths.new.capacity }
{
    if plain > 0 {
        return bytes;
    }
    let mut rest = bytes;
    while let Some((block, behind)) = rest.split_first_chunk::<512>() {
        keep_block(lengths, kept, block);
        rest = behind;
    }
    rest
}

/// Keeps a block after the others.
fn keep_block(lengths: &mut Lengths, kept: &mut Kept, block: &[u8; 512])
    requires kept { AreKept lengths.old.items kept.old.items }
    requires plain { sum lengths.old.items ≡ length kept.old.items }
    requires room { length kept.old.items + 512 ≤ kept.old.capacity }
    requires length_room { length lengths.old.items < lengths.old.capacity }
    ensures kept { AreKept lengths.new.items kept.new.items }
    ensures plain { sum lengths.new.items ≡ length kept.new.items }
    ensures items { unpacked lengths.new.items kept.new.items ≡ unpacked lengths.old.items kept.old.items ++ block.now }
    ensures count { length lengths.new.items ≡ length lengths.old.items + 1 }
    ensures long { length kept.new.items ≤ length kept.old.items + 512 }
    ensures room { kept.old.capacity ≤ kept.new.capacity }
    ensures length_room { lengths.old.capacity ≤ lengths.new.capacity }
{
    let n = shortest_word(block);
    lengths.push_reserved(n as u16);
    keep_word(kept, block, n);
}

/// Keeps the first n bytes of a block after the others. Most words are one byte.
fn keep_word(kept: &mut Kept, block: &[u8; 512], n: usize)
    requires some { 0 < n }
    requires within { n ≤ 512 }
    requires room { length kept.old.items + n ≤ kept.old.capacity }
    ensures items { kept.new.items ≡ kept.old.items ++ take n block.now }
    ensures room { kept.old.capacity ≤ kept.new.capacity }
{
    if n == 1 {
        kept.push_reserved(block[0]);
        return;
    }
    match kept.extend_from_slice(&block[..n]) {
        Ok(()) => {}
        Err(_) => unreachable!(),
    }
}
