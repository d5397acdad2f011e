ghost use Rattle.std.specs.Prelude.{◌≡◌, ◌≢◌, ◌+◌, ◌*◌, ◌<◌, ◌≤◌, List, Option, Some, None, IfOk, OnErr, MatchResult, length, option_map, replicate, set};
ghost use Rattle.map_table.specs.declared.rights.Rights.{Rights};
ghost use Rattle.map_table.specs.declared.table.Entry.{Entry};
ghost use Rattle.map_table.specs.Table.{KeepsTaken, TakenBelow, entry_bytes, entry_word, first_free, granted};
ghost use Rattle.map_table.specs.Table.{look_at, right_bit};

use crate::rights::Rights;
use std::alloc::Global;
use std::marker::Model;
use vio_bytes::{NoMemory, PAGE, put_u64};

/// A page that is granted, by its number in the memory of the table's domain.
#[derive(Clone, Copy, Debug, PartialEq, Eq)]
pub struct Entry {
    pub page: u32,
    pub rights: Rights,
}

/// Where an address of a cookie lies in the memory of the table's domain.
#[derive(Clone, Copy, Debug, PartialEq, Eq)]
pub struct Spot {
    pub page: u32,
    /// In bytes, below 8,192.
    pub offset: u32,
    pub rights: Rights,
}

/// No entry is free.
#[derive(Clone, Copy, Debug, PartialEq, Eq)]
pub struct TableFull;

/// The entry is free, or past the table.
#[derive(Clone, Copy, Debug, PartialEq, Eq)]
pub struct Absent;

/// Why an address names no byte.
#[derive(Clone, Copy, Debug, PartialEq, Eq)]
pub enum LookFault {
    /// Bits 60 to 63 aren't 0: a page size other than 8 KiB.
    BadPage,
    /// Its page isn't granted.
    NoMap,
}

/// The map table of a domain: the pages that it grants to the other end of its channel, each by its
/// index ("LDC shared memory", UltraSPARC Virtual Machine Specification).
#[derive(Drop)]
pub struct MapTable {
    entries: Vec<Option<Entry>>,
    /// No entry below this index is free.
    taken: usize,
}

impl Model for MapTable {
    ghost Value = { List (Option Entry) };

    ghost view = { λ t. t.entries.items };

    ghost invariant = { λ t. KeepsTaken t.entries.items t.taken };
}

const MTE_COPY_W: u64 = 0x400;

const MTE_COPY_R: u64 = 0x200;

const PAGE_SHIFT: u32 = 13;

impl MapTable {
    /// So many free entries. The one refusal is for want of memory.
    pub fn new(alloc: Global, entries: u32) -> Result<MapTable, NoMemory>
        requires some { 1 ≤ entries }
        requires most { entries ≤ 1028 }
        ensures { IfOk result (λ t. t ≡ replicate entries None) }
    {
        let entries = vec![in alloc; None; entries as usize]?;
        Ok(MapTable { entries, taken: 0 })
    }

    /// Grants a page with these rights at the free entry with the least index, which is answered.
    /// `TableFull` where none is free: then nothing changes.
    pub fn grant(&mut self, page: u32, rights: Rights) -> Result<u32, TableFull>
        ensures least { MatchResult result (λ index. first_free self.old ≡ Some index) (λ _. first_free self.old ≡ None) }
        ensures granted { MatchResult result (λ index. self.new ≡ set self.old index (Some (record { page = page; rights = rights }))) (λ _. self.new ≡ self.old) }
    {
        let index = first_free_behind(&self.entries, self.taken).ok_or(TableFull)?;
        self.entries[index] = Some(Entry { page, rights });
        self.taken = index + 1;
        Ok(index as u32)
    }

    /// Frees an entry. `Absent` where it is free or past the table: then nothing changes.
    pub fn revoke(&mut self, index: u32) -> Result<(), Absent>
        ensures absent { MatchResult result (λ _. granted self.old index ≢ None) (λ _. granted self.old index ≡ None) }
        ensures freed { MatchResult result (λ _. self.new ≡ set self.old index None) (λ _. self.new ≡ self.old) }
    {
        entry_at(&self.entries, index as u64).ok_or(Absent)?;
        self.entries[index as usize] = None;
        self.taken = self.taken.min(index as usize);
        Ok(())
    }

    /// Where an address lies: its page size is looked at first, then its page.
    pub fn look(&self, address: u64) -> Result<Spot, LookFault>
        ensures { result ≡ look_at self.now address }
    {
        if address >> 60 != 0 {
            return Err(LookFault::BadPage);
        }
        match entry_at(&self.entries, address / PAGE as u64) {
            Some(entry) => Ok(Spot {
                page: entry.page,
                offset: (address % PAGE as u64) as u32,
                rights: entry.rights,
            }),
            None => Err(LookFault::NoMap),
        }
    }

    /// The 16 bytes of an entry (`struct ldc_mtable_entry` of Linux's ldc.h), and `None` where it isn't
    /// granted.
    pub fn entry_bytes(&self, index: u32) -> Option<[u8; 16]>
        ensures { result ≡ option_map entry_bytes (granted self.now index) }
    {
        let entry = entry_at(&self.entries, index as u64)?;
        Some(entry_bytes(&entry))
    }
}

// The first free entry, looked for after those that are taken.
fn first_free_behind(entries: &[Option<Entry>], taken: usize) -> Option<usize>
    requires within { taken ≤ length entries.now }
    requires taken { TakenBelow taken entries.now }
    ensures { result ≡ first_free entries.now }
{
    let behind = first_free(&entries[taken..])?;
    Some(taken + behind)
}

fn first_free(entries: &[Option<Entry>]) -> Option<usize>
    ensures { result ≡ first_free entries.now }
{
    entries.iter().position(|entry| entry.is_none())
}

fn entry_at(entries: &[Option<Entry>], index: u64) -> Option<Entry>
    ensures { result ≡ granted entries.now index }
{
    if index < entries.len() as u64 {
        entries[index as usize]
    } else {
        None
    }
}

fn entry_bytes(entry: &Entry) -> [u8; 16]
    ensures { result ≡ entry_bytes entry.now }
{
    let mut bytes = [0; 16];
    put_u64(&mut bytes, 0, entry_word(entry));
    bytes
}

fn entry_word(entry: &Entry) -> u64
    ensures { result ≡ entry_word entry.now }
{
    ((entry.page as u64) << PAGE_SHIFT)
        + right_bit(entry.rights.write, MTE_COPY_W)
        + right_bit(entry.rights.read, MTE_COPY_R)
}

fn right_bit(held: bool, bit: u64) -> u64
    ensures { result ≡ right_bit held bit }
{
    if held { bit } else { 0 }
}
