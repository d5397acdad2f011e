// The bytes of a unit on their way between the client and the store.

ghost use Rattle.std.specs.Prelude.{◌≡◌, ◌≤◌, length, take, [], Some, None, is_err, IfOk, MatchResult, OnOk};
ghost use Rattle.cookie_copy.specs.Faults.{PagesWithin, both_up, first_copy_fault};
ghost use Rattle.cookie_copy.specs.Moved.{moved_in};
ghost use Rattle.cookie_copy.specs.declared.fault.Access.TheVariants.{Read};
ghost use Rattle.vio_io.specs.Stores.{IsUnitRange, ReadsRange};
ghost use Rattle.descriptor_work.specs.Calling.{CalledOnce};

use cookie_copy::{CopyFault, copy_in};
use dom_memory::Memory;
use ldc_queue::{Channel, End};
use map_table::{Cookie, MapTable};
use std::alloc::Global;
use std::marker::Model;
use vio_bytes::NoMemory;
use vio_io::{Failed, Store};

/// The most bytes of a unit: 16 blocks of 512.
pub(crate) const UNIT: u64 = 8192;

/// Room for one unit, with the bytes that it holds at its front.
#[derive(Drop)]
pub struct UnitBuffer {
    bytes: Vec<u8>,
    held: usize,
}

impl Model for UnitBuffer {
    ghost use Rattle.std.specs.Prelude.{◌≡◌, ◌≤◌, ℕ, List, length, take};

    ghost Value = { List ℕ };

    ghost view = { λ u. take u.held u.bytes.items };

    ghost invariant = { λ u. (length u.bytes.items ≡ 8192) × (u.held ≤ 8192) };
}

impl UnitBuffer {
    /// An empty one. The one refusal is for want of memory.
    pub fn new(alloc: Global) -> Result<UnitBuffer, NoMemory>
        ensures { IfOk result (λ u. u ≡ []) }
    {
        let bytes = vec![in alloc; 0; UNIT as usize]?;
        Ok(UnitBuffer { bytes, held: 0 })
    }

    /// What it holds.
    pub fn bytes(&self) -> &[u8]
        ensures held { result.now ≡ self.now }
        ensures most { length self.now ≤ 8192 }
    {
        &self.bytes[..self.held]
    }

    /// Reads a unit of so many bytes from the place `at` of the store. After `Failed` nothing is promised of what it holds.
    pub fn read<D: Store>(&mut self, store: &mut D, at: u64, size: usize) -> Result<(), Failed>
        requires { IsUnitRange (D.size store.old) at size }
        ensures told { OnOk result (ReadsRange (D.content store.old) at self.new) }
        ensures held { OnOk result (length self.new ≡ size) }
        ensures content { D.content store.new ≡ D.content store.old }
        ensures size { D.size store.new ≡ D.size store.old }
        ensures called { CalledOnce D.Store 1 (is_err result) store.old store.new }
    {
        read_front(store, at, &mut self.bytes, size)?;
        self.held = size;
        Ok(())
    }

    /// Copies a unit of so many bytes in, from the offset `at` of the client's cookies. After a fault nothing is promised of what
    /// it holds.
    pub fn copy_in(
        &mut self,
        channel: &Channel,
        table: &MapTable,
        memory: &Memory,
        cookies: &[Cookie],
        at: u64,
        size: usize,
    ) -> Result<(), CopyFault>
        requires most { size ≤ 8192 }
        requires within { PagesWithin table.now (length memory.now) }
        ensures fault { MatchResult result (λ _. first_copy_fault (both_up channel.now.wire) Read table.now cookies.now at size ≡ None) (λ fault. first_copy_fault (both_up channel.now.wire) Read table.now cookies.now at size ≡ Some fault) }
        ensures moved { OnOk result (self.new ≡ moved_in table.now memory.now cookies.now at size) }
        ensures held { OnOk result (length self.new ≡ size) }
    {
        copy_front(channel, table, memory, cookies, at, &mut self.bytes, size)?;
        self.held = size;
        Ok(())
    }
}

/// Reads into the front of the bytes.
fn read_front<D: Store>(store: &mut D, at: u64, bytes: &mut [u8], size: usize) -> Result<(), Failed>
    requires range { IsUnitRange (D.size store.old) at size }
    requires room { size ≤ length bytes.old }
    ensures told { OnOk result (ReadsRange (D.content store.old) at (take size bytes.new)) }
    ensures content { D.content store.new ≡ D.content store.old }
    ensures size { D.size store.new ≡ D.size store.old }
    ensures called { CalledOnce D.Store 1 (is_err result) store.old store.new }
{
    store.read_at(at, &mut bytes[..size])
}

/// Copies into the front of the bytes.
fn copy_front(
    channel: &Channel,
    table: &MapTable,
    memory: &Memory,
    cookies: &[Cookie],
    at: u64,
    bytes: &mut [u8],
    size: usize,
) -> Result<(), CopyFault>
    requires room { size ≤ length bytes.old }
    requires within { PagesWithin table.now (length memory.now) }
    ensures fault { MatchResult result (λ _. first_copy_fault (both_up channel.now.wire) Read table.now cookies.now at size ≡ None) (λ fault. first_copy_fault (both_up channel.now.wire) Read table.now cookies.now at size ≡ Some fault) }
    ensures moved { OnOk result (take size bytes.new ≡ moved_in table.now memory.now cookies.now at size) }
{
    copy_in(
        channel,
        End::B,
        table,
        memory,
        cookies,
        at,
        &mut bytes[..size],
    )
}
