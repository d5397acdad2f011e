// The ring of the other end, reached by its cookies.

ghost use Rattle.std.specs.Prelude.{◌≡◌, ◌≢◌, ◌+◌, ◌-◌, ◌*◌, ◌%◌, ◌<◌, ◌≤◌, Some, None, IfErr, IfOk, MatchResult, length, slice_index};
ghost use Rattle.cookie_copy.specs.Faults.{PagesWithin, both_up, first_copy_fault};
ghost use Rattle.cookie_copy.specs.Moved.{moved_in, moved_out};
ghost use Rattle.cookie_copy.specs.declared.fault.Access.TheVariants.{Read, Write};
ghost use Rattle.dring.specs.Slots.{IsSlotSize, range_length, ready_state};
ghost use Rattle.dring.specs.Reaching.{IsSlotOf, RefusesFetch, ring_cookies};

use crate::ring::{VIO_DESC_READY, place};
use cookie_copy::{CopyFault, copy_in, copy_out};
use dom_memory::Memory;
use ldc_queue::{Channel, End};
use map_table::{Cookie, MapTable};

/// A ring that the other end registered: its slots, and the cookies that name its bytes, as many as
/// `count`.
#[derive(Clone, Copy, Debug, PartialEq, Eq)]
pub struct PeerRing {
    pub slots: u32,
    pub count: u32,
    pub cookies: [Cookie; 14],
}

/// Why a descriptor wasn't fetched.
#[derive(Clone, Copy, Debug, PartialEq, Eq)]
pub enum RingFault {
    /// The copy was refused.
    Copy(CopyFault),
    /// The descriptor has this state, which isn't READY.
    NotReady(u8),
}

/// The slot of a descriptor by its number, where the number `base` stands in slot 0.
pub fn slot_of(id: u64, base: u64, slots: u32) -> u32
    requires since { base ≤ id }
    requires some { slots ≢ 0 }
    ensures slot { result ≡ (id - base) % slots }
    ensures within { result < slots }
{
    ((id - base) % slots as u64) as u32
}

/// The number of slots from `start` to `end`, both among them, around a ring of so many.
pub fn range_length(slots: u32, start: u32, end: u32) -> u32
    requires some { slots ≢ 0 }
    ensures length { result ≡ range_length slots start end }
    ensures within { result ≤ slots }
{
    let slots = slots as u64;
    ((end as u64 + slots - start as u64 % slots) % slots + 1) as u32
}

/// Copies a descriptor in. It is looked at only after the copy: `NotReady` where its state isn't READY.
pub fn fetch<const SLOT: usize>(
    channel: &Channel,
    end: End,
    table: &MapTable,
    memory: &Memory,
    ring: &PeerRing,
    slot: u32,
) -> Result<[u8; SLOT], RingFault>
    requires size { IsSlotSize SLOT }
    requires slot { IsSlotOf ring.now slot }
    requires within { PagesWithin table.now (length memory.now) }
    ensures copied { IfOk result (λ bytes. first_copy_fault (both_up channel.now.wire) Read table.now (ring_cookies ring.now) (SLOT * slot) SLOT ≡ None) }
    ensures fetched { IfOk result (λ bytes. bytes ≡ moved_in table.now memory.now (ring_cookies ring.now) (SLOT * slot) SLOT) }
    ensures ready { IfOk result (λ bytes. slice_index bytes 0 ≡ ready_state) }
    ensures refused { IfErr result (RefusesFetch (first_copy_fault (both_up channel.now.wire) Read table.now (ring_cookies ring.now) (SLOT * slot) SLOT) (moved_in table.now memory.now (ring_cookies ring.now) (SLOT * slot) SLOT)) }
{
    let mut bytes = [0; SLOT];
    let cookies = &ring.cookies[..ring.count as usize];
    match copy_in(
        channel,
        end,
        table,
        memory,
        cookies,
        place::<SLOT>(slot),
        &mut bytes,
    ) {
        Ok(()) => {}
        Err(fault) => return Err(RingFault::Copy(fault)),
    }
    if bytes[0] != VIO_DESC_READY {
        return Err(RingFault::NotReady(bytes[0]));
    }
    Ok(bytes)
}

/// Writes the header of a descriptor, its first eight bytes.
pub fn mark<const SLOT: usize>(
    channel: &Channel,
    end: End,
    table: &MapTable,
    memory: &mut Memory,
    ring: &PeerRing,
    slot: u32,
    header: [u8; 8],
) -> Result<(), CopyFault>
    requires size { IsSlotSize SLOT }
    requires slot { IsSlotOf ring.now slot }
    requires within { PagesWithin table.now (length memory.old) }
    ensures fault { MatchResult result (λ _. first_copy_fault (both_up channel.now.wire) Write table.now (ring_cookies ring.now) (SLOT * slot) 8 ≡ None) (λ fault. first_copy_fault (both_up channel.now.wire) Write table.now (ring_cookies ring.now) (SLOT * slot) 8 ≡ Some fault) }
    ensures written { MatchResult result (λ _. memory.new ≡ moved_out table.now memory.old (ring_cookies ring.now) (SLOT * slot) header) (λ _. memory.new ≡ memory.old) }
    ensures same_length { length memory.new ≡ length memory.old }
{
    let cookies = &ring.cookies[..ring.count as usize];
    copy_out(
        channel,
        end,
        table,
        memory,
        cookies,
        place::<SLOT>(slot),
        &header,
    )
}

/// Writes eight bytes at the place `at` of a descriptor.
pub fn put_word<const SLOT: usize>(
    channel: &Channel,
    end: End,
    table: &MapTable,
    memory: &mut Memory,
    ring: &PeerRing,
    slot: u32,
    at: u32,
    word: [u8; 8],
) -> Result<(), CopyFault>
    requires size { IsSlotSize SLOT }
    requires slot { IsSlotOf ring.now slot }
    requires within { PagesWithin table.now (length memory.old) }
    requires aligned { at % 8 ≡ 0 }
    requires inside { at + 8 ≤ SLOT }
    ensures fault { MatchResult result (λ _. first_copy_fault (both_up channel.now.wire) Write table.now (ring_cookies ring.now) (SLOT * slot + at) 8 ≡ None) (λ fault. first_copy_fault (both_up channel.now.wire) Write table.now (ring_cookies ring.now) (SLOT * slot + at) 8 ≡ Some fault) }
    ensures written { MatchResult result (λ _. memory.new ≡ moved_out table.now memory.old (ring_cookies ring.now) (SLOT * slot + at) word) (λ _. memory.new ≡ memory.old) }
    ensures same_length { length memory.new ≡ length memory.old }
{
    let cookies = &ring.cookies[..ring.count as usize];
    let offset = place::<SLOT>(slot) + at as u64;
    copy_out(channel, end, table, memory, cookies, offset, &word)
}
