// Rings of 256 slots at the front of the domain's memory, which the other end reaches by one cookie.

ghost use Rattle.std.specs.Prelude.{◌≡◌, ◌+◌, ◌*◌, ◌%◌, ◌≤◌, length};
ghost use Rattle.dring.specs.Slots.{IsSlotSize};

use crate::rows::domain::Domain;
use crate::rows::texts::{array, digits, shown};
use cookie_copy::CopyFault;
use dring::{PeerRing, Ring, fetch, mark, put_word};
use ldc_queue::End;
use map_table::Cookie;
use std::alloc::Global;

const PEER: PeerRing = PeerRing {
    slots: 256,
    count: 1,
    cookies: [Cookie {
        address: 0,
        size: 32768,
    }; 14],
};

/// What comes of a command to a ring, an empty text for a step: to a disk's, which the end B reaches, or to a port's,
/// which the end A reaches.
pub fn answer(alloc: Global, domain: &mut Domain, ring: &str, words: &str) -> Option<String> {
    if domain.memory.pages() < 4 {
        return None;
    }
    match ring {
        "disk" => slot_answer::<128>(alloc, domain, End::B, words),
        "port" => slot_answer::<64>(alloc, domain, End::A, words),
        _ => None,
    }
}

// The words are a command, a slot, and what the command wants more.
fn slot_answer<const SLOT: usize>(
    alloc: Global,
    domain: &mut Domain,
    end: End,
    words: &str,
) -> Option<String>
    requires size { IsSlotSize SLOT }
    requires room { SLOT * 256 ≤ length domain.old.memory }
{
    let (command, words) = words.split_once(' ')?;
    let (slot, words) = words.split_once(' ').unwrap_or((words, ""));
    let slot = slot.parse::<u8>().ok()?;
    match command {
        "clear" => clear::<SLOT>(alloc, domain, slot),
        "publish" => publish::<SLOT>(alloc, domain, slot, words),
        "free" => free::<SLOT>(alloc, domain, slot),
        "look" => digits(alloc, &look::<SLOT>(domain, slot)),
        "fetch" => fetched::<SLOT>(alloc, domain, end, slot),
        "mark" => marked::<SLOT>(alloc, domain, end, slot, words),
        "put" => put::<SLOT>(alloc, domain, end, slot, words),
        _ => None,
    }
}

fn ring<const SLOT: usize>() -> Ring<SLOT>
    ensures { result.slots ≡ 256 }
{
    Ring::new(256)
}

// All slots are cleared, as the first of them is named.
fn clear<const SLOT: usize>(alloc: Global, domain: &mut Domain, slot: u8) -> Option<String>
    requires size { IsSlotSize SLOT }
    requires room { SLOT * 256 ≤ length domain.old.memory }
{
    if slot != 0 {
        return None;
    }
    ring::<SLOT>().clear(&mut domain.memory);
    Some(String::new(alloc))
}

fn publish<const SLOT: usize>(
    alloc: Global,
    domain: &mut Domain,
    slot: u8,
    words: &str,
) -> Option<String>
    requires size { IsSlotSize SLOT }
    requires room { SLOT * 256 ≤ length domain.old.memory }
{
    let bytes: [u8; SLOT] = array(alloc, words)?;
    ring::<SLOT>().publish(&mut domain.memory, slot as u32, &bytes);
    Some(String::new(alloc))
}

fn free<const SLOT: usize>(alloc: Global, domain: &mut Domain, slot: u8) -> Option<String>
    requires size { IsSlotSize SLOT }
    requires room { SLOT * 256 ≤ length domain.old.memory }
{
    ring::<SLOT>().free(&mut domain.memory, slot as u32);
    Some(String::new(alloc))
}

fn look<const SLOT: usize>(domain: &Domain, slot: u8) -> [u8; SLOT]
    requires size { IsSlotSize SLOT }
    requires room { SLOT * 256 ≤ length domain.now.memory }
{
    ring::<SLOT>().look(&domain.memory, slot as u32)
}

fn fetched<const SLOT: usize>(alloc: Global, domain: &Domain, end: End, slot: u8) -> Option<String>
    requires { IsSlotSize SLOT }
{
    let (table, memory) = (&domain.table, &domain.memory);
    match fetch::<SLOT>(&domain.channel, end, table, memory, &PEER, slot as u32) {
        Ok(bytes) => digits(alloc, &bytes),
        Err(fault) => shown(alloc, Err::<(), _>(fault)),
    }
}

// The words are the header of the slot.
fn marked<const SLOT: usize>(
    alloc: Global,
    domain: &mut Domain,
    end: End,
    slot: u8,
    words: &str,
) -> Option<String>
    requires { IsSlotSize SLOT }
{
    shown(
        alloc,
        mark_at::<SLOT>(domain, end, slot, array(alloc, words)?),
    )
}

fn mark_at<const SLOT: usize>(
    domain: &mut Domain,
    end: End,
    slot: u8,
    header: [u8; 8],
) -> Result<(), CopyFault>
    requires { IsSlotSize SLOT }
{
    let (table, memory) = (&domain.table, &mut domain.memory);
    mark::<SLOT>(
        &domain.channel,
        end,
        table,
        memory,
        &PEER,
        slot as u32,
        header,
    )
}

// The words are a place of the slot and the eight bytes that are to stand there.
fn put<const SLOT: usize>(
    alloc: Global,
    domain: &mut Domain,
    end: End,
    slot: u8,
    words: &str,
) -> Option<String>
    requires { IsSlotSize SLOT }
{
    let (at, words) = words.split_once(' ')?;
    let at = at.parse::<u8>().ok()?;
    if at % 8 != 0 || at as usize + 8 > SLOT {
        return None;
    }
    shown(
        alloc,
        put_at::<SLOT>(domain, end, slot, at, array(alloc, words)?),
    )
}

fn put_at<const SLOT: usize>(
    domain: &mut Domain,
    end: End,
    slot: u8,
    at: u8,
    word: [u8; 8],
) -> Result<(), CopyFault>
    requires size { IsSlotSize SLOT }
    requires aligned { at % 8 ≡ 0 }
    requires inside { at + 8 ≤ SLOT }
{
    let (table, memory) = (&domain.table, &mut domain.memory);
    put_word::<SLOT>(
        &domain.channel,
        end,
        table,
        memory,
        &PEER,
        slot as u32,
        at as u32,
        word,
    )
}
