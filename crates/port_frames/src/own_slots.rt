// The slots of an end's own ring, as its peer acknowledges them.

ghost use Rattle.std.specs.Prelude.{◌≡◌, ◌+◌, ◌*◌, ◌^◌, ◌<◌, ◌≤◌, [], ◌∷◌, length};
ghost use Rattle.dring.specs.Slots.{free_state};
ghost use Rattle.vio_bytes.specs.Place.{put_at};
ghost use Rattle.lane_models.specs.NetEndTaking.{first_undone, freed, slot_state};
ghost use Rattle.port_frames.specs.Memories.{HoldsRing};

use dom_memory::Memory;
use dring::{Ring, VIO_DESC_DONE, slot_of};
use vio_tag::Cause;
use vnet_msg::SLOT;

/// The ring of so many slots, at the front of the memory.
pub fn ring_of(slots: u32) -> Ring<SLOT>
    ensures { result.slots ≡ slots }
{
    Ring::new(slots)
}

/// The state of a slot.
fn slot_state(memory: &Memory, slots: u32, slot: u32) -> u8
    requires slot { slot < slots }
    requires few { slots ≤ 64 }
    requires room { HoldsRing slots memory.now }
    ensures { result ≡ slot_state slot memory.now }
{
    ring_of(slots).look(memory, slot)[0]
}

/// Makes a slot FREE.
fn free_slot(memory: &mut Memory, slots: u32, slot: u32)
    requires slot { slot < slots }
    requires few { slots ≤ 64 }
    requires room { HoldsRing slots memory.old }
    ensures written { memory.new ≡ put_at (64 * slot) (free_state ∷ []) memory.old }
    ensures same_length { length memory.new ≡ length memory.old }
{
    ring_of(slots).free(memory, slot);
}

/// The first slot of so many, from a number on, that isn't DONE, as why the end resets itself.
pub fn first_undone(memory: &Memory, slots: u32, number: u64, count: u32) -> Option<Cause>
    requires some { 0 < slots }
    requires few { slots ≤ 64 }
    requires number { number + count < 2 ^ 64 }
    requires room { HoldsRing slots memory.now }
    ensures { result ≡ first_undone slots memory.now number count }
{
    for index in 0..count {
        let slot = slot_of(number + index as u64, 0, slots);
        let state = slot_state(memory, slots, slot);
        if state != VIO_DESC_DONE {
            return Some(Cause::NotDone { slot, state });
        }
    }
    None
}

/// Makes so many slots FREE, from a number on.
pub fn free_slots(memory: &mut Memory, slots: u32, number: u64, count: u32)
    requires some { 0 < slots }
    requires few { slots ≤ 64 }
    requires number { number + count < 2 ^ 64 }
    requires room { HoldsRing slots memory.old }
    ensures freed { memory.new ≡ freed slots number count memory.old }
    ensures same_length { length memory.new ≡ length memory.old }
{
    for index in 0..count {
        let slot = slot_of(number + index as u64, 0, slots);
        free_slot(memory, slots, slot);
    }
}
