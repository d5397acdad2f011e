// The ring at its producer.

ghost use Rattle.std.specs.Prelude.{◌≡◌, ℕ, ◌*◌, ◌<◌, ◌≤◌, [], ◌∷◌, length};
ghost use Rattle.vio_bytes.specs.Place.{put_at};
ghost use Rattle.dring.specs.Slots.{IsSlotSize, free_slot, free_slots, free_state, slot_bytes};

use dom_memory::Memory;

/// A ring of slots of `SLOT` bytes, 128 for disks and 64 for ports, which stands at byte 0 of its
/// producer's memory.
#[derive(Clone, Copy)]
pub struct Ring<const SLOT: usize> {
    slots: u32,
}

/// The state of a descriptor that its producer may write (`struct vio_dring_hdr` of Linux's vio.h).
pub const VIO_DESC_FREE: u8 = 1;

/// That of one that the other end may take.
pub const VIO_DESC_READY: u8 = 2;

/// That of one that the other end took.
pub const VIO_DESC_ACCEPTED: u8 = 3;

/// That of one that the other end is done with.
pub const VIO_DESC_DONE: u8 = 4;

/// The states have the numbers of the standard.
pub fn states_are_those_of_the_standard()
    ensures free { VIO_DESC_FREE ≡ 1 }
    ensures ready { VIO_DESC_READY ≡ 2 }
    ensures accepted { VIO_DESC_ACCEPTED ≡ 3 }
    ensures done { VIO_DESC_DONE ≡ 4 }
{}

impl<const SLOT: usize> Ring<SLOT> {
    /// A ring of so many slots. Nothing is written.
    pub fn new(slots: u32) -> Ring<SLOT>
        ensures { result.slots ≡ slots }
    {
        Ring { slots }
    }

    /// Writes a descriptor into a slot. All other bytes stay.
    pub fn publish(&self, memory: &mut Memory, slot: u32, bytes: &[u8; SLOT])
        requires size { IsSlotSize SLOT }
        requires slot_in { slot < self.now.slots }
        requires room { SLOT * self.now.slots ≤ length memory.old }
        ensures written { memory.new ≡ put_at (SLOT * slot) bytes.now memory.old }
        ensures same_length { length memory.new ≡ length memory.old }
    {
        memory.write(place::<SLOT>(slot), bytes);
    }

    /// The bytes of a slot.
    pub fn look(&self, memory: &Memory, slot: u32) -> [u8; SLOT]
        requires size { IsSlotSize SLOT }
        requires slot_in { slot < self.now.slots }
        requires room { SLOT * self.now.slots ≤ length memory.now }
        ensures { result ≡ slot_bytes SLOT slot memory.now }
    {
        let mut bytes = [0; SLOT];
        memory.read(place::<SLOT>(slot), &mut bytes);
        bytes
    }

    /// Makes the state of a slot FREE, and changes no other byte.
    pub fn free(&self, memory: &mut Memory, slot: u32)
        requires size { IsSlotSize SLOT }
        requires slot_in { slot < self.now.slots }
        requires room { SLOT * self.now.slots ≤ length memory.old }
        ensures written { memory.new ≡ put_at (SLOT * slot) (free_state ∷ []) memory.old }
        ensures same_length { length memory.new ≡ length memory.old }
    {
        memory.write(place::<SLOT>(slot), &[VIO_DESC_FREE]);
    }

    /// Makes all slots zeros with the state FREE. All bytes after the ring stay.
    pub fn clear(&self, memory: &mut Memory)
        requires size { IsSlotSize SLOT }
        requires room { SLOT * self.now.slots ≤ length memory.old }
        ensures written { memory.new ≡ put_at 0 (free_slots SLOT self.now.slots) memory.old }
        ensures same_length { length memory.new ≡ length memory.old }
    {
        let free = free_slot::<SLOT>();
        for slot in 0..self.slots {
            memory.write(place::<SLOT>(slot), &free);
        }
    }
}

/// Where a slot begins.
pub(crate) fn place<const SLOT: usize>(slot: u32) -> u64
    requires { IsSlotSize SLOT }
    ensures { result ≡ SLOT * slot }
{
    SLOT as u64 * slot as u64
}

fn free_slot<const SLOT: usize>() -> [u8; SLOT]
    requires { IsSlotSize SLOT }
    ensures { result ≡ free_slot SLOT }
{
    let mut bytes = [0; SLOT];
    bytes[0] = VIO_DESC_FREE;
    bytes
}
