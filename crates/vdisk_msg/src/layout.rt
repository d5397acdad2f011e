// The layout of a disk descriptor.

ghost use Rattle.std.specs.Prelude.{◌≡◌, ◌*◌, ◌∷◌, []};
ghost use Rattle.vio_bytes.specs.Layout.{IsLayout};

use vio_bytes::{PAGE, Table};

/// The head of a disk descriptor, after which its cookies stand: `struct vio_disk_desc` of Linux's
/// vio.h, which begins with `struct vio_dring_hdr`.
pub(crate) const DISK_DESC: Table<9> = Table {
    fields: [
        (0, 1), // hdr.state
        (1, 1), // hdr.ack
        (8, 8), // req_id
        (16, 1), // operation
        (17, 1), // slice
        (20, 4), // status
        (24, 8), // offset
        (32, 8), // size
        (40, 4), // ncookies
    ],
    length: HEAD,
};

/// The bytes of a slot of a disk's ring: a descriptor's head and five cookies, which Linux's sunvdc.c registers for it.
pub const SLOT: usize = 128;

/// The bytes of the head.
pub(crate) const HEAD: usize = 48;

pub(crate) const STATE: usize = 0;

pub(crate) const ACK: usize = 1;

pub(crate) const REQ_ID: usize = 2;

pub(crate) const OPERATION: usize = 3;

/// Reads blocks: `VD_OP_BREAD` of Linux's `vio.h`.
pub const VD_OP_BREAD: u8 = 1;

/// Writes blocks: `VD_OP_BWRITE`.
pub const VD_OP_BWRITE: u8 = 2;

/// What was written before is to last: `VD_OP_FLUSH`.
pub const VD_OP_FLUSH: u8 = 3;

pub(crate) const SLICE: usize = 4;

pub(crate) const STATUS: usize = 5;

/// In blocks.
pub(crate) const OFFSET: usize = 6;

/// In bytes.
pub(crate) const SIZE: usize = 7;

/// The bytes of a block of the disk.
pub const BLOCK: u64 = 512;

/// The most blocks of one request.
pub const MOST_BLOCKS: u64 = 64;

/// The most bytes of one descriptor, 64 blocks.
pub const MOST_BYTES: u64 = 32_768;

/// The pages of the buffer that a client keeps for each slot: as many as the most bytes of a descriptor fill.
pub const BUFFER_PAGES: u32 = 4;

pub(crate) const NCOOKIES: usize = 8;

/// The most cookies of one descriptor.
pub(crate) const MOST_COOKIES: u32 = 5;

/// A slot, the operations and the sizes have the numbers of the standard and of this profile.
pub fn disks_have_the_numbers_of_the_standard()
    ensures slot { SLOT ≡ 128 }
    ensures read { VD_OP_BREAD ≡ 1 }
    ensures write { VD_OP_BWRITE ≡ 2 }
    ensures flush { VD_OP_FLUSH ≡ 3 }
    ensures block { BLOCK ≡ 512 }
    ensures blocks { MOST_BLOCKS ≡ 64 }
    ensures bytes { MOST_BYTES ≡ MOST_BLOCKS * BLOCK }
    ensures pages { BUFFER_PAGES * PAGE ≡ MOST_BYTES }
{}

/// The table has the struct's places, widths and length, so its fields don't overlap and lie within it.
pub fn layouts_are_sound()
    ensures { IsLayout DISK_DESC.fields DISK_DESC.length (0 ∷ 1 ∷ 8 ∷ 16 ∷ 17 ∷ 20 ∷ 24 ∷ 32 ∷ 40 ∷ []) (1 ∷ 1 ∷ 8 ∷ 1 ∷ 1 ∷ 4 ∷ 8 ∷ 8 ∷ 4 ∷ []) 48 }
{}
