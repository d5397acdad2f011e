// The layout of a net descriptor.

ghost use Rattle.std.specs.Prelude.{◌≡◌, ◌∷◌, []};
ghost use Rattle.vio_bytes.specs.Layout.{IsLayout};

use vio_bytes::Table;

/// The head of a net descriptor, after which its cookies stand: `struct vio_net_desc` of Linux's vio.h, which begins
/// with `struct vio_dring_hdr`.
pub(crate) const NET_DESC: Table<4> = Table {
    fields: [
        (0, 1), // hdr.state
        (1, 1), // hdr.ack
        (8, 4), // size
        (12, 4), // ncookies
    ],
    length: HEAD,
};

/// The bytes of the head.
pub(crate) const HEAD: usize = 16;

pub(crate) const STATE: usize = 0;

pub(crate) const ACK: usize = 1;

/// In bytes.
pub(crate) const SIZE: usize = 2;

pub(crate) const NCOOKIES: usize = 3;

/// The most cookies of one descriptor.
pub(crate) const MOST_COOKIES: u32 = 3;

/// The bytes of a slot of a port's ring: a descriptor's head and the most cookies that it has.
pub const SLOT: usize = 64;

/// The fewest bytes of a frame: two addresses and the type.
pub const LEAST_FRAME: u32 = 14;

/// The most bytes of a frame.
pub const MOST_FRAME: u32 = 1514;

/// A slot and the lengths of a frame have the numbers of the standard.
pub fn frames_have_the_numbers_of_the_standard()
    ensures slot { SLOT ≡ 64 }
    ensures least { LEAST_FRAME ≡ 14 }
    ensures most { MOST_FRAME ≡ 1514 }
{}

/// The table has the struct's places, widths and length, so its fields don't overlap and lie within it.
pub fn layouts_are_sound()
    ensures { IsLayout NET_DESC.fields NET_DESC.length (0 ∷ 1 ∷ 8 ∷ 12 ∷ []) (1 ∷ 1 ∷ 4 ∷ 4 ∷ []) 16 }
{}
