// A descriptor as it was fetched.

ghost use Rattle.std.specs.Prelude.{◌≡◌};
ghost use Rattle.vdisk_msg.specs.Descriptor.{disk_desc_of};
ghost use Rattle.vdisk_msg.specs.Requested.{header};

use std::marker::Model;
use vdisk_msg::{DiskDesc, decode};
use vio_bytes::{get_u8, put_u8};

/// The place of the ack in a slot.
const ACK: usize = 1;

/// The bytes of a slot, with what they say, which is looked at many times and decoded once.
#[derive(Drop)]
pub struct Descriptor {
    bytes: [u8; 128],
    desc: DiskDesc,
}

impl Model for Descriptor {
    ghost use Rattle.std.specs.Prelude.{◌≡◌, ℕ, List};
    ghost use Rattle.vdisk_msg.specs.Descriptor.{disk_desc_of};

    ghost Value = { List ℕ };

    ghost view = { λ d. d.bytes };

    ghost invariant = { λ d. d.desc ≡ disk_desc_of d.bytes };
}

impl Descriptor {
    /// The descriptor that these bytes are.
    pub fn new(bytes: &[u8; 128]) -> Descriptor
        ensures { result ≡ bytes.now }
    {
        Descriptor {
            bytes: *bytes,
            desc: decode(bytes),
        }
    }

    /// Its bytes, as they were fetched.
    pub fn bytes(&self) -> &[u8; 128]
        ensures { result.now ≡ self.now }
    {
        &self.bytes
    }

    /// The header of a state, with the ack as it was fetched.
    pub fn header(&self, state: u8) -> [u8; 8]
        ensures { result ≡ header state (disk_desc_of self.now).ack }
    {
        header_of(state, &self.bytes)
    }

    /// Its fields.
    pub fn desc(&self) -> &DiskDesc
        ensures { result.now ≡ disk_desc_of self.now }
    {
        &self.desc
    }
}

/// The header of a state, with the ack of the slot that has these bytes.
pub fn header_of(state: u8, bytes: &[u8; 128]) -> [u8; 8]
    ensures { result ≡ header state (disk_desc_of bytes.now).ack }
{
    let mut header = [0; 8];
    put_u8(&mut header, 0, state);
    put_u8(&mut header, ACK, get_u8(bytes, ACK));
    header
}
