// A frame goes into its slot of the end's ring.

ghost use Rattle.std.specs.Prelude.{◌≡◌, ◌+◌, ◌-◌, ◌*◌, ◌/◌, ◌<◌, ◌≤◌, length};
ghost use Rattle.vio_bytes.specs.Place.{put_at};
ghost use Rattle.vnet_msg.specs.Frames.{buffer_place, frame_buffer, frame_desc, moved_size};
ghost use Rattle.lane_models.specs.NetEndStep.{published_memory};
ghost use Rattle.port_frames.specs.Memories.{HoldsRing};

use crate::own_slots::ring_of;
use dom_memory::Memory;
use dring::VIO_DESC_READY;
use map_table::Cookie;
use vnet_msg::{NetDesc, SLOT, encode};

/// The bytes before a frame in its buffer.
const BEFORE: usize = 6;

/// Where a slot's buffer begins.
pub fn buffer_place(slot: u32) -> u64
    requires { slot < 64 }
    ensures { result ≡ buffer_place slot }
{
    8192 + 2048 * slot as u64
}

/// How many bytes are copied for a frame of so many: with those before it, up to a multiple of eight.
pub fn moved_size(size: usize) -> usize
    requires { size ≤ 1514 }
    ensures moved { result ≡ moved_size size }
    ensures least { 6 + size ≤ result }
    ensures most { result ≤ 1520 }
{
    (size + BEFORE + 7) / 8 * 8
}

/// The descriptor of a frame of so many bytes in a slot, READY.
#[tactic(auto, unfolding(vnet_msg::specs::Frames::frame_desc))]
fn frame_desc(slot: u32, size: usize) -> NetDesc
    requires slot { slot < 64 }
    requires size { size ≤ 1514 }
    ensures { result ≡ frame_desc slot size }
{
    NetDesc {
        state: VIO_DESC_READY,
        ack: 0,
        size: size as u32,
        count: 1,
        cookies: [
            Cookie {
                address: buffer_place(slot),
                size: moved_size(size) as u64,
            },
            Cookie::NONE,
            Cookie::NONE,
        ],
    }
}

/// Writes a frame into the buffer at the place: six zeros, the frame, and zeros up to a multiple of eight bytes.
fn put_buffer(memory: &mut Memory, place: u64, frame: &[u8])
    requires most { length frame.now ≤ 1514 }
    requires place { place ≤ 16777216 }
    requires room { place + 1520 ≤ length memory.old }
    ensures written { memory.new ≡ put_at place (frame_buffer frame.now) memory.old }
    ensures same_length { length memory.new ≡ length memory.old }
{
    let behind = moved_size(frame.len()) - (BEFORE + frame.len());
    memory.write(place, &[0; BEFORE]);
    memory.write(place + BEFORE as u64, frame);
    memory.write(place + (BEFORE + frame.len()) as u64, &[0; 8][..behind]);
}

/// Writes a frame into a slot: its buffer, and its descriptor, READY.
pub fn put_frame(memory: &mut Memory, slots: u32, slot: u32, frame: &[u8])
    requires few { slots ≤ 64 }
    requires slot { slot < slots }
    requires most { length frame.now ≤ 1514 }
    requires room { HoldsRing slots memory.old }
    ensures written { memory.new ≡ published_memory slot frame.now memory.old }
    ensures same_length { length memory.new ≡ length memory.old }
{
    put_buffer(memory, buffer_place(slot), frame);
    let mut bytes = [0; SLOT];
    encode(&frame_desc(slot, frame.len()), &mut bytes);
    ring_of(slots).publish(memory, slot, &bytes);
}
