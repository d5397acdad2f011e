// A request is written into its slot.

ghost use Rattle.std.specs.Prelude.{◌≡◌, ◌+◌, ◌*◌, ◌%◌, ◌<◌, ◌≤◌, ◌++◌, length, take};
ghost use Rattle.vio_bytes.specs.Place.{put_at};
ghost use Rattle.vdisk_msg.specs.Check.{most_bytes};
ghost use Rattle.vdisk_msg.specs.Fills.{IsFill, IsRequest};
ghost use Rattle.vdisk_msg.specs.Requested.{size_of};
ghost use Rattle.vdisk_msg.specs.Requests.{repeated};
ghost use Rattle.lane_models.specs.ClientStep.{filled_buffer, published_memory};
ghost use Rattle.disk_requests.specs.Room.{HoldsRing};

use crate::descriptor::{buffer_place, descriptor_of, ring_of};
use dom_memory::Memory;
use vdisk_msg::{BLOCK, Fill, Request, encode};

/// Writes the request with this id into a slot of a ring of so many: a write's bytes into the slot's buffer, and the
/// descriptor, READY.
pub fn put_request(memory: &mut Memory, slots: u32, slot: u32, id: u64, request: &Request)
    requires few { slots ≤ 256 }
    requires slot { slot < slots }
    requires size { size_of request.now ≤ most_bytes }
    requires fill { IsRequest request.now }
    requires room { HoldsRing slots memory.old }
    ensures written { memory.new ≡ published_memory slots slot id request.now memory.old }
    ensures same_length { length memory.new ≡ length memory.old }
{
    put_data(memory, buffer_place(slots, slot), request);
    let mut bytes = [0; 128];
    encode(&descriptor_of(id, request, slot, slots), &mut bytes);
    ring_of(slots).publish(memory, slot, &bytes);
}

/// Writes a write's bytes to the place.
fn put_data(memory: &mut Memory, place: u64, request: &Request)
    requires size { size_of request.now ≤ most_bytes }
    requires fill { IsRequest request.now }
    requires place { place ≤ 16777216 }
    requires room { place + most_bytes ≤ length memory.old }
    ensures written { memory.new ≡ filled_buffer request.now place memory.old }
    ensures same_length { length memory.new ≡ length memory.old }
{
    match request {
        Request::Write { count, fill, .. } => {
            put_fill(memory, place, fill, (BLOCK * *count) as usize);
        }
        _ => {}
    }
}

/// Words are laid one after the other until they have more bytes than this.
const FEW: usize = 1024;

/// Writes `total` bytes of a word's repetition to the place.
fn put_fill(memory: &mut Memory, place: u64, fill: &Fill, total: usize)
    requires fill { IsFill fill.now }
    requires place { place ≤ 16777216 }
    requires total { total ≤ most_bytes }
    requires room { place + total ≤ length memory.old }
    ensures written { memory.new ≡ put_at place (repeated fill.now 0 total) memory.old }
    ensures same_length { length memory.new ≡ length memory.old }
{
    let mut words = [0; 2 * FEW];
    let laid = lay_words(&mut words, fill, total);
    let mut at = 0;
    while at < total {
        let size = laid.min(total - at);
        memory.write(place + at as u64, &words[..size]);
        at += size;
    }
}

/// Lays a word's repetition, whole words of it, to the front: as many bytes as are wanted, or more than `FEW`. Answers
/// how many.
fn lay_words(words: &mut [u8; 2048], fill: &Fill, wanted: usize) -> usize
    requires { IsFill fill.now }
    ensures some { 1 ≤ result }
    ensures within { result ≤ length words.new }
    ensures whole { result % fill.now.len ≡ 0 }
    ensures laid { take result words.new ≡ repeated fill.now 0 result }
{
    let mut at = fill.len as usize;
    words[..at].copy_from_slice(&fill.bytes[..at]);
    while at <= FEW && at < wanted {
        lay_again(words, at);
        at += at;
    }
    at
}

/// Puts a copy of the first `at` bytes after them.
fn lay_again(words: &mut [u8; 2048], at: usize)
    requires { at + at ≤ length words.old }
    ensures { take (at + at) words.new ≡ take at words.old ++ take at words.old }
{
    let (front, rest) = words.split_at_mut(at);
    rest[..at].copy_from_slice(front);
}
