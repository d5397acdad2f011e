// The frames that queues name.

ghost use Rattle.std.specs.Prelude.{◌≡◌, ◌+◌, ◌<◌, ◌≤◌, ◌++◌, drop, length, slice_index_or, slice_set, IfOk, None, Some};
ghost use Rattle.slab.specs.Slab.{Updates};
ghost use Rattle.vnet_switch.specs.Kept.{bytes_at, fresh_frames, kept_count, slot_at, unnamed, IsFrameKept, KeepsNamed};

use crate::frame_buffer::FrameBuffer;
use slab::Slab;
use std::alloc::Global;
use std::marker::Model;
use vio_bytes::NoMemory;

/// A frame, and how many queues name it.
#[derive(Drop)]
pub(crate) struct KeptFrame {
    pub(crate) bytes: FrameBuffer,
    pub(crate) names: u32,
}

/// The frames that queues name, each kept once under a key, and buffers for those still to come.
#[derive(Drop)]
pub(crate) struct KeptFrames {
    frames: Slab<KeptFrame>,
    spare: Vec<FrameBuffer>,
}

impl Model for KeptFrames {
    ghost use Rattle.std.specs.Prelude.{◌+◌, ◌≤◌, vec_capacity, vec_len};
    ghost use Rattle.slab.specs.Slab.{slab_len};
    ghost use Rattle.vnet_switch.specs.Kept.{FrameSlots};

    ghost Value = { FrameSlots };

    ghost view = { λ f. record {
      slots = f.frames.slots;
      next_key = f.frames.vacant_key;
      room = slab_len f.frames + vec_len f.spare;
    } };

    ghost invariant = { λ f. record {
      slots : slab_len f.frames + vec_len f.spare ≤ f.frames.capacity;
      spare : slab_len f.frames + vec_len f.spare ≤ vec_capacity f.spare;
    } };
}

impl KeptFrames {
    /// None yet, with room for so many.
    pub(crate) fn new(alloc: Global, room: usize) -> Result<KeptFrames, NoMemory>
        ensures { IfOk result (λ kept. kept ≡ fresh_frames room) }
    {
        let frames = Slab::with_capacity(alloc, room)?;
        let mut spare = Vec::with_capacity(alloc, room)?;
        for _ in 0..room {
            spare.push_reserved(FrameBuffer::new(alloc)?);
        }
        Ok(KeptFrames { frames, spare })
    }

    /// How many are kept.
    pub(crate) fn len(&self) -> usize
        ensures { result ≡ kept_count self.now.slots }
    {
        self.frames.len()
    }

    /// The key that the next frame will have.
    pub(crate) fn next_key(&self) -> usize
        ensures key { result ≡ self.now.next_key }
        ensures free { slot_at self.now.slots result ≡ None }
    {
        self.frames.vacant_key()
    }

    /// Keeps a frame under the next key, where any queue names it.
    pub(crate) fn keep(&mut self, frame: &[u8], names: u32)
        requires short { length frame.now ≤ 1514 }
        requires room { 0 < names → kept_count self.old.slots < self.old.room }
        ensures { KeepsNamed self.old frame.now names self.new }
    {
        if names == 0 {
            return;
        }
        if let Some(mut bytes) = self.spare.pop() {
            bytes.fill(frame);
            self.frames.insert_reserved(KeptFrame { bytes, names });
        }
    }

    /// Writes a frame to the front, and tells its length.
    pub(crate) fn read(&self, key: usize, front: &mut [u8; 1514]) -> usize
        requires { IsFrameKept self.now.slots key }
        ensures count { result ≡ length (bytes_at self.now.slots key) }
        ensures bytes { front.new ≡ bytes_at self.now.slots key ++ drop result front.old }
    {
        self.frames[key].bytes.read(front)
    }

    /// One queue fewer names the frame, which leaves with the last one.
    pub(crate) fn unname(&mut self, key: usize)
        requires { IsFrameKept self.old.slots key }
        ensures slots { self.new.slots ≡ slice_set self.old.slots key (unnamed (slot_at self.old.slots key)) }
        ensures room { self.new.room ≡ self.old.room }
    {
        if self.frames[key].names > 1 {
            self.frames[key].names -= 1;
            return;
        }
        let frame = self.frames.remove(key);
        self.spare.push_reserved(frame.bytes);
    }
}
