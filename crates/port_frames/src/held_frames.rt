// The frames that an end holds, in order, in memory that was made for as many as there may be.

ghost use Rattle.std.specs.Prelude.{◌≡◌, ◌<◌, ◌≤◌, length, nat_lt, slice_get, IfOk, IfSome};
ghost use Rattle.std.specs.Bool.{OnFalse, OnTrue};
ghost use Rattle.std.specs.Option.{option_copied};
ghost use Rattle.port_frames.specs.FrameQueue.{no_frames, with_last, without_front};

use crate::frame_buffer::FrameBuffer;
use circular_buffer::HeapCircularBuffer;
use std::alloc::Global;
use std::marker::Model;
use vio_bytes::NoMemory;

/// The frames that an end holds, first what was given first, and buffers for those still to come.
#[derive(Drop)]
pub struct HeldFrames {
    frames: HeapCircularBuffer<FrameBuffer>,
    spare: Vec<FrameBuffer>,
}

impl Model for HeldFrames {
    ghost use Rattle.std.specs.Prelude.{◌≡◌, ◌+◌, ◌≤◌, length, vec_capacity, vec_len};
    ghost use Rattle.port_frames.specs.FrameQueue.{FrameQueue};

    ghost Value = { FrameQueue };

    ghost view = { λ f. record { frames = f.frames.items; room = f.frames.capacity } };

    ghost invariant = { λ f. record {
      each : length f.frames.items + vec_len f.spare ≡ f.frames.capacity;
      spare : f.frames.capacity ≤ vec_capacity f.spare;
    } };
}

impl HeldFrames {
    /// None yet, with room for so many.
    pub fn new(alloc: Global, room: usize) -> Result<HeldFrames, NoMemory>
        ensures { IfOk result (λ held. held ≡ no_frames room) }
    {
        let frames = HeapCircularBuffer::with_capacity(alloc, room)?;
        let mut spare = Vec::with_capacity(alloc, room)?;
        for _ in 0..room {
            spare.push_reserved(FrameBuffer::new(alloc)?);
        }
        Ok(HeldFrames { frames, spare })
    }

    /// How many there are.
    pub fn len(&self) -> usize
        ensures count { result ≡ length self.now.frames }
        ensures within { result ≤ self.now.room }
    {
        self.frames.len()
    }

    /// Holds a frame last, where there is room.
    pub fn push(&mut self, frame: &[u8]) -> bool
        requires { length frame.now ≤ 1514 }
        ensures room { result ≡ nat_lt (length self.old.frames) self.old.room }
        ensures held { OnTrue result (self.new ≡ with_last frame.now self.old) }
        ensures full { OnFalse result (self.new ≡ self.old) }
    {
        match self.spare.pop() {
            Some(mut buffer) => {
                buffer.fill(frame);
                let _pushed = self.frames.try_push_back(buffer);
                true
            }
            None => false,
        }
    }

    /// The frame that has so many before it.
    pub fn get(&self, index: usize) -> Option<&[u8]>
        ensures frame { option_copied result ≡ slice_get self.now.frames index }
        ensures most { IfSome result (λ frame. length frame.now ≤ 1514) }
    {
        match self.frames.get(index) {
            Some(buffer) => Some(buffer.bytes()),
            None => None,
        }
    }

    /// Lets so many go, those that were given first.
    pub fn drop_front(&mut self, count: usize)
        ensures { self.new ≡ without_front count self.old }
    {
        for _ in 0..count {
            self.drop_first();
        }
    }

    /// Lets the first go, where there is one.
    fn drop_first(&mut self)
        ensures { self.new ≡ without_front 1 self.old }
    {
        if let Some(buffer) = self.frames.pop_front() {
            self.spare.push_reserved(buffer);
        }
    }
}
