// The bytes of one frame.

ghost use Rattle.std.specs.Prelude.{◌≡◌, ◌≤◌, [], length, IfOk};

use std::alloc::Global;
use std::marker::Model;
use vio_bytes::NoMemory;
use vnet_msg::MOST_FRAME;

/// A list of up to 1,514 bytes, in memory that was made for the longest.
#[derive(Drop)]
pub struct FrameBuffer {
    bytes: Vec<u8>,
}

impl Model for FrameBuffer {
    ghost use Rattle.std.specs.Prelude.{ℕ, ◌≤◌, List, vec_capacity, vec_len};

    ghost Value = { List ℕ };

    ghost view = { λ b. b.bytes.items };

    ghost invariant = { λ b. (1514 ≤ vec_capacity b.bytes) × (vec_len b.bytes ≤ 1514) };
}

impl FrameBuffer {
    /// No byte yet.
    pub fn new(alloc: Global) -> Result<FrameBuffer, NoMemory>
        ensures { IfOk result (λ buffer. buffer ≡ []) }
    {
        let bytes = Vec::with_capacity(alloc, MOST_FRAME as usize)?;
        Ok(FrameBuffer { bytes })
    }

    /// Writes a frame over what it holds.
    pub fn fill(&mut self, frame: &[u8])
        requires { length frame.now ≤ 1514 }
        ensures { self.new ≡ frame.now }
    {
        self.bytes.clear();
        let _fits = self.bytes.extend_from_slice(frame);
    }

    /// The bytes.
    pub fn bytes(&self) -> &[u8]
        ensures bytes { result.now ≡ self.now }
        ensures most { length result.now ≤ 1514 }
    {
        &self.bytes
    }
}
