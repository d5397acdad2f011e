// The bytes of one frame.

ghost use Rattle.std.specs.Prelude.{◌≡◌, ◌≤◌, [], ◌++◌, drop, length, IfOk};

use std::alloc::Global;
use std::marker::Model;
use vio_bytes::NoMemory;

/// The most bytes of a frame.
const LONGEST: usize = 1514;

/// A list of up to 1,514 bytes, in memory that was made for the longest.
#[derive(Drop)]
pub(crate) struct FrameBuffer {
    bytes: Vec<u8>,
}

impl Model for FrameBuffer {
    ghost use Rattle.std.specs.Prelude.{ℕ, ◌≤◌, List, vec_capacity, vec_len};

    ghost Value = { List ℕ };

    ghost view = { λ b. b.bytes.items };

    ghost invariant = { λ b. (1514 ≤ vec_capacity b.bytes) × (vec_len b.bytes ≤ 1514) };
}

impl FrameBuffer {
    /// No byte yet.
    pub(crate) fn new(alloc: Global) -> Result<FrameBuffer, NoMemory>
        ensures { IfOk result (λ buffer. buffer ≡ []) }
    {
        let bytes = Vec::with_capacity(alloc, LONGEST)?;
        Ok(FrameBuffer { bytes })
    }

    /// Writes a frame over what it holds.
    pub(crate) fn fill(&mut self, frame: &[u8])
        requires { length frame.now ≤ 1514 }
        ensures { self.new ≡ frame.now }
    {
        self.bytes.clear();
        let _fits = self.bytes.extend_from_slice(frame);
    }

    /// Writes the frame to the front, and tells its length.
    pub(crate) fn read(&self, front: &mut [u8; 1514]) -> usize
        ensures count { result ≡ length self.now }
        ensures bytes { front.new ≡ self.now ++ drop (length self.now) front.old }
    {
        let length = self.bytes.len();
        front[..length].copy_from_slice(&self.bytes);
        length
    }
}
