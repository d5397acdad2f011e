ghost use Rattle.std.specs.Prelude.{◌≡◌, ◌+◌, ◌*◌, ◌≤◌, List, ℕ, IfOk, length, replicate};
ghost use Rattle.vio_bytes.specs.Place.{put_at};
ghost use Rattle.vio_bytes.specs.Range.{range_at};
ghost use Rattle.dom_memory.specs.Pages.{HasPages};

use std::alloc::Global;
use std::marker::Model;
use vio_bytes::{NoMemory, PAGE};
use zero_pages::{ZERO_PAGE, ZeroPages};

/// The memory of a domain, 1 to 1,028 pages of 8,192 bytes, of which what was never written isn't touched.
#[derive(Drop)]
pub struct Memory {
    bytes: ZeroPages,
    pages: u32,
}

impl Model for Memory {
    ghost Value = { List ℕ };

    ghost view = { λ m. m.bytes };

    ghost invariant = { λ m. HasPages m.bytes m.pages };
}

impl Memory {
    /// So many pages of zeros. The one refusal is for want of memory.
    pub fn new(alloc: Global, pages: u32) -> Result<Memory, NoMemory>
        requires some { 1 ≤ pages }
        requires most { pages ≤ 1028 }
        ensures { IfOk result (λ m. m ≡ replicate (8192 * pages) 0) }
    {
        let bytes = ZeroPages::new(alloc, PAGE / ZERO_PAGE * pages as usize)?;
        Ok(Memory { bytes, pages })
    }

    /// How many pages it has.
    pub fn pages(&self) -> u32
        ensures { HasPages self.now result }
    {
        self.pages
    }

    /// Reads the bytes from place `at` on, as many as `buf` has.
    pub fn read(&self, at: u64, buf: &mut [u8])
        requires { at + length buf.old ≤ length self.now }
        ensures { buf.new ≡ range_at at (length buf.old) self.now }
    {
        self.bytes.read(at as usize, buf);
    }

    /// Writes the bytes to the place `at` on. All other bytes stay.
    pub fn write(&mut self, at: u64, bytes: &[u8])
        requires { at + length bytes.now ≤ length self.old }
        ensures written { self.new ≡ put_at at bytes.now self.old }
        ensures same_length { length self.new ≡ length self.old }
    {
        self.bytes.write(at as usize, bytes);
    }
}
