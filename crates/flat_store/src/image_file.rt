ghost use Rattle.std.specs.Prelude.{◌≡◌, ℕ, ◌≤◌, List, Option, None, length, IfOk, IfSome};
ghost use Rattle.vio_io.specs.Stores.{IsUnitRange, KeepsOutside};
ghost use Rattle.flat_store.specs.Files.{FileCalls, ReadsFront, WritesFront, after_move, after_sync};

/// Why a call of a file moved no byte, as far as it matters here.
#[derive(Clone, Copy, Debug, PartialEq, Eq)]
pub enum FileFault {
    /// The system interrupted it before anything was moved.
    Interrupted,

    Other,
}

/// A file whose length stays, and of which each call moves a range or a front of it.
pub trait ImageFile: Drop {
    /// The file's bytes, where it tells them.
    ghost content: { Self → Option (List ℕ) };

    /// The file's length in bytes.
    ghost size: { Self → ℕ };

    /// What its calls came to.
    ghost calls: { Self → FileCalls };

    /// The length of the file, in bytes.
    fn len(&self) -> u64
        ensures { result ≡ size self.now };

    /// One call: reads the range from the place `at`, or a front of it, and answers how many bytes it read.
    fn read_some(&mut self, at: u64, buf: &mut [u8]) -> Result<usize, FileFault>
        requires { IsUnitRange (size self.old) at (length buf.old) }
        ensures within { IfOk result (λ n. n ≤ length buf.new) }
        ensures calls { calls self.new ≡ after_move (length buf.new) result (calls self.old) }
        ensures told { IfOk result (λ n. ReadsFront (content self.old) at n buf.new) }
        ensures content { content self.new ≡ content self.old }
        ensures size { size self.new ≡ size self.old };

    /// One call: writes the range from the place `at`, or a front of it, and answers how many bytes it wrote. Whatever it
    /// answers, the bytes outside the range stay, and what isn't told before isn't told after it.
    fn write_some(&mut self, at: u64, bytes: &[u8]) -> Result<usize, FileFault>
        requires { IsUnitRange (size self.old) at (length bytes.now) }
        ensures within { IfOk result (λ n. n ≤ length bytes.now) }
        ensures calls { calls self.new ≡ after_move (length bytes.now) result (calls self.old) }
        ensures told { IfOk result (λ n. WritesFront (content self.old) (content self.new) at n bytes.now) }
        ensures outside { KeepsOutside (content self.old) (content self.new) at (length bytes.now) }
        ensures untold { content self.old ≡ None → content self.new ≡ None }
        ensures interrupted { result ≡ Err FileFault.Interrupted → content self.new ≡ content self.old }
        ensures size { size self.new ≡ size self.old };

    /// One call: syncs what was written before. It changes no byte.
    fn sync(&mut self) -> Result<(), FileFault>
        ensures calls { calls self.new ≡ after_sync result (calls self.old) }
        ensures content { content self.new ≡ content self.old }
        ensures size { size self.new ≡ size self.old };

    /// What it tells is as long.
    ghost told_size: { (f : Self) → IfSome (content f) (λ bytes. length bytes ≡ size f) };
}
