ghost use Rattle.std.specs.Prelude.{◌≡◌, ℕ, ◌<◌, ◌≤◌, ◌↔◌, List, Option, None, length, IsTrue, OnOk, IfSome, is_err};
ghost use Rattle.vio_io.specs.Causes.{next_count, FaultsAfter};
ghost use Rattle.vio_io.specs.Stores.{IsUnitRange, KeepsOutside, ReadsRange, WritesRange};

use crate::Failed;

/// Where blocks of 512 bytes lie: a list of bytes whose length never changes.
pub trait Store: Drop {
    /// The list, where it tells it.
    ghost content: { Self → Option (List ℕ) };

    /// The list's length in bytes.
    ghost size: { Self → ℕ };

    /// How often it was asked to read, to write or to flush.
    ghost calls: { Self → ℕ };

    /// How often it was asked to flush, which `calls` counts too.
    ghost flushes: { Self → ℕ };

    /// How often it was asked to write, which `calls` counts too.
    ghost writes: { Self → ℕ };

    /// How often it failed: each call that fails counts one fault.
    ghost faults: { Self → ℕ };

    /// The length of the list, in bytes.
    fn len(&self) -> u64
        ensures { result ≡ size self.now };

    /// Reads the range from the place `at`. After `Failed` nothing is promised of `buf`.
    fn read_at(&mut self, at: u64, buf: &mut [u8]) -> Result<(), Failed>
        requires { IsUnitRange (size self.old) at (length buf.old) }
        ensures told { OnOk result (ReadsRange (content self.old) at buf.new) }
        ensures content { content self.new ≡ content self.old }
        ensures size { size self.new ≡ size self.old }
        ensures calls { calls self.new ≡ next_count (calls self.old) }
        ensures flushes { flushes self.new ≡ flushes self.old }
        ensures writes { writes self.new ≡ writes self.old }
        ensures faults { FaultsAfter (is_err result) (faults self.old) (faults self.new) };

    /// Writes exactly the range from the place `at`. After `Failed` the bytes outside it stay.
    /// What isn't told before isn't told after it.
    fn write_at(&mut self, at: u64, bytes: &[u8]) -> Result<(), Failed>
        requires { IsUnitRange (size self.old) at (length bytes.now) }
        ensures told { OnOk result (WritesRange (content self.old) (content self.new) at bytes.now) }
        ensures outside { KeepsOutside (content self.old) (content self.new) at (length bytes.now) }
        ensures untold { content self.old ≡ None → content self.new ≡ None }
        ensures size { size self.new ≡ size self.old }
        ensures calls { calls self.new ≡ next_count (calls self.old) }
        ensures flushes { flushes self.new ≡ flushes self.old }
        ensures writes { writes self.new ≡ next_count (writes self.old) }
        ensures faults { FaultsAfter (is_err result) (faults self.old) (faults self.new) };

    /// What was written before is to last. It changes no byte.
    fn flush(&mut self) -> Result<(), Failed>
        ensures content { content self.new ≡ content self.old }
        ensures size { size self.new ≡ size self.old }
        ensures calls { calls self.new ≡ next_count (calls self.old) }
        ensures flushes { flushes self.new ≡ next_count (flushes self.old) }
        ensures writes { writes self.new ≡ writes self.old }
        ensures faults { FaultsAfter (is_err result) (faults self.old) (faults self.new) };

    /// Whether it ever failed.
    fn faulty(&self) -> bool
        ensures { IsTrue result ↔ (0 < faults self.now) };

    /// What it tells is the list.
    ghost told_size: { (s : Self) → IfSome (content s) (λ bytes. length bytes ≡ size s) };
}
