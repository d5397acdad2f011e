ghost use Rattle.std.specs.Prelude.{◌≡◌, ◌<◌, ◌≤◌, length, IfOk, IsErr, is_err};
ghost use Rattle.std.specs.Io.KnownBytes.{ReadConsumes, WriteAppends};
ghost use Rattle.vio_io.specs.Causes.{Fails, FaultsAfter};
ghost use Rattle.vio_io.specs.Ends.{SaysEnd};

use crate::source::count_end;
use crate::{Failed, Sink, Source};
use std::io::{ErrorKind, Read, Write};

/// How often in a row a call of the system is tried before its interruptions are a fault.
pub const MOST_TRIES: u32 = 10_000;

/// A reader of std as a source: the trusted edge. Of the bytes it tells what std tells. A read that the system
/// interrupted is tried again, up to 10,000 times in a row, and is no fault.
#[derive(Drop)]
pub struct StdSource<R: Read> {
    reader: R,
    faults: u64,
    ends: u64,
}

impl<R: Read> StdSource<R> {
    /// No fault and no end is counted yet.
    pub fn new(reader: R) -> Self
        ensures reader { result.reader ≡ reader }
        ensures fresh { result.faults ≡ 0 }
        ensures unended { result.ends ≡ 0 }
    {
        StdSource {
            reader,
            faults: 0,
            ends: 0,
        }
    }
}

impl<R: Read> Source for StdSource<R> {
    ghost left = { λ s. R.remaining s.reader };

    ghost faults = { λ s. s.faults };

    ghost ends = { λ s. s.ends };

    fn read(&mut self, buf: &mut [u8]) -> Result<usize, Failed>
        requires { 0 < length buf.old }
        ensures within { IfOk result (λ n. n ≤ length buf.old) }
        ensures told { ReadConsumes (R.remaining self.old.reader) (R.remaining self.new.reader) result buf.new }
        ensures faults { Fails (IsErr result) self.old.faults self.new.faults }
        ensures ends { SaysEnd (result ≡ Ok 0) self.old.ends self.new.ends }

        ensures once { FaultsAfter (is_err result) self.old.faults self.new.faults }
    {
        match try_read(&mut self.reader, buf) {
            Ok(taken) => {
                self.ends = count_end(self.ends, taken);
                Ok(taken)
            }
            Err(Failed) => {
                self.faults = self.faults.saturating_add(1);
                Err(Failed)
            }
        }
    }
}

// One read, tried again where the system interrupts it.
fn try_read<R: Read>(reader: &mut R, buf: &mut [u8]) -> Result<usize, Failed>
    ensures within { IfOk result (λ n. n ≤ length buf.old) }
    ensures told { ReadConsumes (R.remaining reader.old) (R.remaining reader.new) result buf.new }
{
    for _ in 0..MOST_TRIES {
        match reader.read(buf) {
            Ok(taken) => return Ok(taken),
            Err(error) if error.kind() == ErrorKind::Interrupted => {}
            Err(_) => return Err(Failed),
        }
    }
    Err(Failed)
}

/// A writer of std as a sink, likewise. A write that takes 0 bytes is counted as a fault.
#[derive(Drop)]
pub struct StdSink<W: Write> {
    writer: W,
    faults: u64,
}

impl<W: Write> StdSink<W> {
    /// No fault is counted yet.
    pub fn new(writer: W) -> Self
        ensures writer { result.writer ≡ writer }
        ensures fresh { result.faults ≡ 0 }
    {
        StdSink { writer, faults: 0 }
    }
}

impl<W: Write> Sink for StdSink<W> {
    ghost written = { λ s. W.contents s.writer };

    ghost faults = { λ s. s.faults };

    fn write(&mut self, buf: &[u8]) -> Result<usize, Failed>
        requires { 0 < length buf.now }
        ensures some { IfOk result (λ n. 0 < n) }
        ensures within { IfOk result (λ n. n ≤ length buf.now) }
        ensures told { WriteAppends (W.contents self.old.writer) (W.contents self.new.writer) result buf.now }
        ensures faults { Fails (IsErr result) self.old.faults self.new.faults }

        ensures once { FaultsAfter (is_err result) self.old.faults self.new.faults }
    {
        match try_write(&mut self.writer, buf) {
            Ok(taken) => Ok(taken),
            Err(Failed) => {
                self.faults = self.faults.saturating_add(1);
                Err(Failed)
            }
        }
    }
}

// One write, tried again where the system interrupts it.
fn try_write<W: Write>(writer: &mut W, buf: &[u8]) -> Result<usize, Failed>
    ensures some { IfOk result (λ n. 0 < n) }
    ensures within { IfOk result (λ n. n ≤ length buf.now) }
    ensures told { WriteAppends (W.contents writer.old) (W.contents writer.new) result buf.now }
{
    for _ in 0..MOST_TRIES {
        match writer.write(buf) {
            Ok(0) => return Err(Failed),
            Ok(taken) => return Ok(taken),
            Err(error) if error.kind() == ErrorKind::Interrupted => {}
            Err(_) => return Err(Failed),
        }
    }
    Err(Failed)
}
