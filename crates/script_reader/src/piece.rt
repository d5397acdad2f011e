ghost use Rattle.std.specs.Prelude.{◌≡◌, ◌≢◌, ◌↔◌, ℕ, ◌+◌, ◌<◌, ◌≤◌, [], ◌++◌, length, drop, false, IfOk, IsTrue, OnErr, IsErr};
ghost use Rattle.vio_io.specs.Causes.{Fails};
ghost use Rattle.vio_io.specs.Ends.{SaysEnd};
ghost use Rattle.std.specs.Io.KnownBytes.{IsAtEnd, Keeps, prepend_known};
ghost use Rattle.script_reader.specs.LinesState.{most_of_a_read};

use std::alloc::Global;
use std::marker::Model;
use vio_bytes::NoMemory;
use vio_io::{Failed, Source};

/// The most bytes that one read asks for.
const PIECE: usize = 4096;

/// What the last read of a source gave and was not yet taken.
#[derive(Drop)]
pub struct Piece {
    bytes: Vec<u8>,
    start: usize,
    end: usize,
}

impl Model for Piece {
    ghost use Rattle.std.specs.Prelude.{◌≡◌, ℕ, ◌≤◌, List, length, slice_range};
    ghost use Rattle.script_reader.specs.LinesState.{most_of_a_read};

    ghost Value = { List ℕ };

    ghost view = { λ p. slice_range p.bytes.items p.start p.end };

    ghost invariant = { λ p. (length p.bytes.items ≡ most_of_a_read) × (p.start ≤ p.end) × (p.end ≤ most_of_a_read) };
}

impl Piece {
    /// Nothing is left.
    pub fn new(alloc: Global) -> Result<Self, NoMemory>
        ensures { IfOk result (λ p. p ≡ []) }
    {
        Ok(Piece {
            bytes: vec![in alloc; 0; PIECE]?,
            start: 0,
            end: 0,
        })
    }

    /// The bytes that are left.
    pub fn rest(&self) -> &[u8]
        ensures value { result.now ≡ self.now }
        ensures short { length self.now ≤ most_of_a_read }
    {
        &self.bytes[self.start..self.end]
    }

    pub fn is_empty(&self) -> bool
        ensures { IsTrue result ↔ (self.now ≡ []) }
    {
        self.start == self.end
    }

    /// Takes the first n bytes.
    pub fn skip(&mut self, n: usize)
        requires { n ≤ length self.old }
        ensures value { self.new ≡ drop n self.old }
        ensures short { length self.new + n ≤ most_of_a_read }
    {
        self.start += n;
    }

    /// Takes all bytes.
    pub fn clear(&mut self)
        ensures { self.new ≡ [] }
    {
        self.start = self.end;
    }

    /// Reads the source where nothing is left. False exactly at its end.
    pub fn fill<S: Source>(&mut self, source: &mut S) -> Result<bool, Failed>
        ensures told { Keeps (prepend_known self.old (S.left source.old)) (prepend_known self.new (S.left source.new)) }
        ensures some { IfOk result (λ more. IsTrue more ↔ (self.new ≢ [])) }
        ensures end { IfOk result (λ more. self.new ≡ [] → IsAtEnd (S.left source.new)) }
        ensures drained { OnErr result (self.old ≡ []) }
        ensures same { OnErr result (self.new ≡ []) }
        ensures short { length self.new ≤ most_of_a_read }
        ensures faults { Fails (IsErr result) (S.faults source.old) (S.faults source.new) }
        ensures ends { SaysEnd (result ≡ Ok false) (S.ends source.old) (S.ends source.new) }
    {
        if self.start < self.end {
            return Ok(true);
        }
        self.read(source)
    }

    /// Reads the source.
    fn read<S: Source>(&mut self, source: &mut S) -> Result<bool, Failed>
        requires { self.old ≡ [] }
        ensures told { Keeps (S.left source.old) (prepend_known self.new (S.left source.new)) }
        ensures some { IfOk result (λ more. IsTrue more ↔ (self.new ≢ [])) }
        ensures end { IfOk result (λ more. self.new ≡ [] → IsAtEnd (S.left source.new)) }
        ensures same { OnErr result (self.new ≡ []) }
        ensures short { length self.new ≤ most_of_a_read }
        ensures faults { Fails (IsErr result) (S.faults source.old) (S.faults source.new) }
        ensures ends { SaysEnd (result ≡ Ok false) (S.ends source.old) (S.ends source.new) }
    {
        self.start = 0;
        self.end = 0;
        self.end = source.read(self.bytes.as_mut_slice())?;
        Ok(self.end > 0)
    }
}
