ghost use Rattle.std.specs.Prelude.{◌≡◌, ◌<◌, ◌≤◌, [], Some, IfOk, IsErr, length, min};
ghost use Rattle.std.specs.Io.KnownBytes.{ReadConsumes};
ghost use Rattle.vio_io.specs.Causes.{Fails, last_count};
ghost use Rattle.vio_io.specs.Ends.{SaysEnd};

use std::alloc::Global;
use std::marker::Model;
use vio_io::{Failed, ListSource, NoMemory, Source};

/// A list of bytes as a source that can't fail.
#[derive(Drop)]
pub struct InfallibleSource {
    list: ListSource,
}

impl Model for InfallibleSource {
    ghost use Rattle.std.specs.Prelude.{◌≡◌, ℕ, ◌-◌, ◌^◌, List, []};

    ghost Value = { List ℕ };

    ghost view = { λ s. s.list.left };

    ghost invariant = { λ s. (s.list.plan.failing ≡ []) × (s.list.piece ≡ 2 ^ 64 - 1) };
}

impl InfallibleSource {
    /// A source of these bytes that gives as many of them a call as are asked for.
    pub fn new(alloc: Global, bytes: &[u8]) -> Result<Self, NoMemory>
        ensures { IfOk result (λ s. s ≡ bytes.now) }
    {
        Ok(InfallibleSource {
            list: ListSource::new(alloc, bytes, usize::MAX, &[])?,
        })
    }
}

impl Source for InfallibleSource {
    ghost left = { λ s. Some s };

    ghost faults = { λ _. 0 };

    // It doesn't count: the count stands at its last value.
    ghost ends = { λ _. last_count };

    fn read(&mut self, buf: &mut [u8]) -> Result<usize, Failed>
        requires { 0 < length buf.old }
        ensures within { IfOk result (λ n. n ≤ length buf.old) }
        ensures told { ReadConsumes (Some self.old) (Some self.new) result buf.new }
        ensures faults { Fails (IsErr result) 0 0 }
        ensures ends { SaysEnd (result ≡ Ok 0) last_count last_count }

        ensures gives { IfOk result (λ n. n ≡ min (length buf.old) (length self.old)) }
    {
        match self.list.read(buf) {
            Ok(taken) => Ok(taken),
            Err(Failed) => unreachable!(),
        }
    }
}
