ghost use Rattle.std.specs.Prelude.{◌≡◌, ◌≤◌, ◌<◌, [], Some, length, IfOk, IsErr};
ghost use Rattle.std.specs.Io.KnownBytes.{WriteAppends};
ghost use Rattle.vio_io.specs.Causes.{Fails};
ghost use Rattle.infallible_io.specs.States.{GrowingSinkState};

use std::alloc::Global;
use std::marker::Model;
use vio_io::{Failed, Sink};

/// A list of bytes as a sink that fails for want of memory alone.
#[derive(Drop)]
pub struct GrowingSink {
    written: Vec<u8>,
    faults: u64,
}

impl Model for GrowingSink {
    ghost Value = { GrowingSinkState };

    ghost view = { λ s. record { written = s.written.items; faults = s.faults } };
}

impl GrowingSink {
    /// Nothing was written. It takes no memory.
    pub fn new(alloc: Global) -> Self
        ensures { result ≡ record { written = []; faults = 0 } }
    {
        GrowingSink {
            written: Vec::new(alloc),
            faults: 0,
        }
    }

    /// What was written.
    pub fn bytes(&self) -> &[u8]
        ensures { result.now ≡ self.now.written }
    {
        &self.written
    }
}

impl Sink for GrowingSink {
    ghost written = { λ s. Some s.written };

    ghost faults = { λ s. s.faults };

    fn write(&mut self, buf: &[u8]) -> Result<usize, Failed>
        requires { 0 < length buf.now }
        ensures some { IfOk result (λ n. 0 < n) }
        ensures within { IfOk result (λ n. n ≤ length buf.now) }
        ensures told { WriteAppends (Some self.old.written) (Some self.new.written) result buf.now }
        ensures faults { Fails (IsErr result) self.old.faults self.new.faults }
        // all that it is given, however long
        ensures takes { IfOk result (λ n. n ≡ length buf.now) }
    {
        match self.written.extend_from_slice(buf) {
            Ok(()) => Ok(buf.len()),
            Err(_) => {
                self.faults = self.faults.saturating_add(1);
                Err(Failed)
            }
        }
    }
}
