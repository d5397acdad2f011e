ghost use Rattle.std.specs.Prelude.{◌≡◌, ◌↔◌, IsErr, IfOk, IsTrue, is_err, ⊤};
ghost use Rattle.vio_io.specs.Causes.{Fails, FaultsAfter, next_count};
ghost use Rattle.vio_io.specs.FaultPlan.{Plan, after_call, fails_next, unused};

use crate::{Failed, NoMemory};
use std::alloc::Global;
use std::marker::Model;

/// Which calls of an object in memory fail: those whose numbers, counted from 0, are in a list.
#[derive(Drop)]
pub struct FaultPlan {
    failing: Vec<u64>,
    calls: u64,
    faults: u64,
}

impl Model for FaultPlan {
    ghost Value = { Plan };

    ghost view = { λ p. record { failing = p.failing.items; calls = p.calls; faults = p.faults } };
}

impl FaultPlan {
    /// No call was made yet; the calls with these numbers, counted from 0, will fail.
    pub fn new(alloc: Global, failing: &[u64]) -> Result<Self, NoMemory>
        ensures { IfOk result (λ p. p ≡ unused failing.now) }
    {
        Ok(FaultPlan {
            failing: Vec::from_slice(alloc, failing)?,
            calls: 0,
            faults: 0,
        })
    }

    /// Notes one call, and answers whether it may go on.
    pub fn call(&mut self) -> Result<(), Failed>
        ensures fails { IsErr result ↔ IsTrue (fails_next self.old) }
        ensures after { self.new ≡ after_call self.old }
        ensures faults { Fails (IsErr result) self.old.faults self.new.faults }
        ensures once { FaultsAfter (is_err result) self.old.faults self.new.faults }
    {
        let fails = self.failing.contains(&self.calls);
        self.calls = self.calls.saturating_add(1);
        if !fails {
            return Ok(());
        }
        self.faults = self.faults.saturating_add(1);
        Err(Failed)
    }

    /// Counts a fault that is in no list.
    pub fn fail(&mut self)
        ensures after { self.new ≡ record self.old { faults = next_count self.old.faults } }
        ensures faults { Fails ⊤ self.old.faults self.new.faults }
    {
        self.faults = self.faults.saturating_add(1);
    }

    /// How often a call failed.
    pub fn faults(&self) -> u64
        ensures { result ≡ self.now.faults }
    {
        self.faults
    }
}
