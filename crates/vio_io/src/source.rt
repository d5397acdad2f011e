ghost use Rattle.std.specs.Prelude.{◌≡◌, ℕ, ◌<◌, ◌≤◌, ◌↔◌, List, Option, Some, length, min, drop, IsErr, IsTrue, IfOk};
ghost use Rattle.vio_io.specs.Causes.{Fails};
ghost use Rattle.vio_io.specs.Ends.{SaysEnd};
ghost use Rattle.std.specs.Io.KnownBytes.{ReadConsumes};
ghost use Rattle.vio_io.specs.FaultPlan.{after_call, fails_next, unused};
ghost use Rattle.vio_io.specs.Lists.{ListSourceState};

use crate::{FaultPlan, NoMemory};
use std::alloc::Global;
use std::marker::Model;
use thiserror::Error;

/// The outside failed at this call. The count of faults of the object that was asked rose.
#[derive(Clone, Copy, Debug, PartialEq, Eq, Error)]
#[error("the call failed")]
pub struct Failed;

/// Where bytes come from.
pub trait Source {
    /// The bytes that are left, where it tells them.
    ghost left: { Self → Option (List ℕ) };

    /// How often it failed.
    ghost faults: { Self → ℕ };

    /// How often it said that it is at its end: once for each read that answers 0.
    ghost ends: { Self → ℕ };

    /// Puts bytes from the front of what is left at the front of `buf`, and answers how many: 0 exactly at the end.
    fn read(&mut self, buf: &mut [u8]) -> Result<usize, Failed>
        requires { 0 < length buf.old }
        ensures within { IfOk result (λ n. n ≤ length buf.old) }
        ensures told { ReadConsumes (left self.old) (left self.new) result buf.new }
        ensures faults { Fails (IsErr result) (faults self.old) (faults self.new) }
        ensures ends { SaysEnd (result ≡ Ok 0) (ends self.old) (ends self.new) };
}

/// The count of a source's ends after a read that gave so many bytes.
pub(crate) fn count_end(ends: u64, taken: usize) -> u64
    ensures { SaysEnd (taken ≡ 0) ends result }
{
    if taken == 0 {
        ends.saturating_add(1)
    } else {
        ends
    }
}

/// A list of bytes as a source, some of whose calls fail.
#[derive(Drop)]
pub struct ListSource {
    bytes: Vec<u8>,
    at: usize,
    piece: usize,
    plan: FaultPlan,
    ends: u64,
}

impl Model for ListSource {
    ghost Value = { ListSourceState };

    ghost view = { λ s. record { left = drop s.at s.bytes.items; piece = s.piece; plan = s.plan; ends = s.ends } };

    ghost invariant = { λ s. (s.at ≤ length s.bytes.items) × (0 < s.piece) };
}

impl ListSource {
    /// A source of these bytes that gives at most `piece` of them a call, at least 1, and fails the calls whose
    /// numbers, counted from 0, are in `failing`.
    pub fn new(alloc: Global, bytes: &[u8], piece: usize, failing: &[u64]) -> Result<Self, NoMemory>
        requires { 0 < piece }
        ensures { IfOk result (λ s. s ≡ record {
          left = bytes.now;
          piece = piece;
          plan = unused failing.now;
          ends = 0;
        }) }
    {
        Ok(ListSource {
            bytes: Vec::from_slice(alloc, bytes)?,
            at: 0,
            piece,
            plan: FaultPlan::new(alloc, failing)?,
            ends: 0,
        })
    }

    /// How often a read failed.
    pub fn faults(&self) -> u64
        ensures { result ≡ self.now.plan.faults }
    {
        self.plan.faults()
    }
}

impl Source for ListSource {
    ghost left = { λ s. Some s.left };

    ghost faults = { λ s. s.plan.faults };

    ghost ends = { λ s. s.ends };

    fn read(&mut self, buf: &mut [u8]) -> Result<usize, Failed>
        requires { 0 < length buf.old }
        ensures within { IfOk result (λ n. n ≤ length buf.old) }
        ensures told { ReadConsumes (Some self.old.left) (Some self.new.left) result buf.new }
        ensures faults { Fails (IsErr result) self.old.plan.faults self.new.plan.faults }
        ensures ends { SaysEnd (result ≡ Ok 0) self.old.ends self.new.ends }

        ensures fails { IsErr result ↔ IsTrue (fails_next self.old.plan) }
        ensures gives { IfOk result (λ n. n ≡ min (min self.old.piece (length buf.old)) (length self.old.left)) }
        ensures plan { self.new.plan ≡ after_call self.old.plan }
        ensures piece { self.new.piece ≡ self.old.piece }
    {
        self.plan.call()?;
        let rest = &self.bytes[self.at..];
        let taken = self.piece.min(buf.len()).min(rest.len());
        buf[..taken].copy_from_slice(&rest[..taken]);
        self.at += taken;
        self.ends = count_end(self.ends, taken);
        Ok(taken)
    }
}
