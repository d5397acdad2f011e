ghost use Rattle.std.specs.Prelude.{◌≡◌, ◌+◌, ◌^◌, ◌≤◌, ◌<◌, [], ◌∷◌, ◌++◌, length, IsOk, OnErr, OnOk};

use crate::rest::TrimmedRest;
use crate::strings::ByteStrings;
use crate::trim::front_of;
use std::alloc::Global;
use std::marker::Model;
use vio_bytes::NoMemory;

/// Arrays of one length, one after another, without the zeros at their ends, and the room that is left for more.
#[derive(Debug, Drop)]
pub struct TrimmedArrays {
    /// An array's front is as long as the array at most.
    fronts: ByteStrings,
}

impl Model for TrimmedArrays {
    ghost use Rattle.std.specs.Prelude.{◌≤◌};
    ghost use Rattle.trimmed_arrays.specs.Trimmed.{ArraysState, untrimmed};

    ghost Value = { ArraysState };

    ghost view = { λ a. record {
      size = a.fronts.most;
      items = untrimmed a.fronts.most a.fronts.items;
      room = a.fronts.room;
    } };

    ghost invariant = { λ a. a.fronts.most ≤ 255 };
}

#[tactic(auto, using(crate::proofs::Fronts::one_array))]
impl TrimmedArrays {
    /// No arrays, and no room. It takes no memory.
    pub fn new(alloc: Global, size: usize) -> Self
        requires { size ≤ 255 }
        ensures { result ≡ record { size = size; items = []; room = 0 } }
    {
        TrimmedArrays {
            fronts: ByteStrings::new(alloc, size),
        }
    }

    /// Makes room for n more, if there isn't yet. After `NoMemory` the arrays are as they were.
    pub fn reserve(&mut self, n: usize) -> Result<(), NoMemory>
        requires { n < 2 ^ 32 }
        ensures items { self.new.items ≡ self.old.items }
        ensures size { self.new.size ≡ self.old.size }
        ensures room { OnOk result (n ≤ self.new.room) }
        ensures more { self.old.room ≤ self.new.room }
        ensures same { OnErr result (self.new.room ≡ self.old.room) }
        ensures there { n ≤ self.old.room → IsOk result }
    {
        self.fronts.reserve(n)
    }

    /// Puts an array last, into room that was reserved. It takes no memory.
    pub fn push(&mut self, array: &[u8])
        requires whole { length array.now ≡ self.old.size }
        requires room { 0 < self.old.room }
        ensures items { self.new.items ≡ self.old.items ++ array.now ∷ [] }
        ensures size { self.new.size ≡ self.old.size }
        ensures room { self.new.room + 1 ≡ self.old.room }
    {
        self.fronts.push(front_of(array));
    }

    /// The arrays, to be read in order.
    pub fn rest(&self) -> TrimmedRest<'_>
        ensures { result ≡ self.now.items }
    {
        TrimmedRest::new(self.fronts.rest())
    }
}
