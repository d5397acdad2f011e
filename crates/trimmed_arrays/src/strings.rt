ghost use Rattle.std.specs.Prelude.{◌≡◌, ◌+◌, ◌^◌, ◌≤◌, ◌<◌, [], ◌∷◌, ◌++◌, length, vec_capacity, IsOk, OnErr, OnOk};

use crate::strings_rest::StringsRest;
use std::alloc::Global;
use std::marker::Model;
use vio_bytes::NoMemory;

/// Byte strings of their own lengths, one after another, and the room that is left for more.
#[derive(Debug, Drop)]
pub struct ByteStrings {
    /// The most bytes of each string.
    most: usize,

    /// How long each string is.
    lengths: Vec<u16>,

    /// The strings.
    bytes: Vec<u8>,
    room: usize,
}

impl Model for ByteStrings {
    ghost use Rattle.std.specs.Prelude.{◌+◌, ◌*◌, ◌^◌, ◌<◌, ◌≤◌, length, vec_capacity};
    ghost use Rattle.trimmed_arrays.specs.Strings.{AreStrings, StringsState, strings_of};

    ghost Value = { StringsState };

    ghost view = { λ s. record {
      most = s.most;
      items = strings_of s.lengths.items s.bytes.items;
      room = s.room;
    } };

    ghost invariant = { λ s. record {
      small : s.most < 2 ^ 16;
      strings : AreStrings s.most s.lengths.items s.bytes.items;
      length_room : length s.lengths.items + s.room ≤ vec_capacity s.lengths;
      byte_room : length s.bytes.items + s.most * s.room ≤ vec_capacity s.bytes;
    } };
}

impl ByteStrings {
    /// No strings, and no room. It takes no memory.
    pub fn new(alloc: Global, most: usize) -> Self
        requires { most < 2 ^ 16 }
        ensures { result ≡ record { most = most; items = []; room = 0 } }
    {
        ByteStrings {
            most,
            lengths: Vec::new(alloc),
            bytes: Vec::new(alloc),
            room: 0,
        }
    }

    /// Makes room for n more, if there isn't yet. After `NoMemory` the strings are as they were.
    pub fn reserve(&mut self, n: usize) -> Result<(), NoMemory>
        requires { n < 2 ^ 32 }
        ensures items { self.new.items ≡ self.old.items }
        ensures most { self.new.most ≡ self.old.most }
        ensures room { OnOk result (n ≤ self.new.room) }
        ensures more { self.old.room ≤ self.new.room }
        ensures same { OnErr result (self.new.room ≡ self.old.room) }
        ensures there { n ≤ self.old.room → IsOk result }
    {
        if self.room < n {
            self.lengths.reserve(n)?;
            self.bytes.reserve(self.most * n)?;
            self.room = n;
        }
        Ok(())
    }

    /// Puts a string last, into room that was reserved. It takes no memory.
    pub fn push(&mut self, string: &[u8])
        requires within { length string.now ≤ self.old.most }
        requires room { 0 < self.old.room }
        ensures items { self.new.items ≡ self.old.items ++ string.now ∷ [] }
        ensures most { self.new.most ≡ self.old.most }
        ensures room { self.new.room + 1 ≡ self.old.room }
    {
        keep_string(&mut self.lengths, &mut self.bytes, string);
        self.room -= 1;
    }

    /// The strings, to be read in order.
    pub fn rest(&self) -> StringsRest<'_>
        ensures items { result.items ≡ self.now.items }
        ensures most { result.most ≡ self.now.most }
    {
        StringsRest::new(self.most, &self.lengths, &self.bytes)
    }
}

/// Puts a string last.
fn keep_string(lengths: &mut Vec<u16>, bytes: &mut Vec<u8>, string: &[u8])
    requires short { length string.now < 2 ^ 16 }
    requires length_room { length lengths.old.items < vec_capacity lengths.old }
    requires byte_room { length bytes.old.items + length string.now ≤ vec_capacity bytes.old }
    ensures lengths { lengths.new.items ≡ lengths.old.items ++ length string.now ∷ [] }
    ensures bytes { bytes.new.items ≡ bytes.old.items ++ string.now }
    ensures length_room { vec_capacity lengths.old ≤ vec_capacity lengths.new }
    ensures byte_room { vec_capacity bytes.old ≤ vec_capacity bytes.new }
{
    lengths.push_reserved(string.len() as u16);
    match bytes.extend_from_slice(string) {
        Ok(()) => {}
        Err(_) => unreachable!(),
    }
}
