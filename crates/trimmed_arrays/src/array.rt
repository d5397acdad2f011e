ghost use Rattle.std.specs.Prelude.{◌≡◌, ◌-◌, ◌≤◌, ◌++◌, length, replicate};
ghost use Rattle.trimmed_arrays.specs.Trimmed.{padded};

use std::marker::Model;

/// An array that is kept without the zeros at its end. Contracts see the whole array, its zeros too.
#[derive(Drop)]
pub struct TrimmedArray<'a> {
    front: &'a [u8],
    size: usize,
}

impl<'a> Model for TrimmedArray<'a> {
    ghost use Rattle.std.specs.Prelude.{◌≤◌, List, ℕ, length};
    ghost use Rattle.trimmed_arrays.specs.Trimmed.{padded};

    ghost Value = { List ℕ };

    ghost view = { λ a. padded a.size a.front.now };

    ghost invariant = { λ a. record {
      front_within : length a.front.now ≤ a.size;
      small : a.size ≤ 255;
    } };
}

impl<'a> TrimmedArray<'a> {
    /// An array of a size by its front: zeros are after it.
    pub fn new(front: &'a [u8], size: usize) -> Self
        requires within { length front.now ≤ size }
        requires small { size ≤ 255 }
        ensures { result ≡ padded size front.now }
    {
        TrimmedArray { front, size }
    }

    /// The bytes that are kept. Those of the array that are after them are zeros.
    pub fn front(&self) -> &'a [u8]
        ensures front { self.now ≡ result.now ++ replicate (length self.now - length result.now) 0 }
        ensures within { length result.now ≤ length self.now }
    {
        self.front
    }

    /// The array's length, its zeros counted.
    pub fn len(&self) -> usize
        ensures len { result ≡ length self.now }
        ensures small { length self.now ≤ 255 }
    {
        self.size
    }
}
