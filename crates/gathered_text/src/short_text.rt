ghost use Rattle.std.specs.Prelude.{◌≡◌, ◌+◌, ◌≤◌, [], ◌++◌, length, take};

use std::marker::Model;

/// The most bytes of a short text.
pub const SHORT_ROOM: usize = 16;

/// A text of at most sixteen bytes, which is made once and gathered often: all sixteen are copied, so that the copy has a
/// fixed length.
#[derive(Debug, Drop)]
pub struct ShortText {
    bytes: [u8; 16],
    len: usize,
}

impl Model for ShortText {
    ghost use Rattle.std.specs.Prelude.{◌≡◌, ℕ, ◌≤◌, List, length, take};

    ghost Value = { List ℕ };

    ghost view = { λ s. take s.len s.bytes };

    ghost invariant = { λ s. (s.len ≤ 16) × (length s.bytes ≡ 16) };
}

impl ShortText {
    /// No bytes.
    pub fn new() -> Self
        ensures { result ≡ [] }
    {
        ShortText {
            bytes: [0; 16],
            len: 0,
        }
    }

    /// Puts bytes last.
    pub fn push(&mut self, more: &[u8])
        requires { length self.old + length more.now ≤ SHORT_ROOM }
        ensures { self.new ≡ self.old ++ more.now }
    {
        let end = self.len + more.len();
        self.bytes[self.len..end].copy_from_slice(more);
        self.len = end;
    }

    /// Its bytes, and what is after them, up to sixteen.
    pub(crate) fn padded(&self) -> &[u8; 16]
        ensures text { take (length self.now) result.now ≡ self.now }
        ensures len { length result.now ≡ 16 }
    {
        &self.bytes
    }

    /// How many bytes it has.
    pub fn len(&self) -> usize
        ensures len { result ≡ length self.now }
        ensures short { result ≤ 16 }
    {
        self.len
    }
}
