ghost use Rattle.std.specs.Prelude.{◌≡◌, ◌≤◌, ◌∷◌, [], length, IfSome, IsNone};
ghost use Rattle.trimmed_arrays.specs.Strings.{AreStrings, strings_of};

use std::marker::Model;

/// The byte strings that are still to be read, in order.
#[derive(Drop)]
pub struct StringsRest<'a> {
    most: usize,
    lengths: &'a [u16],
    bytes: &'a [u8],
}

impl<'a> Model for StringsRest<'a> {
    ghost use Rattle.trimmed_arrays.specs.Strings.{AreStrings, StringsLeft, strings_of};

    ghost Value = { StringsLeft };

    ghost view = { λ r. record { most = r.most; items = strings_of r.lengths.now r.bytes.now } };

    ghost invariant = { λ r. AreStrings r.most r.lengths.now r.bytes.now };
}

impl<'a> StringsRest<'a> {
    /// The strings of these lengths.
    pub(crate) fn new(most: usize, lengths: &'a [u16], bytes: &'a [u8]) -> Self
        requires { AreStrings most lengths.now bytes.now }
        ensures { result ≡ record { most = most; items = strings_of lengths.now bytes.now } }
    {
        StringsRest {
            most,
            lengths,
            bytes,
        }
    }

    /// The most bytes of each string.
    pub(crate) fn most(&self) -> usize
        ensures { result ≡ self.now.most }
    {
        self.most
    }

    /// Takes the next string, if there is one.
    pub fn next_string(&mut self) -> Option<&'a [u8]>
        ensures some { IfSome result (λ string. self.old.items ≡ string.now ∷ self.new.items) }
        ensures within { IfSome result (λ string. length string.now ≤ self.old.most) }
        ensures none { IsNone result → self.old.items ≡ [] }
        ensures ended { IsNone result → self.new.items ≡ [] }
        ensures most { self.new.most ≡ self.old.most }
    {
        match self.lengths {
            [length, lengths @ ..] => {
                let (string, bytes) = self.bytes.split_at(usize::from(*length));
                self.lengths = lengths;
                self.bytes = bytes;
                Some(string)
            }
            [] => None,
        }
    }
}
