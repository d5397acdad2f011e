ghost use Rattle.std.specs.Prelude.{◌≡◌, ◌≤◌, ◌∷◌, [], IfSome, IsNone};
ghost use Rattle.trimmed_arrays.specs.Trimmed.{untrimmed};

use crate::array::TrimmedArray;
use crate::strings_rest::StringsRest;
use std::marker::Model;

/// The arrays that are still to be read, in order.
#[derive(Drop)]
pub struct TrimmedRest<'a> {
    fronts: StringsRest<'a>,
}

impl<'a> Model for TrimmedRest<'a> {
    ghost use Rattle.std.specs.Prelude.{◌≤◌, List, ℕ};
    ghost use Rattle.trimmed_arrays.specs.Trimmed.{untrimmed};

    ghost Value = { List (List ℕ) };

    ghost view = { λ r. untrimmed r.fronts.most r.fronts.items };

    ghost invariant = { λ r. r.fronts.most ≤ 255 };
}

impl<'a> TrimmedRest<'a> {
    /// The arrays with these fronts.
    pub(crate) fn new(fronts: StringsRest<'a>) -> Self
        requires { fronts.most ≤ 255 }
        ensures { result ≡ untrimmed fronts.entry.most fronts.entry.items }
    {
        TrimmedRest { fronts }
    }

    /// Takes the next array, if there is one.
    pub fn next_array(&mut self) -> Option<TrimmedArray<'a>>
        ensures some { IfSome result (λ array. self.old ≡ array ∷ self.new) }
        ensures none { IsNone result → self.old ≡ [] }
        ensures ended { IsNone result → self.new ≡ [] }
    {
        let front = self.fronts.next_string()?;
        Some(TrimmedArray::new(front, self.fronts.most()))
    }
}
