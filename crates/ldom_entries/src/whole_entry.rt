ghost use Rattle.std.specs.Prelude.{◌≡◌, true};
ghost use Rattle.ldom_entries.specs.Whole.{is_whole};

use crate::Entry;
use std::marker::Model;

/// An entry of a kind that the journal keeps whole. A clause sees the entry.
#[derive(Drop)]
pub struct WholeEntry {
    entry: Entry,
}

impl Model for WholeEntry {
    ghost use Rattle.std.specs.Prelude.{◌≡◌, true};
    ghost use Rattle.ldom_entries.specs.Whole.{is_whole};
    ghost use Rattle.ldom_entries.specs.declared.entry.Entry.{Entry};

    ghost Value = { Entry };

    ghost view = { λ w. w.entry };

    ghost invariant = { λ w. is_whole w.entry ≡ true };
}

impl WholeEntry {
    /// This entry.
    pub fn new(entry: Entry) -> Self
        requires { is_whole entry ≡ true }
        ensures { result ≡ entry }
    {
        WholeEntry { entry }
    }

    /// The entry.
    pub fn entry(&self) -> &Entry
        ensures entry { result.now ≡ self.now }
        ensures whole { is_whole self.now ≡ true }
    {
        &self.entry
    }
}
