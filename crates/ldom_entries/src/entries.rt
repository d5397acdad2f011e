ghost use Rattle.std.specs.Prelude.{◌≡◌, [], ◌∷◌, length, IfSome, IsNone};
ghost use Rattle.ldom_entries.specs.Told.{told};

use crate::beside::Beside;
use crate::entry_ref::EntryRef;
use crate::header::Header;
use std::marker::Model;

/// The entries of a journal that are still to be read, in order. A clause sees the list of them.
#[derive(Drop)]
pub struct Entries<'a> {
    headers: &'a [Header],
    beside: Beside<'a>,
}

impl<'a> Model for Entries<'a> {
    ghost use Rattle.std.specs.Prelude.{List};
    ghost use Rattle.ldom_entries.specs.declared.entry.Entry.{Entry};

    ghost Value = { List Entry };

    ghost use Rattle.ldom_entries.specs.Decoded.{AreComplete, entries_of};

    ghost view = { λ e. entries_of e.headers.now e.beside };

    ghost invariant = { λ e. AreComplete e.headers.now e.beside };
}

#[tactic(auto, using(crate::proofs::UnseenPassed::passing, crate::proofs::EntryCount::entries_count))]
impl<'a> Entries<'a> {
    ghost use Rattle.std.specs.Prelude.{◌<◌, IsFalse, IsTrue};
    ghost use Rattle.ldom_entries.specs.Decoded.{AreComplete, entries_of};
    ghost use Rattle.ldom_entries.specs.Seen.{BeginsSeen, PassesUnseen};

    /// The entries of these headers and of what stands beside them.
    pub fn new(headers: &'a [Header], beside: Beside<'a>) -> Self
        requires { AreComplete headers.now beside }
        ensures { result ≡ entries_of headers.now beside.entry }
    {
        Entries { headers, beside }
    }

    /// The next entry. None exactly where no entry is left.
    pub fn next_entry(&mut self) -> Option<EntryRef<'a>>
        ensures some { IfSome result (λ entry. self.old ≡ told entry ∷ self.new) }
        ensures none { IsNone result → self.old ≡ [] }
        ensures ended { IsNone result → self.new ≡ [] }
    {
        // Only a place: the entry is written over it.
        let mut entry = EntryRef::Settled;
        if self.read_next(&mut entry) {
            Some(entry)
        } else {
            None
        }
    }

    /// Writes the next entry over one of the caller's: so it isn't moved from call to call. False exactly where no entry
    /// is left; then the caller's stays.
    pub fn read_next(&mut self, entry: &mut EntryRef<'a>) -> bool
        ensures some { IsTrue result → self.old ≡ told entry.new ∷ self.new }
        ensures none { IsFalse result → self.old ≡ [] }
        ensures ended { IsFalse result → self.new ≡ [] }
        ensures stays { IsFalse result → entry.new ≡ entry.old }
    {
        match self.headers {
            [header, rest @ ..] => {
                self.beside.read_into(*header, entry);
                self.headers = rest;
                true
            }
            [] => false,
        }
    }

    /// Passes over entries that no user of the disks and ports sees, until the next one is seen or is kept whole. None
    /// of those that it passes over is handed on.
    pub fn pass_unseen(&mut self)
        ensures passed { PassesUnseen self.old self.new }
        ensures stops { BeginsSeen self.new }
    {
        while self.pass_one() {}
    }

    /// Passes over the next entry, where no user of the disks and ports may see it. Answers whether there was such a
    /// one.
    fn pass_one(&mut self) -> bool
        ensures passed { PassesUnseen self.old self.new }
        ensures shorter { IsTrue result → length self.new < length self.old }
        ensures stops { IsFalse result → BeginsSeen self.new }
    {
        let Some((header, others)) = self.headers.split_first() else {
            return false;
        };
        if header.may_be_seen() {
            return false;
        }
        self.beside.pass(*header);
        self.headers = others;
        true
    }
}
