ghost use Rattle.std.specs.Prelude.{◌≡◌, ◌≤◌, ◌↔◌, length, Some, IfSome, IsNone, slice_get};
ghost use Rattle.ldom_entries.specs.Told.{told};

use ldom_entries::{Entries, EntryRef};

/// The k-th entry, counted from 0. None exactly where there are k or fewer.
#[tactic(auto, using(crate::proofs::FrontRead::front_read))]
pub(crate) fn nth(entries: Entries<'_>, k: usize) -> Option<EntryRef<'_>>
    ensures some { IfSome result (λ entry. slice_get entries.entry k ≡ Some (told entry)) }
    ensures none { IsNone result ↔ length entries.entry ≤ k }
{
    let mut rest = entries;
    for _ in 0..k {
        rest.next_entry()?;
    }
    rest.next_entry()
}
