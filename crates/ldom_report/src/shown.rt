// Which entries a mode shows.
ghost use Rattle.std.specs.Prelude.{◌≡◌, true};
ghost use Rattle.ldom_entries.specs.Seen.{is_dropped};
ghost use Rattle.ldom_entries.specs.Told.{told};
ghost use Rattle.ldom_entries.specs.Whole.{is_whole};
ghost use Rattle.ldom_report.specs.EntryText.{is_seen, may_be_seen, may_show, shows};

use crate::{Entry, EntryRef, Mode};
use domain_script::Side;

/// Whether a frame was dropped: it is for no port, or the queues of some were full.
fn is_dropped(out: u64, full: u64) -> bool
    ensures { result ≡ is_dropped out full }
{
    out == 0 || full != 0
}

/// Whether a run shows an entry that is kept whole.
fn whole_is_seen(entry: &Entry) -> bool
    requires { is_whole entry.now ≡ true }
    ensures { result ≡ is_seen entry.now }
{
    match entry {
        Entry::Frame { end, .. } => end.side == Side::Client,
        Entry::Switched { out, full, .. } => is_dropped(u64::from(*out), u64::from(*full)),
        _ => false,
    }
}

/// Whether a run shows an entry that may be seen.
fn is_seen(entry: &EntryRef<'_>) -> bool
    requires { may_be_seen (told entry.now) ≡ true }
    ensures { result ≡ is_seen (told entry.now) }
{
    match entry {
        EntryRef::Queued { .. } => false,
        EntryRef::Frame { end, .. } => end.side == Side::Client,
        EntryRef::Switched { out, full, .. } => is_dropped(*out, *full),
        EntryRef::Whole(whole) => whole_is_seen(whole.entry()),
        _ => true,
    }
}

/// Whether the mode shows an entry that it may show.
pub fn shows(mode: Mode, entry: &EntryRef<'_>) -> bool
    requires { may_show mode (told entry.now) ≡ true }
    ensures { result ≡ shows mode (told entry.now) }
{
    match mode {
        Mode::Run => is_seen(entry),
        Mode::Trace => true,
        Mode::EndOnly => false,
    }
}
