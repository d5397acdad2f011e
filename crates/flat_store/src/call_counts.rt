ghost use Rattle.std.specs.Prelude.{◌≡◌, if◌then◌else◌};
ghost use Rattle.flat_store.specs.Files.{after_fault, no_call, one_failed, one_moved, one_synced};

use crate::FileFault;
use std::marker::Model;

/// What the calls of a file came to, counted by kind, for whoever keeps the trait `ImageFile`. A count stands still at its type's
/// end.
#[derive(Debug, Drop)]
pub struct CallCounts {
    moved: u64,
    synced: u64,
    failed: u64,
    interrupted: u64,
}

impl Model for CallCounts {
    ghost use Rattle.flat_store.specs.Files.{FileCalls};

    ghost Value = { FileCalls };

    ghost view = { λ c. record {
      moved = c.moved;
      synced = c.synced;
      failed = c.failed;
      interrupted = c.interrupted;
    } };
}

impl CallCounts {
    /// No call yet.
    pub fn new() -> Self
        ensures { result ≡ no_call }
    {
        CallCounts {
            moved: 0,
            synced: 0,
            failed: 0,
            interrupted: 0,
        }
    }

    /// A call that moved all that was asked, or less.
    pub fn note_move(&mut self, whole: bool)
        ensures { self.new ≡ (if whole then one_moved self.old else one_failed self.old) }
    {
        if whole {
            self.moved = self.moved.saturating_add(1);
        } else {
            self.failed = self.failed.saturating_add(1);
        }
    }

    /// A call that synced what was written.
    pub fn note_sync(&mut self)
        ensures { self.new ≡ one_synced self.old }
    {
        self.synced = self.synced.saturating_add(1);
    }

    /// A call that failed or was interrupted.
    pub fn note_fault(&mut self, fault: FileFault)
        ensures { self.new ≡ after_fault fault self.old }
    {
        match fault {
            FileFault::Interrupted => self.interrupted = self.interrupted.saturating_add(1),
            FileFault::Other => self.failed = self.failed.saturating_add(1),
        }
    }
}
