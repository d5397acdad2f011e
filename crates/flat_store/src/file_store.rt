ghost use Rattle.std.specs.Prelude.{◌≡◌, ◌≢◌, None, length, IsErr, OnErr, OnOk, is_err};
ghost use Rattle.vio_io.specs.Causes.{next_count, Fails, FaultsAfter};
ghost use Rattle.vio_io.specs.Stores.{IsUnitRange, KeepsOutside, ReadsRange, WritesRange};
ghost use Rattle.flat_store.specs.Files.{Lacked, MovedOnce, SyncedOnce};

use crate::{FileFault, ImageFile};
use vio_io::{Failed, MOST_TRIES, Store};

/// A file as a store: a range is moved by one call of the file, and a call that moves less is a fault. A call that the
/// system interrupted is tried again, up to 10,000 times in a row: 10,000 interruptions are a fault, and fewer aren't.
#[derive(Drop)]
pub struct FileStore<F: ImageFile> {
    file: F,
    calls: u64,
    flushes: u64,
    writes: u64,
    faults: u64,
}

impl<F: ImageFile> FileStore<F> {
    /// No call of the store was made yet, and the file is as it was.
    pub fn new(file: F) -> Self
        ensures file { result.file ≡ file }
        ensures calls { result.calls ≡ 0 }
        ensures flushes { result.flushes ≡ 0 }
        ensures writes { result.writes ≡ 0 }
        ensures faults { result.faults ≡ 0 }
    {
        FileStore {
            file,
            calls: 0,
            flushes: 0,
            writes: 0,
            faults: 0,
        }
    }
}

impl<F: ImageFile> Store for FileStore<F> {
    ghost content = { λ s. F.content s.file };

    ghost size = { λ s. F.size s.file };

    ghost calls = { λ s. s.calls };

    ghost flushes = { λ s. s.flushes };

    ghost writes = { λ s. s.writes };

    ghost faults = { λ s. s.faults };

    ghost told_size = { λ s. F.told_size s.file };

    fn len(&self) -> u64 {
        self.file.len()
    }

    fn read_at(&mut self, at: u64, buf: &mut [u8]) -> Result<(), Failed>
        requires { IsUnitRange (F.size self.old.file) at (length buf.old) }
        ensures told { OnOk result (ReadsRange (F.content self.old.file) at buf.new) }
        ensures content { F.content self.new.file ≡ F.content self.old.file }
        ensures size { F.size self.new.file ≡ F.size self.old.file }
        ensures calls { self.new.calls ≡ next_count self.old.calls }
        ensures flushes { self.new.flushes ≡ self.old.flushes }
        ensures writes { self.new.writes ≡ self.old.writes }
        ensures faults { FaultsAfter (is_err result) self.old.faults self.new.faults }

        ensures succeeded { OnOk result (MovedOnce (F.calls self.old.file) (F.calls self.new.file)) }
        ensures lacked { OnErr result (Lacked (F.calls self.old.file) (F.calls self.new.file)) }
    {
        self.calls = self.calls.saturating_add(1);
        count_fault(read_whole(&mut self.file, at, buf), &mut self.faults)
    }

    fn write_at(&mut self, at: u64, bytes: &[u8]) -> Result<(), Failed>
        requires { IsUnitRange (F.size self.old.file) at (length bytes.now) }
        ensures told { OnOk result (WritesRange (F.content self.old.file) (F.content self.new.file) at bytes.now) }
        ensures outside { KeepsOutside (F.content self.old.file) (F.content self.new.file) at (length bytes.now) }
        ensures untold { F.content self.old.file ≡ None → F.content self.new.file ≡ None }
        ensures size { F.size self.new.file ≡ F.size self.old.file }
        ensures calls { self.new.calls ≡ next_count self.old.calls }
        ensures flushes { self.new.flushes ≡ self.old.flushes }
        ensures writes { self.new.writes ≡ next_count self.old.writes }
        ensures faults { FaultsAfter (is_err result) self.old.faults self.new.faults }

        ensures succeeded { OnOk result (MovedOnce (F.calls self.old.file) (F.calls self.new.file)) }
        ensures lacked { OnErr result (Lacked (F.calls self.old.file) (F.calls self.new.file)) }
    {
        self.calls = self.calls.saturating_add(1);
        self.writes = self.writes.saturating_add(1);
        count_fault(write_whole(&mut self.file, at, bytes), &mut self.faults)
    }

    fn flush(&mut self) -> Result<(), Failed>
        ensures content { F.content self.new.file ≡ F.content self.old.file }
        ensures size { F.size self.new.file ≡ F.size self.old.file }
        ensures calls { self.new.calls ≡ next_count self.old.calls }
        ensures flushes { self.new.flushes ≡ next_count self.old.flushes }
        ensures writes { self.new.writes ≡ self.old.writes }
        ensures faults { FaultsAfter (is_err result) self.old.faults self.new.faults }

        ensures succeeded { OnOk result (SyncedOnce (F.calls self.old.file) (F.calls self.new.file)) }
        ensures lacked { OnErr result (Lacked (F.calls self.old.file) (F.calls self.new.file)) }
    {
        self.calls = self.calls.saturating_add(1);
        self.flushes = self.flushes.saturating_add(1);
        count_fault(sync(&mut self.file), &mut self.faults)
    }

    fn faulty(&self) -> bool {
        self.faults > 0
    }
}

// Counts the fault of a call that failed.
fn count_fault(done: Result<(), Failed>, faults: &mut u64) -> Result<(), Failed>
    ensures same { result ≡ done }
    ensures faults { Fails (IsErr result) faults.old faults.new }
{
    if done.is_err() {
        *faults = faults.saturating_add(1);
    }
    done
}

// Whether a call moved all of so many bytes.
fn whole(moved: usize, wanted: usize) -> Result<(), Failed>
    ensures ok { OnOk result (moved ≡ wanted) }
    ensures err { OnErr result (moved ≢ wanted) }
{
    if moved == wanted { Ok(()) } else { Err(Failed) }
}

#[tactic(auto, using(crate::proofs::Tries::interrupted_more))]
fn read_whole<F: ImageFile>(file: &mut F, at: u64, buf: &mut [u8]) -> Result<(), Failed>
    requires { IsUnitRange (F.size file.old) at (length buf.old) }
    ensures told { OnOk result (ReadsRange (F.content file.old) at buf.new) }
    ensures content { F.content file.new ≡ F.content file.old }
    ensures size { F.size file.new ≡ F.size file.old }
    ensures succeeded { OnOk result (MovedOnce (F.calls file.old) (F.calls file.new)) }
    ensures lacked { OnErr result (Lacked (F.calls file.old) (F.calls file.new)) }
{
    for tried in 0..MOST_TRIES {
        match file.read_some(at, buf) {
            Ok(moved) => return whole(moved, buf.len()),
            Err(FileFault::Interrupted) => {}
            Err(FileFault::Other) => return Err(Failed),
        }
    }
    Err(Failed)
}

#[tactic(auto, using(crate::proofs::Tries::interrupted_more))]
fn write_whole<F: ImageFile>(file: &mut F, at: u64, bytes: &[u8]) -> Result<(), Failed>
    requires { IsUnitRange (F.size file.old) at (length bytes.now) }
    ensures told { OnOk result (WritesRange (F.content file.old) (F.content file.new) at bytes.now) }
    ensures outside { KeepsOutside (F.content file.old) (F.content file.new) at (length bytes.now) }
    ensures untold { F.content file.old ≡ None → F.content file.new ≡ None }
    ensures size { F.size file.new ≡ F.size file.old }
    ensures succeeded { OnOk result (MovedOnce (F.calls file.old) (F.calls file.new)) }
    ensures lacked { OnErr result (Lacked (F.calls file.old) (F.calls file.new)) }
{
    for tried in 0..MOST_TRIES {
        match file.write_some(at, bytes) {
            Ok(moved) => return whole(moved, bytes.len()),
            Err(FileFault::Interrupted) => {}
            Err(FileFault::Other) => return Err(Failed),
        }
    }
    Err(Failed)
}

#[tactic(auto, using(crate::proofs::Tries::interrupted_more))]
fn sync<F: ImageFile>(file: &mut F) -> Result<(), Failed>
    ensures content { F.content file.new ≡ F.content file.old }
    ensures size { F.size file.new ≡ F.size file.old }
    ensures succeeded { OnOk result (SyncedOnce (F.calls file.old) (F.calls file.new)) }
    ensures lacked { OnErr result (Lacked (F.calls file.old) (F.calls file.new)) }
{
    for tried in 0..MOST_TRIES {
        match file.sync() {
            Ok(()) => return Ok(()),
            Err(FileFault::Interrupted) => {}
            Err(FileFault::Other) => return Err(Failed),
        }
    }
    Err(Failed)
}
