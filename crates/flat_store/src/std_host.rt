ghost use Rattle.std.specs.Prelude.{◌≡◌, ◌≢◌, ◌≤◌, ◌↔◌, None, length, IsTrue, IfOk, OnErr, OnOk, codes, refl, true, is_err, IsOk};
ghost use Rattle.std.specs.Str.{bytes_eq};
ghost use Rattle.vio_io.specs.Causes.{next_count, Fails, FaultsAfter};
ghost use Rattle.vio_io.specs.Given.{next_given};
ghost use Rattle.vio_io.specs.Stores.{IsUnitRange, KeepsOutside, ReadsRange, WritesRange};
ghost use Rattle.flat_store.specs.Files.{Lacked, MovedOnce, SyncedOnce};
ghost use Rattle.flat_store.specs.HostDiskState.{FileCalled, IsUncalled, calls_of, content_of, faults_of, flushes_of, is_in_memory, size_of, writes_of};
ghost use Rattle.flat_store.specs.Hosts.{zeros_alone};

use crate::{FileStore, ImageFile, StdFile, ZeroStore};
use std::alloc::Global;
use std::fs::File;
use std::rt::Files;
use vio_io::{AttachFault, Failed, Host, Store};

/// The image that a host of the program gives: zeros in memory, or a file.
#[derive(Drop)]
pub enum HostDisk<F: ImageFile> {
    Memory(ZeroStore),
    File(FileStore<F>),
}

impl<F: ImageFile> Store for HostDisk<F> {
    ghost use Rattle.flat_store.specs.HostDiskState.{calls_of, content_of, faults_of, flushes_of, size_of, told_length, writes_of};

    ghost content = { content_of F.ImageFile };

    ghost size = { size_of F.ImageFile };

    ghost calls = { calls_of };

    ghost flushes = { flushes_of };

    ghost writes = { writes_of };

    ghost faults = { faults_of };

    ghost told_size = { told_length (record { content = F.content; size = F.size; calls = F.calls }) F.told_size };

    fn len(&self) -> u64 {
        match self {
            HostDisk::Memory(store) => store.len(),
            HostDisk::File(store) => store.len(),
        }
    }

    fn read_at(&mut self, at: u64, buf: &mut [u8]) -> Result<(), Failed>
        requires { IsUnitRange (size_of F.ImageFile self.old) at (length buf.old) }
        ensures told { OnOk result (ReadsRange (content_of F.ImageFile self.old) at buf.new) }
        ensures content { content_of F.ImageFile self.new ≡ content_of F.ImageFile self.old }
        ensures size { size_of F.ImageFile self.new ≡ size_of F.ImageFile self.old }
        ensures calls { calls_of self.new ≡ next_count (calls_of self.old) }
        ensures flushes { flushes_of self.new ≡ flushes_of self.old }
        ensures writes { writes_of self.new ≡ writes_of self.old }
        ensures faults { FaultsAfter (is_err result) (faults_of self.old) (faults_of self.new) }

        ensures succeeded { OnOk result (FileCalled F.ImageFile MovedOnce self.old self.new) }
        ensures lacked { OnErr result (FileCalled F.ImageFile Lacked self.old self.new) }
        ensures memory { is_in_memory self.old ≡ true → IsOk result }
    {
        match self {
            HostDisk::Memory(store) => store.read_at(at, buf),
            HostDisk::File(store) => store.read_at(at, buf),
        }
    }

    fn write_at(&mut self, at: u64, bytes: &[u8]) -> Result<(), Failed>
        requires { IsUnitRange (size_of F.ImageFile self.old) at (length bytes.now) }
        ensures told { OnOk result (WritesRange (content_of F.ImageFile self.old) (content_of F.ImageFile self.new) at bytes.now) }
        ensures outside { KeepsOutside (content_of F.ImageFile self.old) (content_of F.ImageFile self.new) at (length bytes.now) }
        ensures untold { content_of F.ImageFile self.old ≡ None → content_of F.ImageFile self.new ≡ None }
        ensures size { size_of F.ImageFile self.new ≡ size_of F.ImageFile self.old }
        ensures calls { calls_of self.new ≡ next_count (calls_of self.old) }
        ensures flushes { flushes_of self.new ≡ flushes_of self.old }
        ensures writes { writes_of self.new ≡ next_count (writes_of self.old) }
        ensures faults { FaultsAfter (is_err result) (faults_of self.old) (faults_of self.new) }

        ensures succeeded { OnOk result (FileCalled F.ImageFile MovedOnce self.old self.new) }
        ensures lacked { OnErr result (FileCalled F.ImageFile Lacked self.old self.new) }
        ensures memory { is_in_memory self.old ≡ true → IsOk result }
    {
        match self {
            HostDisk::Memory(store) => store.write_at(at, bytes),
            HostDisk::File(store) => store.write_at(at, bytes),
        }
    }

    fn flush(&mut self) -> Result<(), Failed>
        ensures content { content_of F.ImageFile self.new ≡ content_of F.ImageFile self.old }
        ensures size { size_of F.ImageFile self.new ≡ size_of F.ImageFile self.old }
        ensures calls { calls_of self.new ≡ next_count (calls_of self.old) }
        ensures flushes { flushes_of self.new ≡ next_count (flushes_of self.old) }
        ensures writes { writes_of self.new ≡ writes_of self.old }
        ensures faults { FaultsAfter (is_err result) (faults_of self.old) (faults_of self.new) }

        ensures succeeded { OnOk result (FileCalled F.ImageFile SyncedOnce self.old self.new) }
        ensures lacked { OnErr result (FileCalled F.ImageFile Lacked self.old self.new) }
        ensures memory { is_in_memory self.old ≡ true → IsOk result }
    {
        match self {
            HostDisk::Memory(store) => store.flush(),
            HostDisk::File(store) => store.flush(),
        }
    }

    fn faulty(&self) -> bool {
        match self {
            HostDisk::Memory(store) => store.faulty(),
            HostDisk::File(store) => store.faulty(),
        }
    }
}

/// The program's host. `-` gives zeros in memory, whose calls never fail, or is refused for want of memory alone. Another
/// name is that of a file, which is opened for reading and writing, and a fault where it can't be.
#[derive(Drop)]
pub struct StdHost<R: Files<File = File> + Drop> {
    files: R,
    faults: u64,
    given: u64,
}

impl<R: Files<File = File> + Drop> StdHost<R> {
    /// The host of these files. No fault is counted yet, and no disk was given.
    pub fn new(files: R) -> Self
        ensures faults { result.faults ≡ 0 }
        ensures given { result.given ≡ 0 }
    {
        StdHost {
            files,
            faults: 0,
            given: 0,
        }
    }
}

impl<R: Files<File = File> + Drop> Host for StdHost<R> {
    type Disk = HostDisk<StdFile>;

    ghost gives = { λ _ name least. zeros_alone name least };

    ghost faults = { λ h. h.faults };

    ghost given = { λ h. h.given };

    ghost dash = { λ _ least. refl };

    fn attach(
        &mut self,
        alloc: Global,
        name: &str,
        least: u64,
    ) -> Result<HostDisk<StdFile>, AttachFault>
        ensures gives { IfOk result (λ disk. content_of ⟦<StdFile as ImageFile>⟧ disk ≡ zeros_alone name.now least) }
        ensures fresh { IfOk result (λ disk. faults_of disk ≡ 0) }
        ensures calls { IfOk result (λ disk. calls_of disk ≡ 0) }
        ensures flushes { IfOk result (λ disk. flushes_of disk ≡ 0) }
        ensures writes { IfOk result (λ disk. writes_of disk ≡ 0) }
        ensures given { OnOk result (self.new.given ≡ next_given self.old.given) }
        ensures none { OnErr result (self.new.given ≡ self.old.given) }
        ensures faults { Fails (result ≡ Err AttachFault.Failed) self.old.faults self.new.faults }

        ensures once { result ≡ Err AttachFault.Failed → self.new.faults ≡ next_count self.old.faults }
        ensures zeros { IsTrue (bytes_eq name.now (codes "-")) → result ≢ Err AttachFault.Failed }
        ensures files { result ≡ Err AttachFault.Memory → IsTrue (bytes_eq name.now (codes "-")) }
        ensures no_bytes { IsTrue (bytes_eq name.now (codes "-")) → least ≡ 0 → IsOk result }
        ensures memory_image { IfOk result (λ disk. is_in_memory disk ≡ bytes_eq name.now (codes "-")) }
        ensures uncalled { IfOk result (λ disk. IsUncalled ⟦<StdFile as ImageFile>⟧ disk) }
    {
        if name == "-" {
            let zeros = ZeroStore::new(alloc, least as usize)?;
            self.given = self.given.wrapping_add(1);
            return Ok(HostDisk::Memory(zeros));
        }
        match StdFile::open(&self.files, name) {
            Ok(file) => {
                self.given = self.given.wrapping_add(1);
                Ok(HostDisk::File(FileStore::new(file)))
            }
            Err(_) => {
                self.faults = self.faults.saturating_add(1);
                Err(AttachFault::Failed)
            }
        }
    }
}
