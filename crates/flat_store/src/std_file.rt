ghost use Rattle.std.specs.Prelude.{◌≡◌, ◌↔◌, ◌≤ℤ◌, pos, IfOk, None, true};
ghost use Rattle.std.specs.Fd.{file_raw_fd};
ghost use Rattle.std.specs.Fs.{new_options, with_read, with_write};
ghost use Rattle.std.specs.IoError.{error_kind};
ghost use Rattle.flat_store.specs.Files.{after_move, after_sync, no_call};

use crate::call_counts::CallCounts;
use crate::{FileFault, ImageFile};
use std::fs::{File, OpenOptions};
use std::io;
use std::io::{ErrorKind, Seek, SeekFrom};
use std::os::fd::AsRawFd;
use std::os::unix::fs::FileExt;
use std::rt::Files;

/// The first descriptor behind those of the standard streams, 0 to 2.
const FIRST_BEHIND_STREAMS: i32 = 3;

/// A file of the system: the trusted edge. It tells no bytes, and its length is the one that it had when it was opened.
#[derive(Drop)]
pub struct StdFile {
    file: File,
    len: u64,
    calls: CallCounts,
}

impl StdFile {
    /// Opens what has this name for reading and writing. It is never made, cut or lengthened. A directory can't be opened so,
    /// and what has no length, as a pipe, is refused. A clone's descriptor is above those of the standard streams: where one
    /// of them is closed, what is written to it doesn't come into the file. None of the calls of `ImageFile` was made yet.
    pub fn open<R: Files<File = File>>(files: &R, name: &str) -> io::Result<Self>
        ensures uncalled { IfOk result (λ f. f.calls ≡ no_call) }
        ensures apart { IfOk result (λ f. pos 3 ≤ℤ file_raw_fd f.file) }
    {
        Self::open_by(OpenOptions::new().read(true).write(true), files, name)
    }

    /// The same by these options, which ask for reading and writing and for nothing else.
    fn open_by<R: Files<File = File>>(how: &OpenOptions, files: &R, name: &str) -> io::Result<Self>
        requires { how.now ≡ with_write (with_read new_options true) true }
        ensures uncalled { IfOk result (λ f. f.calls ≡ no_call) }
        ensures apart { IfOk result (λ f. pos 3 ≤ℤ file_raw_fd f.file) }
    {
        let opened = how.open(files, name)?;
        let mut file = opened.try_clone()?;
        let len = file.seek(SeekFrom::End(0))?;
        if file.as_raw_fd() < FIRST_BEHIND_STREAMS {
            return Err(ErrorKind::Other.into());
        }
        Ok(StdFile {
            file,
            len,
            calls: CallCounts::new(),
        })
    }
}

impl ImageFile for StdFile {
    ghost content = { λ _. None };

    ghost size = { λ f. f.len };

    ghost calls = { λ f. f.calls };

    ghost told_size = { λ _. tt };

    fn len(&self) -> u64 {
        self.len
    }

    fn read_some(&mut self, at: u64, buf: &mut [u8]) -> Result<usize, FileFault> {
        match self.file.read_at(buf, at) {
            Ok(moved) => {
                self.calls.note_move(moved == buf.len());
                Ok(moved)
            }
            Err(error) => {
                let fault = fault_of(&error);
                self.calls.note_fault(fault);
                Err(fault)
            }
        }
    }

    fn write_some(&mut self, at: u64, bytes: &[u8]) -> Result<usize, FileFault> {
        match self.file.write_at(bytes, at) {
            Ok(moved) => {
                self.calls.note_move(moved == bytes.len());
                Ok(moved)
            }
            Err(error) => {
                let fault = fault_of(&error);
                self.calls.note_fault(fault);
                Err(fault)
            }
        }
    }

    fn sync(&mut self) -> Result<(), FileFault> {
        match self.file.sync_data() {
            Ok(()) => {
                self.calls.note_sync();
                Ok(())
            }
            Err(error) => {
                let fault = fault_of(&error);
                self.calls.note_fault(fault);
                Err(fault)
            }
        }
    }
}

fn fault_of(error: &io::Error) -> FileFault
    ensures { result ≡ FileFault.Interrupted ↔ error_kind error.now ≡ ErrorKind.Interrupted }
{
    if error.kind() == ErrorKind::Interrupted {
        FileFault::Interrupted
    } else {
        FileFault::Other
    }
}
