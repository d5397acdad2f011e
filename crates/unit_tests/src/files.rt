// Images and hosts: in memory, of the program, and over files.
ghost use Rattle.std.specs.Prelude.{◌≡◌, ◌≤◌, if◌then◌else◌, IfOk};
ghost use Rattle.flat_store.specs.Files.{after_fault, after_move};
ghost use Rattle.flat_store.specs.declared.image_file.FileFault.TheVariants.{Interrupted};

use flat_store::{
    CallCounts, FileFault, FileStore, HostDisk, ImageFile, ListHost, MemStore, StdHost,
};
use infallible_io::InfallibleHost;
use std::alloc::Global;
use std::fs;
use std::test::Fail;
use vio_io::{AttachFault, Host, NoMemory, Store};

/// A file whose calls are interrupted so often, and then answer so: how many bytes they move, or their fault.
#[derive(Drop)]
struct AnsweringFile {
    interruptions: u32,
    answer: Result<usize, FileFault>,
    calls: CallCounts,
}

impl AnsweringFile {
    // Whether the next call is interrupted.
    fn interrupts(&mut self) -> bool
        ensures calls { self.new.calls ≡ (if result then after_fault Interrupted self.old.calls else self.old.calls) }
        ensures answer { self.new.answer ≡ self.old.answer }
    {
        if self.interruptions == 0 {
            return false;
        }
        self.interruptions -= 1;
        self.calls.note_fault(FileFault::Interrupted);
        true
    }

    // Answers a call that is asked to move so many bytes, and counts it.
    fn moves(&mut self, wanted: usize) -> Result<usize, FileFault>
        ensures within { IfOk result (λ n. n ≤ wanted) }
        ensures calls { self.new.calls ≡ after_move wanted result self.old.calls }
    {
        if self.interrupts() {
            return Err(FileFault::Interrupted);
        }
        match self.answer {
            Ok(most) => {
                let moved = most.min(wanted);
                self.calls.note_move(moved == wanted);
                Ok(moved)
            }
            Err(fault) => {
                self.calls.note_fault(fault);
                Err(fault)
            }
        }
    }
}

impl ImageFile for AnsweringFile {
    ghost use Rattle.std.specs.Prelude.{None};

    ghost content = { λ _. None };

    ghost size = { λ _. 8192 };

    ghost calls = { λ f. f.calls };

    ghost told_size = { λ _. tt };

    fn len(&self) -> u64 {
        8192
    }

    fn read_some(&mut self, _: u64, buf: &mut [u8]) -> Result<usize, FileFault> {
        self.moves(buf.len())
    }

    fn write_some(&mut self, _: u64, bytes: &[u8]) -> Result<usize, FileFault> {
        self.moves(bytes.len())
    }

    fn sync(&mut self) -> Result<(), FileFault> {
        if self.interrupts() {
            return Err(FileFault::Interrupted);
        }
        match self.answer {
            Ok(_) => {
                self.calls.note_sync();
                Ok(())
            }
            Err(fault) => {
                self.calls.note_fault(fault);
                Err(fault)
            }
        }
    }
}

/// A call of a disk.
#[derive(Clone, Copy)]
enum Call {
    Read,
    Write,
    Flush,
}

/// Whether a disk's first call succeeds. It counts a fault where it doesn't.
fn succeeds<D: Store>(mut disk: D, call: Call) -> Option<bool> {
    if disk.len() < 1024 {
        return None;
    }
    let answer = match call {
        Call::Read => disk.read_at(512, &mut [0; 512]),
        Call::Write => disk.write_at(512, &[0; 512]),
        Call::Flush => disk.flush(),
    };
    (answer.is_ok() != disk.faulty()).then_some(answer.is_ok())
}

/// A disk of the program over a file that answers so.
fn over(interruptions: u32, answer: Result<usize, FileFault>) -> HostDisk<AnsweringFile> {
    HostDisk::File(FileStore::new(AnsweringFile {
        interruptions,
        answer,
        calls: CallCounts::new(),
    }))
}

/// How a file answers, and whether moving a block and flushing succeed over it.
fn answers() -> [(u32, Result<usize, FileFault>, bool, bool); 7] {
    [
        (0, Ok(512), true, true),
        (0, Ok(511), false, true),
        (0, Ok(0), false, true),
        (0, Err(FileFault::Other), false, false),
        (9_999, Ok(512), true, true),
        (9_999, Ok(511), false, true),
        (10_000, Ok(512), false, false),
    ]
}

#[test]
fn a_short_call_of_a_file_is_a_fault_and_an_interrupted_one_is_tried_again(rt: HostRuntime) {
    for (interruptions, answer, moves, flushes) in answers() {
        let found = [
            succeeds(over(interruptions, answer), Call::Read),
            succeeds(over(interruptions, answer), Call::Write),
            succeeds(over(interruptions, answer), Call::Flush),
        ];
        assert!(rt; found == [Some(moves), Some(moves), Some(flushes)]);
    }
}

/// Whether a disk of this length, whose first block has this byte, is read as it was written. A write of its first
/// block comes last and may fail: then that block stays as it was.
fn keeps<D: Store>(disk: &mut D, length: u64, byte: u8) -> bool {
    let mut first = [0u8; 512];
    let mut second = [0u8; 512];
    let mut last = [0u8; 512];
    if disk.len() != length || length < 1024 {
        return false;
    }
    let mut sound = disk.write_at(512, &[9; 512]).is_ok();
    sound &= disk.read_at(0, &mut first).is_ok();
    sound &= disk.read_at(512, &mut second).is_ok();
    sound &= disk.flush().is_ok();
    sound &= !disk.faulty();
    let wrote = disk.write_at(0, &[8; 512]).is_ok();
    sound &= disk.read_at(0, &mut last).is_ok();
    sound &= wrote != disk.faulty();
    let behind = if wrote { 8 } else { byte };
    sound && is_all(&first, byte) && is_all(&second, 9) && is_all(&last, behind)
}

/// Whether a block is this byte, again and again.
fn is_all(block: &[u8; 512], byte: u8) -> bool {
    *block == [byte; 512]
}

/// The same of the disk that a host gives under a name.
fn gives_kept<H: Host>(alloc: Global, host: &mut H, name: &str, length: u64, byte: u8) -> bool {
    match host.attach(alloc, name, 1024) {
        Ok(mut disk) => keeps(&mut disk, length, byte) && !disk.faulty(),
        Err(_) => false,
    }
}

#[test]
fn disks_are_read_as_they_were_written_and_fail_as_told(rt: HostRuntime) -> Result<(), Fail> {
    let alloc = rt.alloc();
    let mut failing = MemStore::new(alloc, &[7; 1024], &[4])?;
    assert!(rt; keeps(&mut failing, 1024, 7) && failing.faulty());
    assert!(rt; gives_kept(alloc, &mut InfallibleHost::new(), "any", 1024, 0));
    Ok(())
}

/// Whether a host answers so where an image of a name is asked for, of so many bytes at least: with one so long that
/// never failed, or with a fault.
fn gives<H: Host>(alloc: Global, host: &mut H, asked: &[Asked]) -> bool {
    for (name, least, answer) in asked {
        let found = match host.attach(alloc, name, *least) {
            Ok(disk) if disk.faulty() => return false,
            Ok(disk) => Ok(disk.len()),
            Err(fault) => Err(fault),
        };
        if found != *answer {
            return false;
        }
    }
    true
}

/// A name that is asked for, of how many bytes at least, and what comes of it.
type Asked = (&'static str, u64, Result<u64, AttachFault>);

const NONE: Result<u64, AttachFault> = Err(AttachFault::Failed);

/// What is asked of a host in memory.
fn asked_in_memory() -> [Asked; 3] {
    [
        ("img", 1024, Ok(512)),
        ("-", 1024, Ok(1024)),
        ("other", 1024, NONE),
    ]
}

/// What is asked of one that fails.
fn asked_where_it_fails() -> [Asked; 1] {
    [("-", 1024, NONE)]
}

/// What is asked of the program's host.
fn asked_of_the_program() -> [Asked; 5] {
    [
        ("-", 512, Ok(512)),
        ("", 0, NONE),
        ("/", 0, NONE),
        ("/no such folder/x", 0, NONE),
        ("/dev", 0, NONE),
    ]
}

/// A host in memory with a block.
fn host_in_memory(alloc: Global, fails: bool) -> Result<ListHost, NoMemory> {
    ListHost::new(alloc, "img", &[5; 512], &[], fails)
}

/// Whether it gives what it has, and counts the one fault.
fn memory_gives(alloc: Global) -> Result<bool, NoMemory> {
    let mut list = host_in_memory(alloc, false)?;
    Ok(gives(alloc, &mut list, &asked_in_memory()) && list.faults() == 1)
}

/// Whether it gives nothing where it fails.
fn failing_gives(alloc: Global) -> Result<bool, NoMemory> {
    let mut failing = host_in_memory(alloc, true)?;
    Ok(gives(alloc, &mut failing, &asked_where_it_fails()))
}

/// Whether both do so.
fn hosts_in_memory_give(alloc: Global) -> Result<bool, NoMemory> {
    Ok(memory_gives(alloc)? && failing_gives(alloc)?)
}

#[test]
fn hosts_give_what_they_have(rt: HostRuntime) -> Result<(), Fail> {
    let alloc = rt.alloc();
    assert!(rt; hosts_in_memory_give(alloc)?);
    assert!(rt; gives(alloc, &mut StdHost::new(&rt), &asked_of_the_program()));
    Ok(())
}

/// A file in the folder where the tests are run.
const FILE: &str = "unit_tests.img";

/// Whether bytes are what `keeps` leaves of 1,500 bytes 5.
fn is_as_written(bytes: &[u8]) -> bool {
    let mut wanted = [5u8; 1500];
    wanted[..512].fill(8);
    wanted[512..1024].fill(9);
    bytes == wanted.as_slice()
}

#[test]
fn a_file_keeps_what_was_written_and_its_length(rt: HostRuntime) -> Result<(), Fail> {
    let mut host = StdHost::new(&rt);
    assert!(rt; !gives_kept(rt.alloc(), &mut host, FILE, 1500, 5));
    fs::write(&rt, FILE, [5u8; 1500].as_slice())?;
    assert!(rt; gives_kept(rt.alloc(), &mut host, FILE, 1500, 5));
    assert!(rt; is_as_written(&fs::read(&rt, FILE)?));
    fs::remove_file(&rt, FILE)?;
    Ok(())
}
