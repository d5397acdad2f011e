// Sources and sinks in memory, and those over the streams of std.
ghost use Rattle.std.specs.Prelude.{◌≤◌, ◌<◌, length, IfOk};

use infallible_io::{GrowingSink, InfallibleSource};
use std::alloc::Global;
use std::io;
use std::io::{ErrorKind, Read, Write};
use std::test::Fail;
use vio_io::{Failed, ListSink, ListSource, NoMemory, Sink, Source, StdSink, StdSource};

/// What a call answers, and what stands at the front of the buffer then.
type Call = (Result<usize, Failed>, &'static [u8]);

/// Whether a source answers calls so, each for so many bytes at most, into one buffer.
fn reads<S: Source>(source: &mut S, most: usize, calls: &[Call]) -> bool
    requires some { 0 < most }
    requires few { most ≤ 4 }
{
    let mut buf = [0u8; 4];
    for (answer, front) in calls {
        if source.read(&mut buf[..most]) != *answer || !buf.starts_with(front) {
            return false;
        }
    }
    true
}

/// Whether a sink answers so to each write of these bytes.
fn writes<K: Sink>(sink: &mut K, bytes: &[u8], answers: &[Result<usize, Failed>]) -> bool
    requires { 0 < length bytes.now }
{
    for answer in answers {
        if sink.write(bytes) != *answer {
            return false;
        }
    }
    true
}

/// What a source of five bytes answers that gives two at most and fails its second call.
fn list_calls() -> [Call; 5] {
    [
        (Ok(2), b"ab"),
        (Err(Failed), b"ab"),
        (Ok(2), b"cd"),
        (Ok(1), b"ed"),
        (Ok(0), b"ed"),
    ]
}

/// The same of a source of three bytes that never fails.
fn infallible_calls() -> [Call; 3] {
    [(Ok(2), b"ab"), (Ok(1), b"cb"), (Ok(0), b"cb")]
}

/// A source of five bytes that gives two at most and fails its second call.
fn list_source(alloc: Global) -> Result<ListSource, NoMemory> {
    ListSource::new(alloc, b"abcde", 2, &[1])
}

/// A sink with room for five bytes that fails its second call.
fn list_sink(alloc: Global) -> Result<ListSink, NoMemory> {
    ListSink::new(alloc, 5, &[1])
}

#[test]
fn sources_give_their_bytes_and_fail_as_told(rt: HostRuntime) -> Result<(), Fail> {
    let mut list = list_source(rt.alloc())?;
    assert!(rt; reads(&mut list, 4, &list_calls()));
    assert!(rt; list.faults() == 1);
    let mut infallible = InfallibleSource::new(rt.alloc(), b"abc")?;
    assert!(rt; reads(&mut infallible, 2, &infallible_calls()));
    let mut stream = StdSource::new(b"ab".as_slice());
    assert!(rt; reads(&mut stream, 4, &[(Ok(2), b"ab"), (Ok(0), b"ab")]));
    Ok(())
}

#[test]
fn sinks_in_memory_hold_what_was_written_and_fail_as_told(rt: HostRuntime) -> Result<(), Fail> {
    let mut list = list_sink(rt.alloc())?;
    assert!(rt; writes(&mut list, b"abc", &[Ok(3), Err(Failed), Ok(2), Err(Failed)]));
    assert!(rt; list.bytes() == b"abcab".as_slice() && list.faults() == 2);
    let mut growing = GrowingSink::new(rt.alloc());
    assert!(rt; writes(&mut growing, b"ab", &[Ok(2)]) && writes(&mut growing, b"c", &[Ok(1)]));
    assert!(rt; growing.bytes() == b"abc".as_slice());
    Ok(())
}

#[test]
fn streams_of_std_take_what_they_hold(rt: HostRuntime) {
    let mut taken = Vec::new(rt.alloc());
    assert!(rt; writes(&mut StdSink::new(&mut taken), b"ab", &[Ok(2)]));
    let mut full = [0u8; 1];
    let mut small = StdSink::new(full.as_mut_slice());
    assert!(rt; writes(&mut small, b"ab", &[Ok(1)]));
    assert!(rt; writes(&mut small, b"b", &[Err(Failed)]));
}

/// A stream of std that fails so many calls in this way, and then moves one byte a call.
#[derive(Drop)]
struct Failing {
    calls: u32,
    kind: ErrorKind,
}

impl Failing {
    fn call(&mut self, room: usize) -> io::Result<usize>
        ensures { IfOk result (λ n. n ≤ room) }
    {
        if self.calls > 0 {
            self.calls -= 1;
            return Err(self.kind.into());
        }
        Ok(room.min(1))
    }
}

impl Read for Failing {
    fn read(&mut self, buf: &mut [u8]) -> io::Result<usize> {
        self.call(buf.len())
    }
}

impl Write for Failing {
    fn write(&mut self, buf: &[u8]) -> io::Result<usize> {
        self.call(buf.len())
    }

    fn flush(&mut self) -> io::Result<()> {
        Ok(())
    }
}

/// How many calls of a stream fail, in which way, and what a source or a sink over it answers.
fn failing_calls() -> [(u32, ErrorKind, Result<usize, Failed>); 5] {
    [
        (0, ErrorKind::Interrupted, Ok(1)),
        (1, ErrorKind::Interrupted, Ok(1)),
        (1_000, ErrorKind::Interrupted, Ok(1)),
        (u32::MAX, ErrorKind::Interrupted, Err(Failed)),
        (1, ErrorKind::WouldBlock, Err(Failed)),
    ]
}

#[test]
fn an_interrupted_call_is_tried_again_and_gives_up_at_last(rt: HostRuntime) {
    for (calls, kind, answer) in failing_calls() {
        let mut source = StdSource::new(Failing { calls, kind });
        let mut sink = StdSink::new(Failing { calls, kind });
        assert!(rt;
            reads(&mut source, 4, &[(answer, b"")]) && writes(&mut sink, b"abcd", &[answer])
        );
    }
}

/// A stream of std of which each other call moves no byte, the first one too, and each call after such a one moves one.
#[derive(Drop)]
struct Halting {
    moves: bool,
}

impl Halting {
    fn call(&mut self, room: usize) -> usize
        ensures { result ≤ room }
    {
        let moved = if self.moves { room.min(1) } else { 0 };
        self.moves = !self.moves;
        moved
    }
}

impl Read for Halting {
    fn read(&mut self, buf: &mut [u8]) -> io::Result<usize> {
        Ok(self.call(buf.len()))
    }
}

impl Write for Halting {
    fn write(&mut self, buf: &[u8]) -> io::Result<usize> {
        Ok(self.call(buf.len()))
    }

    fn flush(&mut self) -> io::Result<()> {
        Ok(())
    }
}

#[test]
fn an_end_is_no_fault_and_a_write_of_no_bytes_is_one(rt: HostRuntime) {
    let mut source = StdSource::new(Halting { moves: false });
    assert!(rt; reads(&mut source, 4, &[(Ok(0), b""), (Ok(1), b""), (Ok(0), b"")]));
    let mut sink = StdSink::new(Halting { moves: false });
    assert!(rt; writes(&mut sink, b"ab", &[Err(Failed), Ok(1), Err(Failed)]));
}
