use crate::case::Case;
use crate::fault::Fault;
use crate::looking::look_at;
use flat_store::ListHost;
use ldom_replay::replay;
use std::alloc::Global;
use vio_io::{ListSink, ListSource};

/// Does what a case's words say, and looks at what comes of it.
pub fn replay_case(alloc: Global, case: &Case) -> Result<(), Fault> {
    let words = case.words(alloc)?;
    let mut host = host_of(alloc, case)?;
    replay_script(alloc, case, &words, &mut host)
}

fn replay_script(
    alloc: Global,
    case: &Case,
    words: &[String],
    host: &mut ListHost,
) -> Result<(), Fault> {
    let mut source = source_of(alloc, case)?;
    let mut sink = sink_of(alloc, case)?;
    run(alloc, case, words, host, &mut source, &mut sink)
}

// The call alone, so that its contract isn't computed on what the caller knows. What comes of it is only lent: a
// function that takes it apart has to prove how each part is dropped.
fn run(
    alloc: Global,
    case: &Case,
    words: &[String],
    host: &mut ListHost,
    source: &mut ListSource,
    sink: &mut ListSink,
) -> Result<(), Fault> {
    let outcome = replay(alloc, words, host, source, sink);
    look_at(alloc, case, &outcome, sink.bytes())
}

/// A host with the image of the line `host LENGTH BYTE NAME`, or one of no bytes.
fn host_of(alloc: Global, case: &Case) -> Result<ListHost, Fault> {
    let text = case.get("host").unwrap_or("0 00 img");
    match three_words(text) {
        Some((length, byte, name)) => host_with(alloc, case, length, byte, name),
        None => Err(Fault::Wrong("a host without LENGTH BYTE NAME")),
    }
}

fn three_words(text: &str) -> Option<(&str, &str, &str)> {
    let (one, rest) = text.split_once(' ')?;
    let (two, three) = rest.split_once(' ')?;
    Some((one, two, three))
}

fn host_with(
    alloc: Global,
    case: &Case,
    length: &str,
    byte: &str,
    name: &str,
) -> Result<ListHost, Fault> {
    let image = image_of(alloc, length, byte)?;
    let failing = case.numbers(alloc, "disk-fails")?;
    let attach_fails = case.has("attach-fails");
    Ok(ListHost::new(alloc, name, &image, &failing, attach_fails)?)
}

fn image_of(alloc: Global, length: &str, byte: &str) -> Result<Vec<u8>, Fault> {
    Ok(vec![in alloc; u8::from_str_radix(byte, 16)?; length.parse()?]?)
}

/// A source that gives the script in pieces.
fn source_of(alloc: Global, case: &Case) -> Result<ListSource, Fault> {
    let piece = case.number("piece", 16)?;
    if piece == 0 {
        return Err(Fault::Wrong("a piece of no byte"));
    }
    let script = case.text(alloc, "<", "<.")?;
    let failing = case.numbers(alloc, "source-fails")?;
    Ok(ListSource::new(alloc, script.as_bytes(), piece, &failing)?)
}

fn sink_of(alloc: Global, case: &Case) -> Result<ListSink, Fault> {
    let room = case.number("sink-room", 65_536)?;
    let failing = case.numbers(alloc, "sink-fails")?;
    Ok(ListSink::new(alloc, room, &failing)?)
}
