// The lines of a dump, one after another.
ghost use Rattle.std.specs.Prelude.{◌≡◌, ◌≢◌, ℕ, ◌+◌, ◌≤◌, [], length, IfOk, OnErr, IsErr};
ghost use Rattle.script_reader.specs.LinesState.{GoesOn, ends_after, to_come};
ghost use Rattle.ldom_report.specs.Stops.{EndsTold};
ghost use Rattle.vio_io.specs.Causes.{Fails};
ghost use Rattle.gathered_text.specs.Gathered.{Gathers, WroteFront};
ghost use Rattle.ldc_packet.specs.Form.{IsWellFormed};
ghost use Rattle.ldom_dump.specs.Decoded.{carried_bytes};
ghost use Rattle.ldom_dump.specs.Going.{DumpsLines, PutsPacket, TellsCarried, TellsMessage, TellsPacket};

use crate::digits::read_bytes;
use crate::message_text::{push_message, push_message_fault};
use crate::packet_text::{carried_bytes, push_fault, push_packet};
use gathered_text::{TEXT_ROOM, Text};
use ldc_packet::Packet;
use ldom_report::Status;
use script_reader::Lines;
use std::alloc::Global;
use vio_bytes::NoMemory;
use vio_io::{Failed, Sink, Source};

/// More bytes than the lines of a packet and its message have.
const LINES_ROOM: usize = 2048;

/// The line of what the bytes of a message say.
fn push_message_of(text: &mut Text, bytes: &[u8])
    requires { length text.old + 1100 ≤ TEXT_ROOM }
    ensures { TellsMessage bytes.now text.old text.new }
{
    match vio_tag::decode(bytes) {
        Ok(message) => push_message(text, &message),
        Err(fault) => push_message_fault(text, fault),
    }
}

/// The line of the message that a packet carries whole, nothing where it carries none.
fn push_carried(text: &mut Text, packet: &Packet)
    requires formed { IsWellFormed packet.now }
    requires room { length text.old + 1100 ≤ TEXT_ROOM }
    ensures { TellsCarried (carried_bytes packet.now.body) text.old text.new }
{
    match carried_bytes(packet) {
        Some(bytes) => push_message_of(text, bytes),
        None => {}
    }
}

/// The lines of what the bytes of a packet say. Answers whether they are one.
fn push_packet_of(text: &mut Text, bytes: &[u8; 64]) -> bool
    requires { length text.old + LINES_ROOM ≤ TEXT_ROOM }
    ensures { TellsPacket bytes.now text.old text.new result }
{
    match ldc_packet::decode(bytes) {
        Ok(packet) => {
            push_packet(text, &packet);
            push_carried(text, &packet);
            true
        }
        Err(fault) => {
            push_fault(text, fault);
            false
        }
    }
}

/// The same, with room made for the lines. After `Failed` a front of what was gathered was written.
fn put_packet<K: Sink>(text: &mut Text, bytes: &[u8; 64], out: &mut K) -> Result<bool, Failed>
    ensures told { IfOk result (PutsPacket bytes.now (K.written out.old) (K.written out.new) text.old text.new) }
    ensures front { OnErr result (WroteFront (K.written out.old) (K.written out.new) text.old) }
    ensures few { length text.old ≤ TEXT_ROOM }
    ensures faults { Fails (IsErr result) (K.faults out.old) (K.faults out.new) }
{
    text.make_room(LINES_ROOM, out)?;
    Ok(push_packet_of(text, bytes))
}

/// How the lines of a dump ended.
#[derive(Drop)]
pub struct Ended {
    /// Why no further line was decoded: `Done` at the end.
    pub why: Status,

    /// How many lines were taken up, and how many of them are packets, and how many aren't.
    pub lines: u32,
    pub packets: u32,
    pub faults: u32,
}

/// Decodes all lines of a source, and gathers their text.
pub fn dump_all<S: Source, K: Sink>(
    alloc: Global,
    source: &mut S,
    text: &mut Text,
    out: &mut K,
) -> Ended
    requires { text.old ≡ [] }
    ensures dumps { DumpsLines (S.left source.old) (S.left source.new) result (K.written out.old) (K.written out.new)
        text.new }
    ensures source { Fails (result.why ≡ Status.SourceFault) (S.faults source.old) (S.faults source.new) }
    ensures ends { EndsTold result.why (S.ends source.old) (S.ends source.new) }
    ensures unasked { result.why ≡ Status.NoMemory → S.ends source.new ≡ S.ends source.old }
    ensures sink { Fails (result.why ≡ Status.SinkFault) (K.faults out.old) (K.faults out.new) }
{
    match Lines::new(alloc) {
        Ok(mut lines) => dump_lines(&mut lines, source, text, out),
        Err(NoMemory) => Ended {
            why: Status::NoMemory,
            lines: 0,
            packets: 0,
            faults: 0,
        },
    }
}

/// Decodes all lines of a reader, and gathers their text.
fn dump_lines<S: Source, K: Sink>(
    lines: &mut Lines,
    source: &mut S,
    text: &mut Text,
    out: &mut K,
) -> Ended
    requires goes { GoesOn lines.old (S.left source.old) }
    requires first { lines.old.number ≡ 0 }
    requires empty { text.old ≡ [] }
    ensures dumps { DumpsLines (to_come lines.old (S.left source.old)) (S.left source.new) result
        (K.written out.old) (K.written out.new) text.new }
    ensures source { Fails (result.why ≡ Status.SourceFault) (S.faults source.old) (S.faults source.new) }
    ensures ends { (base : ℕ) → S.ends source.old ≡ ends_after lines.old.stop base
        → EndsTold result.why base (S.ends source.new) }
    ensures memory { result.why ≢ Status.NoMemory }
    ensures sink { Fails (result.why ≡ Status.SinkFault) (K.faults out.old) (K.faults out.new) }
{
    let mut packets: u32 = 0;
    let mut faults: u32 = 0;
    loop {
        let bytes = match read_bytes(lines, source) {
            Ok(bytes) => bytes,
            Err(stop) => {
                return Ended {
                    why: stop.status(lines.number()),
                    lines: lines.number(),
                    packets,
                    faults,
                };
            }
        };
        match put_packet(text, &bytes, out) {
            Ok(true) => packets += 1,
            Ok(false) => faults += 1,
            Err(Failed) => {
                return Ended {
                    why: Status::SinkFault,
                    lines: lines.number(),
                    packets,
                    faults,
                };
            }
        }
    }
}
