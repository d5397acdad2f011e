// The one canonical line of an event.
ghost use Rattle.std.specs.Prelude.{◌≡◌, ◌≤◌, [], ◌∷◌, length, take, decimal};
ghost use Rattle.hex.specs.Hex.{IsBytes, encode_lower};
ghost use Rattle.domain_script.specs.declared.event.Event.TheVariants.{Issue as issue_event};
ghost use Rattle.domain_script.specs.declared.rows.RowKind.TheVariants as row;
ghost use Rattle.domain_script.specs.Printed.{CanPrint, EventBytes, HasName, end_text, followed_by, lane_text, line_text};
ghost use Rattle.script_words.specs.Texts.{name_text};
ghost use Rattle.domain_script.specs.LaneKinds.{disk_lane, port_lane};
ghost use Rattle.domain_script.specs.Rows.{row_of};
ghost use Rattle.domain_script.specs.Spells.{Spells};
ghost use Rattle.script_words.specs.Words.{IsName};

use crate::putting::{put_end, put_lane, put_row};
use crate::rows::RowKind;
use crate::{DiskDecl, EndName, Event, Lane, LaneKind, Names, PortDecl, Request};
use script_words::putting::{put_bytes, put_fill, put_name, put_number, put_piece};

/// Writes the one canonical line of an event, without its line feed, and answers how many bytes it has; what the buffer
/// has after them isn't specified. The event's disks have to be declared and its ends of the kind that its line needs,
/// its names, numbers and bytes as the table asks, and a declaration one that `note` takes.
pub fn print(event: &Event, names: &Names, out: &mut [u8; 3100]) -> usize
    requires { CanPrint names.now event.now }
    ensures text { take result out.new ≡ line_text names.now event.now }
    ensures spells { Spells (take result out.new) names.now event.now }
    ensures short { result ≤ 3100 }
{
    names.differ();
    put_event(event, names, out)
}

/// Each kind of event by the function that puts its words.
fn put_event(event: &Event, names: &Names, out: &mut [u8; 3100]) -> usize
    requires { CanPrint names.now event.now }
    ensures text { take result out.new ≡ line_text names.now event.now }
    ensures short { result ≤ 3100 }
    ensures bytes { EventBytes event.now }
{
    match event {
        Event::Blank => 0,
        Event::Disk(disk) => put_disk(disk, out),
        Event::Net(port) => put_port(port, out),
        Event::Issue { disk, request } => put_request(*disk, request, names, out),
        Event::Send { port, frame } => {
            let len = put_row_of_lane(RowKind::Send, port_lane(*port), names, out);
            put_piece(frame, out, len)
        }
        Event::Join { port, address } => {
            let len = put_row_of_lane(RowKind::Join, port_lane(*port), names, out);
            put_bytes(address, out, len)
        }
        Event::Settle => put_row(RowKind::Settle, out),
        Event::Step { end, count } => {
            let len = put_row_of_end(RowKind::Step, *end, names, out);
            put_number(u64::from(*count), out, len)
        }
        Event::Round { count } => {
            let len = put_row(RowKind::Round, out);
            put_number(u64::from(*count), out, len)
        }
        Event::Reset { end } => put_row_of_end(RowKind::Reset, *end, names, out),
        Event::Restart { end } => put_row_of_end(RowKind::Restart, *end, names, out),
        Event::Stop { disk } => put_row_of_lane(RowKind::Stop, disk_lane(*disk), names, out),
        Event::Start { disk } => put_row_of_lane(RowKind::Start, disk_lane(*disk), names, out),
        Event::Lose { end } => put_row_of_end(RowKind::Lose, *end, names, out),
        Event::Tick { lane } => put_row_of_lane(RowKind::Tick, *lane, names, out),
        Event::Inject { end, packet } => {
            let len = put_row_of_end(RowKind::Inject, *end, names, out);
            put_bytes(packet, out, len)
        }
        Event::Poke { end, at, bytes } => {
            let len = put_row_of_end(RowKind::Poke, *end, names, out);
            let len = put_number(*at, out, len);
            put_fill(bytes, out, len)
        }
    }
}

/// The lane of a disk.
fn disk_lane(number: u32) -> Lane
    ensures { result ≡ disk_lane number }
{
    Lane {
        kind: LaneKind::Disk,
        number,
    }
}

/// The lane of a port.
fn port_lane(number: u32) -> Lane
    ensures { result ≡ port_lane number }
{
    Lane {
        kind: LaneKind::Port,
        number,
    }
}

/// Puts the declaration of a disk.
fn put_disk(disk: &DiskDecl, out: &mut [u8; 3100]) -> usize
    requires { IsName disk.now.name }
    ensures text { take result out.new ≡ followed_by (row_of row.Disk).word
        (name_text disk.now.name ∷ decimal disk.now.blocks ∷ decimal disk.now.ring ∷ decimal disk.now.queue ∷ []) }
    ensures short { result ≤ 3100 }
{
    let len = put_row(RowKind::Disk, out);
    let len = put_name(&disk.name, out, len);
    let len = put_number(u64::from(disk.blocks), out, len);
    let len = put_number(u64::from(disk.ring), out, len);
    put_number(u64::from(disk.queue), out, len)
}

/// Puts the declaration of a port.
fn put_port(port: &PortDecl, out: &mut [u8; 3100]) -> usize
    requires name { IsName port.now.name }
    requires address { length port.now.address ≡ 6 }
    ensures text { take result out.new ≡ followed_by (row_of row.Net).word
        (name_text port.now.name ∷ encode_lower port.now.address ∷ decimal port.now.ring ∷ decimal port.now.queue ∷ []) }
    ensures short { result ≤ 3100 }
    ensures bytes { IsBytes port.now.address }
{
    let len = put_row(RowKind::Net, out);
    let len = put_name(&port.name, out, len);
    let len = put_bytes(&port.address, out, len);
    let len = put_number(u64::from(port.ring), out, len);
    put_number(u64::from(port.queue), out, len)
}

/// Puts a row's word and a lane of a kind.
fn put_row_of_lane(kind: RowKind, lane: Lane, names: &Names, out: &mut [u8; 3100]) -> usize
    requires { HasName names.now lane }
    ensures text { take result out.new ≡ followed_by (row_of kind).word (lane_text names.now lane ∷ []) }
    ensures len { result ≤ 16 }
{
    let len = put_row(kind, out);
    put_lane(lane, names, out, len)
}

/// Puts a row's word and an end.
fn put_row_of_end(kind: RowKind, end: EndName, names: &Names, out: &mut [u8; 3100]) -> usize
    requires { HasName names.now end.lane }
    ensures text { take result out.new ≡ followed_by (row_of kind).word (end_text names.now end ∷ []) }
    ensures len { result ≤ 18 }
{
    let len = put_row(kind, out);
    put_end(end, names, out, len)
}

/// Puts what a guest asks a disk.
fn put_request(disk: u32, request: &Request, names: &Names, out: &mut [u8; 3100]) -> usize
    requires { CanPrint names.now (issue_event disk request.now) }
    ensures text { take result out.new ≡ line_text names.now (issue_event disk request.now) }
    ensures short { result ≤ 3100 }
    ensures bytes { EventBytes (issue_event disk request.now) }
{
    match request {
        Request::Write { block, count, fill } => {
            let len = put_transfer(RowKind::Write, disk, *block, *count, names, out);
            put_fill(fill, out, len)
        }
        Request::Read { block, count } => {
            put_transfer(RowKind::Read, disk, *block, *count, names, out)
        }
        Request::Flush => put_row_of_lane(RowKind::Flush, disk_lane(disk), names, out),
    }
}

/// Puts a row's word, a disk, a block of it and a count.
fn put_transfer(
    kind: RowKind,
    disk: u32,
    block: u64,
    count: u64,
    names: &Names,
    out: &mut [u8; 3100],
) -> usize
    requires { HasName names.now (disk_lane disk) }
    ensures text { take result out.new ≡ followed_by (row_of kind).word
        (lane_text names.now (disk_lane disk) ∷ decimal block ∷ decimal count ∷ []) }
    ensures len { result ≤ 98 }
{
    let len = put_row_of_lane(kind, disk_lane(disk), names, out);
    let len = put_number(block, out, len);
    put_number(count, out, len)
}
