// The sample script: a script that is made from a number.
ghost use Rattle.std.specs.Prelude.{◌≡◌, ◌^◌, ◌<◌, ◌∷◌, [], ◌++◌, false, map, IfOk, OnOk};
ghost use Rattle.domain_script.specs.Printed.{CanPrint, line_text};
ghost use Rattle.domain_script.specs.ScriptLines.{fed, script_lines};
ghost use Rattle.ldom_sample.specs.Sample.{SpellSample, block_of, blocks_of, disturbance, drawn_event, drawn_events, next_draw};
ghost use Rattle.ldom_sample.specs.Sample.{one_byte, sample_line, sample_names, sample_text, turns_of};

use domain_script::{
    DiskDecl, EndName, Event, Fill, Lane, LaneKind, Name, Names, Request, Side, print,
};
use kept_requests::Bytes;
use std::alloc::Global;
use vio_bytes::NoMemory;

/// So many lines are made from draws.
const LINES: u32 = 4000;

/// The one disk, `d0`, and its ends.
const DISK: u32 = 0;

const DECLARED: DiskDecl = DiskDecl {
    name: Name {
        len: 2,
        bytes: *b"d0\0\0\0\0\0\0",
    },
    blocks: 1024,
    ring: 64,
    queue: 64,
};

const CLIENT: EndName = EndName {
    lane: Lane {
        kind: LaneKind::Disk,
        number: DISK,
    },
    side: Side::Client,
};

const SERVER: EndName = EndName {
    lane: Lane {
        kind: LaneKind::Disk,
        number: DISK,
    },
    side: Side::Server,
};

/// The sample script of a number below 2^31: a disk, 4,000 lines that are made from draws, and a settle. Each line
/// spells its event.
pub fn sample_script(alloc: Global, number: u32) -> Result<Bytes, NoMemory>
    requires { number < 2 ^ 31 }
    ensures text { IfOk result (λ script. script.items ≡ sample_text number) }
    ensures lines { IfOk result (λ script. SpellSample number (script_lines script.items)) }
{
    let mut text = Vec::new(alloc);
    let mut names = Names::new();
    let declared = Event::Disk(DECLARED);
    push_line(&mut text, &declared, &names)?;
    names.note(&declared);
    push_drawn_lines(&mut text, number, &names)?;
    push_line(&mut text, &Event::Settle, &names)?;
    Bytes::from_slice(alloc, &text)
}

/// Puts the lines that are made from draws.
fn push_drawn_lines(text: &mut Vec<u8>, number: u32, names: &Names) -> Result<(), NoMemory>
    requires number { number < 2 ^ 31 }
    requires names { names.now ≡ sample_names false }
    ensures { OnOk result (text.new.items ≡ text.old.items ++ fed (map sample_line (drawn_events number 4000))) }
{
    let mut draw = number;
    for _ in 0..LINES {
        let first = next_draw(draw);
        draw = next_draw(first);
        push_line(text, &drawn_event(first, draw), names)?;
    }
    Ok(())
}

/// Puts the one line of an event, and a line feed.
fn push_line(text: &mut Vec<u8>, event: &Event, names: &Names) -> Result<(), NoMemory>
    requires { CanPrint names.now event.now }
    ensures { OnOk result (text.new.items ≡ text.old.items ++ (line_text names.now event.now ++ 10 ∷ [])) }
{
    let mut line = [0; 3100];
    let len = print(event, names, &mut line);
    text.extend_from_slice(&line[..len])?;
    text.push(b'\n')?;
    Ok(())
}

/// The draw after this one.
fn next_draw(draw: u32) -> u32
    requires { draw < 2 ^ 31 }
    ensures draw { result ≡ next_draw draw }
    ensures below { result < 2 ^ 31 }
{
    ((1_103_515_245 * u64::from(draw) + 12_345) % 2_147_483_648) as u32
}

/// The event of a line that takes these two draws.
fn drawn_event(first: u32, second: u32) -> Event
    ensures { result ≡ drawn_event first second }
{
    let turns = turns_of(second);
    match first / 65_536 % 8 {
        0..=2 => Event::Issue {
            disk: DISK,
            request: Request::Write {
                block: block_of(second),
                count: blocks_of(first),
                fill: one_byte((second / 256 % 256) as u8),
            },
        },
        3 | 4 => Event::Issue {
            disk: DISK,
            request: Request::Read {
                block: block_of(second),
                count: blocks_of(first),
            },
        },
        5 => Event::Step {
            end: CLIENT,
            count: turns,
        },
        6 => Event::Step {
            end: SERVER,
            count: turns,
        },
        _ => disturbance(second / 65_536 % 8, turns),
    }
}

/// How many blocks a request has, by the first draw; where it begins, and how many steps or rounds a line has, by the
/// second.
fn blocks_of(first: u32) -> u64
    ensures { result ≡ blocks_of first }
{
    1 + u64::from(first / 1_048_576 % 64)
}

fn block_of(second: u32) -> u64
    ensures { result ≡ block_of second }
{
    u64::from(second / 65_536 % 960)
}

fn turns_of(second: u32) -> u32
    ensures { result ≡ turns_of second }
{
    1 + second / 65_536 % 16
}

/// A word of one byte.
fn one_byte(byte: u8) -> Fill
    ensures { result ≡ one_byte byte }
{
    let mut bytes = [0; 1024];
    bytes[0] = byte;
    Fill { len: 1, bytes }
}

/// What disturbs the disk, or else rounds.
fn disturbance(kind: u32, turns: u32) -> Event
    ensures { result ≡ disturbance kind turns }
{
    match kind {
        0 => Event::Reset { end: CLIENT },
        1 => Event::Restart { end: SERVER },
        2 => Event::Lose { end: CLIENT },
        _ => Event::Round { count: turns },
    }
}
