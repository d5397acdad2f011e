// Which frames are sent.

ghost use Rattle.std.specs.Prelude.{◌≤◌};

use crate::ports::{FIRST, Ports, SECOND};
use std::alloc::Global;
use vio_bytes::NoMemory;

/// The fewest bytes of a frame.
const LEAST: usize = 14;

/// The most bytes of a frame.
const MOST: usize = 1514;

/// As many frames between one settle and the next.
const TOGETHER: u32 = 32;

/// The frames of a run.
#[derive(Clone, Copy)]
pub struct Shape {
    /// Both guests send in turn.
    both_ways: bool,
    /// How many bytes each frame has.
    length: usize,
    ghost few: { length ≤ 1514 },
}

impl Shape {
    /// The shape of these words: how many ways, and the bytes of a frame, 14 to 1,514.
    pub fn of(words: &str) -> Option<Shape> {
        let (ways, length) = words.split_once(' ')?;
        let both_ways = match ways {
            "one-way" => false,
            "both-ways" => true,
            _ => return None,
        };
        let length = length.parse::<usize>().ok()?;
        if length < LEAST || MOST < length {
            return None;
        }
        Some(Shape { both_ways, length })
    }
}

/// A frame of the most bytes between two addresses, whose other bytes count up.
fn frame(to: [u8; 6], from: [u8; 6]) -> [u8; MOST] {
    let mut bytes = [0; MOST];
    for k in 0..6 {
        bytes[k] = to[k];
        bytes[6 + k] = from[k];
    }
    for k in 12..MOST {
        bytes[k] = (k % 256) as u8;
    }
    bytes
}

/// Sends so many frames, and tells how many were taken.
pub fn run(alloc: Global, shape: Shape, count: u32) -> Result<u64, NoMemory> {
    let mut ports = Ports::new(alloc)?;
    let there = frame(SECOND, FIRST);
    let back = frame(FIRST, SECOND);
    let mut taken = ports.settle();
    for k in 0..count {
        if shape.both_ways && k % 2 == 1 {
            ports.send(false, &back[..shape.length]);
        } else {
            ports.send(true, &there[..shape.length]);
        }
        if k % TOGETHER == TOGETHER - 1 {
            taken += ports.settle();
        }
    }
    Ok(taken + ports.settle())
}
