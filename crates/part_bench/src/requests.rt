// What the lane is asked for, by its shape.

ghost use Rattle.std.specs.Prelude.{IfSome};
ghost use Rattle.vdisk_msg.specs.Fills.{IsRequest};

use crate::lane::{BLOCKS, Lane};
use std::alloc::Global;
use vdisk_msg::{Fill, Request};
use vio_bytes::NoMemory;

/// The requests, each like the others but for its block.
#[derive(Clone, Copy)]
pub enum Shape {
    /// Writes of one block.
    Writes,
    /// Writes of 64 blocks.
    LargeWrites,
    /// Reads of 64 blocks.
    LargeReads,
    /// None: both ends rest.
    Idle,
}

impl Shape {
    /// The shape of this name.
    pub fn of(name: &str) -> Option<Shape> {
        match name {
            "writes" => Some(Shape::Writes),
            "large-writes" => Some(Shape::LargeWrites),
            "large-reads" => Some(Shape::LargeReads),
            "idle" => Some(Shape::Idle),
            _ => None,
        }
    }

    fn request(self, k: u32) -> Option<Request>
        ensures { IfSome result (λ request. IsRequest request) }
    {
        match self {
            Shape::Writes => Some(write(k as u64 % BLOCKS, 1)),
            Shape::LargeWrites => Some(write(64 * (k as u64 % (BLOCKS / 64)), 64)),
            Shape::LargeReads => Some(Request::Read {
                block: 64 * (k as u64 % (BLOCKS / 64)),
                count: 64,
            }),
            Shape::Idle => None,
        }
    }
}

/// A write whose word is the one byte 0xab.
pub fn write(block: u64, count: u64) -> Request
    ensures { IsRequest result }
{
    let mut bytes = [0; 1024];
    bytes[0] = 0xab;
    let fill = Fill { len: 1, bytes };
    Request::Write { block, count, fill }
}

/// As many requests between one `settle` and the next.
const TOGETHER: u32 = 32;

/// Asks for so many requests, or makes so many rounds, and tells how many requests succeeded.
pub fn run(alloc: Global, shape: Shape, count: u32) -> Result<u64, NoMemory> {
    let mut lane = Lane::new(alloc)?;
    let mut done = lane.settle();
    for k in 0..count {
        match shape.request(k) {
            Some(request) => lane.ask(&request),
            None => {
                let _quiet = lane.round();
            }
        }
        if k % TOGETHER == TOGETHER - 1 {
            done += lane.settle();
        }
    }
    Ok(done + lane.settle())
}
