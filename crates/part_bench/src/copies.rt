// The copies, by their shape.

ghost use Rattle.std.specs.Prelude.{◌≡◌, ◌≤◌, IfOk, length};
ghost use Rattle.cookie_copy.specs.Faults.{PagesWithin};
ghost use Rattle.part_bench.specs.Sizes.{memory_long};

use cookie_copy::{copy_in, copy_out};
use dom_memory::Memory;
use ldc_queue::{Channel, End};
use map_table::{MapTable, cookie_of};
use memory_grant::own_table;
use std::alloc::Global;
use vio_bytes::NoMemory;

/// What is copied, always 8 KiB.
#[derive(Clone, Copy)]
pub enum Shape {
    /// From one buffer to another.
    Plain,
    /// From four cookies to a buffer.
    In,
    /// From a buffer to four cookies.
    Out,
}

impl Shape {
    /// The shape of this name.
    pub fn of(name: &str) -> Option<Shape> {
        match name {
            "plain" => Some(Shape::Plain),
            "in" => Some(Shape::In),
            "out" => Some(Shape::Out),
            _ => None,
        }
    }
}

/// Makes so many copies, and tells how many succeeded.
pub fn run(alloc: Global, shape: Shape, count: u32) -> Result<u32, NoMemory>
    ensures { IfOk result (λ copies. copies ≤ count) }
{
    let mut channel = Channel::new(alloc, 8)?;
    channel.configure(End::A);
    channel.configure(End::B);
    let table = own_table(alloc, 4)?;
    let mut memory = Memory::new(alloc, 4)?;
    let from = vec![in alloc; 7; 8192]?;
    let mut to = vec![in alloc; 0; 8192]?;
    Ok(repeat(shape, count, &channel, &table, &mut memory, &from, &mut to))
}

fn repeat(
    shape: Shape,
    count: u32,
    channel: &Channel,
    table: &MapTable,
    memory: &mut Memory,
    from: &[u8],
    to: &mut [u8],
) -> u32
    requires within { PagesWithin table.now memory_long }
    requires pages { length memory.old ≡ memory_long }
    requires same { length to.old ≡ length from.now }
    ensures { result ≤ count }
{
    let mut copies = 0;
    for _ in 0..count {
        if copy(shape, channel, table, memory, from, to) {
            copies += 1;
        }
    }
    copies
}

/// One copy, through the middle of each page.
fn copy(
    shape: Shape,
    channel: &Channel,
    table: &MapTable,
    memory: &mut Memory,
    from: &[u8],
    to: &mut [u8],
) -> bool
    requires within { PagesWithin table.now memory_long }
    requires pages { length memory.old ≡ memory_long }
    requires same { length to.old ≡ length from.now }
    ensures same_pages { length memory.new ≡ memory_long }
{
    let cookies = [
        cookie_of(0, 4096, 2048),
        cookie_of(1, 4096, 2048),
        cookie_of(2, 4096, 2048),
        cookie_of(3, 4096, 2048),
    ];
    match shape {
        Shape::Plain => {
            to.copy_from_slice(from);
            true
        }
        Shape::In => copy_in(channel, End::B, table, memory, &cookies, 0, to).is_ok(),
        Shape::Out => copy_out(channel, End::B, table, memory, &cookies, 0, from).is_ok(),
    }
}
