// The frames, by their shape.

use std::alloc::Global;
use vio_bytes::NoMemory;
use vnet_switch::Switch;

/// What comes: its destination, and how many bytes it has.
#[derive(Clone, Copy)]
pub struct Shape {
    destination: [u8; 6],
    length: usize,
}

impl Shape {
    /// The shape of these words.
    pub fn of(words: &str) -> Option<Shape> {
        let (cast, length) = words.split_once(' ')?;
        let destination = match cast {
            "broadcast" => [0xff; 6],
            "unicast" => address_of(1),
            _ => return None,
        };
        let length = match length {
            "64" => 64,
            "1514" => 1514,
            _ => return None,
        };
        Some(Shape {
            destination,
            length,
        })
    }
}

/// The ports of the switch, of two frames each.
const ROOMS: [u32; 8] = [2; 8];

/// Lets so many frames come, one after the other, and tells how many were taken.
pub fn run(alloc: Global, shape: Shape, count: u32) -> Result<u64, NoMemory> {
    let mut switch = Switch::new(alloc, &ROOMS)?;
    for port in 0..8 {
        open(&mut switch, port);
    }
    let mut frame = vec![in alloc; 7; shape.length]?;
    if frame.len() >= 6 {
        frame[..6].copy_from_slice(&shape.destination);
    }
    Ok(repeat(&mut switch, &frame, count))
}

// The address of a port.
fn address_of(port: u8) -> [u8; 6] {
    [2, 0, 0, 0, 0, port]
}

// Opens the session of a port.
fn open(switch: &mut Switch, port: u8) {
    let address = address_of(port);
    if u32::from(port) < switch.ports() && switch.port_of(&address).is_none() {
        switch.set_port(u32::from(port), Some(address), &[]);
    }
}

fn repeat(switch: &mut Switch, frame: &[u8], count: u32) -> u64 {
    let mut buffer = [0; 1514];
    let mut taken = 0u64;
    for _ in 0..count {
        taken = taken.saturating_add(forward(switch, frame, &mut buffer));
    }
    taken
}

// One frame from port 0 to those that it is for.
fn forward(switch: &mut Switch, frame: &[u8], buffer: &mut [u8; 1514]) -> u64 {
    if switch.ports() == 0 || frame.len() < 14 || frame.len() > 1514 {
        return 0;
    }
    switch.accept(0, frame);
    let mut taken = 0u64;
    for port in 0..switch.ports() {
        if port < switch.ports() && switch.next(port, buffer).is_some() {
            taken = taken.saturating_add(1);
        }
    }
    taken
}
