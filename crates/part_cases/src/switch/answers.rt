// The answers of a switch, compared.

use crate::switch::call::Call;
use std::alloc::Global;
use vnet_switch::{Switch, Switched};

// A byte of the buffer that isn't written.
const REST: u8 = 0x5a;

/// Whether the switch gives the answer of a call. A call that it doesn't allow isn't made.
pub fn agrees(alloc: Global, switch: &mut Switch, call: &Call) -> bool {
    match call {
        Call::Switch(rooms) => made(alloc, switch, rooms),
        Call::Port {
            port,
            address,
            groups,
        } => set(switch, *port, *address, groups),
        Call::Owner { address, port } => switch.port_of(address) == *port,
        Call::For {
            destination,
            from,
            set,
        } => goes_to(switch, destination, *from, *set),
        Call::Accept {
            from,
            frame,
            switched,
        } => accepts(switch, *from, frame, *switched),
        Call::Next { port, frame } => gives(switch, *port, frame),
        Call::Queued { port, count } => queues(switch, *port, *count),
        Call::Kept(count) => switch.kept() == *count as usize,
    }
}

// A new switch, in the place of the old one.
fn made(alloc: Global, switch: &mut Switch, rooms: &[u32]) -> bool {
    if rooms.len() > 32 {
        return false;
    }
    match Switch::new(alloc, rooms) {
        Ok(new) => {
            *switch = new;
            true
        }
        Err(_) => false,
    }
}

fn set(switch: &mut Switch, port: u32, address: Option<[u8; 6]>, groups: &[[u8; 6]]) -> bool {
    if port >= switch.ports() || groups.len() > 7 {
        return false;
    }
    if let Some(own) = &address {
        if let Some(other) = switch.port_of(own) {
            if other != port {
                return false;
            }
        }
    }
    switch.set_port(port, address, groups);
    true
}

fn goes_to(switch: &Switch, destination: &[u8; 6], from: u32, set: u32) -> bool {
    from < switch.ports() && switch.ports_for(destination, from) == set
}

fn accepts(switch: &mut Switch, from: u32, frame: &[u8], switched: Switched) -> bool {
    if from >= switch.ports() || frame.len() < 14 || frame.len() > 1514 {
        return false;
    }
    switch.accept(from, frame) == switched
}

// The bytes past the frame must stay.
fn gives(switch: &mut Switch, port: u32, frame: &Option<Vec<u8>>) -> bool {
    if port >= switch.ports() {
        return false;
    }
    let mut buffer = [REST; 1514];
    match (switch.next(port, &mut buffer), frame) {
        (Some(count), Some(frame)) => count == frame.len() && begins_with(&buffer, frame),
        (None, None) => begins_with(&buffer, &[]),
        _ => false,
    }
}

// The frame, and then nothing that was written.
fn begins_with(buffer: &[u8], frame: &[u8]) -> bool {
    buffer.starts_with(frame) && buffer[frame.len()..].iter().all(|byte| *byte == REST)
}

fn queues(switch: &Switch, port: u32, count: u32) -> bool {
    port < switch.ports() && switch.queued(port) == count
}
