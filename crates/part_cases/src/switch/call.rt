// The lines of a table of calls.

use hex::FromHex;
use std::alloc::Global;
use vnet_switch::Switched;

/// A call of a switch, with its answer.
#[derive(Drop)]
pub enum Call {
    /// A new switch, with the rooms of its ports.
    Switch(Vec<u32>),
    /// A port's session.
    Port {
        port: u32,
        address: Option<[u8; 6]>,
        groups: Vec<[u8; 6]>,
    },
    /// Which port has an address.
    Owner {
        address: [u8; 6],
        port: Option<u32>,
    },
    /// The set of ports for a destination.
    For {
        destination: [u8; 6],
        from: u32,
        set: u32,
    },
    /// A frame that comes.
    Accept {
        from: u32,
        frame: Vec<u8>,
        switched: Switched,
    },
    /// A frame that is taken.
    Next {
        port: u32,
        frame: Option<Vec<u8>>,
    },
    /// How many frames wait.
    Queued {
        port: u32,
        count: u32,
    },
    /// How many frames are kept.
    Kept(u32),
}

impl Call {
    /// That of a line.
    pub fn of(alloc: Global, line: &str) -> Option<Call> {
        let (kind, rest) = first_of(line);
        match kind {
            "switch" => Some(Call::Switch(rooms_of(alloc, rest)?)),
            "port" => port_of(alloc, rest),
            "owner" => owner_of(rest),
            "for" => for_of(rest),
            "accept" => accept_of(alloc, rest),
            "next" => next_of(alloc, rest),
            "queued" => queued_of(rest),
            "kept" => Some(Call::Kept(number(rest)?)),
            _ => None,
        }
    }
}

// The first word, and what follows it.
fn first_of(text: &str) -> (&str, &str) {
    match text.split_once(' ') {
        Some(parts) => parts,
        None => (text, ""),
    }
}

fn number(word: &str) -> Option<u32> {
    word.parse::<u32>().ok()
}

fn address_of(word: &str) -> Option<[u8; 6]> {
    <[u8; 6] as FromHex>::from_hex(word).ok()
}

fn rooms_of(alloc: Global, text: &str) -> Option<Vec<u32>> {
    let mut rooms = Vec::new(alloc);
    for word in text.split(' ') {
        rooms.push(number(word)?).ok()?;
    }
    Some(rooms)
}

fn port_of(alloc: Global, text: &str) -> Option<Call> {
    let (port, rest) = first_of(text);
    let (address, rest) = first_of(rest);
    let mut groups = Vec::new(alloc);
    if !rest.is_empty() {
        for word in rest.split(' ') {
            groups.push(address_of(word)?).ok()?;
        }
    }
    let address = match address {
        "-" => None,
        word => Some(address_of(word)?),
    };
    Some(Call::Port {
        port: number(port)?,
        address,
        groups,
    })
}

fn owner_of(text: &str) -> Option<Call> {
    let (address, port) = first_of(text);
    let port = match port {
        "-" => None,
        word => Some(number(word)?),
    };
    Some(Call::Owner {
        address: address_of(address)?,
        port,
    })
}

fn for_of(text: &str) -> Option<Call> {
    let (destination, rest) = first_of(text);
    let (from, set) = first_of(rest);
    Some(Call::For {
        destination: address_of(destination)?,
        from: number(from)?,
        set: number(set)?,
    })
}

fn accept_of(alloc: Global, text: &str) -> Option<Call> {
    let (from, rest) = first_of(text);
    let (frame, rest) = first_of(rest);
    let (out, full) = first_of(rest);
    Some(Call::Accept {
        from: number(from)?,
        frame: frame_of(alloc, frame)?,
        switched: Switched {
            out: number(out)?,
            full: number(full)?,
        },
    })
}

fn next_of(alloc: Global, text: &str) -> Option<Call> {
    let (port, frame) = first_of(text);
    let frame = match frame {
        "-" => None,
        word => Some(frame_of(alloc, word)?),
    };
    Some(Call::Next {
        port: number(port)?,
        frame,
    })
}

fn queued_of(text: &str) -> Option<Call> {
    let (port, count) = first_of(text);
    Some(Call::Queued {
        port: number(port)?,
        count: number(count)?,
    })
}

// The bytes of a frame, in digits or as `DIGITS+LENGTH`.
fn frame_of(alloc: Global, word: &str) -> Option<Vec<u8>> {
    let Some((digits, length)) = word.split_once('+') else {
        return hex::decode(alloc, word).ok();
    };
    let mut frame = hex::decode(alloc, digits).ok()?;
    for place in frame.len()..number(length)? as usize {
        frame.push((place % 251) as u8).ok()?;
    }
    Some(frame)
}
