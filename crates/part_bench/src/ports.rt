// Two ports, and what carries frames from one's end at the switch to the other's.

ghost use Rattle.std.specs.Prelude.{◌≤◌};
ghost use Rattle.net_lane.specs.NetLaneState.{IsNetShape};

use net_lane::{End, NetLane, NetOut};
use std::alloc::Global;
use vio_bytes::NoMemory;

/// The slots of each ring.
const SLOTS: u32 = 64;

/// The packets for which a queue has room.
const ENTRIES: u32 = 64;

/// More rounds than any frames between two settles take.
const ROUNDS: u32 = 100_000;

/// The first port's address.
pub const FIRST: [u8; 6] = [2, 0, 0, 0, 0, 1];

/// The second port's.
pub const SECOND: [u8; 6] = [2, 0, 0, 0, 0, 2];

/// A port, and how many frames each of its ends was given at most.
#[derive(Drop)]
pub struct Port {
    lane: NetLane,
    given: u64,
    ghost guest_ids: { lane.guest.next_id ≤ given },
    ghost hub_ids: { lane.hub.next_id ≤ given },
}

/// What a round came to.
#[derive(Drop)]
struct Round {
    /// No end did anything.
    quiet: bool,
    /// The guest took a frame.
    taken: bool,
}

impl Port {
    fn new(alloc: Global, address: [u8; 6]) -> Result<Port, NoMemory>
        requires { IsNetShape (record { address = address; slots = 64; entries = 64 }) }
    {
        let lane = NetLane::new(alloc, address, SLOTS, ENTRIES)?;
        Ok(Port { lane, given: 0 })
    }

    /// Gives an end a frame, which it refuses where it holds as many as its ring has slots.
    fn send(&mut self, end: End, frame: &[u8]) {
        if let Some(given) = self.given.checked_add(1) {
            self.given = given;
            let _id = self.lane.send(end, frame);
        }
    }

    /// One step of each end. The frame that the end at the switch took goes to the other port.
    fn round(&mut self, other: &mut Port) -> Round {
        let mut guest = NetOut::Idle;
        let mut hub = NetOut::Idle;
        self.lane.step_into(End::A, &mut guest);
        self.lane.step_into(End::B, &mut hub);
        if is_frame(&hub) {
            other.send(End::B, self.lane.hub().frame());
        }
        Round {
            quiet: matches!(guest, NetOut::Idle) && matches!(hub, NetOut::Idle),
            taken: is_frame(&guest),
        }
    }
}

fn is_frame(out: &NetOut) -> bool {
    matches!(out, NetOut::Frame { .. })
}

/// Both ports.
#[derive(Drop)]
pub struct Ports {
    first: Port,
    second: Port,
}

#[tactic(auto, using(crate::proofs::LaneShape::of_first, crate::proofs::LaneShape::of_second))]
impl Ports {
    /// Ports whose ends aren't configured yet.
    pub fn new(alloc: Global) -> Result<Ports, NoMemory> {
        Ok(Ports {
            first: Port::new(alloc, FIRST)?,
            second: Port::new(alloc, SECOND)?,
        })
    }

    /// Gives a frame to the first guest, or to the second.
    pub fn send(&mut self, first: bool, frame: &[u8]) {
        let port = if first {
            &mut self.first
        } else {
            &mut self.second
        };
        port.send(End::A, frame);
    }

    /// Rounds of both ports until all ends rest, and how many frames the guests took in them.
    pub fn settle(&mut self) -> u64
        ensures { result ≤ 200000 }
    {
        let mut taken = 0;
        for _ in 0..ROUNDS {
            let first = self.first.round(&mut self.second);
            let second = self.second.round(&mut self.first);
            if first.quiet && second.quiet {
                break;
            }
            taken += first.taken as u64 + second.taken as u64;
        }
        taken
    }
}
