// A port's lane, both ends of which are called through it.

ghost use Rattle.std.specs.Prelude.{◌≡◌, ◌≤◌, IfSome};

use crate::answers::net_text;
use crate::cases::Stage;
use crate::digits::{packet, shown, word_of};
use crate::ports::{asked, at_end, in_turn};
use net_lane::{End, NetLane, NetOut};
use std::alloc::Global;

/// The lane, and how many frames its ends were given at most.
#[derive(Drop)]
pub struct Lane {
    lane: NetLane,
    given: u64,
    ghost guest_ids: { lane.guest.next_id ≤ given },
    ghost hub_ids: { lane.hub.next_id ≤ given },
}

/// The address of each port.
const ADDRESS: [u8; 6] = [0, 0x14, 0x4f, 0xf8, 0, 1];

/// So many steps of both ends, in turn, open their sessions and end what a guest tells.
const STEPS: u32 = 64;

impl Stage for Lane {
    // `lane`.
    fn begin(alloc: Global, words: &[&str]) -> Option<Lane> {
        match words {
            ["lane"] => Lane::new(alloc),
            _ => None,
        }
    }

    fn step(&mut self, alloc: Global, words: &[&str], _wanted: &str) -> Option<String> {
        match words {
            ["steps"] => shown(alloc, &self.steps()),
            [end] => net_text(alloc, &self.lane.step(at_end(end)?)),
            ["finished", queued] => self.finished(alloc, queued),
            ["ticks", queued] => shown(alloc, &self.lane.tick(queued.parse::<u32>().ok()?)),
            [end, call] => self.called(alloc, end, call),
            ["guest", "joins", address] => shown(alloc, &self.lane.join_group(packet(address)?)),
            [end, "hears", bytes] => self.hears(alloc, end, bytes),
            [end, "sends", count, byte] => self.sent(alloc, end, count, byte),
            [end, "finds", at, byte] => self.finds(alloc, end, at, byte),
            _ => None,
        }
    }
}

#[tactic(auto, using(crate::proofs::Shapes::of_eight))]
impl Lane {
    // With rings of 8 slots and queues of 16 packets. There is ample memory.
    fn new(alloc: Global) -> Option<Lane> {
        let lane = NetLane::new(alloc, ADDRESS, 8, 16).ok()?;
        Some(Lane { lane, given: 0 })
    }

    // Whether both sessions are open behind steps of both ends.
    fn steps(&mut self) -> bool {
        let mut out = NetOut::Idle;
        for k in 0..STEPS {
            self.lane.step_into(in_turn(k), &mut out);
        }
        self.lane.reached();
        self.lane.guest().in_session() && self.lane.hub().in_session()
    }

    fn finished(&self, alloc: Global, queued: &str) -> Option<String> {
        shown(alloc, &self.lane.finished(queued.parse::<u32>().ok()?))
    }

    // A call of an end without an argument.
    fn called(&mut self, alloc: Global, end: &str, call: &str) -> Option<String> {
        let at = at_end(end)?;
        match (call, at) {
            ("resets", _) => shown(alloc, &self.lane.reset(at)),
            ("loses", _) => lost_text(alloc, self.lane.lose(at)),
            (_, End::A) => asked(alloc, self.lane.guest(), call),
            (_, End::B) => asked(alloc, self.lane.hub(), call),
        }
    }

    // A packet waits for an end that the other never put.
    fn hears(&mut self, alloc: Global, end: &str, bytes: &str) -> Option<String> {
        shown(
            alloc,
            &self.lane.inject(at_end(end)?, &packet::<64>(bytes)?),
        )
    }

    // A byte stands in an end's memory that the end never wrote.
    fn finds(&mut self, alloc: Global, end: &str, at: &str, byte: &str) -> Option<String> {
        let bytes: [u8; 1] = packet(byte)?;
        shown(
            alloc,
            &self
                .lane
                .poke(at_end(end)?, at.parse::<u64>().ok()?, &bytes),
        )
    }

    // So many times a byte is a frame.
    fn sent(&mut self, alloc: Global, end: &str, count: &str, byte: &str) -> Option<String> {
        let [byte]: [u8; 1] = packet(byte)?;
        let frame = [byte; 1515];
        let frame = frame.get(..count.parse::<usize>().ok()?)?;
        self.given = self.given.checked_add(1)?;
        shown(alloc, &self.lane.send(at_end(end)?, frame))
    }
}

fn lost_text(alloc: Global, lost: Option<[u8; 64]>) -> Option<String> {
    match lost {
        Some(packet) => word_of(alloc, &packet),
        None => String::from_str(alloc, "none").ok(),
    }
}
