// An end is reset after some of a port's first steps, and the port goes on.

use crate::ports::{Port, in_turn};
use ldc_queue::End;
use net_lane::NetOut;
use std::alloc::Global;

/// The slots of each ring, and the frames that each end is given.
const SLOTS: u32 = 4;

/// The length of a frame is its number and this.
const LEAST: u32 = 14;

/// After so many steps more a port rests.
const ENOUGH: u32 = 400;

/// What an end did since it was made.
#[derive(Clone, Copy)]
struct Course {
    /// The frames that it took.
    taken: u32,
    /// The least number of the next one.
    least: u32,
    /// Its own that were lost.
    lost: u32,
    /// It never took a frame twice or before an earlier one, and no step reset it.
    orderly: bool,
}

impl Course {
    fn new() -> Course {
        Course {
            taken: 0,
            least: 0,
            lost: 0,
            orderly: true,
        }
    }

    fn note(&mut self, out: &NetOut) {
        match out {
            NetOut::Frame { len } => self.note_frame(len.saturating_sub(LEAST)),
            NetOut::Joined { lost } => self.note_lost(*lost),
            NetOut::Reset { .. } => self.orderly = false,
            _ => {}
        }
    }

    fn note_frame(&mut self, number: u32) {
        if number < self.least {
            self.orderly = false;
        }
        self.taken = self.taken.saturating_add(1);
        self.least = number.saturating_add(1);
    }

    fn note_lost(&mut self, lost: u32) {
        self.lost = self.lost.saturating_add(lost);
    }
}

/// A port and what its ends did.
#[derive(Drop)]
struct Watched {
    port: Port,
    guest: Course,
    hub: Course,
}

impl Watched {
    fn new(alloc: Global) -> Option<Watched> {
        let mut port = Port::new(alloc, SLOTS)?;
        give(&mut port)?;
        Some(Watched {
            port,
            guest: Course::new(),
            hub: Course::new(),
        })
    }

    fn steps(&mut self, count: u32) {
        for k in 0..count {
            self.step(in_turn(k));
        }
    }

    fn step(&mut self, end: End) {
        let out = self.port.step_end(end);
        match end {
            End::A => self.guest.note(&out),
            End::B => self.hub.note(&out),
        }
    }

    fn reset(&mut self, end: End) {
        let lost = self.port.reset_end(end);
        match end {
            End::A => self.guest.note_lost(lost),
            End::B => self.hub.note_lost(lost),
        }
    }

    // Whether all goes on well where an end is reset after so many steps.
    fn goes_on(&mut self, end: End, before: u32) -> bool {
        self.steps(before);
        self.reset(end);
        self.steps(ENOUGH);
        self.is_well()
    }

    // The port rests, and each frame was taken or lost.
    fn is_well(&self) -> bool {
        self.port.rests()
            && self.guest.orderly
            && self.hub.orderly
            && self.guest.taken.saturating_add(self.hub.lost) >= SLOTS
            && self.hub.taken.saturating_add(self.guest.lost) >= SLOTS
    }
}

// Gives each end its frames.
fn give(port: &mut Port) -> Option<()> {
    for number in 0..SLOTS {
        let count = (LEAST + number) as usize;
        let _at_guest = port.sends(End::A, count, 0xa0)?;
        let _at_hub = port.sends(End::B, count, 0xb0)?;
    }
    Some(())
}

/// After how many numbers of steps, from none on and below a count, an end may be reset so that all goes on well behind
/// it: both sessions open again, and each frame is taken once and in order, or told as lost.
pub fn went_on(alloc: Global, end: End, count: u32) -> Option<u32> {
    let mut well = 0_u32;
    for before in 0..count {
        let mut watched = Watched::new(alloc)?;
        well = well.saturating_add(u32::from(watched.goes_on(end, before)));
    }
    Some(well)
}
