// The next slot of the peer's ring is looked at, and its frame is taken.

ghost use Rattle.std.specs.Prelude.{◌≡◌, ◌<◌, [], length, IfOk};
ghost use Rattle.cookie_copy.specs.Faults.{PagesWithin};
ghost use Rattle.cookie_copy.specs.Reach.{copy_number};
ghost use Rattle.dring.specs.Reaching.{IsSlotOf};
ghost use Rattle.vnet_msg.specs.Frames.{header};
ghost use Rattle.lane_models.specs.Fetching.{copy_refused, fetched};
ghost use Rattle.lane_models.specs.NetEndState.{NetEndState, peer_ring};
ghost use Rattle.port_frames.specs.Fetches.{FrameOf, found_fault, found_of};
ghost use Rattle.port_frames.specs.Memories.{reach_over};

use crate::taken_frame::TakenFrame;
use cookie_copy::CopyFault;
use dom_memory::Memory;
use dring::{PeerRing, RingFault, VIO_DESC_DONE, fetch, mark};
use ldc_queue::{Channel, End};
use map_table::MapTable;
use std::alloc::Global;
use std::marker::Model;
use vio_bytes::{NoMemory, put_u8};
use vio_tag::Cause;
use vnet_msg::{SLOT, decode, holds_frame};

/// Why no frame was taken from a slot.
#[derive(Clone, Copy)]
pub enum SlotFault {
    /// It has this state, which isn't READY.
    NotReady(u8),
    /// The end resets itself for this.
    Refused(Cause),
}

/// The number of a copy's fault in the cause of a reset.
fn copy_number(fault: CopyFault) -> u8
    ensures { result ≡ copy_number fault }
{
    match fault {
        CopyFault::Channel => 1,
        CopyFault::BadAlign => 2,
        CopyFault::Short => 3,
        CopyFault::BadPage => 4,
        CopyFault::NoMap => 5,
        CopyFault::NoAccess => 6,
    }
}

fn copy_refused(fault: CopyFault) -> SlotFault
    ensures { found_fault result ≡ copy_refused fault }
{
    SlotFault::Refused(Cause::Copy(copy_number(fault)))
}

fn slot_fault(fault: RingFault) -> SlotFault
    ensures { found_fault result ≡ found_of fault }
{
    match fault {
        RingFault::Copy(fault) => copy_refused(fault),
        RingFault::NotReady(state) => SlotFault::NotReady(state),
    }
}

/// The header that is written once a frame was taken.
fn done_header(ack: u8) -> [u8; 8]
    ensures { result ≡ header 4 ack }
{
    let mut header = [0; 8];
    put_u8(&mut header, 0, VIO_DESC_DONE);
    put_u8(&mut header, 1, ack);
    header
}

/// The frame that an end took last, and room for the next.
#[derive(Drop)]
pub struct LastFrame {
    last: TakenFrame,
    spare: TakenFrame,
}

impl Model for LastFrame {
    ghost use Rattle.std.specs.Prelude.{ℕ, List};

    ghost Value = { List ℕ };

    ghost view = { λ f. f.last };
}

impl LastFrame {
    /// No byte yet.
    pub fn new(alloc: Global) -> Result<LastFrame, NoMemory>
        ensures { IfOk result (λ frame. frame ≡ []) }
    {
        let last = TakenFrame::new(alloc)?;
        let spare = TakenFrame::new(alloc)?;
        Ok(LastFrame { last, spare })
    }

    /// Takes the frame of a slot of the peer's ring, which is marked DONE, or tells why not. What is found is the same
    /// of every end whose peer has this ring.
    pub fn take(
        &mut self,
        channel: &Channel,
        end: End,
        table: &MapTable,
        peer: &mut Memory,
        ring: &PeerRing,
        slot: u32,
    ) -> Result<(), SlotFault>
        requires slot { IsSlotOf ring.now slot }
        requires pages { PagesWithin table.now (length peer.old) }
        ensures takes { (s : NetEndState) → ring.now ≡ peer_ring s
            → FrameOf result (fetched s (reach_over channel.now table.now peer.old) slot) self.old peer.old self.new peer.new }
        ensures same_length { length peer.new ≡ length peer.old }
    {
        let bytes = match fetch::<SLOT>(channel, end, table, peer, ring, slot) {
            Ok(bytes) => bytes,
            Err(fault) => return Err(slot_fault(fault)),
        };
        let desc = decode(&bytes);
        if !holds_frame(&desc) {
            return Err(SlotFault::Refused(Cause::Frame {
                size: desc.size,
                count: desc.count,
            }));
        }
        match self.spare.copy(channel, end, table, peer, &desc) {
            Ok(()) => {}
            Err(fault) => return Err(copy_refused(fault)),
        }
        match mark::<SLOT>(channel, end, table, peer, ring, slot, done_header(desc.ack)) {
            Ok(()) => {}
            Err(fault) => return Err(copy_refused(fault)),
        }
        std::mem::swap(&mut self.last, &mut self.spare);
        Ok(())
    }

    /// How many bytes it has.
    pub fn len(&self) -> u32
        ensures { result ≡ length self.now }
    {
        self.last.len()
    }

    /// Its bytes.
    pub fn bytes(&self) -> &[u8]
        ensures { result.now ≡ self.now }
    {
        self.last.bytes()
    }
}
