ghost use Rattle.std.specs.Prelude.{◌≡◌, ◌^◌, ◌-◌, ◌<◌, IfOk};
ghost use Rattle.ldc_queue.specs.Wire.{peer_of};
ghost use Rattle.lane_models.specs.NetEvent.{Asked, Gives, Joins, Steps};
ghost use Rattle.lane_models.specs.NetLaneState.{fresh_net, IsNetShape, net_end};
ghost use Rattle.lane_models.specs.NetLaneStep.{is_finished, NetLaneStep};
ghost use Rattle.lane_models.specs.NetReached.{NetReached};
ghost use Rattle.vnet_port.specs.Calls.{given, joining};
ghost use Rattle.vnet_port.specs.Stepping.{net_answer, TellsLength};
ghost use Rattle.net_lane.specs.Events.{injected_event, lost_event, next_behind, poked_event, ticked_event, SameIds};

use crate::port_ends::PortEnds;
use ldc_queue::{End, PutFault};
use std::alloc::Global;
use std::marker::Model;
use vio_bytes::NoMemory;
use vnet_port::{GroupsFull, NetEnd, NetOut, SendFault};

/// A network port with both its ends: a guest's and the switch's on one channel, the memory of each, and the tables
/// that grant each page of it to the other end. What always holds of a lane is that some calls led there from a fresh
/// one; the laws of such lanes stand in `port_laws`.
#[derive(Drop)]
pub struct NetLane {
    ends: PortEnds,
}

impl Model for NetLane {
    ghost use Rattle.lane_models.specs.NetLaneState.{NetLaneState};
    ghost use Rattle.lane_models.specs.NetReached.{NetReached};

    ghost Value = { NetLaneState };

    ghost view = { λ l. l.ends };

    ghost invariant = { λ l. NetReached l.ends };
}

impl NetLane {
    /// The lane of the port with this address, with rings of so many slots, 2 to 64, and queues of so many entries, 8
    /// to 256, both powers of two. No end is configured, and nothing was given. The one refusal is for want of memory.
    pub fn new(
        alloc: Global,
        address: [u8; 6],
        slots: u32,
        entries: u32,
    ) -> Result<NetLane, NoMemory>
        requires { IsNetShape (record { address = address; slots = slots; entries = entries }) }
        ensures { IfOk result (λ lane. lane ≡ fresh_net (record { address = address; slots = slots; entries = entries })) }
    {
        Ok(NetLane {
            ends: PortEnds::new(alloc, address, slots, entries)?,
        })
    }

    /// Makes one step of an end. The end shows the frame that it took.
    pub fn step(&mut self, end: End) -> NetOut
        ensures step { NetLaneStep self.old (Steps end (net_answer result (net_end end self.new).last)) self.new }
        ensures count { TellsLength result (net_end end self.new).last }
        ensures ids { SameIds self.old self.new }
    {
        let mut out = NetOut::Idle;
        self.step_into(end, &mut out);
        out
    }

    /// The same, whose answer is written into the caller's, so that it isn't copied from function to function.
    pub fn step_into(&mut self, end: End, out: &mut NetOut)
        ensures step { NetLaneStep self.old (Steps end (net_answer out.new (net_end end self.new).last)) self.new }
        ensures count { TellsLength out.new (net_end end self.new).last }
        ensures ids { SameIds self.old self.new }
    {
        self.ends.step_into(end, out);
    }

    /// Resets an end, which begins anew, and answers how many frames are lost.
    pub fn reset(&mut self, end: End) -> u32
        ensures step { NetLaneStep self.old (Asked end result) self.new }
        ensures ids { SameIds self.old self.new }
    {
        self.ends.reset(end)
    }

    /// Gives an end a frame, which is held last, and answers its id: 0, 1, 2 and so on. Else nothing changes, and the
    /// answer is `Length` where it hasn't 14 to 1,514 bytes, and else `Full`, where as many are held as the ring has
    /// slots.
    pub fn send(&mut self, end: End, frame: &[u8]) -> Result<u64, SendFault>
        requires few { (net_end end self.old).next_id < 2 ^ 64 - 1 }
        ensures step { NetLaneStep self.old (Gives end (given result frame.now)) self.new }
        ensures ids { (net_end end self.new).next_id ≡ next_behind result (net_end end self.old).next_id }
        ensures other_ids { (net_end (peer_of end) self.new).next_id ≡ (net_end (peer_of end) self.old).next_id }
    {
        self.ends.send(end, frame)
    }

    /// Puts a group's address last into the guest's list, which is told to the switch. The answer is false where it is
    /// in the list. `GroupsFull` comes where it isn't, and seven others are. Then nothing changes.
    pub fn join_group(&mut self, address: [u8; 6]) -> Result<bool, GroupsFull>
        ensures step { NetLaneStep self.old (Joins (joining result address)) self.new }
        ensures ids { SameIds self.old self.new }
    {
        self.ends.join_group(address)
    }

    /// Nothing comes any more, and so many frames stand in the port's out queue: resets a guest's end that isn't
    /// finished, and answers how many frames are lost. `None` where the port is finished.
    pub fn tick(&mut self, queued: u32) -> Option<u32>
        ensures step { NetLaneStep self.old (ticked_event queued result) self.new }
        ensures ids { SameIds self.old self.new }
    {
        self.ends.tick(queued)
    }

    /// Loses the packet that has waited longest for an end. `None` where none waits.
    pub fn lose(&mut self, end: End) -> Option<[u8; 64]>
        ensures step { NetLaneStep self.old (lost_event end result) self.new }
        ensures ids { SameIds self.old self.new }
    {
        self.ends.lose(end)
    }

    /// Makes a packet wait last for an end, though the other end never put it. Refused where the end isn't `Up`, and
    /// where its queue is full.
    pub fn inject(&mut self, end: End, packet: &[u8; 64]) -> Result<(), PutFault>
        ensures step { NetLaneStep self.old (injected_event end packet.now result) self.new }
        ensures ids { SameIds self.old self.new }
    {
        self.ends.inject(end, packet)
    }

    /// Writes bytes into the memory of an end, though the end never wrote them. False where they don't lie within it:
    /// then nothing changes.
    pub fn poke(&mut self, end: End, at: u64, bytes: &[u8]) -> bool
        ensures step { NetLaneStep self.old (poked_event end at bytes.now result) self.new }
        ensures ids { SameIds self.old self.new }
    {
        self.ends.poke(end, at, bytes)
    }

    /// Whether the guest is in session and told its groups, which was answered, and no frame is left: at neither end,
    /// nor in the out queue, where so many stand.
    pub fn finished(&self, queued: u32) -> bool
        ensures { result ≡ is_finished self.now queued }
    {
        self.ends.finished(queued)
    }

    /// Tells that some calls led here from a fresh lane, whose laws stand in `port_laws`: they hold of this lane where
    /// this was called. It does nothing.
    pub fn reached(&self)
        ensures { NetReached self.now }
    {
        let _ = &self.ends;
    }

    /// The address of the port.
    pub fn address(&self) -> [u8; 6]
        ensures { result ≡ self.now.shape.address }
    {
        self.ends.address()
    }

    /// The guest's end, to be looked at.
    pub fn guest(&self) -> &NetEnd
        ensures { result.now ≡ self.now.guest }
    {
        self.ends.guest()
    }

    /// The switch's end, to be looked at.
    pub fn hub(&self) -> &NetEnd
        ensures { result.now ≡ self.now.hub }
    {
        self.ends.hub()
    }
}
