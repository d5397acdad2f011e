// Calls of a port that leave its end at the switch as it is.

ghost use Rattle.std.specs.Prelude.{◌≡◌, ◌-◌, ◌<◌, ◌^◌, length, OnErr};
ghost use Rattle.lane_kinds.specs.Lanes.{EntryOf};
ghost use Rattle.ldc_queue.specs.declared.end.End.TheVariants.{A};
ghost use Rattle.net_lane.specs.Calls.{given, joining};
ghost use Rattle.net_lane.specs.Events.{injected_event, lost_event, poked_event, ticked_event};
ghost use Rattle.port_laws.specs.NetEvent.{Gives, Joins};
ghost use Rattle.port_laws.specs.PortState.{OnLane};
ghost use Rattle.switch_laws.specs.Events.{OnPort};
ghost use Rattle.switch_laws.specs.Ports.{ports};
ghost use Rattle.switched_ports.specs.Given.{GivenBelow, GivesNoMore, GivesOneMore};
ghost use Rattle.switched_ports.specs.States.{queue_at};

use crate::ports::Ports;
use net_lane::{End, GroupsFull, PutFault, SendFault};

impl Ports {
    /// Gives the guest of a port a frame, which is held last, and answers its id: 0, 1, 2 and so on. Else nothing
    /// changes. The answer is `Length` where it hasn't 14 to 1,514 bytes, and else `Full`, where as many are held as
    /// the ring has slots.
    pub fn send(&mut self, port: u32, frame: &[u8]) -> Result<u64, SendFault>
        requires port { port < length self.old }
        requires few { GivenBelow (2 ^ 64 - 1) self.old }
        ensures entry { EntryOf ports port self.old (OnPort (OnLane (Gives A (given result frame.now)))) self.new }
        ensures ids { GivesOneMore self.old self.new }
        ensures same_ids { OnErr result (GivesNoMore self.old self.new) }
    {
        self.lanes[port as usize].send(End::A, frame)
    }

    /// Puts a group's address last into the list of a port's guest, which is told to the switch. The answer is false
    /// where it is in the list. `GroupsFull` comes where it isn't, and seven others are. Then nothing changes.
    pub fn join_group(&mut self, port: u32, address: [u8; 6]) -> Result<bool, GroupsFull>
        requires { port < length self.old }
        ensures entry { EntryOf ports port self.old (OnPort (OnLane (Joins (joining result address)))) self.new }
        ensures ids { GivesNoMore self.old self.new }
    {
        self.lanes[port as usize].join_group(address)
    }

    /// Nothing comes any more: resets the guest's end of a port that isn't finished, and answers how many frames are
    /// lost. `None` where the port is finished.
    pub fn tick(&mut self, port: u32) -> Option<u32>
        requires { port < length self.old }
        ensures entry { EntryOf ports port self.old
            (OnPort (OnLane (ticked_event (length (queue_at port self.old)) result))) self.new }
        ensures ids { GivesNoMore self.old self.new }
    {
        let queued = self.switch.queued(port);
        self.lanes[port as usize].tick(queued)
    }

    /// Loses the packet that has waited longest for an end of a port. `None` where none waits.
    pub fn lose(&mut self, port: u32, end: End) -> Option<[u8; 64]>
        requires { port < length self.old }
        ensures entry { EntryOf ports port self.old (OnPort (OnLane (lost_event end result))) self.new }
        ensures ids { GivesNoMore self.old self.new }
    {
        self.lanes[port as usize].lose(end)
    }

    /// Makes a packet wait last for an end of a port, though the other end never put it. Refused where the end isn't
    /// `Up`, and where its queue is full.
    pub fn inject(&mut self, port: u32, end: End, packet: &[u8; 64]) -> Result<(), PutFault>
        requires { port < length self.old }
        ensures entry { EntryOf ports port self.old (OnPort (OnLane (injected_event end packet.now result))) self.new }
        ensures ids { GivesNoMore self.old self.new }
    {
        self.lanes[port as usize].inject(end, packet)
    }

    /// Writes bytes into the memory of an end of a port, though the end never wrote them. False where they don't lie
    /// within it: then nothing changes.
    pub fn poke(&mut self, port: u32, end: End, at: u64, bytes: &[u8]) -> bool
        requires { port < length self.old }
        ensures entry { EntryOf ports port self.old (OnPort (OnLane (poked_event end at bytes.now result))) self.new }
        ensures ids { GivesNoMore self.old self.new }
    {
        self.lanes[port as usize].poke(end, at, bytes)
    }
}
