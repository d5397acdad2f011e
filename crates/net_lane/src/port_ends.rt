// The two ends of a port with all that stands between them. Each call is one event of the port's lane.

ghost use Rattle.std.specs.Prelude.{◌≡◌, ◌^◌, ◌-◌, ◌<◌, ◌≤◌, length, IfOk};
ghost use Rattle.ldc_queue.specs.declared.end.End.TheVariants.{A, B};
ghost use Rattle.ldc_queue.specs.Wire.{peer_of};
ghost use Rattle.vnet_msg.specs.Frames.{memory_pages};
ghost use Rattle.lane_models.specs.NetEndState.{unseen};
ghost use Rattle.lane_models.specs.NetEvent.{Asked, Gives, Joins, Steps};
ghost use Rattle.lane_models.specs.NetLaneState.{fresh_net, IsNetShape, net_end};
ghost use Rattle.lane_models.specs.NetLaneStep.{is_finished, is_nothing, NetLaneStep};
ghost use Rattle.vnet_port.specs.Calls.{given, joining};
ghost use Rattle.vnet_port.specs.Stepping.{net_answer, TellsLength};
ghost use Rattle.net_lane.specs.Events.{begun_anew, injected_event, lost_event, next_behind, poked_event, PutsWithin, ticked_event, SameIds};
ghost use Rattle.net_lane.specs.Noted.{noted, noted_behind};

use dom_memory::{Memory, PAGE};
use ldc_link::Role;
use ldc_queue::{Channel, ChannelState, End, PutFault};
use map_table::MapTable;
use memory_grant::own_table;
use std::alloc::Global;
use std::marker::Model;
use vio_bytes::NoMemory;
use vnet_port::{GroupsFull, NetEnd, NetOut, SendFault};

/// The slots whose buffers a page holds.
const SLOTS: u32 = 4;

/// The guest's end is at the end A of the channel, the switch's at B.
#[derive(Drop)]
pub struct PortEnds {
    address: [u8; 6],
    slots: u32,
    channel: Channel,
    guest_table: MapTable,
    hub_table: MapTable,
    guest_memory: Memory,
    hub_memory: Memory,
    guest: NetEnd,
    hub: NetEnd,
    forged: bool,
    lossy: bool,
}

impl Model for PortEnds {
    ghost use Rattle.lane_models.specs.NetLaneState.{NetLaneState};
    ghost use Rattle.net_lane.specs.Fields.{FitsShape, state_of};

    ghost Value = { NetLaneState };

    ghost view = { λ l. state_of l };

    ghost invariant = { λ l. FitsShape l };
}

/// How many pages an end's memory has, by the slots of its ring.
fn pages_for(slots: u32) -> u32
    requires { slots ≤ 64 }
    ensures { result ≡ memory_pages slots }
{
    if slots < SLOTS {
        return 2;
    }
    1 + slots / SLOTS
}

/// Writes bytes where they lie within the memory, and tells whether they do.
fn put_within(memory: &mut Memory, at: u64, bytes: &[u8]) -> bool
    ensures put { PutsWithin result at bytes.now memory.old memory.new }
    ensures same_length { length memory.new ≡ length memory.old }
{
    let size = memory.pages() as u64 * PAGE as u64;
    if size < at || size - at < bytes.len() as u64 {
        return false;
    }
    memory.write(at, bytes);
    true
}

/// Whether an end holds no frame.
fn holds_none(end: &NetEnd) -> bool
    ensures { result ≡ is_nothing end.now.frames }
{
    end.held() == 0
}

impl PortEnds {
    /// No end is configured, and nothing was given.
    pub fn new(
        alloc: Global,
        address: [u8; 6],
        slots: u32,
        entries: u32,
    ) -> Result<PortEnds, NoMemory>
        requires { IsNetShape (record { address = address; slots = slots; entries = entries }) }
        ensures { IfOk result (λ lane. lane ≡ fresh_net (record { address = address; slots = slots; entries = entries })) }
    {
        let pages = pages_for(slots);
        Ok(PortEnds {
            address,
            slots,
            channel: Channel::new(alloc, entries)?,
            guest_table: own_table(alloc, pages)?,
            hub_table: own_table(alloc, pages)?,
            guest_memory: Memory::new(alloc, pages)?,
            hub_memory: Memory::new(alloc, pages)?,
            guest: NetEnd::new(alloc, Role::Initiator, address, slots)?,
            hub: NetEnd::new(alloc, Role::Responder, address, slots)?,
            forged: false,
            lossy: false,
        })
    }

    /// One step of an end, whose answer is written into the caller's.
    pub fn step_into(&mut self, end: End, out: &mut NetOut)
        ensures step { NetLaneStep self.old (Steps end (net_answer out.new (net_end end self.new).last)) self.new }
        ensures count { TellsLength out.new (net_end end self.new).last }
        ensures ids { SameIds self.old self.new }
    {
        match end {
            End::A => self.step_guest(out),
            End::B => self.step_hub(out),
        }
    }

    /// Resets an end, and tells how many frames are lost.
    pub fn reset(&mut self, end: End) -> u32
        ensures step { NetLaneStep self.old (Asked end result) self.new }
        ensures ids { SameIds self.old self.new }
    {
        match end {
            End::A => self.begin_guest(),
            End::B => self.begin_hub(),
        }
    }

    /// A tick of the guest's end, which is reset unless the port is finished.
    pub fn tick(&mut self, queued: u32) -> Option<u32>
        ensures step { NetLaneStep self.old (ticked_event queued result) self.new }
        ensures ids { SameIds self.old self.new }
    {
        if self.finished(queued) {
            return None;
        }
        Some(self.begin_guest())
    }

    /// Gives an end a frame.
    pub fn send(&mut self, end: End, frame: &[u8]) -> Result<u64, SendFault>
        requires few { (net_end end self.old).next_id < 2 ^ 64 - 1 }
        ensures step { NetLaneStep self.old (Gives end (given result frame.now)) self.new }
        ensures ids { (net_end end self.new).next_id ≡ next_behind result (net_end end self.old).next_id }
        ensures other_ids { (net_end (peer_of end) self.new).next_id ≡ (net_end (peer_of end) self.old).next_id }
    {
        match end {
            End::A => self.send_guest(frame),
            End::B => self.send_hub(frame),
        }
    }

    /// Writes bytes into an end's memory, though the end never wrote them.
    pub fn poke(&mut self, end: End, at: u64, bytes: &[u8]) -> bool
        ensures step { NetLaneStep self.old (poked_event end at bytes.now result) self.new }
        ensures ids { SameIds self.old self.new }
    {
        match end {
            End::A => self.poke_guest(at, bytes),
            End::B => self.poke_hub(at, bytes),
        }
    }

    /// The guest joins a group.
    pub fn join_group(&mut self, address: [u8; 6]) -> Result<bool, GroupsFull>
        ensures step { NetLaneStep self.old (Joins (joining result address)) self.new }
        ensures ids { SameIds self.old self.new }
    {
        self.guest.join_group(address)
    }

    /// Loses the packet that has waited longest for the end, if one waits.
    pub fn lose(&mut self, end: End) -> Option<[u8; 64]>
        ensures step { NetLaneStep self.old (lost_event end result) self.new }
        ensures ids { SameIds self.old self.new }
    {
        let packet = self.channel.lose(end);
        if packet.is_some() {
            self.lossy = true;
        }
        packet
    }

    /// Makes a packet wait last for the end.
    pub fn inject(&mut self, end: End, packet: &[u8; 64]) -> Result<(), PutFault>
        ensures step { NetLaneStep self.old (injected_event end packet.now result) self.new }
        ensures ids { SameIds self.old self.new }
    {
        let injected = self.channel.forge(end, packet);
        if injected.is_ok() {
            self.forged = true;
        }
        injected
    }

    /// Whether all is done, where so many frames stand in the out queue.
    pub fn finished(&self, queued: u32) -> bool
        ensures { result ≡ is_finished self.now queued }
    {
        self.guest.told_groups() && holds_none(&self.guest) && holds_none(&self.hub) && queued == 0
    }

    /// The address of the port.
    pub fn address(&self) -> [u8; 6]
        ensures { result ≡ self.now.shape.address }
    {
        self.address
    }

    /// The guest's end.
    pub fn guest(&self) -> &NetEnd
        ensures { result.now ≡ self.now.guest }
    {
        &self.guest
    }

    /// The switch's end.
    pub fn hub(&self) -> &NetEnd
        ensures { result.now ≡ self.now.hub }
    {
        &self.hub
    }
}

impl PortEnds {
    // One step of the guest's end, whose answer is written into the caller's.
    fn step_guest(&mut self, out: &mut NetOut)
        ensures step { NetLaneStep self.old (Steps A (net_answer out.new self.new.guest.last)) self.new }
        ensures count { TellsLength out.new self.new.guest.last }
        ensures ids { SameIds self.old self.new }
    {
        let was = self.channel.state(End::A);
        self.guest.step_into(
            &mut self.channel,
            &mut self.guest_memory,
            &self.hub_table,
            &mut self.hub_memory,
            out,
        );
        self.note(was, out);
    }

    // The same of the switch's end.
    fn step_hub(&mut self, out: &mut NetOut)
        ensures step { NetLaneStep self.old (Steps B (net_answer out.new self.new.hub.last)) self.new }
        ensures count { TellsLength out.new self.new.hub.last }
        ensures ids { SameIds self.old self.new }
    {
        let was = self.channel.state(End::B);
        self.hub.step_into(
            &mut self.channel,
            &mut self.hub_memory,
            &self.guest_table,
            &mut self.guest_memory,
            out,
        );
        self.note(was, out);
    }

    // The guest's end begins anew. Tells how many frames are lost.
    fn begin_guest(&mut self) -> u32
        ensures lost { result ≡ unseen self.old.guest.session }
        ensures state { self.new ≡ begun_anew A self.old }
    {
        let was = self.channel.state(End::A);
        let lost = self.guest.reset(&mut self.channel);
        self.configured(was);
        lost
    }

    // The same of the switch's end.
    fn begin_hub(&mut self) -> u32
        ensures lost { result ≡ unseen self.old.hub.session }
        ensures state { self.new ≡ begun_anew B self.old }
    {
        let was = self.channel.state(End::B);
        let lost = self.hub.reset(&mut self.channel);
        self.configured(was);
        lost
    }

    // Gives the guest's end a frame.
    fn send_guest(&mut self, frame: &[u8]) -> Result<u64, SendFault>
        requires few { self.old.guest.next_id < 2 ^ 64 - 1 }
        ensures step { NetLaneStep self.old (Gives A (given result frame.now)) self.new }
        ensures ids { self.new.guest.next_id ≡ next_behind result self.old.guest.next_id }
        ensures other_ids { self.new.hub.next_id ≡ self.old.hub.next_id }
    {
        self.guest.send(frame)
    }

    // The same of the switch's end.
    fn send_hub(&mut self, frame: &[u8]) -> Result<u64, SendFault>
        requires few { self.old.hub.next_id < 2 ^ 64 - 1 }
        ensures step { NetLaneStep self.old (Gives B (given result frame.now)) self.new }
        ensures ids { self.new.hub.next_id ≡ next_behind result self.old.hub.next_id }
        ensures other_ids { self.new.guest.next_id ≡ self.old.guest.next_id }
    {
        self.hub.send(frame)
    }

    // Writes bytes into the memory of the guest's end, though the end never wrote them.
    fn poke_guest(&mut self, at: u64, bytes: &[u8]) -> bool
        ensures step { NetLaneStep self.old (poked_event A at bytes.now result) self.new }
        ensures ids { SameIds self.old self.new }
    {
        let poked = put_within(&mut self.guest_memory, at, bytes);
        if poked {
            self.forged = true;
        }
        poked
    }

    // The same of the switch's end.
    fn poke_hub(&mut self, at: u64, bytes: &[u8]) -> bool
        ensures step { NetLaneStep self.old (poked_event B at bytes.now result) self.new }
        ensures ids { SameIds self.old self.new }
    {
        let poked = put_within(&mut self.hub_memory, at, bytes);
        if poked {
            self.forged = true;
        }
        poked
    }

    // An end that was in this state was configured.
    fn configured(&mut self, was: ChannelState)
        ensures { self.new ≡ noted_behind was self.old }
    {
        if was == ChannelState::Up {
            self.lossy = false;
        }
    }

    // Notes what an end did that was in this state.
    fn note(&mut self, was: ChannelState, out: &NetOut)
        ensures { self.new ≡ noted was out.now self.old }
    {
        match out {
            NetOut::Joined { .. } => self.configured(was),
            NetOut::Reset { .. } => self.configured(was),
            _ => {}
        }
    }
}
