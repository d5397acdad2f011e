ghost use Rattle.std.specs.Prelude.{◌≡◌, ◌-◌, ◌^◌, ◌<◌, ◌≤◌, length, is_some, IfOk};
ghost use Rattle.cookie_copy.specs.Faults.{PagesWithin};
ghost use Rattle.ldc_queue.specs.ChannelView.{configured_channel};

use crate::answers::{GroupsFull, SendFault};
use crate::net_out::NetOut;
use crate::port_end::PortEnd;
use dom_memory::Memory;
use ldc_link::Role;
use ldc_queue::Channel;
use map_table::MapTable;
use std::alloc::Global;
use std::marker::Model;
use vio_bytes::NoMemory;

/// Either end of a network port: a guest's, the initiator, whose end of the channel is A; or the switch's, the
/// responder, whose end is B. What it publishes stands in its own memory. Messages and descriptors are of the VIO
/// chapter of the UltraSPARC Virtual Machine Specification, and of Linux's vio.h (`struct vio_net_desc`).
#[derive(Drop)]
pub struct NetEnd {
    end: PortEnd,
}

impl Model for NetEnd {
    ghost use Rattle.lane_models.specs.NetEndState.{NetEndState};
    ghost use Rattle.vnet_port.specs.Standing.{Stands};

    ghost Value = { NetEndState };

    ghost view = { λ e. e.end };

    ghost invariant = { λ e. Stands e.end };
}

impl NetEnd {
    ghost use Rattle.lane_models.specs.NetEndState.{fresh_net_end, joined_net_end, unseen};
    ghost use Rattle.lane_models.specs.NetEndStep.{NetGives, NetJoins};
    ghost use Rattle.lane_models.specs.NetLaneStep.{told_all};
    ghost use Rattle.vnet_port.specs.Calls.{end_of, given, joining, role_of};
    ghost use Rattle.port_frames.specs.Memories.{HoldsRing};
    ghost use Rattle.vnet_port.specs.Stepping.{Steps};

    /// The end of the port with this address, whose rings have so many slots, 2 to 64. It isn't configured yet. Its one
    /// refusal is for want of memory.
    pub fn new(alloc: Global, role: Role, address: [u8; 6], slots: u32) -> Result<NetEnd, NoMemory>
        requires some_slots { 2 ≤ slots }
        requires few_slots { slots ≤ 64 }
        ensures { IfOk result (λ end. end ≡ fresh_net_end role address slots) }
    {
        let end = PortEnd::new(alloc, role, address, slots)?;
        Ok(NetEnd { end })
    }

    /// Makes one step, by the first of these rules that applies:
    ///
    /// - The end isn't `Up`: `Joined`.
    /// - The link has a packet to put, or a message is owed, of the handshake or the answer to groups: `Sent`, or
    ///   `Blocked` where the queue is full.
    /// - The peer's ring is active, and its next slot is READY: `Frame`, or `Reset` where what it names is refused.
    /// - That slot isn't READY: the answer to the INFO is `Sent` or `Blocked`. Where no slot was taken for the INFO,
    ///   `Reset`.
    /// - A packet waits: `Took`, or `Reset` for what is wrong with it.
    /// - In session, a guest's groups are to be told: `Sent`, `Blocked`.
    /// - In session, a frame that is held isn't published: `Published`.
    /// - In session, published frames are to be announced: `Sent`, `Blocked`.
    /// - `Idle`.
    ///
    /// `memory` is its own, with the page of the ring and 2,048 bytes for each slot. `table` and `peer` are the peer's,
    /// and each page that the table grants lies in `peer`.
    pub fn step(
        &mut self,
        channel: &mut Channel,
        memory: &mut Memory,
        table: &MapTable,
        peer: &mut Memory,
    ) -> NetOut
        requires room { HoldsRing self.old.slots memory.old }
        requires pages { PagesWithin table.now (length peer.old) }
        ensures step { Steps self.old channel.old memory.old table.now peer.old result self.new channel.new memory.new peer.new }
        ensures same_role { role_of self.new ≡ role_of self.old }
        ensures same_slots { self.new.slots ≡ self.old.slots }
        ensures same_ids { self.new.next_id ≡ self.old.next_id }
        ensures same_length { length memory.new ≡ length memory.old }
        ensures same_peer { length peer.new ≡ length peer.old }
    {
        let mut out = NetOut::Idle;
        self.step_into(channel, memory, table, peer, &mut out);
        out
    }

    /// The same, whose answer is written into the caller's, so that it isn't copied from function to function.
    pub fn step_into(
        &mut self,
        channel: &mut Channel,
        memory: &mut Memory,
        table: &MapTable,
        peer: &mut Memory,
        out: &mut NetOut,
    )
        requires room { HoldsRing self.old.slots memory.old }
        requires pages { PagesWithin table.now (length peer.old) }
        ensures step { Steps self.old channel.old memory.old table.now peer.old out.new self.new channel.new memory.new peer.new }
        ensures same_role { role_of self.new ≡ role_of self.old }
        ensures same_slots { self.new.slots ≡ self.old.slots }
        ensures same_ids { self.new.next_id ≡ self.old.next_id }
        ensures same_length { length memory.new ≡ length memory.old }
        ensures same_peer { length peer.new ≡ length peer.old }
    {
        self.end.step(channel, memory, table, peer, out);
    }

    /// Configures the end and begins anew, in any state. It keeps frames that were never published, and all ids. The
    /// frames that were published and not acknowledged are dropped; the answer is how many.
    pub fn reset(&mut self, channel: &mut Channel) -> u32
        ensures lost { result ≡ unseen self.old.session }
        ensures state { self.new ≡ joined_net_end (role_of self.old) self.old }
        ensures channel { channel.new ≡ configured_channel (end_of self.old) channel.old }
    {
        self.end.join(channel)
    }

    /// Takes a frame up, which is held last, and answers its id: 0, 1, 2 and so on. Else nothing changes, and the answer
    /// is `Length` where it hasn't 14 to 1,514 bytes, and else `Full`, where as many are held as the ring has slots.
    pub fn send(&mut self, frame: &[u8]) -> Result<u64, SendFault>
        requires few { self.old.next_id < 2 ^ 64 - 1 }
        ensures { NetGives self.old (given result frame.now) self.new }
    {
        self.end.send(frame)
    }

    /// How many more frames it may hold.
    pub fn room(&self) -> u32
        ensures { result ≡ self.now.slots - length self.now.frames }
    {
        self.end.room()
    }

    /// How many frames it holds: those that aren't published, and those that are and aren't acknowledged.
    pub fn held(&self) -> u32
        ensures count { result ≡ length self.now.frames }
        ensures within { result ≤ self.now.slots }
    {
        self.end.held()
    }

    /// Whether its session is open.
    pub fn in_session(&self) -> bool
        ensures { result ≡ is_some self.now.session }
    {
        self.end.in_session()
    }

    /// Whether its session is open, and in it a guest's list of groups is told as it is, and that was answered.
    pub fn told_groups(&self) -> bool
        ensures { result ≡ told_all self.now.session }
    {
        self.end.told_groups()
    }

    /// The bytes of the frame that it took last, none before the first.
    pub fn frame(&self) -> &[u8]
        ensures { result.now ≡ self.now.last }
    {
        self.end.frame()
    }

    /// Puts a group's address last into the list, which is told to the switch. The answer is false where it is in the
    /// list. `GroupsFull` comes where it isn't, and seven others are. Then nothing changes.
    pub fn join_group(&mut self, address: [u8; 6]) -> Result<bool, GroupsFull>
        ensures { NetJoins self.old (joining result address) self.new }
    {
        self.end.join_group(address)
    }

    /// The groups: of a guest its own list, of the switch's end those that the session told it.
    pub fn groups(&self) -> &[[u8; 6]]
        ensures list { result.now ≡ self.now.groups }
        ensures few { length result.now ≤ 7 }
    {
        self.end.groups()
    }
}
