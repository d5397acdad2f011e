// An end without what always holds of it: its fields, and the calls that change them.

ghost use Rattle.std.specs.Prelude.{◌≡◌, ◌-◌, ◌^◌, ◌<◌, ◌≤◌, length, is_some, IfOk};
ghost use Rattle.ldc_queue.specs.ChannelView.{configured_channel};
ghost use Rattle.lane_models.specs.RuleFacts.{IfOpen};
ghost use Rattle.vnet_msg.specs.Frames.{is_frame_length};
ghost use Rattle.vnet_port.specs.Calls.{end_at};
ghost use Rattle.vnet_port.specs.declared.net_out.NetOut.TheVariants.{Reset};

use crate::answers::{GroupsFull, SendFault};
use crate::net_out::NetOut;
use arrayvec::ArrayVec;
use ldc_link::{Link, Role};
use ldc_queue::{Channel, End};
use port_frames::{HeldFrames, LastFrame};
use port_session::{PortSession, port_offer};
use std::alloc::Global;
use std::marker::Model;
use vio_bytes::NoMemory;
use vio_handshake::Handshake;
use vio_tag::Cause;
use vnet_msg::{LEAST_FRAME, MOST_FRAME};

/// The link and handshake of an end, its frames and groups, and the session that is open. Between its calls all is so
/// that the next one may come, which `NetEnd` keeps.
#[derive(Drop)]
pub(crate) struct PortEnd {
    pub(crate) role: Role,
    pub(crate) link: Link,
    pub(crate) handshake: Handshake,
    pub(crate) address: [u8; 6],
    pub(crate) slots: u32,
    pub(crate) frames: HeldFrames,
    pub(crate) next_id: u64,
    pub(crate) groups: ArrayVec<[u8; 6], 7>,
    pub(crate) session: Option<PortSession>,
    pub(crate) last: LastFrame,
}

impl Model for PortEnd {
    ghost use Rattle.std.specs.Prelude.{◌≡◌, ◌≤◌};
    ghost use Rattle.lane_models.specs.NetEndState.{NetEndState};

    ghost Value = { NetEndState };

    ghost view = { λ e. record {
      link = e.link;
      handshake = e.handshake;
      address = e.address;
      slots = e.slots;
      frames = e.frames.frames;
      next_id = e.next_id;
      groups = e.groups.items;
      session = e.session;
      last = e.last;
    } };

    ghost invariant = { λ e. record {
      role : e.link.role ≡ e.role;
      room : e.frames.room ≡ e.slots;
      slots : e.slots ≤ 64;
    } };
}

/// The end of the channel that a role has.
pub(crate) fn end_at(role: Role) -> End
    ensures { result ≡ end_at role }
{
    match role {
        Role::Initiator => End::A,
        Role::Responder => End::B,
    }
}

impl PortEnd {
    ghost use Rattle.lane_models.specs.NetEndState.{fresh_net_end, joined_net_end, kept_groups, unseen};
    ghost use Rattle.lane_models.specs.NetEndStep.{NetGives, NetJoins, untold};
    ghost use Rattle.lane_models.specs.FramesStand.{CountsStand, FramesStand};
    ghost use Rattle.lane_models.specs.NetLaneStep.{told_all};
    ghost use Rattle.vnet_port.specs.Calls.{end_of, given, joining, role_of};

    /// An end that isn't configured.
    pub(crate) fn new(
        alloc: Global,
        role: Role,
        address: [u8; 6],
        slots: u32,
    ) -> Result<PortEnd, NoMemory>
        requires { slots ≤ 64 }
        ensures { IfOk result (λ end. end ≡ fresh_net_end role address slots) }
    {
        let frames = HeldFrames::new(alloc, slots as usize)?;
        let last = LastFrame::new(alloc)?;
        Ok(PortEnd {
            role,
            link: Link::new(role),
            handshake: Handshake::new(role, &port_offer(role, &address, slots)),
            address,
            slots,
            frames,
            next_id: 0,
            groups: ArrayVec::new(),
            session: None,
            last,
        })
    }

    /// Its end of the channel.
    pub(crate) fn end(&self) -> End
        ensures { result ≡ end_of self.now }
    {
        end_at(self.role)
    }

    /// Takes a frame up and answers its id, or says why not.
    pub(crate) fn send(&mut self, frame: &[u8]) -> Result<u64, SendFault>
        requires few { length self.old.frames ≤ self.old.slots }
        requires ids { self.old.next_id < 2 ^ 64 - 1 }
        ensures { NetGives self.old (given result frame.now) self.new }
    {
        if !is_frame_length(frame) {
            return Err(SendFault::Length);
        }
        if !self.frames.push(frame) {
            return Err(SendFault::Full);
        }
        let id = self.next_id;
        self.next_id += 1;
        Ok(id)
    }

    /// Puts a group last into the list. Tells whether it wasn't there.
    pub(crate) fn join_group(&mut self, address: [u8; 6]) -> Result<bool, GroupsFull>
        ensures { NetJoins self.old (joining result address) self.new }
    {
        if self.groups.contains(&address) {
            return Ok(false);
        }
        match self.groups.try_push(address) {
            Ok(()) => {}
            Err(_) => return Err(GroupsFull),
        }
        self.untell();
        Ok(true)
    }

    /// The list isn't told as it is, where a session is open.
    fn untell(&mut self)
        ensures { self.new ≡ record self.old { session = untold self.old.session } }
    {
        if let Some(session) = &mut self.session {
            session.note_untold();
        }
    }

    /// Configures the end and begins anew. Frames that were never published stay, and all ids. Tells how many are lost.
    pub(crate) fn join(&mut self, channel: &mut Channel) -> u32
        requires few { length self.old.frames ≤ self.old.slots }
        requires counts { IfOpen self.old.session (CountsStand self.old) }
        ensures lost { result ≡ unseen self.old.session }
        ensures state { self.new ≡ joined_net_end (role_of self.old) self.old }
        ensures channel { channel.new ≡ configured_channel (end_of self.old) channel.old }
    {
        let lost = self.unseen();
        self.link.join(channel, end_at(self.role));
        self.handshake.drop_session();
        self.frames.drop_front(lost as usize);
        self.forget_groups();
        self.session = None;
        lost
    }

    /// The same, for a cause that a step found.
    pub(crate) fn fail(
        &mut self,
        channel: &mut Channel,
        cause: Cause,
        packet: Option<[u8; 64]>,
        out: &mut NetOut,
    )
        requires frames { FramesStand self.old }
        ensures answer { out.new ≡ Reset cause packet (unseen self.old.session) }
        ensures state { self.new ≡ joined_net_end (role_of self.old) self.old }
        ensures channel { channel.new ≡ configured_channel (end_of self.old) channel.old }
    {
        let lost = self.join(channel);
        *out = NetOut::Reset {
            cause,
            packet,
            lost,
        };
    }

    /// What the switch's end was told of groups ends with the session.
    fn forget_groups(&mut self)
        ensures { self.new ≡ record self.old { groups = kept_groups (role_of self.old) self.old.groups } }
    {
        if self.role == Role::Responder {
            self.groups.clear();
        }
    }

    /// How many frames are published and not acknowledged.
    fn unseen(&self) -> u32
        requires few { length self.now.frames ≤ self.now.slots }
        requires counts { IfOpen self.now.session (CountsStand self.now) }
        ensures { result ≡ unseen self.now.session }
    {
        match &self.session {
            Some(session) => session.unseen() as u32,
            None => 0,
        }
    }

    /// How many frames are held.
    pub(crate) fn held(&self) -> u32
        ensures count { result ≡ length self.now.frames }
        ensures within { result ≤ self.now.slots }
    {
        self.frames.len() as u32
    }

    /// How many more may be held.
    pub(crate) fn room(&self) -> u32
        ensures { result ≡ self.now.slots - length self.now.frames }
    {
        self.slots - self.held()
    }

    /// Whether a session is open.
    pub(crate) fn in_session(&self) -> bool
        ensures { result ≡ is_some self.now.session }
    {
        self.session.is_some()
    }

    /// Whether a session is open in which the groups are told, and that was answered.
    pub(crate) fn told_groups(&self) -> bool
        ensures { result ≡ told_all self.now.session }
    {
        match &self.session {
            Some(session) => session.has_told(),
            None => false,
        }
    }

    /// The frame that it took last.
    pub(crate) fn frame(&self) -> &[u8]
        ensures { result.now ≡ self.now.last }
    {
        self.last.bytes()
    }

    /// The list of groups.
    pub(crate) fn groups(&self) -> &[[u8; 6]]
        ensures { result.now ≡ self.now.groups }
    {
        self.groups.as_slice()
    }
}

/// Whether it has the length of a frame, 14 to 1,514 bytes.
fn is_frame_length(frame: &[u8]) -> bool
    ensures { result ≡ is_frame_length (length frame.now) }
{
    LEAST_FRAME as usize <= frame.len() && frame.len() <= MOST_FRAME as usize
}
