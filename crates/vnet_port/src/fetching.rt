// The next slot of the peer's ring is worked.

ghost use Rattle.std.specs.Prelude.{◌≡◌, ℕ, ◌<◌, ◌≤◌, List, length, is_some, true, Option, None, Some};
ghost use Rattle.cookie_copy.specs.Faults.{PagesWithin};
ghost use Rattle.ldc_queue.specs.Wire.{state_of};
ghost use Rattle.ldc_queue.specs.declared.end.ChannelState.TheVariants.{Up};
ghost use Rattle.vio_handshake.specs.declared.handshake.Phase.TheVariants.{Open};
ghost use Rattle.map_table.specs.declared.table.Entry.{Entry};
ghost use Rattle.lane_models.specs.Fetching.{NotReady, fetched};
ghost use Rattle.vnet_port.specs.declared.net_out.NetOut.TheVariants.{Frame};
ghost use Rattle.port_frames.specs.Memories.{HoldsRing, reach_over};

use crate::net_out::NetOut;
use crate::port_end::PortEnd;
use crate::putting::PutOf;
use dom_memory::Memory;
use dring::PeerRing;
use ldc_packet::Subtype;
use ldc_queue::Channel;
use map_table::MapTable;
use port_frames::SlotFault;
use port_session::RingActivity;
use vio_handshake::Session;
use vio_tag::{Cause, Message, MsgBody, VIO_DRING_STOPPED};

impl PortEnd {
    ghost use Rattle.lane_models.specs.FramesStand.{FramesStand};
    ghost use Rattle.lane_models.specs.NetEndPutting.{answer};
    ghost use Rattle.lane_models.specs.NetEndRule.{Fetches};
    ghost use Rattle.lane_models.specs.NetEndState.{Activity, NetSession, peer_ring};
    ghost use Rattle.vnet_port.specs.Calls.{end_of};
    ghost use Rattle.lane_models.specs.NetEndStep.{taken};
    ghost use Rattle.vnet_port.specs.Fetches.{TakesFrame};
    ghost use Rattle.vnet_port.specs.Putting.{CanSay};
    ghost use Rattle.vnet_port.specs.Standing.{Stands};
    ghost use Rattle.vnet_port.specs.Stepping.{Steps, rule_of};
    ghost use Rattle.vnet_port.specs.NextAct.{is_active};

    /// The peer's ring.
    fn peer_ring(&self) -> PeerRing
        requires { self.now.handshake.phase ≡ Open }
        ensures { result ≡ peer_ring self.now }
    {
        let Session {
            peer_slots,
            peer_count,
            peer_cookies,
            ..
        } = self.agreed();
        PeerRing {
            slots: peer_slots,
            count: peer_count,
            cookies: peer_cookies,
        }
    }

    /// The INFO's number and first slot, and the last slot that was taken.
    fn answer(&self, activity: RingActivity, last: u32) -> Message
        requires { self.now.handshake.phase ≡ Open }
        ensures { result ≡ answer self.now activity last }
    {
        let agreed = self.agreed();
        Message {
            subtype: Subtype::Ack,
            sid: agreed.sid,
            body: MsgBody::DringData {
                seq: activity.seq,
                ident: agreed.ident_peer,
                start: activity.start,
                end: last,
                state: VIO_DRING_STOPPED,
            },
        }
    }

    /// Takes the frame of a slot, which is marked DONE, or tells why not.
    fn take_frame(
        &mut self,
        ring: &PeerRing,
        slot: u32,
        channel: &Channel,
        table: &MapTable,
        peer: &mut Memory,
    ) -> Result<(), SlotFault>
        requires ring { ring.now ≡ peer_ring self.old }
        requires slot { slot < self.old.handshake.draft.peer_slots }
        requires few { self.old.handshake.draft.peer_slots ≤ 64 }
        requires cookies { self.old.handshake.draft.peer_count ≤ 14 }
        requires pages { PagesWithin table.now (length peer.old) }
        ensures takes { TakesFrame result (fetched self.old (reach_over channel.now table.now peer.old) slot) self.old peer.old self.new peer.new }
        ensures same_length { length peer.new ≡ length peer.old }
    {
        let end = self.end();
        self.last.take(channel, end, table, peer, ring, slot)
    }

    /// The peer's ring is active: the frame of the next slot is taken; or the slot isn't READY, which ends the activity;
    /// or the end resets itself.
    pub(crate) fn fetch(
        &mut self,
        channel: &mut Channel,
        memory: &mut Memory,
        table: &MapTable,
        peer: &mut Memory,
        out: &mut NetOut,
    )
        requires up { state_of (end_of self.old) channel.old.wire ≡ Up }
        requires rule { (session : NetSession) (activity : Activity) → self.old.session ≡ Some session → session.active ≡ Some activity → rule_of self.old channel.old ≡ Fetches session activity }
        requires active { is_active self.old.session ≡ true }
        requires free { self.old.handshake.owed ≡ None }
        requires stands { Stands self.old }
        requires pages { PagesWithin table.now (length peer.old) }
        requires can { CanSay self.old }
        requires room { HoldsRing self.old.slots memory.old }
        ensures step { Steps self.old channel.old memory.old table.now peer.old out.new self.new channel.new memory.new peer.new }
        ensures same_length { length memory.new ≡ length memory.old }
        ensures same_peer { length peer.new ≡ length peer.old }
    {
        let Some(session) = &self.session else {
            unreachable!()
        };
        let Some(activity) = session.active else {
            unreachable!()
        };
        let slot = session.place;
        let ring = self.peer_ring();
        match self.take_frame(&ring, slot, channel, table, peer) {
            Ok(()) => self.note_frame(activity, ring.slots, out),
            Err(SlotFault::NotReady(state)) => self.end_activity(
                activity, slot, state, channel, memory, out,
            ),
            Err(SlotFault::Refused(cause)) => self.fail(channel, cause, None, out),
        }
    }

    /// A frame was taken from the next slot, of a ring of so many.
    fn note_frame(&mut self, activity: RingActivity, slots: u32, out: &mut NetOut)
        requires open { is_some self.old.session ≡ true }
        requires slots { slots ≡ self.old.handshake.draft.peer_slots }
        requires few { slots ≤ 64 }
        requires slot { (session : NetSession) → self.old.session ≡ Some session → session.place < slots }
        ensures state { (session : NetSession) → self.old.session ≡ Some session → self.new ≡ record self.old { session = Some (taken self.old session activity) } }
        ensures answer { out.new ≡ Frame (length self.old.last) }
    {
        let len = self.last.len();
        let Some(session) = &mut self.session else {
            unreachable!()
        };
        session.note_taken(activity, slots);
        *out = NetOut::Frame { len };
    }

    /// The next slot isn't READY. Where one was taken in the activity, that is answered; else the end resets itself.
    fn end_activity(
        &mut self,
        activity: RingActivity,
        slot: u32,
        state: u8,
        channel: &mut Channel,
        memory: &mut Memory,
        out: &mut NetOut,
    )
        requires up { state_of (end_of self.old) channel.old.wire ≡ Up }
        requires session { is_some self.old.session ≡ true }
        requires slot { (session : NetSession) → self.old.session ≡ Some session → session.place ≡ slot }
        requires rule { (session : NetSession) → self.old.session ≡ Some session → rule_of self.old channel.old ≡ Fetches session activity }
        requires free { self.old.handshake.owed ≡ None }
        requires open { self.old.handshake.phase ≡ Open }
        requires frames { FramesStand self.old }
        requires can { CanSay self.old }
        requires room { HoldsRing self.old.slots memory.old }
        ensures step { (table : List (Option Entry)) (peer : List ℕ)
            → fetched self.old (reach_over channel.old table peer) slot ≡ NotReady state
            → Steps self.old channel.old memory.old table peer out.new self.new channel.new memory.new peer }
        ensures same_length { length memory.new ≡ length memory.old }
    {
        let Some(last) = activity.last else {
            return self.fail(channel, Cause::NotReady { slot, state }, None, out);
        };
        let message = self.answer(activity, last);
        let Some(session) = &mut self.session else {
            unreachable!()
        };
        session.note_answered();
        self.say(PutOf::Own, &message, channel, memory, out);
    }
}
