// A frame is published.

ghost use Rattle.std.specs.Prelude.{◌≡◌, ◌*◌, length, slice_get, true, Some};
ghost use Rattle.ldc_queue.specs.ChannelView.{ChannelView};
ghost use Rattle.lane_models.specs.NetEndRule.{publishes};
ghost use Rattle.port_frames.specs.Memories.{HoldsRing};

use crate::net_out::NetOut;
use crate::port_end::PortEnd;
use dom_memory::Memory;
use port_frames::put_frame;

impl PortEnd {
    ghost use Rattle.lane_models.specs.FramesStand.{FramesStand};
    ghost use Rattle.lane_models.specs.NetEndState.{NetSession, unseen_in};
    ghost use Rattle.vnet_port.specs.Standing.{IsSized};
    ghost use Rattle.vnet_port.specs.Stepping.{StepsAlone, rule_of};
    ghost use Rattle.vnet_port.specs.NextAct.{has_unpublished};

    /// Publishes the first frame that isn't published in this session.
    pub(crate) fn publish(&mut self, memory: &mut Memory, out: &mut NetOut)
        requires some { has_unpublished self.old.frames self.old.session ≡ true }
        requires frames { FramesStand self.old }
        requires sized { IsSized self.old.slots self.old.next_id (length self.old.groups) }
        requires room { HoldsRing self.old.slots memory.old }
        ensures step { (channel : ChannelView)
            → ((session : NetSession) → self.old.session ≡ Some session → rule_of self.old channel ≡ publishes session (slice_get self.old.frames (unseen_in session)))
            → StepsAlone self.old channel memory.old out.new self.new channel memory.new }
        ensures same_length { length memory.new ≡ length memory.old }
    {
        let Some(session) = &mut self.session else {
            unreachable!()
        };
        let id = session.next_id();
        let slot = session.published_slot(self.slots);
        match self.frames.get(session.unseen() as usize) {
            Some(frame) => put_frame(memory, self.slots, slot, frame),
            None => unreachable!(),
        }
        session.note_published();
        *out = NetOut::Published { id };
    }
}
