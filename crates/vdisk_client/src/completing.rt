// An acknowledged request is done, or its slot isn't.

ghost use Rattle.std.specs.Prelude.{◌≡◌, ◌+◌, ◌<◌, ◌≤◌, ◌==◌, if◌then◌else◌, length, drop, take};
ghost use Rattle.ldc_queue.specs.ChannelView.{ChannelView};
ghost use Rattle.vio_bytes.specs.Range.{range_at};
ghost use Rattle.dring.specs.Slots.{done_state};
ghost use Rattle.vdisk_msg.specs.Check.{most_bytes};
ghost use Rattle.vdisk_msg.specs.Requested.{buffer_of};
ghost use Rattle.vdisk_msg.specs.Requests.{given_count};

use crate::answers::ClientOut;
use crate::end::ClientEnd;
use crate::session::OpenSession;
use disk_requests::{buffer_place, operation_of, ring_of};
use dom_memory::Memory;
use dring::VIO_DESC_DONE;
use ldc_queue::Channel;
use vdisk_msg::{BLOCK, Request, decode};
use vio_tag::Cause;

impl ClientEnd {
    ghost use Rattle.lane_models.specs.ClientRule.{Completes};
    ghost use Rattle.lane_models.specs.ClientStep.{completed_descriptor, completed_slot};
    ghost use Rattle.vdisk_client.specs.Calls.{Steps, rule_of};
    ghost use Rattle.disk_requests.specs.Room.{HoldsRing};
    ghost use Rattle.vdisk_client.specs.Standing.{CountsStand, RequestsStand};

    /// Looks at the slot of the first request that isn't done. Where its state is DONE the request is done, and else
    /// the end resets.
    pub(crate) fn complete(
        &mut self,
        session: OpenSession,
        channel: &mut Channel,
        memory: &mut Memory,
        out: &mut ClientOut,
    )
        requires rule { rule_of self.old channel.old ≡ Completes session }
        requires counts { CountsStand (length self.old.pending) self.old.next_id session }
        requires acknowledged { session.completed < session.acked }
        requires requests { RequestsStand self.old }
        requires room { HoldsRing self.old.slots memory.old }
        ensures step { Steps self.old channel.old memory.old out.new self.new channel.new memory.new }
        ensures same_length { length memory.new ≡ length memory.old }
    {
        let slot = session.completed_slot(self.slots);
        let desc = decode(&ring_of(self.slots).look(memory, slot));
        if desc.state != VIO_DESC_DONE {
            let state = desc.state;
            return self.fail(channel, Cause::NotDone { slot, state }, None, out);
        }
        self.finish(session, slot, desc.status, memory, out);
    }

    /// The first pending request is done, with this status, and its slot is FREE.
    fn finish(
        &mut self,
        session: OpenSession,
        slot: u32,
        status: u32,
        memory: &mut Memory,
        out: &mut ClientOut,
    )
        requires counts { CountsStand (length self.old.pending) self.old.next_id session }
        requires acknowledged { session.completed < session.acked }
        requires requests { RequestsStand self.old }
        requires room { HoldsRing self.old.slots memory.old }
        requires slot { slot ≡ completed_slot self.old session }
        requires done { (completed_descriptor self.old session memory.old).state ≡ done_state }
        requires status { status ≡ (completed_descriptor self.old session memory.old).status }
        ensures step { (channel : ChannelView) → rule_of self.old channel ≡ Completes session
            → Steps self.old channel memory.old out.new self.new channel memory.new }
        ensures same_length { length memory.new ≡ length memory.old }
    {
        let request = match self.pending.front() {
            Some(request) => request,
            None => unreachable!(),
        };
        let operation = operation_of(request);
        let len = given_len(status, request);
        let id = session.first_id();
        self.take_bytes(memory, slot, len);
        ring_of(self.slots).free(memory, slot);
        self.drop_first();
        self.session = Some(session.completed_one());
        *out = ClientOut::Done {
            id,
            operation,
            status,
            len: len as u32,
        };
    }

    /// The first bytes of a slot's buffer are those of the completion.
    fn take_bytes(&mut self, memory: &Memory, slot: u32, len: usize)
        requires slot { slot < self.old.slots }
        requires few { self.old.slots ≤ 256 }
        requires most { len ≤ most_bytes }
        requires room { HoldsRing self.old.slots memory.now }
        ensures { self.new ≡ record self.old { last = buffer_of self.old.slots slot len memory.now } }
    {
        let place = buffer_place(self.slots, slot);
        read_front(memory, place, &mut self.buffer, len);
        self.given = len;
    }

    /// The first pending request is gone.
    fn drop_first(&mut self)
        requires { 0 < length self.old.pending }
        ensures { self.new ≡ record self.old { pending = drop 1 self.old.pending } }
    {
        self.pending.truncate_front(self.pending.len() - 1);
    }
}

/// Reads so many bytes of the memory to the front of the buffer.
fn read_front(memory: &Memory, place: u64, buffer: &mut [u8], len: usize)
    requires len { len ≤ length buffer.old }
    requires room { place + len ≤ length memory.now }
    ensures { take len buffer.new ≡ range_at place len memory.now }
{
    memory.read(place, &mut buffer[..len]);
}

/// How many bytes a request gives with this status.
fn given_len(status: u32, request: &Request) -> usize
    requires { given_count request.now ≤ most_bytes }
    ensures { result ≡ (if status == 0 then given_count request.now else 0) }
{
    match request {
        Request::Read { count, .. } if status == 0 => (BLOCK * *count) as usize,
        _ => 0,
    }
}
