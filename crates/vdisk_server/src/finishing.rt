// A descriptor gets its status.

ghost use Rattle.std.specs.Prelude.{◌≡◌, ◌≤◌, ◌<◌, length, None, Some};
ghost use Rattle.cookie_copy.specs.Faults.{PagesWithin};
ghost use Rattle.vdisk_msg.specs.Requested.{status_word};
ghost use Rattle.lane_models.specs.ServerRule.{server_rule, serves};
ghost use Rattle.descriptor_work.specs.Calling.{reach_over};
ghost use Rattle.vdisk_server.specs.Answering.{SameDisk, StepsIn, channel_after, sees};
ghost use Rattle.vdisk_server.specs.Pieces.{EndedFor, IsEnding};
ghost use Rattle.vdisk_server.specs.Rules.{one_finished, work_ended};
ghost use Rattle.vdisk_server.specs.Standing.{RingStands};

use crate::answers::ServerOut;
use crate::end::ServerEnd;
use crate::fetching::copy_number;
use crate::session::RingSession;
use descriptor_work::Descriptor;
use dom_memory::Memory;
use dring::{VIO_DESC_DONE, mark, put_word};
use ldc_queue::{Channel, End};
use map_table::MapTable;
use vdisk_msg::SLOT;
use vio_bytes::put_u32;
use vio_tag::Cause;

/// The word of a descriptor whose last four bytes are the status.
const STATUS_WORD: u32 = 16;

impl ServerEnd {
    /// The descriptor in work gets its status, and is DONE.
    pub fn finish(
        &mut self,
        session: RingSession,
        status: u32,
        channel: &mut Channel,
        table: &MapTable,
        memory: &mut Memory,
        out: &mut ServerOut,
    )
        requires ring { RingStands self.old.handshake }
        requires session { self.old.session ≡ Some session }
        requires rule { server_rule self.old (sees channel.old) ≡ serves session self.old.work }
        requires ends { IsEnding self.old.work status }
        requires pages { PagesWithin table.now (length memory.old) }
        ensures step { StepsIn self.old channel.old table.now memory.old out.new self.new memory.new }
        ensures channel { channel.new ≡ channel_after out.new channel.old }
        ensures same_length { length memory.new ≡ length memory.old }
        ensures disk { SameDisk self.old self.new }
    {
        let slot = self.slot_at(session.finished);
        match self.end_slot(slot, status, channel, table, memory) {
            Ok(()) => {
                self.end_work();
                *out = ServerOut::Finished { slot, status };
            }
            Err(cause) => self.reset_for(channel, cause, None, out),
        }
    }

    // One more descriptor is finished, and none is in work.
    fn end_work(&mut self)
        ensures { self.new ≡ work_ended self.old }
    {
        self.work = None;
        self.count_finished();
    }

    fn count_finished(&mut self)
        ensures { self.new
            ≡ record self.old { session = one_finished self.old.session } }
    {
        if let Some(session) = &mut self.session {
            session.finished = session.finished.wrapping_add(1);
        }
    }

    // The status is written, and then the header with DONE.
    fn end_slot(
        &self,
        slot: u32,
        status: u32,
        channel: &Channel,
        table: &MapTable,
        memory: &mut Memory,
    ) -> Result<(), Cause>
        requires ring { RingStands self.now.handshake }
        requires slot { slot < self.now.handshake.draft.peer_slots }
        requires ends { IsEnding self.now.work status }
        requires pages { PagesWithin table.now (length memory.old) }
        ensures ended { EndedFor self.now.work result self.now (reach_over channel.now table.now memory.old) slot status memory.new }
        ensures same_length { length memory.new ≡ length memory.old }
    {
        let descriptor = match &self.work {
            Some(work) => &work.descriptor,
            None => unreachable!(),
        };
        let ring = self.peer_ring();
        let word = status_word(descriptor, status);
        match put_word::<SLOT>(
            channel,
            End::B,
            table,
            memory,
            &ring,
            slot,
            STATUS_WORD,
            word,
        ) {
            Ok(()) => {}
            Err(fault) => return Err(Cause::Copy(copy_number(fault))),
        }
        let header = descriptor.header(VIO_DESC_DONE);
        match mark::<SLOT>(channel, End::B, table, memory, &ring, slot, header) {
            Ok(()) => Ok(()),
            Err(fault) => Err(Cause::Copy(copy_number(fault))),
        }
    }
}

/// The bytes of the status word as they were fetched, with the status at their end.
fn status_word(descriptor: &Descriptor, status: u32) -> [u8; 8]
    ensures { result ≡ status_word descriptor.now status }
{
    let at = STATUS_WORD as usize;
    let mut word = [0; 8];
    word.copy_from_slice(&descriptor.bytes()[at..at + 8]);
    put_u32(&mut word, 4, status);
    word
}
