// A descriptor is fetched.

ghost use Rattle.std.specs.Prelude.{◌≡◌, ◌≤◌, ◌<◌, length, None, Some};
ghost use Rattle.cookie_copy.specs.Faults.{PagesWithin};
ghost use Rattle.vio_handshake.specs.declared.handshake.Phase.TheVariants.{Open};
ghost use Rattle.lane_models.specs.ServerRule.{Fetches, server_rule};
ghost use Rattle.cookie_copy.specs.Reach.{copy_number};
ghost use Rattle.lane_models.specs.ServerWork.{cause_of, slot_at};
ghost use Rattle.descriptor_work.specs.Calling.{reach_over};
ghost use Rattle.vdisk_server.specs.Answering.{SameDisk, StepsIn, channel_after, sees};
ghost use Rattle.vdisk_server.specs.Pieces.{FetchedOr};
ghost use Rattle.vdisk_server.specs.Rules.{one_fetched, work_begun};
ghost use Rattle.vdisk_server.specs.Standing.{RingStands};

use crate::answers::ServerOut;
use crate::end::ServerEnd;
use crate::session::RingSession;
use cookie_copy::CopyFault;
use descriptor_work::{Work, header_of};
use dom_memory::Memory;
use dring::{RingFault, VIO_DESC_ACCEPTED, fetch, mark};
use ldc_queue::{Channel, End};
use map_table::MapTable;
use vdisk_msg::SLOT;
use vio_tag::Cause;

impl ServerEnd {
    /// The next descriptor of the range is fetched and marked ACCEPTED.
    pub fn fetch(
        &mut self,
        session: RingSession,
        channel: &mut Channel,
        table: &MapTable,
        memory: &mut Memory,
        out: &mut ServerOut,
    )
        requires ring { RingStands self.old.handshake }
        requires rule { server_rule self.old (sees channel.old) ≡ Fetches session }
        requires session { self.old.session ≡ Some session }
        requires pages { PagesWithin table.now (length memory.old) }
        ensures step { StepsIn self.old channel.old table.now memory.old out.new self.new memory.new }
        ensures channel { channel.new ≡ channel_after out.new channel.old }
        ensures same_length { length memory.new ≡ length memory.old }
        ensures disk { SameDisk self.old self.new }
    {
        let slot = self.next_slot(session);
        match &self.fetch_ready(slot, channel, table, memory) {
            Ok(bytes) => {
                *out = ServerOut::Desc {
                    slot,
                    bytes: *bytes,
                };
                self.begin_work(bytes);
            }
            Err(cause) => self.reset_for(channel, *cause, None, out),
        }
    }

    // The slot of the next descriptor: they are fetched in the order in which they were announced.
    fn next_slot(&self, session: RingSession) -> u32
        requires open { self.now.handshake.phase ≡ Open }
        requires some { 0 < self.now.handshake.draft.peer_slots }
        ensures slot { result ≡ slot_at self.now session.descs }
        ensures within { result < self.now.handshake.draft.peer_slots }
    {
        self.slot_at(session.fetched)
    }

    // One more descriptor was fetched, which has these bytes.
    fn begin_work(&mut self, bytes: &[u8; SLOT])
        ensures { self.new ≡ work_begun self.old bytes.now }
    {
        self.work = Some(Work::begin(bytes, self.region.blocks));
        self.count_fetched();
    }

    fn count_fetched(&mut self)
        ensures { self.new ≡ record self.old { session = one_fetched self.old.session } }
    {
        if let Some(session) = &mut self.session {
            session.fetched = session.fetched.wrapping_add(1);
        }
    }

    // The bytes of a descriptor that is READY, marked ACCEPTED.
    fn fetch_ready(
        &self,
        slot: u32,
        channel: &Channel,
        table: &MapTable,
        memory: &mut Memory,
    ) -> Result<[u8; SLOT], Cause>
        requires ring { RingStands self.now.handshake }
        requires slot { slot < self.now.handshake.draft.peer_slots }
        requires pages { PagesWithin table.now (length memory.old) }
        ensures fetched { FetchedOr result self.now (reach_over channel.now table.now memory.old) slot memory.new }
        ensures same_length { length memory.new ≡ length memory.old }
    {
        let ring = self.peer_ring();
        let bytes = match fetch::<SLOT>(channel, End::B, table, memory, &ring, slot) {
            Ok(bytes) => bytes,
            Err(fault) => return Err(cause_of(slot, fault)),
        };
        let header = header_of(VIO_DESC_ACCEPTED, &bytes);
        match mark::<SLOT>(channel, End::B, table, memory, &ring, slot, header) {
            Ok(()) => Ok(bytes),
            Err(fault) => Err(Cause::Copy(copy_number(fault))),
        }
    }
}

fn cause_of(slot: u32, fault: RingFault) -> Cause
    ensures { result ≡ cause_of slot fault }
{
    match fault {
        RingFault::Copy(fault) => Cause::Copy(copy_number(fault)),
        RingFault::NotReady(state) => Cause::NotReady { slot, state },
    }
}

/// The number of a copy's fault in the cause of a reset.
pub(crate) fn copy_number(fault: CopyFault) -> u8
    ensures { result ≡ copy_number fault }
{
    match fault {
        CopyFault::Channel => 1,
        CopyFault::BadAlign => 2,
        CopyFault::Short => 3,
        CopyFault::BadPage => 4,
        CopyFault::NoMap => 5,
        CopyFault::NoAccess => 6,
    }
}
