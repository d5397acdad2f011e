// Requests of guests.

ghost use Rattle.std.specs.Prelude.{◌≡◌, ◌<◌, ◌-◌, ◌^◌, length, IsOk, OnErr, OnOk};
ghost use Rattle.world_parts.specs.domain_laws.Lines.{AnswersRequest, Asked};
ghost use Rattle.kept_requests.specs.Kept.{HasFewBytes};
ghost use Rattle.ldom_report.specs.Report.{accepted_count};
ghost use Rattle.recorded_lanes.specs.Called.{refused_entry};
ghost use Rattle.recorded_lanes.specs.OneLane.{RecordsAnswer};
ghost use Rattle.world_parts.specs.world_laws.Issued.{issued_on};
ghost use Rattle.vdisk_msg.specs.Fills.{IsRequest};
ghost use Rattle.recorded_lanes.specs.Steps.{MakesAnswer, moment};
ghost use Rattle.domain_script.specs.LaneKinds.{disk_lane};
ghost use Rattle.world_parts.specs.world_laws.World.{WorldStep};

use crate::disks::Disks;
use disk_lane::{DiskLane, IssueFault};
use domain_script::{Lane, LaneKind, Request};
use ldom_report::{Entry, Journal, KeptRequest, Who, Why};
use vio_bytes::NoMemory;
use vio_io::Store;

#[tactic(auto, using(crate::proofs::Opened::answered))]
impl<D: Store> Disks<D> {
    /// A guest asks its disk: the request is accepted with its id, or refused, or finds no room. Memory beside the
    /// journal's is wanted only for a write's word of more than 16 bytes.
    pub fn issue(
        &mut self,
        disk: u32,
        request: &Request,
        journal: &mut Journal,
    ) -> Result<(), NoMemory>
        requires disk { disk < length self.old.lanes }
        requires request { IsRequest request.now }
        requires agrees { accepted_count journal.old.entries ≡ issued_on self.old.lanes }
        ensures made { OnOk result (MakesAnswer WorldStep (disk_lane disk) (Asked disk request.now)
            (AnswersRequest request.now) (moment self.old journal.old.entries) (moment self.new journal.new.entries)) }
        ensures same { OnErr result ((self.new ≡ self.old) × (journal.new.entries ≡ journal.old.entries)) }
        ensures many { length self.new.lanes ≡ length self.old.lanes }
        ensures agrees { accepted_count journal.new.entries ≡ issued_on self.new.lanes }
        ensures there { HasFewBytes request.now → 0 < journal.old.room → IsOk result }
    {
        journal.reserve(1)?;
        // That there are fewer than 2^63 entries is known by this call alone. So the ids never run out.
        let _len = journal.len();
        let kept = KeptRequest::new(self.alloc, request)?;
        ask_lane(&mut self.lanes[disk as usize], disk, request, kept, journal);
        Ok(())
    }
}

/// Asks a lane, and records what came of it, with this copy of the request where it was accepted.
fn ask_lane(
    lane: &mut DiskLane,
    disk: u32,
    request: &Request,
    kept: KeptRequest,
    journal: &mut Journal,
)
    requires request { IsRequest request.now }
    requires few { lane.old.client.next_id < 2 ^ 64 - 1 }
    requires kept { kept ≡ request.now }
    requires room { 0 < journal.old.room }
    ensures answers { RecordsAnswer (Asked disk request.now) disk (AnswersRequest request.now) lane.old journal.old
        journal.new lane.new }
    ensures shape { lane.new.shape ≡ lane.old.shape }
{
    match lane.issue(request) {
        Ok(id) => journal.push_accepted(disk, id, kept),
        Err(fault) => journal.push(refusal(disk, fault)),
    }
}

/// The entry of a request that wasn't taken up.
fn refusal(disk: u32, fault: IssueFault) -> Entry
    ensures { result ≡ refused_entry disk fault }
{
    let who = Who::Lane(Lane {
        kind: LaneKind::Disk,
        number: disk,
    });
    match fault {
        IssueFault::Count => Entry::Refused {
            who,
            why: Why::Count,
        },
        IssueFault::Range => Entry::Refused {
            who,
            why: Why::Range,
        },
        IssueFault::Full => Entry::Full { who },
    }
}
