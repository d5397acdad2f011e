// Bytes that a script writes into the memory of an end, though the end never wrote them.

ghost use Rattle.std.specs.Prelude.{◌≡◌, ◌<◌, ◌≤◌, length, IsOk, OnErr, OnOk};
ghost use Rattle.kept_requests.specs.Bytes.{filled};
ghost use Rattle.ldc_queue.specs.declared.end.End.TheVariants.{A};
ghost use Rattle.ldom_report.specs.Report.{accepted_count};
ghost use Rattle.recorded_lanes.specs.OneLane.{LaneAnswers};
ghost use Rattle.world_parts.specs.world_laws.Issued.{issued_on};
ghost use Rattle.world_parts.specs.domain_laws.Lines as script;
ghost use Rattle.world_parts.specs.domain_laws.Lines.{AnswersCall, Calls, Pokes};
ghost use Rattle.recorded_lanes.specs.Steps.{MakesAnswer, moment};
ghost use Rattle.domain_script.specs.LaneKinds.{disk_lane};
ghost use Rattle.world_parts.specs.world_laws.World.{WorldStep};

use crate::disks::Disks;
use crate::entries::client_of;
use disk_lane::DiskLane;
use ldom_report::{Bytes, Entry, Journal, Who, Why};
use vio_bytes::NoMemory;
use vio_io::Store;

#[tactic(auto, using(crate::proofs::Opened::answered))]
impl<D: Store> Disks<D> {
    /// Pokes the memory of the disk with this number, once there is room for the entry and a copy of the bytes, which
    /// takes memory where they are more than 16.
    pub fn poke(
        &mut self,
        disk: u32,
        at: u64,
        bytes: &[u8],
        journal: &mut Journal,
    ) -> Result<(), NoMemory>
        requires disk { disk < length self.old.lanes }
        requires agrees { accepted_count journal.old.entries ≡ issued_on self.old.lanes }
        ensures made { OnOk result (MakesAnswer WorldStep (disk_lane disk)
            (Calls (script.DiskLane disk) (Pokes A at bytes.now)) (AnswersCall (Pokes A at bytes.now))
            (moment self.old journal.old.entries) (moment self.new journal.new.entries)) }
        ensures same { OnErr result ((self.new ≡ self.old) × (journal.new.entries ≡ journal.old.entries)) }
        ensures many { length self.new.lanes ≡ length self.old.lanes }
        ensures agrees { accepted_count journal.new.entries ≡ issued_on self.new.lanes }
        ensures there { length bytes.now ≤ 16 → 0 < journal.old.room → IsOk result }
    {
        journal.reserve(1)?;
        let kept = Bytes::from_slice(self.alloc, bytes)?;
        let entry = poke_lane(&mut self.lanes[disk as usize], disk, at, bytes, kept);
        journal.push(entry);
        Ok(())
    }
}

/// Pokes the memory of a lane's client, and gives the entry, with this copy of the bytes where they lie within it.
fn poke_lane(lane: &mut DiskLane, disk: u32, at: u64, bytes: &[u8], kept: Bytes) -> Entry
    requires kept { kept ≡ filled bytes.now }
    ensures answers { LaneAnswers (Calls (script.DiskLane disk) (Pokes A at bytes.now)) disk (AnswersCall (Pokes A at bytes.now))
        lane.old result lane.new }
    ensures shape { lane.new.shape ≡ lane.old.shape }
{
    let end = client_of(disk);
    if lane.poke(at, bytes) {
        Entry::Poked {
            end,
            at,
            bytes: kept,
        }
    } else {
        Entry::Refused {
            who: Who::End(end),
            why: Why::Range,
        }
    }
}
