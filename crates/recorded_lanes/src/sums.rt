// What is left to do on the lanes of disks.

ghost use Rattle.std.specs.Prelude.{◌≡◌, ◌*◌, ◌<◌, ◌≤◌, ◌^◌, length, slice_get, Some};
ghost use Rattle.world_parts.specs.lane_models.LaneState.{LaneState};
ghost use Rattle.world_parts.specs.world_laws.DiskKind.{waits_on};
ghost use Rattle.world_parts.specs.world_laws.Settle.{pending_on};

use crate::disks::Disks;
use disk_lane::DiskLane;
use vio_io::Store;

impl<D: Store> Disks<D> {
    /// Whether a lane isn't finished though its server runs.
    pub fn waits(&self, disk: u32) -> bool
        requires disk { disk < length self.now.lanes }
        ensures { (lane : LaneState) → slice_get self.now.lanes disk ≡ Some lane → result ≡ waits_on lane }
    {
        waits_on(&self.lanes[disk as usize])
    }

    /// How many requests are pending on all of them.
    pub fn pending(&self) -> u64
        ensures sum { result ≡ pending_on self.now.lanes }
        ensures small { result ≤ 8 * 2 ^ 32 }
        ensures few { length self.now.lanes ≤ 8 }
    {
        pending_on(&self.lanes)
    }
}

/// Whether a lane isn't finished though its server runs.
#[tactic(auto, using(crate::proofs::Waiting::waits_by))]
fn waits_on(lane: &DiskLane) -> bool
    ensures { result ≡ waits_on lane.now }
{
    !lane.finished() && lane.running()
}

/// How many requests are pending on these lanes.
fn pending_on(lanes: &[DiskLane]) -> u64
    requires few { length lanes.now ≤ 8 }
    ensures sum { result ≡ pending_on lanes.now }
    ensures small { result ≤ 8 * 2 ^ 32 }
{
    let mut pending = 0;
    for lane in lanes {
        pending += u64::from(lane.pending());
    }
    pending
}
