// What each event keeps of a lane of a disk, and when it gives an id.

ghost use Rattle.std.specs.Prelude.{◌≡◌, ℕ, ◌+◌, List, Some, slice_get, slice_set};
ghost use Rattle.lane_models.specs.DiskEvent.{DiskEvent};
ghost use Rattle.lane_models.specs.LaneState.{LaneState};
ghost use Rattle.lane_models.specs.LaneStep.{LaneStep};
ghost use Rattle.world_laws.specs.Issued.{issued_on, next_behind};

/// An event gives the client's next id to a request that it accepts, and no other event gives one; and no event changes
/// a lane's shape.
pub fn each_event_gives_an_id_where_it_accepts()
    ensures next { (s : LaneState) (event : DiskEvent) (t : LaneState) → LaneStep s event t
        → t.client.next_id ≡ next_behind event s.client.next_id }
    ensures shape { (s : LaneState) (event : DiskEvent) (t : LaneState) → LaneStep s event t → t.shape ≡ s.shape }
    ensures all { (lanes : List LaneState) (k : ℕ) (s t : LaneState) → slice_get lanes k ≡ Some s
        → issued_on (slice_set lanes k t) + s.client.next_id ≡ issued_on lanes + t.client.next_id }
{}
