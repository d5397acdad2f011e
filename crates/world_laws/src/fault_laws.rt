// What follows for the statuses of a lane and of a world, and for the faults of its image.

ghost use Rattle.std.specs.Prelude.{◌≡◌, ◌<◌, ◌≤◌, ◌^◌, ℕ, false, length, List, Some, ◌∷◌, ◌++◌, slice_get};
ghost use Rattle.std.specs.List.{count_by};
ghost use Rattle.runs.specs.Lawful.{log_of, Lawful};
ghost use Rattle.runs.specs.Run.{Run};
ghost use Rattle.vio_io.specs.Causes.{count_after};
ghost use Rattle.disk_law.specs.ListState.{ImageState};
ghost use Rattle.lane_laws.specs.DiskLog.{after, nothing_yet};
ghost use Rattle.lane_models.specs.DiskEvent.{DiskEvent, Done, Finished, Works};
ghost use Rattle.lane_models.specs.LaneState.{fresh, IsShape, LaneState, Shape};
ghost use Rattle.lane_models.specs.LaneStep.{LaneStep};
ghost use Rattle.world_laws.specs.Along.{happened};
ghost use Rattle.world_laws.specs.Forged.{NobodyForges};
ghost use Rattle.world_laws.specs.Rounds.{Each};
ghost use Rattle.world_laws.specs.Settle.{OfLane, SettleEntry};
ghost use Rattle.world_laws.specs.Sums.{IsUnforged};
ghost use Rattle.world_laws.specs.World.{AreShapes, fresh_world, WorldState, WorldStep};
ghost use Rattle.world_laws.specs.Failures.{in_entry, is_failed_done, is_failed_store, is_flush, is_store, is_write, NeverFailed};
ghost use Rattle.world_laws.specs.Statuses.{CarriesAsAsked, StatusAt, TellsStore};

/// On a lane that nobody forged, whether its store failed or not, whatever was lost, reset, stopped or restarted: each
/// descriptor is ended with the status 0 or 5. And each completion is of the request that was accepted with its id. It
/// has the status 0 and as many bytes as the request reads, or the status 5 and none. So it is along every run, where
/// nobody forged until then, and on each lane of a world.
pub fn statuses_tell_failing_stores()
    ensures finished { (shape : Shape) (events : List DiskEvent) (s : LaneState) (slot status : ℕ) (t : LaneState)
        → IsShape shape → Run LaneStep (fresh shape) events s → s.wire.forged ≡ false
        → LaneStep s (Works (Finished slot status)) t → TellsStore status }
    ensures done { (shape : Shape) (events : List DiskEvent) (s : LaneState)
        (id operation status : ℕ) (bytes : List ℕ) (t : LaneState)
        → IsShape shape → Run LaneStep (fresh shape) events s → s.wire.forged ≡ false
        → LaneStep s (Works (Done id operation status bytes)) t
        → CarriesAsAsked (log_of after (nothing_yet shape) events).work id status bytes }
    ensures run { (shape : Shape) (events : List DiskEvent) (s : LaneState)
        → IsShape shape → Run LaneStep (fresh shape) events s
        → Lawful StatusAt after (nothing_yet shape) events }
    ensures world { (shapes : List Shape) (image : ImageState) (entries : List SettleEntry) (w : WorldState)
        (k : ℕ) (shape : Shape)
        → AreShapes 0 shapes → Run WorldStep (fresh_world shapes image) entries w → slice_get shapes k ≡ Some shape
        → Lawful StatusAt after (nothing_yet shape) (happened k entries) }
{}

/// On a lane that nobody forged there are no more completions with the status 5 than calls of the store that failed. So
/// it is whatever was lost, reset, stopped or restarted on the way there. In a world the image's count of faults is
/// that of the start, and one higher for each call that failed, of any lane. Let it begin at 0. Then the completions
/// with the status 5 of a lane that nobody forged are no more than it counts, whatever was forged of others. So are
/// those of all lanes together, where nobody forged one.
pub fn failed_completions_are_counted()
    ensures lane { (shape : Shape) (events : List DiskEvent) (s : LaneState)
        → IsShape shape → Run LaneStep (fresh shape) events s → s.wire.forged ≡ false
        → count_by is_failed_done events ≤ count_by is_failed_store events }
    ensures image { (w : WorldState) (entries : List SettleEntry) (v : WorldState)
        → Run WorldStep w entries v
        → v.image.faults ≡ count_after (count_by (in_entry is_failed_store) entries) w.image.faults }
    ensures disk { (shapes : List Shape) (image : ImageState) (entries : List SettleEntry) (w : WorldState) (k : ℕ)
        → AreShapes 0 shapes → Run WorldStep (fresh_world shapes image) entries w
        → k < length shapes → NobodyForges (happened k entries) → image.faults ≡ 0 → length entries < 2 ^ 63
        → count_by is_failed_done (happened k entries) ≤ w.image.faults }
    ensures world { (shapes : List Shape) (image : ImageState) (entries : List SettleEntry) (w : WorldState)
        → AreShapes 0 shapes → Run WorldStep (fresh_world shapes image) entries w → Each IsUnforged w.lanes
        → image.faults ≡ 0 → length entries < 2 ^ 63
        → count_by (in_entry is_failed_done) entries ≤ w.image.faults }
{}

/// In a world the image's count of calls is that of the start, and one higher for each call of a store that its journal
/// tells, of any lane. Its counts of flushes and of writes are one higher for each that flushes or writes. So it is
/// called, flushed and written as often as that is told, also where packets and memory are forged and where it fails.
pub fn calls_of_the_image_are_told()
    ensures calls { (w : WorldState) (entries : List SettleEntry) (v : WorldState)
        → Run WorldStep w entries v → v.image.calls ≡ count_after (count_by (in_entry is_store) entries) w.image.calls }
    ensures flushes { (w : WorldState) (entries : List SettleEntry) (v : WorldState)
        → Run WorldStep w entries v
        → v.image.flushes ≡ count_after (count_by (in_entry is_flush) entries) w.image.flushes }
    ensures writes { (w : WorldState) (entries : List SettleEntry) (v : WorldState)
        → Run WorldStep w entries v
        → v.image.writes ≡ count_after (count_by (in_entry is_write) entries) w.image.writes }
{}

/// Where the image of a world counts no faults, no call of the store failed, on no lane. And each completion on a lane
/// that nobody forged has the status 0.
pub fn an_image_that_never_failed()
    ensures lanes { (shapes : List Shape) (image : ImageState) (entries : List SettleEntry) (w : WorldState)
        → Run WorldStep (fresh_world shapes image) entries w → w.image.faults ≡ 0 → Each NeverFailed w.lanes }
    ensures stores { (w : WorldState) (entries : List SettleEntry) (v : WorldState)
        → Run WorldStep w entries v → v.image.faults ≡ 0 → count_by (in_entry is_failed_store) entries ≡ 0 }
    ensures done { (shapes : List Shape) (image : ImageState) (entries : List SettleEntry) (w : WorldState)
        (k : ℕ) (s : LaneState) (before later : List SettleEntry) (id operation status : ℕ) (bytes : List ℕ)
        → AreShapes 0 shapes → Run WorldStep (fresh_world shapes image) entries w → w.image.faults ≡ 0
        → slice_get w.lanes k ≡ Some s → s.wire.forged ≡ false
        → entries ≡ before ++ OfLane k (Works (Done id operation status bytes)) ∷ later
        → status ≡ 0 }
{}
