// What follows for the requests of a world's disks.

ghost use Rattle.std.specs.Prelude.{◌≡◌, ◌≤◌, ◌↔◌, ℕ, false, List, Some, drop, length, slice_get};
ghost use Rattle.runs.specs.Run.{Run};
ghost use Rattle.disk_law.specs.Issued.{completed, issued, Admission, CompletesOnceInOrder};
ghost use Rattle.disk_law.specs.ListState.{ImageState};
ghost use Rattle.lane_models.specs.DiskEvent.{DiskEvent};
ghost use Rattle.lane_models.specs.LaneState.{fresh, IsShape, LaneState, Shape};
ghost use Rattle.lane_models.specs.LaneStep.{LaneStep};
ghost use Rattle.world_laws.specs.Along.{happened};
ghost use Rattle.world_laws.specs.Settle.{SettleEntry, pending_on};
ghost use Rattle.world_laws.specs.World.{AreShapes, WorldState, WorldStep, fresh_world};
ghost use Rattle.world_laws.specs.Accepted.{accepted_in, next_ids};
ghost use Rattle.world_laws.specs.Requests.{pending_of, requests_of};
ghost use Rattle.world_laws.specs.Forged.{NobodyForges};

/// In every run of a world, forged or not, whether the store fails or not: what the journal says of a disk's requests
/// is what a plain list does. A request is refused for its defect; else it finds no room where as many are pending as
/// the ring has slots. Else it is accepted with the number of those before it. Each is completed at most once, in the
/// order in which they were accepted.
pub fn requests_of_each_disk_are_admitted_and_complete_once()
    ensures once { (shapes : List Shape) (image : ImageState) (entries : List SettleEntry) (w : WorldState)
        (k : ℕ) (shape : Shape)
        → AreShapes 0 shapes → Run WorldStep (fresh_world shapes image) entries w → slice_get shapes k ≡ Some shape
        → CompletesOnceInOrder (requests_of (happened k entries)) }
    ensures admission { (shapes : List Shape) (image : ImageState) (entries : List SettleEntry) (w : WorldState)
        (k : ℕ) (shape : Shape)
        → AreShapes 0 shapes → Run WorldStep (fresh_world shapes image) entries w → slice_get shapes k ≡ Some shape
        → Admission shape.blocks shape.slots (requests_of (happened k entries)) }
{}

/// Along every run of a lane, and so of each disk of a world, the client holds the requests that were accepted and
/// aren't completed, in their order. Its next id is how many were accepted.
pub fn requests_of_a_lane_are_pending_in_order()
    ensures pending { (shape : Shape) (events : List DiskEvent) (s : LaneState)
        → IsShape shape → Run LaneStep (fresh shape) events s
        → s.client.pending ≡ drop (length (completed (requests_of events))) (issued (requests_of events)) }
    ensures next { (shape : Shape) (events : List DiskEvent) (s : LaneState)
        → IsShape shape → Run LaneStep (fresh shape) events s
        → s.client.next_id ≡ length (issued (requests_of events)) }
    ensures of_disk { (shapes : List Shape) (image : ImageState) (entries : List SettleEntry) (w : WorldState)
        (k : ℕ) (shape : Shape) (s : LaneState)
        → AreShapes 0 shapes → Run WorldStep (fresh_world shapes image) entries w
        → slice_get shapes k ≡ Some shape → slice_get w.lanes k ≡ Some s
        → s.client.pending ≡ drop (length (completed (requests_of (happened k entries))))
        (issued (requests_of (happened k entries))) }
    ensures next_of_disk { (shapes : List Shape) (image : ImageState) (entries : List SettleEntry) (w : WorldState)
        (k : ℕ) (shape : Shape) (s : LaneState)
        → AreShapes 0 shapes → Run WorldStep (fresh_world shapes image) entries w
        → slice_get shapes k ≡ Some shape → slice_get w.lanes k ≡ Some s
        → s.client.next_id ≡ length (issued (requests_of (happened k entries))) }
    ensures of_world { (shapes : List Shape) (image : ImageState) (entries : List SettleEntry) (w : WorldState)
        → AreShapes 0 shapes → Run WorldStep (fresh_world shapes image) entries w
        → pending_on w.lanes ≡ pending_of 0 (length shapes) entries }
{}

/// A lane's state says whether somebody forged it: nobody did exactly where none of its events forges. So it is of
/// each lane of a world by what the journal says happened to it, whatever happened to the others.
pub fn forging_is_told()
    ensures lane { (shape : Shape) (events : List DiskEvent) (s : LaneState)
        → Run LaneStep (fresh shape) events s → (s.wire.forged ≡ false) ↔ NobodyForges events }
    ensures world { (shapes : List Shape) (image : ImageState) (entries : List SettleEntry) (w : WorldState)
        (k : ℕ) (shape : Shape) (s : LaneState)
        → Run WorldStep (fresh_world shapes image) entries w
        → slice_get shapes k ≡ Some shape → slice_get w.lanes k ≡ Some s
        → (s.wire.forged ≡ false) ↔ NobodyForges (happened k entries) }
{}

/// The next ids of a world's clients together are as many as the requests that its journal says were accepted; so each
/// is at most the journal's length.
pub fn accepted_counts()
    ensures sum { (shapes : List Shape) (image : ImageState) (entries : List SettleEntry) (w : WorldState)
        → AreShapes 0 shapes → Run WorldStep (fresh_world shapes image) entries w
        → next_ids w.lanes ≡ accepted_in entries }
    ensures each { (shapes : List Shape) (image : ImageState) (entries : List SettleEntry) (w : WorldState)
        (k : ℕ) (s : LaneState)
        → AreShapes 0 shapes → Run WorldStep (fresh_world shapes image) entries w → slice_get w.lanes k ≡ Some s
        → s.client.next_id ≤ length entries }
{}
