// What follows for the image of a world along every run.

ghost use Rattle.std.specs.Prelude.{◌≡◌, ℕ, ◌+◌, ◌*◌, ◌≤◌, ◌++◌, ◌∷◌, false, List, length, Some, slice_get};
ghost use Rattle.runs.specs.Lawful.{log_of};
ghost use Rattle.runs.specs.Run.{Run};
ghost use Rattle.disk_law.specs.ListState.{ImageState};
ghost use Rattle.lane_laws.specs.DiskLog.{after, nothing_yet};
ghost use Rattle.lane_models.specs.DiskEvent.{DiskEvent, Done, Works};
ghost use Rattle.lane_models.specs.LaneState.{fresh, IsShape, LaneState, Shape};
ghost use Rattle.lane_models.specs.LaneStep.{LaneStep};
ghost use Rattle.lane_laws.specs.Blocks.{after_requests};
ghost use Rattle.lane_laws.specs.Headline.{CompletionShows, HoldsDone};
ghost use Rattle.lane_laws.specs.ImageStep.{region_of};
ghost use Rattle.world_laws.specs.Along.{happened};
ghost use Rattle.world_laws.specs.Settle.{OfLane, SettleEntry};
ghost use Rattle.world_laws.specs.World.{fresh_world, IsWorld, LaneMoves, OneMoves, WorldState, WorldStep};
ghost use Rattle.world_laws.specs.NamesNo.{AllLeaveAlone};
ghost use Rattle.world_laws.specs.OwnImage.{OwnImage};
ghost use Rattle.world_laws.specs.Stays.{StaysAround, StaysAt, StaysBehind};

/// A step of a disk's lane changes of a told image only bytes of the disk's region, forged or not, whether the store
/// fails or not. The image is told still and as long, and the same before the region and after it. So it is of any lane
/// that was reached, and of each lane of a world.
pub fn stores_stay_within_their_disks()
    ensures lane { (shape : Shape) (events : List DiskEvent) (s : LaneState) (event : DiskEvent) (t : LaneState)
        (image next : ImageState) (store : List ℕ)
        → IsShape shape → Run LaneStep (fresh shape) events s → LaneMoves s image event t next
        → image.told ≡ Some store → 512 * (shape.first + shape.blocks) ≤ length store
        → StaysAround shape store next.told }
    ensures world { (shapes : List Shape) (image : ImageState) (first store : List ℕ) (entries : List SettleEntry)
        (w : WorldState) (k : ℕ) (event : DiskEvent) (v : WorldState) (shape : Shape)
        → IsWorld shapes image → image.told ≡ Some first → Run WorldStep (fresh_world shapes image) entries w
        → OneMoves w k event v → slice_get shapes k ≡ Some shape → w.image.told ≡ Some store
        → StaysAround shape store v.image.told }
{}

/// After all disks of a world a told image is as it was at the start, and it is as long, forged or not, whether the
/// store fails or not.
pub fn images_outside_all_disks_stay()
    ensures { (shapes : List Shape) (image : ImageState) (first : List ℕ)
        → IsWorld shapes image → image.told ≡ Some first → (entries : List SettleEntry) (w : WorldState)
        → Run WorldStep (fresh_world shapes image) entries w → StaysBehind shapes first w.image.told }
{}

/// Along every run of a world each disk that nobody forged and whose store didn't fail has its own image. Its lane,
/// beside its region of the world's image, is run by what happened to it. That is so whatever happened to the others,
/// also where they were forged and their stores failed.
pub fn each_disk_has_its_own_image()
    ensures { (shapes : List Shape) (image : ImageState) (first : List ℕ) (k : ℕ) (shape : Shape)
        → IsWorld shapes image → image.told ≡ Some first → slice_get shapes k ≡ Some shape
        → (entries : List SettleEntry) (w : WorldState) → Run WorldStep (fresh_world shapes image) entries w
        → (s : LaneState) → slice_get w.lanes k ≡ Some s → s.wire.forged ≡ false → s.failed ≡ false
        → OwnImage shape first (happened k entries) s w.image.told }
{}

/// Each completion of a disk that nobody forged and whose store didn't fail until then is of the first request that
/// isn't done, with status 0. That of a read shows for each block the last earlier write of the disk, or the first
/// image where there is none. Or else a write that was issued after it, where both were disturbed by a reset or a stop.
/// So it is whatever happened to the other disks, at each completion of a disk that is so at the end of a run.
pub fn completions_of_each_disk_show_the_last_write()
    ensures steps { (shapes : List Shape) (image : ImageState) (first : List ℕ) (k : ℕ) (shape : Shape)
        → IsWorld shapes image → image.told ≡ Some first → slice_get shapes k ≡ Some shape
        → (before : List SettleEntry) (w : WorldState) (id operation status : ℕ) (bytes : List ℕ) (v : WorldState)
        (t : LaneState)
        → Run WorldStep (fresh_world shapes image) before w
        → WorldStep w (OfLane k (Works (Done id operation status bytes))) v
        → slice_get v.lanes k ≡ Some t → t.wire.forged ≡ false → t.failed ≡ false
        → CompletionShows (region_of shape first) (log_of after (nothing_yet shape) (happened k before)) status bytes }
    ensures fronts { (shapes : List Shape) (image : ImageState) (first : List ℕ) (k : ℕ) (shape : Shape)
        → IsWorld shapes image → image.told ≡ Some first → slice_get shapes k ≡ Some shape
        → (before : List SettleEntry) (id operation status : ℕ) (bytes : List ℕ) (behind : List SettleEntry)
        (w : WorldState) (s : LaneState)
        → Run WorldStep (fresh_world shapes image)
        (before ++ OfLane k (Works (Done id operation status bytes)) ∷ behind) w
        → slice_get w.lanes k ≡ Some s → s.wire.forged ≡ false → s.failed ≡ false
        → CompletionShows (region_of shape first) (log_of after (nothing_yet shape) (happened k before)) status bytes }
{}

/// At each moment of a world each block of a disk is that of the first image with the requests that are done. Or it is
/// that of a write that the disk accepted and that isn't done. And where all are done its region is the first content
/// with all of them, once each. That is so where nobody forged the disk's lane and its store didn't fail, and those
/// that are done are applied in their order.
pub fn each_disk_holds_what_is_done()
    ensures holds { (shapes : List Shape) (image : ImageState) (first : List ℕ) (k : ℕ) (shape : Shape)
        → IsWorld shapes image → image.told ≡ Some first → slice_get shapes k ≡ Some shape
        → (entries : List SettleEntry) (w : WorldState) (s : LaneState) (now : List ℕ)
        → Run WorldStep (fresh_world shapes image) entries w → slice_get w.lanes k ≡ Some s
        → s.wire.forged ≡ false → s.failed ≡ false → w.image.told ≡ Some now
        → HoldsDone shape.blocks (region_of shape first) (log_of after (nothing_yet shape) (happened k entries))
        (region_of shape now) }
    ensures all { (shapes : List Shape) (image : ImageState) (first : List ℕ) (k : ℕ) (shape : Shape)
        → IsWorld shapes image → image.told ≡ Some first → slice_get shapes k ≡ Some shape
        → (entries : List SettleEntry) (w : WorldState) (s : LaneState) (now : List ℕ)
        → Run WorldStep (fresh_world shapes image) entries w → slice_get w.lanes k ≡ Some s
        → s.wire.forged ≡ false → s.failed ≡ false → w.image.told ≡ Some now
        → (log_of after (nothing_yet shape) (happened k entries)).work.done
        ≡ length (log_of after (nothing_yet shape) (happened k entries)).work.issued
        → region_of shape now
        ≡ after_requests (region_of shape first) (log_of after (nothing_yet shape) (happened k entries)).work.issued }
{}

/// Take a place of a told image that each disk leaves alone. It lies outside of the disk's region; or nobody forged the
/// disk and it lies in no write that the disk accepted. It keeps its byte, and the image its length, whatever was lost,
/// reset, stopped or restarted, whether stores failed or not, and whatever was forged of other disks.
pub fn images_keep_what_no_write_names()
    ensures { (shapes : List Shape) (image : ImageState) (first : List ℕ) (place : ℕ)
        → IsWorld shapes image → image.told ≡ Some first → (entries : List SettleEntry) (w : WorldState)
        → Run WorldStep (fresh_world shapes image) entries w → AllLeaveAlone shapes place entries
        → StaysAt place first w.image.told }
{}
