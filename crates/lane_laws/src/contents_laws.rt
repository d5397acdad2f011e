// What follows of the contents of a lane.

ghost use Rattle.std.specs.Prelude.{◌≡◌, ℕ, ◌+◌, ◌≤◌, false, length, List, [], ◌*◌, None, Option, Some};
ghost use Rattle.runs.specs.Lawful.{log_of, Lawful};
ghost use Rattle.runs.specs.Run.{Run};
ghost use Rattle.cookie_copy.specs.declared.fault.CopyFault.{CopyFault};
ghost use Rattle.lane_laws.specs.Agreement.{NearAgrees};
ghost use Rattle.lane_laws.specs.DiskLog.{after, nothing_yet};
ghost use Rattle.lane_models.specs.DiskEvent.{DiskEvent, Done, Finished, Moved, Works};
ghost use Rattle.lane_models.specs.LaneState.{fresh, IsShape, LaneState, Shape};
ghost use Rattle.lane_models.specs.LaneStep.{LaneStep};
ghost use Rattle.lane_laws.specs.NearLaws.{NearAt, NearInOrder};
ghost use Rattle.lane_models.specs.Served.{Served};
ghost use Rattle.lane_laws.specs.Contents.{ContentsStand, WorkHeld, WritesHeld};
ghost use Rattle.lane_laws.specs.Blocks.{after_requests};
ghost use Rattle.lane_laws.specs.Headline.{CompletionShows, fresh_image, HoldsDone, Imaged, ImagedStep};
ghost use Rattle.lane_laws.specs.ImageStep.{content_after, ImageStep, region_of, SameAround};
ghost use Rattle.lane_laws.specs.LaneView.{view_of};
ghost use Rattle.lane_laws.specs.LaterDisturbed.{LaterDisturbed};
ghost use Rattle.lane_laws.specs.Near.{FrontShows, ImageHolds, IsNear};
ghost use Rattle.lane_laws.specs.NearInLane.{NearInLane};
ghost use Rattle.lane_laws.specs.ZeroStatuses.{StatusesZero};

/// On a lane that nobody forged and whose store didn't fail, the buffer of each write that is published in the
/// client's session holds what it writes. So it is whatever was lost, reset, stopped or restarted. And a descriptor
/// in work goes on as its request has it: as many blocks of a write are stored as come before its unit. The bytes
/// that are held of the unit are the write's own, and it ends with the status 0.
pub fn buffers_hold_what_was_asked()
    ensures written { (shape : Shape) (events : List DiskEvent) (s : LaneState)
        → IsShape shape → Run LaneStep (fresh shape) events s
        → s.wire.forged ≡ false → s.failed ≡ false → WritesHeld s }
    ensures contents { (shape : Shape) (events : List DiskEvent) (s : LaneState)
        → IsShape shape → Run LaneStep (fresh shape) events s
        → s.wire.forged ≡ false → s.failed ≡ false → ContentsStand (view_of s) }
    ensures work { (shape : Shape) (events : List DiskEvent) (s : LaneState)
        → IsShape shape → Run LaneStep (fresh shape) events s
        → s.wire.forged ≡ false → s.failed ≡ false → WorkHeld (view_of s) }
{}

/// The image of a disk is near the content of its requests that are done: on a fresh lane the image is the content. And
/// each event leaves it so where nobody forged and no store failed. A unit that is stored, a completion, a reset of
/// either end, a stop and a restart are among these events. A completion applies its request to the content, and no
/// other event changes it.
pub fn images_stay_near()
    ensures fresh { (shape : Shape) (image : List ℕ)
        → length image ≡ 512 * shape.blocks → IsNear image (fresh shape) image }
    ensures steps { (shape : Shape) (events : List DiskEvent) (s : LaneState) (event : DiskEvent) (t : LaneState)
        (content image next : List ℕ)
        → IsShape shape → Run LaneStep (fresh shape) events s → LaneStep s event t
        → t.wire.forged ≡ false → t.failed ≡ false
        → ImageStep s event t image next → IsNear content s image → IsNear (content_after s content event) t next }
{}

/// On a lane that nobody forged and whose store didn't fail, let the image be near the content of the requests that are
/// done. Then a completion of a read carries its blocks. Each of them is the content's, or that of a write after it
/// which was published in an earlier session; any other completion carries nothing.
pub fn completions_show_their_content()
    ensures { (shape : Shape) (events : List DiskEvent) (s : LaneState) (id operation status : ℕ) (bytes : List ℕ)
        (t : LaneState) (content image : List ℕ)
        → IsShape shape → Run LaneStep (fresh shape) events s → LaneStep s (Works (Done id operation status bytes)) t
        → t.wire.forged ≡ false → t.failed ≡ false → IsNear content s image
        → FrontShows content s.client.pending s.near.m bytes }
{}

/// On a lane that nobody forged and whose store didn't fail: no copy of a unit is refused, each descriptor gets the
/// status 0, and so does each completion. And in the log each slot of the ring that is DONE has it, and each session
/// that the server opened has no other.
pub fn statuses_are_zero()
    ensures moved { (shape : Shape) (events : List DiskEvent) (s : LaneState) (unit : ℕ) (fault : Option CopyFault)
        (t : LaneState)
        → IsShape shape → Run LaneStep (fresh shape) events s → LaneStep s (Works (Moved unit fault)) t
        → t.wire.forged ≡ false → t.failed ≡ false → fault ≡ None }
    ensures finished { (shape : Shape) (events : List DiskEvent) (s : LaneState) (slot status : ℕ) (t : LaneState)
        → IsShape shape → Run LaneStep (fresh shape) events s → LaneStep s (Works (Finished slot status)) t
        → t.wire.forged ≡ false → t.failed ≡ false → status ≡ 0 }
    ensures done { (shape : Shape) (events : List DiskEvent) (s : LaneState)
        (id operation status : ℕ) (bytes : List ℕ) (t : LaneState)
        → IsShape shape → Run LaneStep (fresh shape) events s → LaneStep s (Works (Done id operation status bytes)) t
        → t.wire.forged ≡ false → t.failed ≡ false → status ≡ 0 }
    ensures logged { (shape : Shape) (events : List DiskEvent) (s : LaneState)
        → IsShape shape → Run LaneStep (fresh shape) events s
        → (log_of after (nothing_yet shape) events).wire.forged ≡ false → s.failed ≡ false
        → StatusesZero (log_of after (nothing_yet shape) events) }
{}

/// On a lane that nobody forged and whose store didn't fail, let the image be near the content of the requests that are
/// done. Then each block of the image is the content's, or that of a pending write; and where nothing is pending the
/// image is the content.
pub fn near_images_hold_the_content()
    ensures holds { (shape : Shape) (events : List DiskEvent) (s : LaneState) (content image : List ℕ)
        → IsShape shape → Run LaneStep (fresh shape) events s
        → s.wire.forged ≡ false → s.failed ≡ false
        → IsNear content s image → ImageHolds s.client.blocks content s.client.pending image }
    ensures settled { (shape : Shape) (events : List DiskEvent) (s : LaneState) (content image : List ℕ)
        → IsShape shape → Run LaneStep (fresh shape) events s
        → s.wire.forged ≡ false → s.failed ≡ false
        → IsNear content s image → s.client.pending ≡ [] → image ≡ content }
{}

/// On a lane that nobody forged, pending requests that were published in an earlier session were issued before the
/// last reset of an end or stop of the server. Their writes are those that a read before them may show.
pub fn later_writes_were_disturbed()
    ensures { (shape : Shape) (events : List DiskEvent) (s : LaneState)
        → IsShape shape → Run LaneStep (fresh shape) events s → s.wire.forged ≡ false
        → LaterDisturbed s (log_of after (nothing_yet shape) events) }
{}

/// On a lane that nobody forged and whose store didn't fail: a server's step with a store that tells its bytes is a
/// step of the disk's image. That is the disk's region of the store, and the step leaves what lies before the
/// region and after it.
pub fn a_store_has_the_image_as_its_region()
    ensures image { (shape : Shape) (events : List DiskEvent) (s : LaneState) (event : DiskEvent) (t : LaneState)
        (store new : List ℕ)
        → IsShape shape → Run LaneStep (fresh shape) events s → t.wire.forged ≡ false → t.failed ≡ false
        → 512 * (shape.first + shape.blocks) ≤ length store → Served s (Some store) event t (Some new)
        → ImageStep s event t (region_of shape store) (region_of shape new) }
    ensures around { (shape : Shape) (events : List DiskEvent) (s : LaneState) (event : DiskEvent) (t : LaneState)
        (store new : List ℕ)
        → IsShape shape → Run LaneStep (fresh shape) events s → t.wire.forged ≡ false → t.failed ≡ false
        → 512 * (shape.first + shape.blocks) ≤ length store → Served s (Some store) event t (Some new)
        → SameAround shape store new }
{}

/// On a lane that nobody forged, also where a store failed: its near counts are those of its log. Of the pending
/// requests the server finished the first k in its session, and stored the first u blocks of the write after them. The
/// first m were published in an earlier session, and the first p ever.
pub fn near_counts_are_the_logs()
    ensures { (shape : Shape) (events : List DiskEvent) (s : LaneState)
        → IsShape shape → Run LaneStep (fresh shape) events s
        → (log_of after (nothing_yet shape) events).wire.forged ≡ false
        → NearAgrees s (log_of after (nothing_yet shape) events).near }
{}

/// On a lane that nobody forged, also where a store failed, the counts of pending requests are in order. Those that the
/// server finished in its session, and those that were published in an earlier one, are among the ones that were ever
/// published. A completion is of one that is finished.
pub fn near_counts_stand_in_order()
    ensures lane { (shape : Shape) (events : List DiskEvent) (s : LaneState)
        → IsShape shape → Run LaneStep (fresh shape) events s → s.wire.forged ≡ false → NearInLane s }
    ensures done { (shape : Shape) (events : List DiskEvent) (s : LaneState)
        (id operation status : ℕ) (bytes : List ℕ) (t : LaneState)
        → IsShape shape → Run LaneStep (fresh shape) events s → LaneStep s (Works (Done id operation status bytes)) t
        → s.wire.forged ≡ false → 1 ≤ s.near.k }
    ensures logged { (shape : Shape) (events : List DiskEvent) (s : LaneState)
        → IsShape shape → Run LaneStep (fresh shape) events s
        → (log_of after (nothing_yet shape) events).wire.forged ≡ false
        → NearInOrder (log_of after (nothing_yet shape) events) }
    ensures run { (shape : Shape) (events : List DiskEvent) (s : LaneState)
        → IsShape shape → Run LaneStep (fresh shape) events s
        → Lawful NearAt after (nothing_yet shape) events }
{}

/// Along every run of a lane with the image of its disk, each completion is of the first request that isn't done, with
/// status 0. That of a read shows for each block the last earlier write, or the first content where there is none. Or
/// else a write that was issued after it, where both were disturbed by a reset or a stop. The run begins with a first
/// content, nobody forged the lane and its store didn't fail, whatever was lost, reset, stopped or restarted.
pub fn completions_show_the_last_write()
    ensures { (shape : Shape) (first : List ℕ) (events : List DiskEvent) (a : Imaged)
        (id operation status : ℕ) (bytes : List ℕ) (b : Imaged)
        → IsShape shape → length first ≡ 512 * shape.blocks → Run ImagedStep (fresh_image shape first) events a
        → ImagedStep a (Works (Done id operation status bytes)) b
        → b.lane.wire.forged ≡ false → b.lane.failed ≡ false
        → CompletionShows first (log_of after (nothing_yet shape) events) status bytes }
{}

/// At each moment of such a run each block of the image is that of the first content with the requests that are done.
/// Or it is that of a write that was accepted and isn't done. And where all are done the image is the first content
/// with all of them, once each. Those that are done are applied in their order.
pub fn an_image_holds_what_is_done()
    ensures holds { (shape : Shape) (first : List ℕ) (events : List DiskEvent) (a : Imaged)
        → IsShape shape → length first ≡ 512 * shape.blocks → Run ImagedStep (fresh_image shape first) events a
        → a.lane.wire.forged ≡ false → a.lane.failed ≡ false
        → HoldsDone shape.blocks first (log_of after (nothing_yet shape) events) a.image }
    ensures all { (shape : Shape) (first : List ℕ) (events : List DiskEvent) (a : Imaged)
        → IsShape shape → length first ≡ 512 * shape.blocks → Run ImagedStep (fresh_image shape first) events a
        → a.lane.wire.forged ≡ false → a.lane.failed ≡ false
        → (log_of after (nothing_yet shape) events).work.done
        ≡ length (log_of after (nothing_yet shape) events).work.issued
        → a.image ≡ after_requests first (log_of after (nothing_yet shape) events).work.issued }
{}
