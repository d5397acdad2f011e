// What follows for the frames of each port of a world.

ghost use Rattle.std.specs.Prelude.{◌≡◌, ◌++◌, ℕ, List, slice_get, Some};
ghost use Rattle.runs.specs.Lawful.{log_of};
ghost use Rattle.runs.specs.Run.{Run};
ghost use Rattle.disk_law.specs.ListState.{ImageState};
ghost use Rattle.lane_models.specs.LaneState.{Shape};
ghost use Rattle.lane_kinds.specs.Lanes.{EachOf};
ghost use Rattle.ldc_queue.specs.declared.end.End.TheVariants.{A, B};
ghost use Rattle.port_laws.specs.InOrder.{frames_taken, InOrder};
ghost use Rattle.port_laws.specs.Lost.{frames_lost};
ghost use Rattle.lane_models.specs.NetLaneState.{IsNetShape, NetShape};
ghost use Rattle.lane_models.specs.PortLog.{after, no_events};
ghost use Rattle.lane_models.specs.PortState.{PortState};
ghost use Rattle.switch_laws.specs.Reached.{IsUnforged};
ghost use Rattle.world_laws.specs.Settle.{SettleEntry};
ghost use Rattle.world_laws.specs.World.{AreShapes};
ghost use Rattle.domain_laws.specs.Domain.{DomainState, DomainStep, fresh_domain, PortsStep};
ghost use Rattle.domain_laws.specs.Frames.{EndsSettled, frames_arrived, frames_put, frames_queued, frames_switched, port_events};

/// On each port of a world that nobody forged, the frames that its end at the switch took are some of those that its
/// guest was given. Those that its guest took are some of those that the switch put into its out queue. They are in
/// order, each at most once, whatever was lost and reset, and whatever happened to other disks and ports.
pub fn frames_of_each_port_arrive_in_order()
    ensures to_switch { (shapes : List Shape) (image : ImageState) (nets : List NetShape) → EachOf IsNetShape nets
        → (entries : List SettleEntry) (w : DomainState) (k : ℕ) (shape : NetShape) (s : PortState)
        → Run DomainStep (fresh_domain shapes image nets) entries w → slice_get nets k ≡ Some shape
        → slice_get w.second k ≡ Some s → IsUnforged s
        → InOrder 0 (frames_switched k entries) (frames_queued k entries) }
    ensures to_guest { (shapes : List Shape) (image : ImageState) (nets : List NetShape) → EachOf IsNetShape nets
        → (entries : List SettleEntry) (w : DomainState) (k : ℕ) (shape : NetShape) (s : PortState)
        → Run DomainStep (fresh_domain shapes image nets) entries w → slice_get nets k ≡ Some shape
        → slice_get w.second k ≡ Some s → IsUnforged s
        → InOrder 0 (frames_arrived k entries) (frames_put k entries) }
{}

/// Where a world of disks and ports ends settled, all frames of a port that nobody forged arrive, if none is said to be
/// lost. If no join or reset of its guest says so, the frames that its end at the switch took are those that the guest
/// was given. If none of that end says so, those that the guest took are those that the switch put into the out queue.
pub fn all_frames_of_a_port_arrive_where_a_world_ends_settled()
    ensures to_switch { (shapes : List Shape) (image : ImageState) (nets : List NetShape) → EachOf IsNetShape nets → AreShapes 0 shapes
        → (before part : List SettleEntry) (w v : DomainState) (k : ℕ) (shape : NetShape) (s : PortState)
        → EndsSettled (fresh_domain shapes image nets) w before part v → slice_get nets k ≡ Some shape
        → slice_get v.second k ≡ Some s → IsUnforged s → frames_lost A (port_events k (before ++ part)) ≡ 0
        → frames_switched k (before ++ part) ≡ frames_queued k (before ++ part) }
    ensures to_guest { (shapes : List Shape) (image : ImageState) (nets : List NetShape) → EachOf IsNetShape nets → AreShapes 0 shapes
        → (before part : List SettleEntry) (w v : DomainState) (k : ℕ) (shape : NetShape) (s : PortState)
        → EndsSettled (fresh_domain shapes image nets) w before part v → slice_get nets k ≡ Some shape
        → slice_get v.second k ≡ Some s → IsUnforged s → frames_lost B (port_events k (before ++ part)) ≡ 0
        → frames_arrived k (before ++ part) ≡ frames_put k (before ++ part) }
{}

/// What a journal tells of the frames of a port is what its log has of them. The frames `Queued` at it are those that its
/// guest was given, and those `Switched` at it those that its end at the switch took. Those `Switched` at others with it
/// in their set are what was put into its out queue, and those of `Frame` at its guest what that took.
pub fn a_journal_tells_the_frames_of_each_port()
    ensures queued { (shape : NetShape) (k : ℕ) (lanes : List PortState) (entries : List SettleEntry) (behind : List PortState)
        → Run PortsStep lanes entries behind
        → frames_queued k entries ≡ (log_of after (no_events shape) (port_events k entries)).guest.given }
    ensures put { (shape : NetShape) (k : ℕ) (lanes : List PortState) (entries : List SettleEntry) (behind : List PortState)
        → Run PortsStep lanes entries behind
        → frames_put k entries ≡ (log_of after (no_events shape) (port_events k entries)).hub.given }
    ensures switched { (shape : NetShape) (k : ℕ) (lanes : List PortState) (entries : List SettleEntry) (behind : List PortState)
        → Run PortsStep lanes entries behind → frames_switched k entries ≡ frames_taken B (port_events k entries) }
    ensures arrived { (shape : NetShape) (k : ℕ) (lanes : List PortState) (entries : List SettleEntry) (behind : List PortState)
        → Run PortsStep lanes entries behind → frames_arrived k entries ≡ frames_taken A (port_events k entries) }
{}
