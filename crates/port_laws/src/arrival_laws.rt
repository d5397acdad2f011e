// Which frames of a port arrive.

ghost use Rattle.std.specs.Prelude.{◌≡◌, ◌+◌, ◌++◌, ◌≤◌, false, length, List, []};
ghost use Rattle.runs.specs.Lawful.{log_of};
ghost use Rattle.runs.specs.Run.{Run};
ghost use Rattle.ldc_queue.specs.declared.end.End.TheVariants.{A, B};
ghost use Rattle.lane_models.specs.NetLaneState.{IsNetShape, NetShape};
ghost use Rattle.lane_models.specs.PortLog.{after, no_events};
ghost use Rattle.lane_models.specs.PortState.{fresh_port, PortEvent, PortState, PortStep};
ghost use Rattle.port_laws.specs.InOrder.{frames_taken};
ghost use Rattle.port_laws.specs.Lost.{frames_lost};

/// On a port that nobody forged, each frame that an end was given was taken by the other end, is held, or was said to be
/// lost. The joins and resets of the end say that. At the switch's end what waits in the out queue is held.
pub fn each_frame_arrives_or_is_held_or_lost()
    ensures to_switch { (shape : NetShape) (events : List PortEvent) (s : PortState) → IsNetShape shape → Run PortStep (fresh_port shape) events s
        → s.lane.wire.forged ≡ false
        → length (log_of after (no_events shape) events).guest.given ≤ (length (frames_taken B events) + frames_lost A events) + length s.lane.guest.frames }
    ensures to_guest { (shape : NetShape) (events : List PortEvent) (s : PortState) → IsNetShape shape → Run PortStep (fresh_port shape) events s
        → s.lane.wire.forged ≡ false
        → length (log_of after (no_events shape) events).hub.given
        ≤ (length (frames_taken A events) + frames_lost B events) + length (s.lane.hub.frames ++ s.queue) }
{}

/// On a port that nobody forged, the other end took all frames that an end was given, byte by byte and in their order,
/// where no frame is held. None of its joins and resets says then that one is lost.
pub fn all_frames_arrive_where_none_is_lost()
    ensures to_switch { (shape : NetShape) (events : List PortEvent) (s : PortState) → IsNetShape shape → Run PortStep (fresh_port shape) events s
        → s.lane.wire.forged ≡ false → frames_lost A events ≡ 0 → s.lane.guest.frames ≡ []
        → frames_taken B events ≡ (log_of after (no_events shape) events).guest.given }
    ensures to_guest { (shape : NetShape) (events : List PortEvent) (s : PortState) → IsNetShape shape → Run PortStep (fresh_port shape) events s
        → s.lane.wire.forged ≡ false → frames_lost B events ≡ 0 → s.lane.hub.frames ++ s.queue ≡ []
        → frames_taken A events ≡ (log_of after (no_events shape) events).hub.given }
{}
