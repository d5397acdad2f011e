// Why an end of a port resets itself, where a port is finished, and where its ends may be idle, along every run, forged
// or not.

ghost use Rattle.std.specs.Prelude.{◌≡◌, false, length, List, true};
ghost use Rattle.runs.specs.Lawful.{Lawful};
ghost use Rattle.runs.specs.Run.{Run};
ghost use Rattle.ldc_queue.specs.declared.end.End.TheVariants.{A, B};
ghost use Rattle.lane_models.specs.FrameLaws.{OwnResetAt, TickAt, WorksAt};
ghost use Rattle.lane_models.specs.NetEndStep.{NetAnswer};
ghost use Rattle.lane_models.specs.NetEvent.{Steps};
ghost use Rattle.lane_models.specs.NetLaneState.{IsNetShape, NetShape};
ghost use Rattle.lane_models.specs.NetLaneStep.{is_finished};
ghost use Rattle.lane_models.specs.PortLog.{after, no_events};
ghost use Rattle.lane_models.specs.PortState.{fresh_port, OnLane, PortEvent, PortState, PortStep};
ghost use Rattle.lane_models.specs.RestLaws.{IdleAt, TwoIdleAt};
ghost use Rattle.port_laws.specs.RemainingSteps.{IsCalm};

/// Along every run of a port, forged or not, only an end whose channel end is up publishes a frame or takes one.
pub fn only_an_end_that_is_up_moves_frames()
    ensures { (shape : NetShape) (events : List PortEvent) (s : PortState) → IsNetShape shape → Run PortStep (fresh_port shape) events s
        → Lawful WorksAt after (no_events shape) events }
{}

/// Along every run of a port, forged or not, an end that resets itself without a packet does so for a slot of the peer's
/// ring. A DRING_DATA INFO that it took isn't answered then. The next slot isn't READY and none was taken for that INFO,
/// the descriptor is that of no frame, or a copy is refused.
pub fn an_end_resets_itself_without_a_packet_for_a_slot()
    ensures { (shape : NetShape) (events : List PortEvent) (s : PortState) → IsNetShape shape → Run PortStep (fresh_port shape) events s
        → Lawful OwnResetAt after (no_events shape) events }
{}

/// Along every run of a port, forged or not, a tick is calm exactly where the port is finished. Then the guest's session
/// is open, its last MCAST_INFO has all groups that it joined and was answered, and no frame is held at either end.
pub fn a_tick_is_calm_where_the_port_is_finished()
    ensures { (shape : NetShape) (events : List PortEvent) (s : PortState) → IsNetShape shape → Run PortStep (fresh_port shape) events s
        → Lawful TickAt after (no_events shape) events }
{}

/// Along every run of a port, forged or not, an end is idle only where nothing waits for it. In session it answered each
/// DRING_DATA INFO and MCAST_INFO, and published each frame; the switch's end may have published as many as its ring has slots. Where
/// some aren't acknowledged it said an INFO behind which no ACK came. A guest told its groups as they are, or no answer
/// came yet.
pub fn an_idle_end_of_a_port_has_nothing_to_do()
    ensures { (shape : NetShape) (events : List PortEvent) (s : PortState) → IsNetShape shape → Run PortStep (fresh_port shape) events s
        → Lawful IdleAt after (no_events shape) events }
{}

/// On a port that nobody forged, where no packet was lost since the queues were last emptied, both ends are in session
/// where one is idle directly after the other.
pub fn two_idle_ends_of_a_port_are_in_session()
    ensures { (shape : NetShape) (events : List PortEvent) (s : PortState) → IsNetShape shape → Run PortStep (fresh_port shape) events s
        → Lawful TwoIdleAt after (no_events shape) events }
{}

/// Take a port that nobody forged, where no packet was lost since the queues were last emptied. Let first the guest's end
/// and then the switch's be idle or find no room for its packet. Then both were idle, and the port is finished: no frame
/// is held at either end or in the out queue, and the guest told all its groups.
pub fn a_calm_turn_finishes_a_port()
    ensures { (shape : NetShape) (events : List PortEvent) (s m t : PortState) (one two : NetAnswer) → IsNetShape shape
        → Run PortStep (fresh_port shape) events s → s.lane.wire.forged ≡ false → s.lane.wire.lossy ≡ false → IsCalm one → IsCalm two
        → PortStep s (OnLane (Steps A one)) m → PortStep m (OnLane (Steps B two)) t → is_finished t.lane (length t.queue) ≡ true }
{}
