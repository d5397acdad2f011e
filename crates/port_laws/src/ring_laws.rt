// The rings of a port that nobody forged, and the frames that are taken from them.

ghost use Rattle.std.specs.Prelude.{◌≡◌, false, List};
ghost use Rattle.runs.specs.Lawful.{log_of, Lawful};
ghost use Rattle.runs.specs.Run.{Run};
ghost use Rattle.ldc_queue.specs.declared.end.End.{End};
ghost use Rattle.ldc_queue.specs.declared.end.End.TheVariants.{A, B};
ghost use Rattle.lane_models.specs.NetLaneState.{IsNetShape, NetShape};
ghost use Rattle.lane_models.specs.PortLog.{after, no_events};
ghost use Rattle.lane_models.specs.PortState.{fresh_port, PortEvent, PortState, PortStep};
ghost use Rattle.lane_models.specs.RestLaws.{UnforgedAt};
ghost use Rattle.port_laws.specs.InOrder.{frames_taken, InOrder};
ghost use Rattle.port_laws.specs.NoneLeft.{NoneLeftAt};
ghost use Rattle.port_laws.specs.NoneUntold.{NoneUntoldAt};
ghost use Rattle.port_laws.specs.NoSlotReset.{NoSlotResetAt};
ghost use Rattle.port_laws.specs.RingStands.{RingStands};
ghost use Rattle.port_laws.specs.WaysStand.{WaysStand};

/// On a port that nobody forged, the ring of each end that is up and in session holds its frames. Those that are
/// published and not acknowledged stand in the slots of their numbers, each with its descriptor, and its bytes in the
/// slot's buffer. The slot is DONE where the other end took the frame, else READY, and every other slot is FREE.
pub fn the_ring_of_each_end_holds_its_frames()
    ensures { (shape : NetShape) (events : List PortEvent) (s : PortState) (e : End) → IsNetShape shape → Run PortStep (fresh_port shape) events s
        → (log_of after (no_events shape) events).wire.forged ≡ false → RingStands e s.lane (log_of after (no_events shape) events) }
{}

/// On a port that nobody forged, the k-th frame that an end takes in a session is the k-th that the other end published,
/// byte by byte. That is one of the last session of the same sid that it opened. So frames arrive in order, and each at
/// most once.
pub fn a_frame_that_is_taken_is_the_next_that_was_published()
    ensures { (shape : NetShape) (events : List PortEvent) (s : PortState) → IsNetShape shape → Run PortStep (fresh_port shape) events s
        → Lawful UnforgedAt after (no_events shape) events }
{}

/// On a port that nobody forged, while the guest is in session and both ends are up, what is on the way agrees with what
/// both ends count. At most one DRING_DATA INFO of an end isn't answered. It is on the way, with its number and the slot
/// of the first frame that isn't acknowledged. Or the other end works on it. Or its ACK is on the way, with the slots
/// of the frames that were taken.
pub fn at_most_one_announcement_of_an_end_is_on_the_way()
    ensures { (shape : NetShape) (events : List PortEvent) (s : PortState) → IsNetShape shape → Run PortStep (fresh_port shape) events s
        → (log_of after (no_events shape) events).wire.forged ≡ false → WaysStand s.lane (log_of after (no_events shape) events) }
{}

/// On a port that nobody forged, where no packet was lost since the queues were last emptied, no frame is left where one
/// end is idle directly after the other. Each that was published in a session is acknowledged, and the guest holds none.
pub fn no_frame_is_left_where_both_ends_are_idle()
    ensures { (shape : NetShape) (events : List PortEvent) (s : PortState) → IsNetShape shape → Run PortStep (fresh_port shape) events s
        → Lawful NoneLeftAt after (no_events shape) events }
{}

/// On a port that nobody forged, where nothing was lost since the queues were last emptied, no group is left untold
/// where one end is idle directly after the other. The guest told all groups that it joined, and was answered. The
/// switch's end has exactly those, in their order.
pub fn no_group_is_left_untold_where_both_ends_are_idle()
    ensures { (shape : NetShape) (events : List PortEvent) (s : PortState) → IsNetShape shape → Run PortStep (fresh_port shape) events s
        → Lawful NoneUntoldAt after (no_events shape) events }
{}

/// On a port that nobody forged, no end resets itself for a slot of the other end's ring. Each copy of its fetches is
/// answered, and the first slot that it looks at for an announcement holds a frame.
pub fn no_end_of_a_port_resets_itself_for_a_slot()
    ensures { (shape : NetShape) (events : List PortEvent) (s : PortState) → IsNetShape shape → Run PortStep (fresh_port shape) events s
        → Lawful NoSlotResetAt after (no_events shape) events }
{}

/// On a port that nobody forged, the frames that an end took are some of those that the other end was given, in their
/// order, each at most once. That is so over all sessions, whatever was lost and reset between.
pub fn frames_arrive_in_order_and_at_most_once()
    ensures to_switch { (shape : NetShape) (events : List PortEvent) (s : PortState) → IsNetShape shape → Run PortStep (fresh_port shape) events s
        → s.lane.wire.forged ≡ false → InOrder 0 (frames_taken B events) (log_of after (no_events shape) events).guest.given }
    ensures to_guest { (shape : NetShape) (events : List PortEvent) (s : PortState) → IsNetShape shape → Run PortStep (fresh_port shape) events s
        → s.lane.wire.forged ≡ false → InOrder 0 (frames_taken A events) (log_of after (no_events shape) events).hub.given }
{}
