// Why an end of a port resets itself, by the packet that it takes.

ghost use Rattle.std.specs.Prelude.{◌≡◌, ℕ, Bool, List, None, Option, Some};
ghost use Rattle.runs.specs.Lawful.{log_of, Lawful};
ghost use Rattle.runs.specs.Run.{Run};
ghost use Rattle.ldc_queue.specs.declared.end.End.{End};
ghost use Rattle.vio_tag.specs.declared.cause.Cause.{Cause};
ghost use Rattle.lane_models.specs.LaneCore.{transcript_behind};
ghost use Rattle.lane_models.specs.ResetSays.{WireResetAt};
ghost use Rattle.lane_models.specs.TranscriptLog.{transcript_of};
ghost use Rattle.lane_models.specs.WireAt.{WireGapAt};
ghost use Rattle.lane_models.specs.NetEndState.{NetSession};
ghost use Rattle.lane_models.specs.NetEndStep.{Reset, Took};
ghost use Rattle.lane_models.specs.NetEvent.{NetEvent, Steps};
ghost use Rattle.lane_models.specs.NetLaneState.{fresh_net, net_end, IsNetShape, NetLaneState, NetShape};
ghost use Rattle.lane_models.specs.NetLaneStep.{NetLaneStep};
ghost use Rattle.lane_models.specs.PortLog.{after, no_events, PortLog};
ghost use Rattle.lane_models.specs.PortMay.{OfWire};
ghost use Rattle.lane_models.specs.FrameLaws.{UndoneAt};
ghost use Rattle.lane_models.specs.PortState.{before, fresh_port, OnLane, PortEvent, PortState, PortStep};
ghost use Rattle.port_laws.specs.NetCore.{core_events};
ghost use Rattle.port_laws.specs.PortCauses.{port_cause};

/// In an open session an end of a port takes a packet only where the packet has no cause of a reset. It resets itself
/// for a packet with the first cause that the packet has. First come its bytes, its number, its mode, its kind, and its
/// place in a message; then that message's codec, sid and order, and what the session makes of ranges and groups. This
/// holds where somebody forges too.
pub fn a_packet_resets_a_session_of_a_port_for_its_first_cause()
    ensures taken { (shape : NetShape) (events : List NetEvent) (s : NetLaneState) (e : End) (session : NetSession) (packet : List ℕ) (opens : Bool)
        (t : NetLaneState) → IsNetShape shape → Run NetLaneStep (fresh_net shape) events s → (net_end e s).session ≡ Some session
        → NetLaneStep s (Steps e (Took packet opens)) t
        → port_cause s e session (transcript_of e (transcript_behind (core_events events))) packet ≡ None }
    ensures reset { (shape : NetShape) (events : List NetEvent) (s : NetLaneState) (e : End) (session : NetSession) (cause : Cause) (packet : List ℕ)
        (lost : ℕ) (t : NetLaneState) → IsNetShape shape → Run NetLaneStep (fresh_net shape) events s → (net_end e s).session ≡ Some session
        → NetLaneStep s (Steps e (Reset cause (Some packet) lost)) t
        → port_cause s e session (transcript_of e (transcript_behind (core_events events))) packet ≡ Some cause }
    ensures queued_taken { (shape : NetShape) (events : List PortEvent) (s : PortState) (e : End) (session : NetSession) (packet : List ℕ) (opens : Bool)
        (t : PortState) → IsNetShape shape → Run PortStep (fresh_port shape) events s
        → (net_end e (before (Steps e (Took packet opens)) s).lane).session ≡ Some session → PortStep s (OnLane (Steps e (Took packet opens))) t
        → port_cause (before (Steps e (Took packet opens)) s).lane e session (transcript_of e (log_of after (no_events shape) events).transcript) packet ≡ None }
    ensures queued_reset { (shape : NetShape) (events : List PortEvent) (s : PortState) (e : End) (session : NetSession) (cause : Cause) (packet : List ℕ)
        (lost : ℕ) (t : PortState) → IsNetShape shape → Run PortStep (fresh_port shape) events s
        → (net_end e (before (Steps e (Reset cause (Some packet) lost)) s).lane).session ≡ Some session
        → PortStep s (OnLane (Steps e (Reset cause (Some packet) lost))) t
        → port_cause (before (Steps e (Reset cause (Some packet) lost)) s).lane e session (transcript_of e (log_of after (no_events shape) events).transcript) packet
        ≡ Some cause }
{}

/// Along every run of a port, forged or not, the packet that a reset carries says why, by its own bytes or by those of
/// the message that it ends. A reset without a packet is for a slot, or wasn't a step's. A gap names the number that
/// was to come and the one that came.
pub fn resets_of_a_port_say_why()
    ensures says { (shape : NetShape) (events : List PortEvent) (s : PortState) → IsNetShape shape → Run PortStep (fresh_port shape) events s
        → Lawful (λ (l : PortLog) (event : PortEvent). OfWire (WireResetAt l.transcript) event) after (no_events shape) events }
    ensures gaps { (shape : NetShape) (events : List PortEvent) (s : PortState) → IsNetShape shape → Run PortStep (fresh_port shape) events s
        → Lawful (λ (l : PortLog) (event : PortEvent). OfWire (WireGapAt l.transcript) event) after (no_events shape) events }
{}

/// Along every run of a port, forged or not, an end resets itself for a slot that isn't DONE only where its packet ends an
/// ACK of its open session. The ACK begins at the first frame that isn't acknowledged and goes no further than what is
/// published. The slot is one that it names, and its state is another than DONE.
pub fn a_slot_that_is_not_done_is_one_that_an_ack_names()
    ensures { (shape : NetShape) (events : List PortEvent) (s : PortState) → IsNetShape shape → Run PortStep (fresh_port shape) events s
        → Lawful UndoneAt after (no_events shape) events }
{}
