// A port's lane is an instance of two ends on a channel, and what follows from that.

ghost use Rattle.std.specs.Prelude.{◌≡◌, ◌⊎◌, ◌∷◌, ℕ, List, Option, false, is_some, true};
ghost use Rattle.runs.specs.Lawful.{log_of};
ghost use Rattle.runs.specs.Run.{Run};
ghost use Rattle.ldc_queue.specs.declared.end.End.TheVariants.{A, B};
ghost use Rattle.ldc_queue.specs.declared.end.End.{End};
ghost use Rattle.ldc_queue.specs.OneStream.{IsFront};
ghost use Rattle.ldc_queue.specs.Transcript.{Heard, Said};
ghost use Rattle.ldc_queue.specs.Wire.{peer_of};
ghost use Rattle.ldc_link.specs.declared.phase.Role.TheVariants.{Initiator, Responder};
ghost use Rattle.vio_handshake.specs.Offers.{Match};
ghost use Rattle.vio_tag.specs.declared.cause.Cause.{Cause};
ghost use Rattle.lane_models.specs.HandshakeOrder.{HandshakeOrder};
ghost use Rattle.lane_models.specs.Sayings.{heard, said};
ghost use Rattle.lane_models.specs.TranscriptLog.{transcript_of};
ghost use Rattle.lane_models.specs.WireAt.{IsOwnReset, IsUp};
ghost use Rattle.lane_models.specs.LaneCore.{end_of, transcript_behind, CoreFits, CoreStep};
ghost use Rattle.lane_models.specs.LossStands.{LossStands};
ghost use Rattle.lane_models.specs.OneSession.{AreOneSession};
ghost use Rattle.lane_models.specs.Resetting.{LiesInSession};
ghost use Rattle.lane_models.specs.NetEndStep.{NetAnswer, NetEndStep, NetLeft, Reset, Sent, Took};
ghost use Rattle.lane_models.specs.NetEvent.{NetEvent, Steps};
ghost use Rattle.lane_models.specs.NetLaneState.{fresh_net, memory_of, net_end, reach_of, role_at, seen_at, IsNetShape, NetLaneState, NetShape};
ghost use Rattle.lane_models.specs.NetLaneStep.{NetLaneStep};
ghost use Rattle.lane_models.specs.NetReached.{NetReached};
ghost use Rattle.lane_models.specs.Offers.{port_offer};
ghost use Rattle.lane_models.specs.StepStands.{IsPacket};
ghost use Rattle.lane_models.specs.PortLog.{after, no_events};
ghost use Rattle.lane_models.specs.PortState.{fresh_port, OnLane, PortEvent, PortState, PortStep};
ghost use Rattle.port_laws.specs.NetCore.{core_events, fresh_net_core, lane_core};
ghost use Rattle.port_laws.specs.PortCore.{port_core, port_events};

/// Each run of a port's lane, forged or not, is a run of two ends on a channel, event by event. What its ends offer
/// fits a program's fields, and each end expects the ring that the other offers. So is each run of a port with its out
/// queue, and what follows from that holds there too.
pub fn a_port_is_two_ends_on_a_channel()
    ensures run { (shape : NetShape) (events : List NetEvent) (s : NetLaneState) → Run NetLaneStep (fresh_net shape) events s
        → Run CoreStep (fresh_net_core shape) (core_events events) (lane_core s) }
    ensures queued { (shape : NetShape) (events : List PortEvent) (s : PortState) → Run PortStep (fresh_port shape) events s
        → Run CoreStep (fresh_net_core shape) (port_events events) (port_core s) }
    ensures sizes { (shape : NetShape) → IsNetShape shape
        → CoreFits shape.entries (port_offer Initiator shape.address shape.slots) (port_offer Responder shape.address shape.slots) }
    ensures offers { (shape : NetShape) → IsNetShape shape
        → Match (port_offer Initiator shape.address shape.slots) (port_offer Responder shape.address shape.slots) }
{}

/// Along every run of a port's lane, forged or not, it is lossy exactly where a packet was lost behind the last event
/// that emptied the queues. Such an event began an end anew that was up.
pub fn a_port_is_lossy_behind_a_loss()
    ensures lossy { (shape : NetShape) (events : List NetEvent) (s : NetLaneState) → IsNetShape shape
        → Run NetLaneStep (fresh_net shape) events s → s.wire.lossy ≡ true → LossStands shape.entries (core_events events) }
    ensures lost { (shape : NetShape) (events : List NetEvent) (s : NetLaneState) → IsNetShape shape
        → Run NetLaneStep (fresh_net shape) events s → LossStands shape.entries (core_events events) → s.wire.lossy ≡ true }
    ensures queued_lossy { (shape : NetShape) (events : List PortEvent) (s : PortState) → IsNetShape shape
        → Run PortStep (fresh_port shape) events s → s.lane.wire.lossy ≡ true → LossStands shape.entries (port_events events) }
    ensures queued_lost { (shape : NetShape) (events : List PortEvent) (s : PortState) → IsNetShape shape
        → Run PortStep (fresh_port shape) events s → LossStands shape.entries (port_events events) → s.lane.wire.lossy ≡ true }
{}

/// On a port that nobody forged, whatever was lost and reset, let an end be up. The messages that it has heard are a
/// front of those that the other end has said, each since it last began.
pub fn an_end_heard_a_front_of_what_the_other_said()
    ensures lane { (shape : NetShape) (events : List NetEvent) (s : NetLaneState) (e : End) → IsNetShape shape
        → Run NetLaneStep (fresh_net shape) events s → s.wire.forged ≡ false → IsUp e s.wire.wire
        → IsFront (heard (transcript_of e (transcript_behind (core_events events))))
        (said (transcript_of (peer_of e) (transcript_behind (core_events events)))) }
    ensures queued { (shape : NetShape) (events : List PortEvent) (s : PortState) (e : End) → IsNetShape shape
        → Run PortStep (fresh_port shape) events s → s.lane.wire.forged ≡ false → IsUp e s.lane.wire.wire
        → IsFront (heard (transcript_of e (log_of after (no_events shape) events).transcript))
        (said (transcript_of (peer_of e) (log_of after (no_events shape) events).transcript)) }
{}

/// Let the session of an end of a port open. Then what the end said and heard since it last began is the row of its
/// handshake, with the rings of both ends. It is so one line after the other, and between them stands only what may
/// stand aside. This holds where somebody forges too.
pub fn sessions_of_a_port_open_in_order()
    ensures saying { (shape : NetShape) (events : List NetEvent) (s : NetLaneState) (e : End) (packet : List ℕ) (t : NetLaneState) → IsNetShape shape
        → Run NetLaneStep (fresh_net shape) events s → NetLaneStep s (Steps e (Sent packet true)) t
        → HandshakeOrder true (role_at e) (Said packet ∷ transcript_of e (transcript_behind (core_events events))) }
    ensures hearing { (shape : NetShape) (events : List NetEvent) (s : NetLaneState) (e : End) (packet : List ℕ) (t : NetLaneState) → IsNetShape shape
        → Run NetLaneStep (fresh_net shape) events s → NetLaneStep s (Steps e (Took packet true)) t
        → HandshakeOrder true (role_at e) (Heard packet ∷ transcript_of e (transcript_behind (core_events events))) }
{}

/// On a port that nobody forged, where the sessions of both ends are open both ends are up, and the sessions are one.
/// They have one sid, and each end knows the ring of the other as that offers it.
pub fn open_sessions_of_a_port_are_one()
    ensures up { (shape : NetShape) (events : List NetEvent) (s : NetLaneState) → IsNetShape shape
        → Run NetLaneStep (fresh_net shape) events s → s.wire.forged ≡ false
        → is_some s.guest.session ≡ true → is_some s.hub.session ≡ true → IsUp A s.wire.wire × IsUp B s.wire.wire }
    ensures one { (shape : NetShape) (events : List NetEvent) (s : NetLaneState) → IsNetShape shape
        → Run NetLaneStep (fresh_net shape) events s → s.wire.forged ≡ false
        → is_some s.guest.session ≡ true → is_some s.hub.session ≡ true → AreOneSession s.guest.handshake s.hub.handshake }
    ensures queued_up { (shape : NetShape) (events : List PortEvent) (s : PortState) → IsNetShape shape
        → Run PortStep (fresh_port shape) events s → s.lane.wire.forged ≡ false
        → is_some s.lane.guest.session ≡ true → is_some s.lane.hub.session ≡ true → IsUp A s.lane.wire.wire × IsUp B s.lane.wire.wire }
    ensures queued_one { (shape : NetShape) (events : List PortEvent) (s : PortState) → IsNetShape shape
        → Run PortStep (fresh_port shape) events s → s.lane.wire.forged ≡ false
        → is_some s.lane.guest.session ≡ true → is_some s.lane.hub.session ≡ true → AreOneSession s.lane.guest.handshake s.lane.hub.handshake }
{}

/// On a port that nobody forged an end resets itself for a gap, and only once a packet was lost. Or for a cause of its
/// open session, which lies in a message that the packet ends or in no packet.
pub fn a_port_resets_itself_behind_a_loss_or_for_its_session()
    ensures lane { (shape : NetShape) (events : List NetEvent) (s : NetLaneState) (e : End) (cause : Cause) (packet : Option (List ℕ)) (lost : ℕ)
        (t : NetLaneState) → IsNetShape shape → Run NetLaneStep (fresh_net shape) events s → s.wire.forged ≡ false
        → NetLaneStep s (Steps e (Reset cause packet lost)) t
        → IsOwnReset s.wire cause ⊎ LiesInSession (end_of e (lane_core s)) packet }
    ensures queued { (shape : NetShape) (events : List PortEvent) (s : PortState) (e : End) (cause : Cause) (packet : Option (List ℕ)) (lost : ℕ)
        (t : PortState) → IsNetShape shape → Run PortStep (fresh_port shape) events s → s.lane.wire.forged ≡ false
        → PortStep s (OnLane (Steps e (Reset cause packet lost))) t
        → IsOwnReset s.lane.wire cause ⊎ LiesInSession (end_of e (port_core s)) packet }
{}

/// An end of a port always has a step, wherever events led to, forged or not: each packet that waits for it has 64
/// bytes.
pub fn an_end_of_a_port_always_has_a_step()
    ensures lane { (s : NetLaneState) (e : End) → NetReached s → IsPacket (seen_at e s).first
        → (answer : NetAnswer) × (left : NetLeft)
        × NetEndStep (role_at e) (net_end e s) (seen_at e s) (memory_of e s) (reach_of e s) answer left }
    ensures queued { (shape : NetShape) (events : List PortEvent) (s : PortState) (e : End) → IsNetShape shape
        → Run PortStep (fresh_port shape) events s → IsPacket (seen_at e s.lane).first
        → (answer : NetAnswer) × (t : PortState) × PortStep s (OnLane (Steps e answer)) t }
{}
