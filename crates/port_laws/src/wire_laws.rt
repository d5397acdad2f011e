// What the two ends of a port say and hear, event by event, in the log of a port with its out queue.

ghost use Rattle.std.specs.Prelude.{List};
ghost use Rattle.runs.specs.Lawful.{Lawful};
ghost use Rattle.runs.specs.Run.{Run};
ghost use Rattle.lane_models.specs.WireAt.{WireAnswersAt, WireHeardAt, WireSaidAt, WireTableAt, WireUnforgedAt};
ghost use Rattle.lane_models.specs.FrameLaws.{OpeningsAt};
ghost use Rattle.lane_models.specs.NetLaneState.{IsNetShape, NetShape};
ghost use Rattle.lane_models.specs.PortLog.{after, no_events, PortLog};
ghost use Rattle.lane_models.specs.PortMay.{IsLawfulPort, OfWire, sizes_in};
ghost use Rattle.lane_models.specs.PortState.{fresh_port, PortEvent, PortState, PortStep};

/// Along every run of a port, forged or not, each packet that an end says is canonical and has its number, and messages
/// are cut into parts rightly.
pub fn what_a_port_says_is_cut_and_numbered()
    ensures { (shape : NetShape) (events : List PortEvent) (s : PortState) → IsNetShape shape → Run PortStep (fresh_port shape) events s
        → Lawful (λ (l : PortLog) (event : PortEvent). OfWire (WireSaidAt l.transcript) event) after (no_events shape) events }
{}

/// Along every run of a port, forged or not, each packet that an end takes and doesn't reset itself for has 64 bytes
/// that spell one. It has the next number where it has one, and a part that makes a message with what had come before.
pub fn what_a_port_hears_may_come()
    ensures { (shape : NetShape) (events : List PortEvent) (s : PortState) → IsNetShape shape → Run PortStep (fresh_port shape) events s
        → Lawful (λ (l : PortLog) (event : PortEvent). OfWire (WireHeardAt l.transcript) event) after (no_events shape) events }
{}

/// Along every run of a port, forged or not, a session opens only where its end said and heard the whole row of the
/// handshake. The row has the rings of both ends. No end's first packet opens one.
pub fn a_port_opens_behind_its_handshake()
    ensures { (shape : NetShape) (events : List PortEvent) (s : PortState) → IsNetShape shape → Run PortStep (fresh_port shape) events s
        → Lawful OpeningsAt after (no_events shape) events }
{}

/// Along every run of a port, forged or not, each event stands where the states of both ends and what waits in the
/// queues let it. That is who may take, put, be blocked, be idle and reset itself, and where a memory is written.
pub fn each_event_of_a_port_stands_by_its_ends_and_queues()
    ensures { (shape : NetShape) (events : List PortEvent) (s : PortState) → IsNetShape shape → Run PortStep (fresh_port shape) events s
        → Lawful (λ (l : PortLog) (event : PortEvent). OfWire (WireTableAt (sizes_in l) l.wire) event) after (no_events shape) events }
{}

/// Along every run of a port, forged or not, an order that changes nothing is answered by the first of its cases that
/// holds.
pub fn what_changes_nothing_on_a_port_is_answered_rightly()
    ensures { (shape : NetShape) (events : List PortEvent) (s : PortState) → IsNetShape shape → Run PortStep (fresh_port shape) events s
        → Lawful (λ (l : PortLog) (event : PortEvent). OfWire (WireAnswersAt (sizes_in l) l.wire) event) after (no_events shape) events }
{}

/// On a port that nobody forged, an end resets itself in a step for a gap alone, and only once a packet was lost. So no
/// message of a session is refused there, of rings or of groups.
pub fn an_end_of_a_port_resets_itself_behind_a_loss_alone()
    ensures { (shape : NetShape) (events : List PortEvent) (s : PortState) → IsNetShape shape → Run PortStep (fresh_port shape) events s
        → Lawful (λ (l : PortLog) (event : PortEvent). OfWire (WireUnforgedAt l.wire) event) after (no_events shape) events }
{}

/// Every run of a port is lawful, forged or not: each event may stand after those before it, by each of the laws.
pub fn every_run_of_a_port_is_lawful()
    ensures { (shape : NetShape) (events : List PortEvent) (s : PortState) → IsNetShape shape → Run PortStep (fresh_port shape) events s
        → IsLawfulPort shape events }
{}
