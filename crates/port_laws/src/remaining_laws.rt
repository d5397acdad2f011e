// What remains to be done on a port, along every run.

ghost use Rattle.std.specs.Prelude.{◌≡◌, ◌*◌, ◌+◌, ◌<◌, ◌≤◌, ◌⊎◌, ℕ, Bool, false, length, List, Option, true};
ghost use Rattle.runs.specs.Run.{Run};
ghost use Rattle.lane_models.specs.WireAt.{IsUp};
ghost use Rattle.ldc_queue.specs.declared.end.End.{End};
ghost use Rattle.ldc_queue.specs.declared.end.End.TheVariants.{B};
ghost use Rattle.vio_tag.specs.declared.cause.Cause.{Cause};
ghost use Rattle.lane_models.specs.NetEndStep.{Frame, NetAnswer, Reset, Took};
ghost use Rattle.lane_models.specs.NetEvent.{Steps, Ticked};
ghost use Rattle.lane_models.specs.NetLaneState.{IsNetShape, NetShape};
ghost use Rattle.lane_models.specs.PortState.{fresh_port, OnLane, PortEvent, PortState, PortStep};
ghost use Rattle.port_laws.specs.Crossing.{crossing};
ghost use Rattle.port_laws.specs.Remaining.{frames_held, frames_kept, remaining};
ghost use Rattle.port_laws.specs.RemainingSteps.{IsCalm, IsReset, TakesNothing};

/// What remains to be done on a port, along every run, forged or not. A fresh port has 76 before it. Each step of an
/// end that takes nothing lowers it: that an end joins, puts a packet, or publishes a frame. A step that is idle or has
/// no room for its packet doesn't raise it. Where nobody forged, a packet or a frame that an end takes lowers it too.
pub fn what_remains_on_a_port_falls_by_what_an_end_does()
    ensures fresh { (shape : NetShape) → remaining (fresh_port shape) ≡ 76 }
    ensures steps { (shape : NetShape) (events : List PortEvent) (s : PortState) (e : End) (answer : NetAnswer) (t : PortState)
        → IsNetShape shape → Run PortStep (fresh_port shape) events s → PortStep s (OnLane (Steps e answer)) t
        → TakesNothing answer → remaining t < remaining s }
    ensures calm { (shape : NetShape) (events : List PortEvent) (s : PortState) (e : End) (answer : NetAnswer) (t : PortState)
        → IsNetShape shape → Run PortStep (fresh_port shape) events s → PortStep s (OnLane (Steps e answer)) t
        → IsCalm answer → remaining t ≤ remaining s }
    ensures takes { (shape : NetShape) (events : List PortEvent) (s : PortState) (e : End) (packet : List ℕ) (opens : Bool) (t : PortState)
        → IsNetShape shape → Run PortStep (fresh_port shape) events s → s.lane.wire.forged ≡ false
        → PortStep s (OnLane (Steps e (Took packet opens))) t → remaining t < remaining s }
    ensures frames { (shape : NetShape) (events : List PortEvent) (s : PortState) (e : End) (frame : List ℕ) (t : PortState)
        → IsNetShape shape → Run PortStep (fresh_port shape) events s → s.lane.wire.forged ≡ false
        → PortStep s (OnLane (Steps e (Frame frame))) t → remaining t < remaining s }
{}

/// What remains on a port behind a reset, along every run, forged or not. An end is reset by a step of its own, by the
/// script, or by a tick. If it was up exactly 75 remain, and 8 for each frame that isn't published in an open session. If
/// it wasn't, or a packet was lost before, that is less than remained. Where nobody forged, a reset by a step lowers it.
pub fn what_remains_on_a_port_falls_by_a_reset_behind_a_loss()
    ensures resets { (shape : NetShape) (events : List PortEvent) (s : PortState) (e : End) (event : PortEvent) (t : PortState)
        → IsNetShape shape → Run PortStep (fresh_port shape) events s → PortStep s event t → IsReset e event
        → IsUp e s.lane.wire.wire → remaining t ≡ 75 + 8 * frames_kept t }
    ensures again { (shape : NetShape) (events : List PortEvent) (s : PortState) (e : End) (event : PortEvent) (t : PortState)
        → IsNetShape shape → Run PortStep (fresh_port shape) events s → PortStep s event t → IsReset e event
        → (IsUp e s.lane.wire.wire → s.lane.wire.lossy ≡ true) → remaining t < remaining s }
    ensures own { (shape : NetShape) (events : List PortEvent) (s : PortState) (e : End) (cause : Cause) (packet : Option (List ℕ))
        (lost : ℕ) (t : PortState) → IsNetShape shape → Run PortStep (fresh_port shape) events s → s.lane.wire.forged ≡ false
        → PortStep s (OnLane (Steps e (Reset cause packet lost))) t → remaining t < remaining s }
{}

/// On a port that nobody forged each step of an end lowers what remains, but a calm one. That is idle or has no room for
/// its packet, and doesn't raise it.
pub fn each_step_of_a_port_but_a_calm_one_lowers_what_remains()
    ensures { (shape : NetShape) (events : List PortEvent) (s : PortState) (e : End) (answer : NetAnswer) (t : PortState)
        → IsNetShape shape → Run PortStep (fresh_port shape) events s → s.lane.wire.forged ≡ false
        → PortStep s (OnLane (Steps e answer)) t → (IsCalm answer × (remaining t ≤ remaining s)) ⊎ (remaining t < remaining s) }
{}

/// What remains on a port that nobody forged is at most 117, and 8 for each frame that is held or in the out queue.
/// Where a packet was lost since the queues were last emptied it is at most 189, and no more for each frame: those that
/// are published don't outlast a reset. So it is whatever was lost and reset on the way there. The count of a settling
/// allows 192 for a lane, its one tick included, and 64 for each frame.
pub fn little_remains_on_a_port_that_nobody_forged()
    ensures whole { (shape : NetShape) (events : List PortEvent) (s : PortState)
        → IsNetShape shape → Run PortStep (fresh_port shape) events s → s.lane.wire.forged ≡ false → s.lane.wire.lossy ≡ false
        → remaining s ≤ 117 + 8 * frames_held s }
    ensures lossy { (shape : NetShape) (events : List PortEvent) (s : PortState)
        → IsNetShape shape → Run PortStep (fresh_port shape) events s → s.lane.wire.forged ≡ false
        → remaining s ≤ 189 + 8 * frames_held s }
    ensures allowed { (shape : NetShape) (events : List PortEvent) (s : PortState)
        → IsNetShape shape → Run PortStep (fresh_port shape) events s → s.lane.wire.forged ≡ false
        → remaining s ≤ 192 + 64 * frames_held s }
{}

/// How many frames of a guest may still cross to the switch's end, on a port that nobody forged. They are those that it
/// didn't publish, and those that stand READY in its ring while it is up. No step of an end raises that, nor does a
/// tick. Each frame that the switch's end takes lowers it. It is never more than the guest holds.
pub fn each_frame_of_a_guest_crosses_once()
    ensures steps { (shape : NetShape) (events : List PortEvent) (s : PortState) (e : End) (answer : NetAnswer) (t : PortState)
        → IsNetShape shape → Run PortStep (fresh_port shape) events s → s.lane.wire.forged ≡ false
        → PortStep s (OnLane (Steps e answer)) t → crossing t ≤ crossing s }
    ensures tick { (s : PortState) (queued lost : ℕ) (t : PortState) → PortStep s (OnLane (Ticked queued lost)) t → crossing t ≤ crossing s }
    ensures taken { (shape : NetShape) (events : List PortEvent) (s : PortState) (frame : List ℕ) (t : PortState)
        → IsNetShape shape → Run PortStep (fresh_port shape) events s → s.lane.wire.forged ≡ false
        → PortStep s (OnLane (Steps B (Frame frame))) t → crossing t < crossing s }
    ensures few { (shape : NetShape) (events : List PortEvent) (s : PortState) → IsNetShape shape
        → Run PortStep (fresh_port shape) events s → s.lane.wire.forged ≡ false → crossing s ≤ length s.lane.guest.frames }
{}
