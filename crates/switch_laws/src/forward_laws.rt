// To which ports of a switch a frame goes, and what an event of one port leaves of the others.

ghost use Rattle.std.specs.Prelude.{◌⊎◌, ◌↔◌, ℕ, IsBitSet, List, map};
ghost use Rattle.runs.specs.Run.{Run};
ghost use Rattle.lane_kinds.specs.Lanes.{StepOf};
ghost use Rattle.lane_kinds.specs.Settles.{SettlePart};
ghost use Rattle.vnet_switch.specs.Forward.{PortIs};
ghost use Rattle.vnet_switch.specs.Queues.{IsFull};
ghost use Rattle.port_laws.specs.PortState.{PortEvent, PortState, PortStep};
ghost use Rattle.switch_laws.specs.Events.{at_port, IsAlone, OnPort, SwitchEvent, SwitchStep};
ghost use Rattle.switch_laws.specs.Forwards.{Forwards, GoesTo, views};
ghost use Rattle.switch_laws.specs.Ports.{ports, switch, SwitchEntry};
ghost use Rattle.switch_laws.specs.Reached.{IsReached};
ghost use Rattle.switch_laws.specs.Run.{LeavesOthers, SwitchMoves};

/// A frame that the switch's end of a port took goes to one set of ports, and misses another, whose out queues are full.
/// They have no port in common. Together they are the other ports in session that its destination names, and never the
/// one that it came from.
pub fn a_frame_goes_to_its_forwarding_set()
    ensures apart { (lanes : List PortState) (from : ℕ) (frame : List ℕ) (out full k : ℕ) → Forwards lanes from frame out full
        → IsBitSet out k → IsBitSet full k → ⊥ }
    ensures together { (lanes : List PortState) (from : ℕ) (frame : List ℕ) (out full k : ℕ) → Forwards lanes from frame out full
        → (IsBitSet out k ⊎ IsBitSet full k) ↔ GoesTo lanes from frame k }
    ensures full { (lanes : List PortState) (from : ℕ) (frame : List ℕ) (out full k : ℕ) → Forwards lanes from frame out full
        → IsBitSet full k → PortIs (views lanes) k IsFull }
    ensures never_back { (lanes : List PortState) (from : ℕ) (frame : List ℕ) (out full : ℕ) → Forwards lanes from frame out full
        → ¬ (IsBitSet out from) × ¬ (IsBitSet full from) }
{}

/// An event of one port of a switch is a step of that port. Every other port is as it was, but that a frame which is
/// switched to it stands last in its out queue then.
pub fn an_event_of_a_port_leaves_the_others()
    ensures { (k : ℕ) (lanes : List PortState) (event : SwitchEvent) (behind : List PortState) → StepOf ports k lanes event behind
        → LeavesOthers k lanes event behind }
{}

/// The part of a settle is a run of the switch, entry by entry. So each frame that is switched in it goes to the
/// forwarding set of the states of all ports directly before its entry.
pub fn each_entry_of_a_settle_is_a_step_of_the_switch()
    ensures { (start : List PortState) (part : List SwitchEntry) (behind : List PortState) → SettlePart switch start part behind
        → Run SwitchMoves start part behind }
{}

/// A step of a port on a switch is one of the port by itself, and a run of such steps one of the port's. All that a
/// reached port does alone is a step on a switch: where the switch's end is idle, no frame had moved to it.
pub fn a_step_of_a_port_is_one_on_its_switch()
    ensures alone { (s : PortState) (event : PortEvent) (t : PortState) → IsReached s → IsAlone event → PortStep s event t
        → SwitchStep s (OnPort event) t }
    ensures step { (s : PortState) (event : SwitchEvent) (t : PortState) → SwitchStep s event t → PortStep s (at_port event) t }
    ensures run { (s : PortState) (events : List SwitchEvent) (t : PortState) → Run SwitchStep s events t
        → Run PortStep s (map at_port events) t }
{}
