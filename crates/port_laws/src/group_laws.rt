// The groups of a port.

ghost use Rattle.std.specs.Prelude.{◌≡◌, List};
ghost use Rattle.runs.specs.Lawful.{log_of, Lawful};
ghost use Rattle.runs.specs.Run.{Run};
ghost use Rattle.lane_models.specs.FrameLaws.{GroupsSaidAt, JoiningAt};
ghost use Rattle.lane_models.specs.NetLaneState.{IsNetShape, NetShape};
ghost use Rattle.lane_models.specs.PortLog.{after, no_events};
ghost use Rattle.lane_models.specs.PortState.{fresh_port, PortEvent, PortState, PortStep};
ghost use Rattle.port_laws.specs.GroupsTold.{told_in};

/// Along every run of a port, forged or not, a guest joins a group exactly where it didn't join it before and joined
/// fewer than seven. It is told that it is in the list, or that the list is full, exactly where that is so.
pub fn a_guest_joins_each_group_once()
    ensures { (shape : NetShape) (events : List PortEvent) (s : PortState) → Run PortStep (fresh_port shape) events s
        → Lawful JoiningAt after (no_events shape) events }
{}

/// Along every run of a port, forged or not, the switch's end has the list of groups that its open session told it. Each
/// MCAST_INFO that it took changed the list by its set, or was refused. Without a session it has none.
pub fn the_switch_knows_the_groups_that_its_session_told()
    ensures { (shape : NetShape) (events : List PortEvent) (s : PortState) → IsNetShape shape → Run PortStep (fresh_port shape) events s
        → s.lane.hub.groups ≡ told_in (log_of after (no_events shape) events).hub.session }
{}

/// Along every run of a port, forged or not: an MCAST_INFO that an end says has set 1 and names seven addresses at most.
/// An answer to one has the set, the count and the seven addresses of the one that the end took last, and answers it once.
/// It is ACK where a list came of it, and else NACK.
pub fn each_answer_to_groups_is_the_one_that_is_owed()
    ensures { (shape : NetShape) (events : List PortEvent) (s : PortState) → IsNetShape shape → Run PortStep (fresh_port shape) events s
        → Lawful GroupsSaidAt after (no_events shape) events }
{}
