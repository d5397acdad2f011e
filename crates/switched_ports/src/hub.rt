// The switch's end of a port, with the switch. Before each step of it a frame moves to it from the out queue, where its
// session is open and it has room. A frame that it takes goes to other ports.

ghost use Rattle.std.specs.Prelude.{◌≡◌, ◌≢◌, ℕ, ◌-◌, ◌<◌, ◌^◌, is_some, length, true, slice_get, Some};
ghost use Rattle.net_lane.specs.Stepping.{net_answer, TellsLength};
ghost use Rattle.port_laws.specs.PortState.{takes_more};
ghost use Rattle.switch_laws.specs.Forwards.{address_in, port_view};
ghost use Rattle.switch_laws.specs.Reached.{IsReached};
ghost use Rattle.switched_ports.specs.Events.{is_frame};
ghost use Rattle.switched_ports.specs.HubSteps.{HandsOn, HandsOver, HubSteps, port_at, TakesFrame};
ghost use Rattle.vnet_switch.specs.Forward.{HasAddress};
ghost use Rattle.vnet_switch.specs.Queues.{ChangesAt, with_session};

use net_lane::{End, NetEnd, NetLane, NetOut};
use vnet_switch::{Switch, Switched};

/// One step of the switch's end, whose answer is written into the caller's, and where a frame that it took went.
pub(crate) fn step_hub(
    lane: &mut NetLane,
    switch: &mut Switch,
    port: u32,
    out: &mut NetOut,
) -> Option<Switched>
    requires port { port < length switch.old.ports }
    requires known { slice_get switch.old.ports port ≡ Some (port_view (port_at port lane.old switch.old.ports)) }
    requires reached { IsReached (port_at port lane.old switch.old.ports) }
    requires differ { (k : ℕ) → HasAddress switch.old.ports lane.old.shape.address k → k ≡ port }
    requires few { lane.old.hub.next_id < 2 ^ 64 - 1 }
    ensures steps { HubSteps port lane.old switch.old.ports out.new result lane.new switch.new.ports }
    ensures switched { is_some result ≡ is_frame out.new }
    ensures count { TellsLength out.new lane.new.hub.last }
{
    hand_over(lane, switch, port);
    lane.step_into(End::B, out);
    let switched = hand_on(lane, switch, port, out);
    tell(lane, switch, port);
    switched
}

/// Tells the switch of a port what its end at the switch was told: its address where the session is open, and the
/// groups.
pub(crate) fn tell(lane: &NetLane, switch: &mut Switch, port: u32)
    requires port { port < length switch.old.ports }
    requires differ { (k : ℕ) → HasAddress switch.old.ports lane.now.shape.address k → k ≡ port }
    ensures { ChangesAt (λ k. k ≡ port) (with_session (address_in lane.now.hub.session lane.now.shape.address)
        lane.now.hub.groups) switch.old.ports switch.new.ports }
{
    switch.set_port(port, address_in_session(lane), lane.hub().groups());
}

// The address of the port while the session of the switch's end is open.
fn address_in_session(lane: &NetLane) -> Option<[u8; 6]>
    ensures { result ≡ address_in lane.now.hub.session lane.now.shape.address }
{
    if lane.hub().in_session() {
        Some(lane.address())
    } else {
        None
    }
}

// Moves the frame that has waited longest to the switch's end, where that takes one.
fn hand_over(lane: &mut NetLane, switch: &mut Switch, port: u32)
    requires port { port < length switch.old.ports }
    requires few { lane.old.hub.next_id < 2 ^ 64 - 1 }
    ensures { HandsOver port lane.old switch.old.ports lane.new switch.new.ports }
{
    if has_room(lane.hub()) && switch.queued(port) > 0 {
        move_first(lane, switch, port);
    }
}

// Whether the end takes a frame up: its session is open, and it has room.
fn has_room(end: &NetEnd) -> bool
    ensures { result ≡ takes_more end.now }
{
    end.in_session() && end.room() > 0
}

// The frame that has waited longest, if there is one, is held last by the switch's end.
fn move_first(lane: &mut NetLane, switch: &mut Switch, port: u32)
    requires port { port < length switch.old.ports }
    requires room { takes_more lane.old.hub ≡ true }
    requires few { lane.old.hub.next_id < 2 ^ 64 - 1 }
    ensures { HandsOver port lane.old switch.old.ports lane.new switch.new.ports }
{
    let mut frame = [0; 1514];
    if let Some(count) = switch.next(port, &mut frame) {
        let _held = lane.send(End::B, &frame[..count]);
    }
}

// Gives the switch the frame that the end took, if it took one.
fn hand_on(lane: &NetLane, switch: &mut Switch, port: u32, out: &NetOut) -> Option<Switched>
    requires port { port < length switch.old.ports }
    requires frame { TakesFrame out.now lane.now.hub.last }
    ensures puts { HandsOn port lane.now.hub.last switch.old.ports result switch.new.ports }
    ensures switched { is_some result ≡ is_frame out.now }
{
    match out {
        NetOut::Frame { .. } => Some(switch.accept(port, lane.hub().frame())),
        _ => None,
    }
}
