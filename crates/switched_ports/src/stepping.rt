// Steps and resets of the ports' ends.

ghost use Rattle.std.specs.Prelude.{◌≡◌, ◌-◌, ◌<◌, ◌^◌, length, is_some, IfNone, None};
ghost use Rattle.lane_kinds.specs.Lanes.{EntryOf};
ghost use Rattle.ldc_queue.specs.declared.end.End.TheVariants.{A, B};
ghost use Rattle.net_lane.specs.Stepping.{net_answer, TellsLength};
ghost use Rattle.port_laws.specs.NetEvent.{Asked};
ghost use Rattle.port_laws.specs.PortState.{OnLane};
ghost use Rattle.switch_laws.specs.Events.{OnPort};
ghost use Rattle.switch_laws.specs.Ports.{ports};
ghost use Rattle.switched_ports.specs.Events.{is_frame, is_switched, ResetsOwn, step_event};
ghost use Rattle.switched_ports.specs.Given.{GivenBelow, GivesNoMore, GivesOneMore};
ghost use Rattle.switched_ports.specs.HubSteps.{TakesFrame};
ghost use Rattle.switched_ports.specs.States.{last_at};

use crate::hub;
use crate::ports::Ports;
use net_lane::{End, NetOut};
use vnet_switch::Switched;

impl Ports {
    /// Makes one step of an end of a port, and writes its answer into the caller's. Before one of the switch's end a
    /// frame moves to it from the port's queue, where its session is open and it has room. A frame that the switch's
    /// end takes goes into the queues of one set of ports, and misses another, whose queues are full: then the answer
    /// has both. The end shows the frame that it took.
    pub fn step_into(&mut self, port: u32, end: End, out: &mut NetOut) -> Option<Switched>
        requires port { port < length self.old }
        requires few { GivenBelow (2 ^ 64 - 1) self.old }
        ensures entry { EntryOf ports port self.old
            (step_event end (net_answer out.new (last_at end port self.new)) result) self.new }
        ensures switched { is_some result ≡ is_switched end out.new }
        ensures count { TellsLength out.new (last_at end port self.new) }

        // A frame has its length, and a reset is for a cause of its own.
        ensures frame { TakesFrame out.new (last_at end port self.new) }
        ensures own { ResetsOwn out.new }

        // No end was given more, but by a frame that was switched.
        ensures ids { GivesOneMore self.old self.new }
        ensures same_ids { IfNone result (GivesNoMore self.old self.new) }
    {
        match end {
            End::A => {
                self.step_guest(port, out);
                None
            }
            End::B => self.step_hub(port, out),
        }
    }

    /// Resets an end of a port, which begins anew, and answers how many frames are lost.
    pub fn reset(&mut self, port: u32, end: End) -> u32
        requires { port < length self.old }
        ensures entry { EntryOf ports port self.old (OnPort (OnLane (Asked end result))) self.new }
        ensures ids { GivesNoMore self.old self.new }
    {
        let lane = &mut self.lanes[port as usize];
        let lost = lane.reset(end);
        hub::tell(lane, &mut self.switch, port);
        lost
    }

    // One step of the guest's end.
    fn step_guest(&mut self, port: u32, out: &mut NetOut)
        requires port { port < length self.old }
        ensures entry { EntryOf ports port self.old
            (step_event A (net_answer out.new (last_at A port self.new)) None) self.new }
        ensures count { TellsLength out.new (last_at A port self.new) }
        ensures frame { TakesFrame out.new (last_at A port self.new) }
        ensures own { ResetsOwn out.new }
        ensures ids { GivesNoMore self.old self.new }
    {
        self.lanes[port as usize].step_into(End::A, out);
    }

    // One step of the switch's end.
    fn step_hub(&mut self, port: u32, out: &mut NetOut) -> Option<Switched>
        requires port { port < length self.old }
        requires few { GivenBelow (2 ^ 64 - 1) self.old }
        ensures entry { EntryOf ports port self.old
            (step_event B (net_answer out.new (last_at B port self.new)) result) self.new }
        ensures switched { is_some result ≡ is_frame out.new }
        ensures count { TellsLength out.new (last_at B port self.new) }
        ensures frame { TakesFrame out.new (last_at B port self.new) }
        ensures own { ResetsOwn out.new }
        ensures ids { GivesOneMore self.old self.new }
        ensures same_ids { IfNone result (GivesNoMore self.old self.new) }
    {
        let lane = &mut self.lanes[port as usize];
        hub::step_hub(lane, &mut self.switch, port, out)
    }
}
