// What is left to be done for the ports.

ghost use Rattle.std.specs.Prelude.{◌≡◌, ◌<◌, ◌≤◌, ◌*◌, length};
ghost use Rattle.lane_kinds.specs.Lanes.{sum_of};
ghost use Rattle.port_laws.specs.NetLaneStep.{is_finished};
ghost use Rattle.switch_laws.specs.Ports.{pending, waits_on};
ghost use Rattle.switched_ports.specs.States.{PortAt};

use crate::ports::Ports;

impl Ports {
    /// Whether a port is finished: its guest is in session and told its groups, which was answered, and no frame is
    /// left, at neither end, nor in the switch.
    pub fn finished(&self, port: u32) -> bool
        requires { port < length self.now }
        ensures { PortAt self.now port (λ at. result ≡ is_finished at.lane (length at.queue)) }
    {
        self.lanes[port as usize].finished(self.switch.queued(port))
    }

    /// Whether a settle waits for a port, which it does unless that is finished.
    pub fn waits(&self, port: u32) -> bool
        requires { port < length self.now }
        ensures { PortAt self.now port (λ at. result ≡ waits_on at) }
    {
        !self.finished(port)
    }

    /// How many frames are held by all ends, and wait in all queues.
    pub fn pending(&self) -> u64
        ensures sum { result ≡ sum_of pending self.now }
        ensures small { result ≤ 8 * 12884901885 }
    {
        let mut total = 0;
        for port in 0..self.count() {
            total += self.pending_on(port);
        }
        total
    }

    // How many frames are held by both ends of a port, and wait in its queue.
    fn pending_on(&self, port: u32) -> u64
        requires { port < length self.now }
        ensures frames { PortAt self.now port (λ at. result ≡ pending at) }
        ensures few { result ≤ 3 * 4294967295 }
    {
        let lane = &self.lanes[port as usize];
        let held = u64::from(lane.guest().held()) + u64::from(lane.hub().held());
        held + u64::from(self.switch.queued(port))
    }
}
