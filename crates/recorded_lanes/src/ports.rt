ghost use Rattle.std.specs.Prelude.{◌≡◌, ◌*◌, ◌≤◌, ◌<◌, length};
ghost use Rattle.lane_kinds.specs.Lanes.{sum_of};
ghost use Rattle.world_parts.specs.switch_laws.Ports.{pending, waits_on};
ghost use Rattle.switched_ports.specs.States.{PortAt};

use std::alloc::Global;
use std::marker::Model;
use switched_ports::Ports;

/// The ports of one switch by their numbers.
#[derive(Drop)]
pub struct PortLanes {
    pub(crate) alloc: Global,
    pub(crate) lanes: Ports,
}

impl Model for PortLanes {
    ghost use Rattle.std.specs.Prelude.{List};
    ghost use Rattle.world_parts.specs.lane_models.PortState.{PortState};

    ghost Value = { List PortState };

    ghost view = { λ p. p.lanes };
}

impl PortLanes {
    /// These ports. It takes no memory.
    pub fn over(alloc: Global, lanes: Ports) -> Self
        ensures { result ≡ lanes }
    {
        PortLanes { alloc, lanes }
    }

    /// How many there are.
    pub fn count(&self) -> u32
        ensures count { result ≡ length self.now }
        ensures few { length self.now ≤ 8 }
    {
        self.lanes.count()
    }

    /// Whether a settle waits for a port, which it does unless that is finished.
    pub fn waits(&self, port: u32) -> bool
        requires { port < length self.now }
        ensures { PortAt self.now port (λ at. result ≡ waits_on at) }
    {
        self.lanes.waits(port)
    }

    /// How many frames are held by all ends, and wait in all queues.
    pub fn pending(&self) -> u64
        ensures sum { result ≡ sum_of pending self.now }
        ensures small { result ≤ 8 * 12884901885 }
    {
        self.lanes.pending()
    }

    /// The ports as they stand.
    pub fn finish(self) -> Ports
        ensures { result ≡ self }
    {
        let PortLanes { alloc: _, lanes } = self;
        lanes
    }
}
