// The ports of a switch, and how they stand.

ghost use Rattle.std.specs.Prelude.{◌≡◌, ◌<◌, ◌≤◌, length, map, IfOk};
ghost use Rattle.lane_kinds.specs.Lanes.{EachOf};
ghost use Rattle.net_lane.specs.NetLaneState.{IsNetShape};
ghost use Rattle.port_laws.specs.PortState.{fresh_port};
ghost use Rattle.switch_laws.specs.Forwards.{views};
ghost use Rattle.switch_laws.specs.Reached.{IsReached};
ghost use Rattle.switched_ports.specs.Shapes.{AddressesDiffer, lane_of, shapes_of};
ghost use Rattle.switched_ports.specs.States.{PortAt, queue_at};

use crate::shape::PortShape;
use net_lane::NetLane;
use std::alloc::Global;
use std::marker::Model;
use vio_bytes::NoMemory;
use vnet_switch::Switch;

/// Up to eight ports of one switch, numbered from 0. Each is seen as the state of its lane, and the frames that wait
/// for it in the switch.
#[derive(Drop)]
pub struct Ports {
    pub(crate) lanes: Vec<NetLane>,
    pub(crate) switch: Switch,
}

impl Model for Ports {
    ghost use Rattle.std.specs.Prelude.{List};
    ghost use Rattle.port_laws.specs.PortState.{PortState};
    ghost use Rattle.switched_ports.specs.States.{states};
    ghost use Rattle.switched_ports.specs.Tied.{Tied};

    ghost Value = { List PortState };

    ghost view = { λ p. states p.lanes.items p.switch.ports };

    ghost invariant = { λ p. Tied p.lanes.items p.switch.ports (states p.lanes.items p.switch.ports) };
}

impl Ports {
    /// At most eight ports, no two of them with one address. No end is configured, and nothing waits. The one refusal
    /// is for want of memory, and no later call takes any.
    pub fn new(alloc: Global, shapes: &[PortShape]) -> Result<Ports, NoMemory>
        requires few { length shapes.now ≤ 8 }
        requires shapes { EachOf IsNetShape (shapes_of shapes.now) }
        requires differ { AddressesDiffer (shapes_of shapes.now) }
        ensures { IfOk result (λ ports. ports ≡ map fresh_port (shapes_of shapes.now)) }
    {
        let lanes = lanes_of(alloc, shapes)?;
        let rooms = rooms_of(alloc, shapes)?;
        let switch = Switch::new(alloc, &rooms)?;
        Ok(Ports { lanes, switch })
    }

    /// How many ports there are.
    pub fn count(&self) -> u32
        ensures count { result ≡ length self.now }
        ensures few { length self.now ≤ 8 }
    {
        self.lanes.len() as u32
    }

    /// Tells that some calls led each port here from a fresh one, so that the laws of `switch_laws` hold of them where
    /// this was called. It does nothing.
    pub fn reached(&self)
        ensures { EachOf IsReached self.now }
    {
        let _ = &self.switch;
    }

    /// The lane of a port, to be looked at.
    pub fn lane(&self, port: u32) -> &NetLane
        requires { port < length self.now }
        ensures { PortAt self.now port (λ at. at.lane ≡ result.now) }
    {
        &self.lanes[port as usize]
    }

    /// The switch, to be looked at: it knows of each port what its state says.
    pub fn switch(&self) -> &Switch
        ensures { result.now.ports ≡ views self.now }
    {
        &self.switch
    }

    /// How many frames wait for a port in the switch.
    pub fn queued(&self, port: u32) -> u32
        requires { port < length self.now }
        ensures { result ≡ length (queue_at port self.now) }
    {
        self.switch.queued(port)
    }
}

// A fresh lane of each shape.
fn lanes_of(alloc: Global, shapes: &[PortShape]) -> Result<Vec<NetLane>, NoMemory>
    requires few { length shapes.now ≤ 8 }
    requires shapes { EachOf IsNetShape (shapes_of shapes.now) }
    ensures { IfOk result (λ lanes. lanes.items ≡ map lane_of shapes.now) }
{
    let mut lanes = Vec::with_capacity(alloc, shapes.len())?;
    for shape in shapes {
        lanes.push(NetLane::new(alloc, shape.address, shape.slots, shape.entries)?)?;
    }
    Ok(lanes)
}

// Room in each port's queue for as many frames as its ring has slots.
fn rooms_of(alloc: Global, shapes: &[PortShape]) -> Result<Vec<u32>, NoMemory>
    requires { length shapes.now ≤ 8 }
    ensures { IfOk result (λ rooms. rooms.items ≡ map (λ shape. shape.slots) shapes.now) }
{
    let mut rooms = Vec::with_capacity(alloc, shapes.len())?;
    for shape in shapes {
        rooms.push(shape.slots)?;
    }
    Ok(rooms)
}
