ghost use Rattle.std.specs.Prelude.{◌≡◌, ◌≤◌, ◌<◌, IfOk, length, map, Some, slice_get};
ghost use Rattle.std.specs.List.{AllByRecursion};
ghost use Rattle.recorded_lanes.specs.world_parts.lane_models.LaneState.{fresh};
ghost use Rattle.recorded_lanes.specs.world_parts.lane_models.Reached.{IsReached};
ghost use Rattle.recorded_lanes.specs.world_parts.lane_models.NetLaneState.{IsNetShape};
ghost use Rattle.recorded_lanes.specs.world_parts.lane_models.PortState.{fresh_port};
ghost use Rattle.domain_script.specs.Declarations.{AreDisks, ArePorts, IsDisk, IsPort};
ghost use Rattle.lane_kinds.specs.Lanes.{EachOf};
ghost use Rattle.recorded_lanes.specs.world_parts.switch_laws.Forwards.{views};
ghost use Rattle.recorded_lanes.specs.world_parts.switch_laws.Reached.{IsReached as IsReachedPort};
ghost use Rattle.recorded_lanes.specs.switched_ports.Shapes as the_shapes;
ghost use Rattle.recorded_lanes.specs.switched_ports.States.{PortAt};
ghost use Rattle.recorded_lanes.specs.world_parts.Declared.{net_of, nets_of, shape_of, shapes_of};

use domain_script::{DiskDecl, MOST_DISKS, MOST_PORTS, Names, PortDecl};
use recorded_lanes::{DiskLane, NetLane, PortShape, Ports, Region, Switch};
use std::alloc::Global;
use std::marker::Model;
use vio_bytes::NoMemory;

/// The lanes of a script's disks and ports, each kind by their numbers in the order of declaration: fresh, or as they
/// stand at the end of a run.
#[derive(Drop)]
pub struct Lanes {
    pub(crate) disks: Vec<DiskLane>,
    pub(crate) ports: Ports,
}

impl Model for Lanes {
    ghost use Rattle.recorded_lanes.specs.world_parts.domain_laws.Domain.{Lanes};

    ghost Value = { Lanes };

    ghost view = { λ l. record { first = l.disks.items; second = l.ports } };
}

impl Lanes {
    /// The lanes of these declarations, before anything was asked: their disks stand in an image one after another, and
    /// their ports are those of one switch.
    pub fn new(alloc: Global, names: &Names) -> Result<Lanes, NoMemory>
        requires disks { AreDisks names.now.disks }
        requires ports { ArePorts names.now.ports }
        ensures lanes { IfOk result (λ lanes. lanes ≡ record {
          first = map fresh (shapes_of 0 names.now.disks);
          second = map fresh_port (nets_of names.now.ports);
        }) }
        ensures few { IfOk result (λ lanes. length lanes.first ≤ 8) }
    {
        Ok(Lanes {
            disks: lanes_of(alloc, names)?,
            ports: ports_of(alloc, names)?,
        })
    }

    /// The lane of the k-th disk, counted from 0 in the order of declaration. Its calls tell how it stands. It was
    /// reached from a fresh one, so that the laws of lanes hold of it.
    pub fn disk(&self, k: u32) -> &DiskLane
        requires { k < length self.now.first }
        ensures lane { slice_get self.now.first k ≡ Some result.now }
        ensures reached { IsReached result.now }
    {
        let lane = &self.disks[k as usize];
        lane.reached();
        lane
    }

    /// The lane of the k-th port, likewise. All ports were reached from fresh ones, so that the laws of ports hold of
    /// them.
    pub fn port(&self, k: u32) -> &NetLane
        requires { k < length self.now.second }
        ensures lane { PortAt self.now.second k (λ at. at.lane ≡ result.now) }
        ensures reached { EachOf IsReachedPort self.now.second }
    {
        self.ports.reached();
        self.ports.lane(k)
    }

    /// The switch of the ports: it knows of each what its lane says, and holds the frames that wait for it.
    pub fn switch(&self) -> &Switch
        ensures { result.now.ports ≡ views self.now.second }
    {
        self.ports.switch()
    }
}

/// The ports of these declarations, before anything was asked.
fn ports_of(alloc: Global, names: &Names) -> Result<Ports, NoMemory>
    requires { ArePorts names.now.ports }
    ensures { IfOk result (λ ports. ports ≡ map fresh_port (nets_of names.now.ports)) }
{
    let shapes = port_shapes(alloc, names)?;
    Ports::new(alloc, &shapes)
}

/// What the declared ports are made with.
fn port_shapes(alloc: Global, names: &Names) -> Result<Vec<PortShape>, NoMemory>
    requires { ArePorts names.now.ports }
    ensures shapes { IfOk result (λ shapes. the_shapes.shapes_of shapes.items ≡ nets_of names.now.ports) }
    ensures sound { IfOk result (λ shapes. EachOf IsNetShape (nets_of names.now.ports)) }
    ensures few { IfOk result (λ shapes. length shapes.items ≤ 8) }
    ensures differ { IfOk result (λ shapes. the_shapes.AddressesDiffer (nets_of names.now.ports)) }
{
    let mut shapes = Vec::with_capacity(alloc, MOST_PORTS)?;
    for k in 0..MOST_PORTS as u32 {
        let port = match names.port(k) {
            Some(port) => port,
            None => return Ok(shapes),
        };
        shapes.push(port_shape(&port))?;
    }
    Ok(shapes)
}

/// What a declared port is made with.
fn port_shape(port: &PortDecl) -> PortShape
    requires { IsPort port.now }
    ensures made { the_shapes.shape_of result ≡ net_of port.now }
    ensures sound { IsNetShape (net_of port.now) }
{
    PortShape {
        address: read_address(&port.address),
        slots: port.ring,
        entries: port.queue,
    }
}

/// An address. Each of its bytes is read, so that it is known to be one.
fn read_address(address: &[u8; 6]) -> [u8; 6]
    ensures same { result ≡ address.now }
    ensures bytes { AllByRecursion (λ byte. byte < 256) result }
{
    let [a, b, c, d, e, f] = *address;
    [a, b, c, d, e, f]
}

/// The lanes of these declarations, before anything was asked.
fn lanes_of(alloc: Global, names: &Names) -> Result<Vec<DiskLane>, NoMemory>
    requires { AreDisks names.now.disks }
    ensures lanes { IfOk result (λ lanes. lanes.items ≡ map fresh (shapes_of 0 names.now.disks)) }
    ensures few { IfOk result (λ lanes. length lanes.items ≤ 8) }
{
    let mut lanes = Vec::with_capacity(alloc, MOST_DISKS)?;
    let mut first = 0;
    for k in 0..MOST_DISKS as u32 {
        let disk = match names.disk(k) {
            Some(disk) => disk,
            None => return Ok(lanes),
        };
        lanes.push(lane_of(alloc, first, &disk)?)?;
        first += u64::from(disk.blocks);
    }
    Ok(lanes)
}

/// The lane of a declared disk whose blocks begin at this one of the image.
#[tactic(auto, using(crate::proofs::Declaring::disk_shape))]
fn lane_of(alloc: Global, first: u64, disk: &DiskDecl) -> Result<DiskLane, NoMemory>
    requires { IsDisk disk.now }
    ensures { IfOk result (λ lane. lane ≡ fresh (shape_of first disk.now)) }
{
    let region = Region {
        first,
        blocks: u64::from(disk.blocks),
    };
    DiskLane::new(alloc, region, disk.ring, disk.queue)
}
