ghost use Rattle.std.specs.Prelude.{◌≡◌, ◌≤◌, ◌<◌, ◌↔◌, [], IfErr, IfOk, IsTrue, length, map};
ghost use Rattle.recorded_lanes.specs.world_parts.lane_models.LaneState.{fresh};
ghost use Rattle.recorded_lanes.specs.world_parts.lane_models.PortState.{fresh_port};
ghost use Rattle.domain_script.specs.Declarations.{AreDisks, ArePorts};
ghost use Rattle.vio_io.specs.Causes.{last_count};
ghost use Rattle.recorded_lanes.specs.world_parts.world_laws.Rounds.{Each};
ghost use Rattle.disk_law.specs.ListState.{as_image};
ghost use Rattle.recorded_lanes.specs.world_parts.Declared.{LiesWithin, bytes_needed, nets_of, shapes_of, world_of};

use crate::lanes::Lanes;
use domain_script::Names;
use recorded_lanes::{Disks, KeptBlocks, PortLanes};
use std::alloc::Global;
use std::marker::Model;
use vio_bytes::NoMemory;
use vio_io::Store;

/// How many blocks of an image are kept.
const MOST_KEPT: usize = 64;

/// The lanes of a script, a list of each kind by their numbers in the order of declaration.
#[derive(Drop)]
pub struct World<D: Store> {
    pub(crate) disks: Disks<D>,
    pub(crate) ports: PortLanes,
}

impl<D: Store> Model for World<D> {
    ghost use Rattle.recorded_lanes.specs.world_parts.domain_laws.Domain.{DomainState};

    ghost Value = { DomainState };

    ghost view = { λ w. record { first = w.disks; second = w.ports } };
}

/// The lanes of these declarations, before anything was asked, and room for the blocks that are kept of their image: all
/// the memory that a world wants as it is made.
pub fn room_for(alloc: Global, names: &Names) -> Result<(Lanes, KeptBlocks), NoMemory>
    requires disks { AreDisks names.now.disks }
    requires ports { ArePorts names.now.ports }
    ensures lanes { IfOk result (λ room. room.0 ≡ record {
      first = map fresh (shapes_of 0 names.now.disks);
      second = map fresh_port (nets_of names.now.ports);
    }) }
    ensures few { IfOk result (λ room. length room.0.first ≤ 8) }
    ensures blocks { IfOk result (λ room. room.1 ≡ record { kept = []; most = 64 }) }
{
    let lanes = Lanes::new(alloc, names)?;
    let blocks = KeptBlocks::new(alloc, MOST_KEPT)?;
    Ok((lanes, blocks))
}

impl<D: Store> World<D> {
    /// The world of these declarations over an image that holds all their blocks: the disks stand in it one after
    /// another. Where memory is wanted the image is given back.
    pub fn new(alloc: Global, names: &Names, image: D) -> Result<Self, (NoMemory, D)>
        requires disks { AreDisks names.now.disks }
        requires ports { ArePorts names.now.ports }
        requires image { bytes_needed names.now.disks ≤ D.size image }
        ensures made { IfOk result (λ w. w ≡ world_of names.now.disks (nets_of names.now.ports)
            (as_image D.Store image)) }
        ensures given_back { IfErr result (λ e. e.1 ≡ image) }
    {
        match room_for(alloc, names) {
            Ok((lanes, blocks)) => Ok(World::over(alloc, lanes, blocks, image)),
            Err(fault) => Err((fault, image)),
        }
    }

    /// The world of these lanes, at most eight, over an image that holds the disks of all, of which no block is kept yet.
    /// It takes no memory.
    pub fn over(alloc: Global, lanes: Lanes, blocks: KeptBlocks, image: D) -> Self
        requires few { length lanes.first ≤ 8 }
        requires none_kept { blocks.kept ≡ [] }
        requires image { Each (LiesWithin (D.size image)) lanes.first }
        ensures lanes { result.first.lanes ≡ lanes.first }
        ensures image { result.first.image ≡ as_image D.Store image }
        ensures ports { result.second ≡ lanes.second }
    {
        let Lanes { disks, ports } = lanes;
        World {
            disks: Disks::over(alloc, disks, blocks, image),
            ports: PortLanes::over(alloc, ports),
        }
    }

    /// Whether the image ever failed.
    pub fn faulty(&self) -> bool
        ensures { IsTrue result ↔ (0 < self.now.first.image.faults) }
    {
        self.disks.faulty()
    }

    /// The image, and the lanes as they stand. Its bytes and its faults are what the lanes saw, and it got each write and
    /// each flush. It was called at most as often as they asked, where no count can have stopped: it may be spared reads.
    pub fn finish(self) -> (D, Lanes)
        ensures content { D.content result.0 ≡ self.first.image.told }
        ensures faults { D.faults result.0 ≡ self.first.image.faults }
        ensures flushes { D.flushes result.0 ≡ self.first.image.flushes }
        ensures writes { D.writes result.0 ≡ self.first.image.writes }
        ensures calls { self.first.image.calls < last_count → D.calls result.0 ≤ self.first.image.calls }
        ensures lanes { result.1.first ≡ self.first.lanes }
        ensures ports { result.1.second ≡ self.second }
        ensures size { Each (LiesWithin (D.size result.0)) self.first.lanes }
    {
        let World { disks, ports } = self;
        let (image, disks) = disks.finish();
        let ports = ports.finish();
        (image, Lanes { disks, ports })
    }
}
