ghost use Rattle.std.specs.Prelude.{◌≡◌, ◌≤◌, ◌<◌, ◌↔◌, [], IsTrue, length};
ghost use Rattle.vio_io.specs.Causes.{last_count};
ghost use Rattle.world_parts.specs.world_laws.Rounds.{Each};
ghost use Rattle.disk_law.specs.ListState.{as_image};
ghost use Rattle.world_parts.specs.Declared.{LiesWithin};

use cached_store::{Cached, KeptBlocks};
use disk_lane::DiskLane;
use ldom_report::Bytes;
use std::alloc::Global;
use std::marker::Model;
use vio_io::Store;

/// The lanes of disks by their numbers, and the image that all of them are served from, behind a cache of its blocks:
/// each disk is a region of it, one after another.
#[derive(Drop)]
pub struct Disks<D: Store> {
    pub(crate) alloc: Global,
    pub(crate) lanes: Vec<DiskLane>,
    pub(crate) image: Cached<D>,

    /// Room for what the next completion carries.
    pub(crate) room: Bytes,
}

impl<D: Store> Model for Disks<D> {
    ghost use Rattle.std.specs.Prelude.{[], ◌≡◌, ◌≤◌, length};
    ghost use Rattle.world_parts.specs.world_laws.Rounds.{Each};
    ghost use Rattle.world_parts.specs.world_laws.World.{WorldState};
    ghost use Rattle.recorded_lanes.specs.CachedImage.{cached_image};
    ghost use Rattle.world_parts.specs.Declared.{LiesWithin};

    ghost Value = { WorldState };

    ghost view = { λ w. record {
      lanes = w.lanes.items;
      image = cached_image D.Store w.image;
    } };

    ghost invariant = { λ w. (length w.lanes.items ≤ 8) × Each (LiesWithin (D.size w.image.inner)) w.lanes.items
        × (w.room.items ≡ []) };
}

impl<D: Store> Disks<D> {
    /// These lanes, at most eight, over an image that holds the disks of all, of which no block is kept yet. It takes no
    /// memory.
    pub fn over(alloc: Global, lanes: Vec<DiskLane>, blocks: KeptBlocks, image: D) -> Self
        requires few { length lanes.items ≤ 8 }
        requires none_kept { blocks.kept ≡ [] }
        requires image { Each (LiesWithin (D.size image)) lanes.items }
        ensures lanes { result.lanes ≡ lanes.items }
        ensures image { result.image ≡ as_image D.Store image }
    {
        Disks {
            alloc,
            lanes,
            image: Cached::over(blocks, image),
            room: Bytes::empty(alloc),
        }
    }

    /// How many there are.
    pub fn count(&self) -> u32
        ensures count { result ≡ length self.now.lanes }
        ensures few { length self.now.lanes ≤ 8 }
    {
        self.lanes.len() as u32
    }

    /// Whether the image ever failed.
    pub fn faulty(&self) -> bool
        ensures { IsTrue result ↔ (0 < self.now.image.faults) }
    {
        self.image.faulty()
    }

    /// The image, and the lanes as they stand.
    pub fn finish(self) -> (D, Vec<DiskLane>)
        ensures content { D.content result.0 ≡ self.image.told }
        ensures faults { D.faults result.0 ≡ self.image.faults }
        ensures flushes { D.flushes result.0 ≡ self.image.flushes }
        ensures writes { D.writes result.0 ≡ self.image.writes }
        ensures calls { self.image.calls < last_count → D.calls result.0 ≤ self.image.calls }
        ensures lanes { result.1.items ≡ self.lanes }
        ensures size { Each (LiesWithin (D.size result.0)) self.lanes }
    {
        let Disks {
            alloc: _,
            lanes,
            image,
            room: _,
        } = self;
        (image.into_inner(), lanes)
    }
}
