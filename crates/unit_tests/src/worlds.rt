// Worlds that get all the memory that they want.
ghost use Rattle.std.specs.Prelude.{◌≤◌, length};

use crate::reports::one_disk;
use flat_store::MemStore;
use ldom_world::World;
use std::alloc::Global;
use std::test::Fail;
use vio_io::Store;

/// Whether a world of one disk is made over an image of zeros, and gives the image back as it was.
fn is_made(alloc: Global, image: MemStore) -> bool
    requires { 32768 ≤ length image.bytes }
{
    match World::new(alloc, &one_disk(), image) {
        Ok(world) => {
            let (image, _) = world.finish();
            !image.faulty() && image.len() == 32768
        }
        Err(_) => false,
    }
}

#[test]
fn a_world_of_a_disk_is_made_over_its_image(rt: HostRuntime) -> Result<(), Fail> {
    let alloc = rt.alloc();
    assert!(rt; is_made(alloc, MemStore::zeros(alloc, 32768)?));
    Ok(())
}
