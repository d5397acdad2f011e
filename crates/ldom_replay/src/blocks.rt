ghost use Rattle.std.specs.Prelude.{◌≡◌, ◌≤◌};
ghost use Rattle.domain_script.specs.Declarations.{AreDisks};
ghost use Rattle.ldom_world.specs.world_parts.Declared.{blocks_of};

use domain_script::{MOST_DISKS, Names};

/// How many blocks the disks have together.
pub fn blocks_declared(names: &Names) -> u64
    requires { AreDisks names.now.disks }
    ensures declared { result ≡ blocks_of names.now.disks }
    ensures few { result ≤ 524288 }
{
    let mut blocks = 0;
    for k in 0..MOST_DISKS as u32 {
        match names.disk(k) {
            Some(disk) => blocks += u64::from(disk.blocks),
            None => return blocks,
        }
    }
    blocks
}
