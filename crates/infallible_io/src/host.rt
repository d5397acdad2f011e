ghost use Rattle.std.specs.Prelude.{◌≡◌, Some, replicate, refl};

use crate::InfallibleDisk;
use std::alloc::Global;
use vio_io::{AttachFault, Host};

/// A host that gives zeros under each name, and refuses none but for want of memory.
#[derive(Drop)]
pub struct InfallibleHost {
    given: u64,
}

impl InfallibleHost {
    /// No disk was given yet.
    pub fn new() -> Self
        ensures { result.given ≡ 0 }
    {
        InfallibleHost { given: 0 }
    }
}

impl Host for InfallibleHost {
    type Disk = InfallibleDisk;

    ghost gives = { λ _ _ least. Some (replicate least 0) };

    ghost faults = { λ _. 0 };

    ghost given = { λ h. h.given };

    ghost dash = { λ _ least. refl };

    fn attach(
        &mut self,
        alloc: Global,
        _: &str,
        least: u64,
    ) -> Result<InfallibleDisk, AttachFault> {
        let zeros = InfallibleDisk::zeros(alloc, least as usize)?;
        self.given = self.given.wrapping_add(1);
        Ok(zeros)
    }
}
