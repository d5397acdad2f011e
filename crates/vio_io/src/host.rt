ghost use Rattle.std.specs.Prelude.{◌≡◌, ℕ, List, Option, Some, IfOk, OnErr, OnOk, replicate, codes};
ghost use Rattle.vio_io.specs.Causes.{Fails};
ghost use Rattle.vio_io.specs.Given.{next_given};
ghost use Rattle.vio_io.specs.declared.host.AttachFault.TheVariants.{Memory};

use crate::{NoMemory, Store};
use std::alloc::Global;

/// Why an image wasn't attached.
#[derive(Clone, Copy, Debug, PartialEq, Eq)]
pub enum AttachFault {
    /// The host failed. Its count of faults rose.
    Failed,
    Memory,
}

impl From<NoMemory> for AttachFault {
    ghost from_gives = { λ _ fault. fault ≡ Memory };

    fn from(_: NoMemory) -> Self {
        AttachFault::Memory
    }
}

/// Who gives an image under its name.
pub trait Host {
    type Disk: Store;

    /// The bytes that attaching a name gives, for at least so many wanted, where they are told.
    ghost gives: { Self → List ℕ → ℕ → Option (List ℕ) };

    /// How often it failed.
    ghost faults: { Self → ℕ };

    /// How many disks it gave, modulo 2^64: so each one that it gives changes the count.
    ghost given: { Self → ℕ };

    /// Attaches the image of a name. `least` is how many bytes are wanted of an image that is made by this call. Nothing
    /// was asked of it yet.
    fn attach(&mut self, alloc: Global, name: &str, least: u64) -> Result<Self::Disk, AttachFault>
        ensures gives { IfOk result (λ disk. Self.Disk.content disk ≡ gives self.old name.now least) }
        ensures fresh { IfOk result (λ disk. Self.Disk.faults disk ≡ 0) }
        ensures calls { IfOk result (λ disk. Self.Disk.calls disk ≡ 0) }
        ensures flushes { IfOk result (λ disk. Self.Disk.flushes disk ≡ 0) }
        ensures writes { IfOk result (λ disk. Self.Disk.writes disk ≡ 0) }
        ensures given { OnOk result (given self.new ≡ next_given (given self.old)) }
        ensures none { OnErr result (given self.new ≡ given self.old) }
        ensures faults { Fails (result ≡ Err AttachFault.Failed) (faults self.old) (faults self.new) };

    /// The name `-` gives zeros.
    ghost dash: { (host : Self) (least : ℕ) → gives host (codes "-") least ≡ Some (replicate least 0) };
}
