//! Why a call of a disk fails.

ghost use Rattle.std.specs.Prelude.{◌≡◌};
ghost use Rattle.title_disk.specs.declared.fault.DiskFault.TheVariants as fault;

use std::alloc::AllocError;
use thiserror::Error;

/// A call of a disk has failed: the disk is full, say, or broken.
#[derive(Clone, Copy, Debug, PartialEq, Eq, Error)]
#[error("the disk has failed")]
pub struct DiskFailed;

/// Why a file isn't read.
#[derive(Clone, Copy, Debug, PartialEq, Eq, Error)]
pub enum DiskFault {
    /// Memory ran out.
    #[error("out of memory")]
    Memory,
    /// The disk has failed.
    #[error("the disk has failed")]
    Failed,
}

impl From<DiskFailed> for DiskFault {
    ghost from_gives = { λ _ e. e ≡ fault.Failed };

    fn from(_failed: DiskFailed) -> DiskFault {
        DiskFault::Failed
    }
}

impl From<AllocError> for DiskFault {
    ghost from_gives = { λ _ e. e ≡ fault.Memory };

    fn from(_failed: AllocError) -> DiskFault {
        DiskFault::Memory
    }
}
