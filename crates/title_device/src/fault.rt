//! Why a device fails.

ghost use Rattle.std.specs.Prelude.{◌≡◌};
ghost use Rattle.title_device.specs.declared.fault.ReadFault.TheVariants as fault;

use std::alloc::AllocError;
use thiserror::Error;

/// A call of a source or a sink has failed.
#[derive(Clone, Copy, Debug, PartialEq, Eq, Error)]
#[error("the device has failed")]
pub struct Failed;

/// Why a source isn't read to its end.
#[derive(Clone, Copy, Debug, PartialEq, Eq, Error)]
pub enum ReadFault {
    /// The source has failed, or has more than `SCRIPT_LIMIT` bytes.
    #[error("the source can't be read")]
    Read,
    /// Memory ran out.
    #[error("out of memory")]
    Memory,
}

impl From<Failed> for ReadFault {
    ghost from_gives = { λ _ e. e ≡ fault.Read };

    fn from(_failed: Failed) -> ReadFault {
        ReadFault::Read
    }
}

impl From<AllocError> for ReadFault {
    ghost from_gives = { λ _ e. e ≡ fault.Memory };

    fn from(_failed: AllocError) -> ReadFault {
        ReadFault::Memory
    }
}
