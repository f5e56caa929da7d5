//! Why what stands in a plant's file isn't read.

ghost use Rattle.std.specs.Prelude.{◌≡◌};
ghost use Rattle.title_daybook.specs.declared.fault.PlantFault.TheVariants as fault;

use std::alloc::{AllocError, AllocFailed};
use thiserror::Error;

/// Why what stands in a plant's file isn't read.
#[derive(Clone, Copy, Debug, PartialEq, Eq, Error)]
pub enum PlantFault {
    /// This row of the file, counted from 1, doesn't stand there rightly.
    #[error("row {0}: no plant")]
    Row(usize),
    /// Memory ran out.
    #[error("out of memory")]
    Memory,
}

impl From<AllocError> for PlantFault {
    ghost from_gives = { λ _ e. e ≡ fault.Memory };

    fn from(_failed: AllocError) -> PlantFault {
        PlantFault::Memory
    }
}

impl<T: Drop> From<AllocFailed<T>> for PlantFault {
    ghost from_gives = { λ _ e. e ≡ fault.Memory };

    fn from(_failed: AllocFailed<T>) -> PlantFault {
        PlantFault::Memory
    }
}
