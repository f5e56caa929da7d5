//! Why a script is at fault.

ghost use Rattle.std.specs.Prelude.{◌≡◌};
ghost use Rattle.title_plan.specs.declared.fault.ScriptFault.TheVariants as fault;

use std::alloc::{AllocError, AllocFailed};
use thiserror::Error;

/// Why a script isn't read to its end. A row is numbered from 1.
#[derive(Clone, Copy, Debug, PartialEq, Eq, Error)]
pub enum ScriptFault {
    /// This row isn't a row of a script.
    #[error("row {0} isn't a row of a script")]
    Row(u64),
    /// This row stands where no such row may stand.
    #[error("row {0} is out of its place")]
    Order(u64),
    /// This row names a party that hasn't been declared, or declares one again.
    #[error("row {0} has a party at fault")]
    Party(u64),
    /// Memory ran out.
    #[error("out of memory")]
    Memory,
}

impl From<AllocError> for ScriptFault {
    ghost from_gives = { λ _ e. e ≡ fault.Memory };

    fn from(_failed: AllocError) -> ScriptFault {
        ScriptFault::Memory
    }
}

impl<T: Drop> From<AllocFailed<T>> for ScriptFault {
    ghost from_gives = { λ _ e. e ≡ fault.Memory };

    fn from(_failed: AllocFailed<T>) -> ScriptFault {
        ScriptFault::Memory
    }
}
