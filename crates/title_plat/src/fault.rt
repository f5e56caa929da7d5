//! Why nothing is drawn.

ghost use Rattle.std.specs.Prelude.{◌≡◌};
ghost use Rattle.title_plat.specs.declared.fault.PlatFault.TheVariants as fault;

use std::alloc::AllocError;
use thiserror::Error;

/// Why nothing is drawn.
#[derive(Clone, Copy, Debug, PartialEq, Eq, Error)]
pub enum PlatFault {
    /// The rows aren't those of a report.
    #[error("the input isn't a report")]
    NotAReport,
    /// The report has no sheet, or fewer than the number that was asked for.
    #[error("the report has no such sheet")]
    NoSheet,
    /// The rows of the sheet leave out land of an estate, or name it twice, or its shares aren't a whole.
    #[error("the rows of the sheet aren't a sheet")]
    NotASheet,
    /// Memory ran out.
    #[error("out of memory")]
    Memory,
}

impl From<AllocError> for PlatFault {
    ghost from_gives = { λ _ e. e ≡ fault.Memory };

    fn from(_failed: AllocError) -> PlatFault {
        PlatFault::Memory
    }
}
