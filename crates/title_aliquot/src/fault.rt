//! Why a text describes no land.

ghost use Rattle.std.specs.Prelude.{◌≡◌};
ghost use Rattle.title_aliquot.specs.Faults.{number_of};
ghost use Rattle.title_aliquot.specs.declared.fault.DescFault.TheVariants as fault;

use std::alloc::{AllocError, AllocFailed};
use thiserror::Error;

/// Why a text describes no land, in the order in which faults are looked for; `Lots` stands beside `BadText`.
#[derive(Clone, Copy, Debug, PartialEq, Eq, Drop, Error)]
pub enum DescFault {
    /// The byte offset of the first character that no text of the grammar has at its place after what stands before
    /// it; the text's length where it ends too early; 1,000 for a longer text.
    #[error("no description goes on as this one does at byte {0}")]
    BadText(usize),
    /// A township or range number is not 1 to 99, or a section is not 1 to 36.
    #[error("a township, range or section number is out of its range")]
    Range,
    /// A step halves a side of one cell.
    #[error("a step halves a side of one cell")]
    TooSmall,
    /// Where a step may begin the text goes on with `lot`: a government lot, of which only a plat knows the land.
    #[error("a government lot, of which only a plat knows the land")]
    Lots,
    /// Two parts of the text share a cell.
    #[error("two parts share a cell")]
    Overlap,
    /// Memory was refused.
    #[error("out of memory")]
    Memory,
}

impl DescFault {
    /// The fault's number in reports.
    pub fn number(self) -> u8
        ensures number { result ≡ number_of self }
    {
        match self {
            DescFault::BadText(_) => 21,
            DescFault::Range => 22,
            DescFault::TooSmall => 23,
            DescFault::Lots => 24,
            DescFault::Overlap => 25,
            DescFault::Memory => 6,
        }
    }
}

impl From<AllocError> for DescFault {
    ghost from_gives = { λ _ e. e ≡ fault.Memory };

    fn from(_e: AllocError) -> DescFault {
        DescFault::Memory
    }
}

impl<T: Drop> From<AllocFailed<T>> for DescFault {
    ghost from_gives = { λ _ e. e ≡ fault.Memory };

    fn from(_e: AllocFailed<T>) -> DescFault {
        DescFault::Memory
    }
}
