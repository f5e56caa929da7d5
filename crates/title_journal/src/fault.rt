//! Why a plant's file isn't read, and why a block isn't put into it.

ghost use Rattle.std.specs.Prelude.{◌≡◌};
ghost use Rattle.title_journal.specs.Blocks.{fault_of};
ghost use Rattle.title_journal.specs.declared.fault.JournalFault.TheVariants as fault;

use std::alloc::{AllocError, AllocFailed};
use thiserror::Error;
use title_disk::DiskFault;

/// Why the blocks of a plant's file aren't read. The file stays as it is.
#[derive(Clone, Copy, Debug, PartialEq, Eq, Error)]
pub enum JournalFault {
    /// Memory ran out.
    #[error("out of memory")]
    Memory,
    /// The disk has failed.
    #[error("the disk has failed")]
    Failed,
    /// The file is no plant: its row of this number, counted from 1, doesn't stand there rightly.
    #[error("row {row}: no plant")]
    NotAPlant { row: usize },
}

impl From<DiskFault> for JournalFault {
    ghost from_gives = { λ fault e. e ≡ fault_of fault };

    fn from(fault: DiskFault) -> JournalFault {
        match fault {
            DiskFault::Memory => JournalFault::Memory,
            DiskFault::Failed => JournalFault::Failed,
        }
    }
}

impl From<AllocError> for JournalFault {
    ghost from_gives = { λ _ e. e ≡ fault.Memory };

    fn from(_failed: AllocError) -> JournalFault {
        JournalFault::Memory
    }
}

impl<T: Drop> From<AllocFailed<T>> for JournalFault {
    ghost from_gives = { λ _ e. e ≡ fault.Memory };

    fn from(_failed: AllocFailed<T>) -> JournalFault {
        JournalFault::Memory
    }
}

/// Why a block isn't put into a plant's file: the disk has failed. The file has to be opened again.
#[derive(Clone, Copy, Debug, PartialEq, Eq, Error)]
pub enum PutFault {
    /// What stood before stands, and the block doesn't.
    #[error("the disk has failed")]
    Before,
    /// What stood before stands, with the block or without it.
    #[error("the disk has failed at the end")]
    Unsure,
}
