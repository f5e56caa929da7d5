//! Why a script isn't served on top of what stands in a plant's file, and why what stands there isn't told.

ghost use Rattle.std.specs.Prelude.{◌≡◌};
ghost use Rattle.title_lasting.specs.Faults.{of_journal, of_plant, of_put, of_reading, of_script};
ghost use Rattle.title_lasting.specs.declared.fault.LastingFault.TheVariants as fault;

use std::alloc::AllocError;
use thiserror::Error;
use title_daybook::PlantFault;
use title_device::{Failed, ReadFault};
use title_disk::DiskFailed;
use title_journal::{JournalFault, PutFault};
use title_plan::ScriptFault;

/// Why a script isn't served on top of what stands in a plant's file. Rows and places are numbered from 1. After every fault but
/// `Unsure` and `Write` what stood in the file stands.
#[derive(Clone, Copy, Debug, PartialEq, Eq, Error)]
pub enum LastingFault {
    /// The file is no plant: this row of it doesn't stand there rightly, or ends a transaction of which a post isn't posted.
    #[error("row {0} of the file: no plant")]
    NotAPlant(usize),
    /// The disk has failed, and what stood before stands.
    #[error("the disk has failed")]
    Disk,
    /// The disk has failed at the end: what stood before stands, or what stands after the script.
    #[error("the disk has failed at the end")]
    Unsure,
    /// Another place was expected than the last one, which is this.
    #[error("the last place is {0}")]
    After(u64),
    /// This row isn't a row of a script.
    #[error("row {0} isn't a row of a script")]
    Row(u64),
    /// This row stands where no such row may stand.
    #[error("row {0} is out of its place")]
    Order(u64),
    /// This row names a party that hasn't been declared, or declares one again.
    #[error("row {0} has a party at fault")]
    Party(u64),
    /// The source has failed, or the script is above `SCRIPT_LIMIT`.
    #[error("the script can't be read")]
    Read,
    /// The transaction in this place can't stand where the townships are that the script declares: a post of it takes effect in
    /// them too.
    #[error("the transaction in place {0} can't stand in a township that joins")]
    Joins(u64),
    /// Memory ran out.
    #[error("out of memory")]
    Memory,
    /// The sink has failed: what stands after the script is in the file, and not all of the report was written.
    #[error("the report can't be written")]
    Write,
}

impl From<JournalFault> for LastingFault {
    ghost from_gives = { λ failed e. e ≡ of_journal failed };

    fn from(failed: JournalFault) -> LastingFault {
        match failed {
            JournalFault::Memory => LastingFault::Memory,
            JournalFault::Failed => LastingFault::Disk,
            JournalFault::NotAPlant { row } => LastingFault::NotAPlant(row),
        }
    }
}

impl From<PlantFault> for LastingFault {
    ghost from_gives = { λ failed e. e ≡ of_plant failed };

    fn from(failed: PlantFault) -> LastingFault {
        match failed {
            PlantFault::Row(row) => LastingFault::NotAPlant(row),
            PlantFault::Memory => LastingFault::Memory,
        }
    }
}

impl From<DiskFailed> for LastingFault {
    ghost from_gives = { λ _ e. e ≡ fault.Disk };

    fn from(_failed: DiskFailed) -> LastingFault {
        LastingFault::Disk
    }
}

impl From<PutFault> for LastingFault {
    ghost from_gives = { λ failed e. e ≡ of_put failed };

    fn from(failed: PutFault) -> LastingFault {
        match failed {
            PutFault::Before => LastingFault::Disk,
            PutFault::Unsure => LastingFault::Unsure,
        }
    }
}

impl From<ReadFault> for LastingFault {
    ghost from_gives = { λ failed e. e ≡ of_reading failed };

    fn from(failed: ReadFault) -> LastingFault {
        match failed {
            ReadFault::Read => LastingFault::Read,
            ReadFault::Memory => LastingFault::Memory,
        }
    }
}

impl From<ScriptFault> for LastingFault {
    ghost from_gives = { λ failed e. e ≡ of_script failed };

    fn from(failed: ScriptFault) -> LastingFault {
        match failed {
            ScriptFault::Row(n) => LastingFault::Row(n),
            ScriptFault::Order(n) => LastingFault::Order(n),
            ScriptFault::Party(n) => LastingFault::Party(n),
            ScriptFault::Memory => LastingFault::Memory,
        }
    }
}

impl From<AllocError> for LastingFault {
    ghost from_gives = { λ _ e. e ≡ fault.Memory };

    fn from(_failed: AllocError) -> LastingFault {
        LastingFault::Memory
    }
}

impl From<Failed> for LastingFault {
    ghost from_gives = { λ _ e. e ≡ fault.Write };

    fn from(_failed: Failed) -> LastingFault {
        LastingFault::Write
    }
}
