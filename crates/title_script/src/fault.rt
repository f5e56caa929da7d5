//! Why a run fails.

ghost use Rattle.std.specs.Prelude.{◌≡◌};
ghost use Rattle.title_script.specs.Faults.{of_reading, of_script};
ghost use Rattle.title_script.specs.declared.fault.RunFault.TheVariants as fault;

use thiserror::Error;
use title_device::{Failed, ReadFault};
use title_plan::ScriptFault;

/// Why a script wasn't run to its end. A row is numbered from 1.
#[derive(Clone, Copy, Debug, PartialEq, Eq, Error)]
pub enum RunFault {
    /// This row isn't a row of a script.
    #[error("row {0} isn't a row of a script")]
    Row(u64),
    /// The source has failed, or the script is above `SCRIPT_LIMIT`.
    #[error("the script can't be read")]
    Read,
    /// The sink has failed.
    #[error("the report can't be written")]
    Write,
    /// This row names a party that hasn't been declared, or declares one again.
    #[error("row {0} has a party at fault")]
    Party(u64),
    /// This row stands where no such row may stand.
    #[error("row {0} is out of its place")]
    Order(u64),
    /// Memory ran out.
    #[error("out of memory")]
    Memory,
}

impl From<ReadFault> for RunFault {
    ghost from_gives = { λ failed e. e ≡ of_reading failed };

    fn from(failed: ReadFault) -> RunFault {
        match failed {
            ReadFault::Read => RunFault::Read,
            ReadFault::Memory => RunFault::Memory,
        }
    }
}

impl From<ScriptFault> for RunFault {
    ghost from_gives = { λ failed e. e ≡ of_script failed };

    fn from(failed: ScriptFault) -> RunFault {
        match failed {
            ScriptFault::Row(n) => RunFault::Row(n),
            ScriptFault::Order(n) => RunFault::Order(n),
            ScriptFault::Party(n) => RunFault::Party(n),
            ScriptFault::Memory => RunFault::Memory,
        }
    }
}

impl From<Failed> for RunFault {
    ghost from_gives = { λ _ e. e ≡ fault.Write };

    fn from(_failed: Failed) -> RunFault {
        RunFault::Write
    }
}
