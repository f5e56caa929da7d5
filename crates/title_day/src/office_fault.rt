//! Why a run of an office's script fails.

ghost use Rattle.std.specs.Prelude.{◌≡◌};
ghost use Rattle.title_script.specs.Faults.{of_reading, of_script};
ghost use Rattle.title_day.specs.declared.office_fault.OfficeFault.TheVariants as office;
ghost use Rattle.title_script.specs.declared.fault.RunFault.TheVariants as fault;

use std::alloc::AllocError;
use thiserror::Error;
use title_device::{Failed, ReadFault};
use title_office::{Fault, Unsettled};
use title_plan::ScriptFault;
use title_script::RunFault;

/// Why an office's script wasn't run to its end.
#[derive(Clone, Copy, Debug, Error)]
pub enum OfficeFault {
    /// The script, its source or the sink is at fault, or memory ran out.
    #[error("{0}")]
    Run(RunFault),
    /// A worker has ended with a fault, that of the least examiner.
    #[error("{0}")]
    Worker(Fault),
    /// The office can't be settled.
    #[error("{0}")]
    Unsettled(Unsettled),
}

impl From<ReadFault> for OfficeFault {
    ghost from_gives = { λ failed e. e ≡ office.Run (of_reading failed) };

    fn from(failed: ReadFault) -> OfficeFault {
        OfficeFault::Run(RunFault::from(failed))
    }
}

impl From<ScriptFault> for OfficeFault {
    ghost from_gives = { λ failed e. e ≡ office.Run (of_script failed) };

    fn from(failed: ScriptFault) -> OfficeFault {
        OfficeFault::Run(RunFault::from(failed))
    }
}

impl From<Failed> for OfficeFault {
    ghost from_gives = { λ _ e. e ≡ office.Run fault.Write };

    fn from(failed: Failed) -> OfficeFault {
        OfficeFault::Run(RunFault::from(failed))
    }
}

impl From<AllocError> for OfficeFault {
    ghost from_gives = { λ _ e. e ≡ office.Run fault.Memory };

    fn from(_failed: AllocError) -> OfficeFault {
        OfficeFault::Run(RunFault::Memory)
    }
}
