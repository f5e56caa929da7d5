//! Why an office's script isn't served on top of what stands in a plant's file.

ghost use Rattle.std.specs.Prelude.{◌≡◌};
ghost use Rattle.title_lasting.specs.Faults.{of_put};
ghost use Rattle.title_lasting.specs.declared.fault.LastingFault.TheVariants as fault;
ghost use Rattle.title_kept_office.specs.Faults.{of_office};
ghost use Rattle.title_kept_office.specs.declared.fault.KeptOfficeFault.TheVariants as kept;

use std::alloc::AllocError;
use thiserror::Error;
use title_day::OfficeFault;
use title_device::Failed;
use title_journal::PutFault;
use title_lasting::LastingFault;
use title_office::{Fault, Unsettled};
use title_script::RunFault;

/// Why an office's script isn't served on top of what stands in a plant's file.
#[derive(Clone, Copy, Debug, Error)]
pub enum KeptOfficeFault {
    /// As for any script there.
    #[error("{0}")]
    Kept(LastingFault),
    /// A worker has ended with a fault, that of the least examiner.
    #[error("{0}")]
    Worker(Fault),
    /// The office can't be settled.
    #[error("{0}")]
    Unsettled(Unsettled),
}

impl From<LastingFault> for KeptOfficeFault {
    ghost from_gives = { λ failed e. e ≡ kept.Kept failed };

    fn from(failed: LastingFault) -> KeptOfficeFault {
        KeptOfficeFault::Kept(failed)
    }
}

impl From<OfficeFault> for KeptOfficeFault {
    ghost from_gives = { λ failed e. e ≡ of_office failed };

    fn from(failed: OfficeFault) -> KeptOfficeFault {
        match failed {
            OfficeFault::Run(RunFault::Row(n)) => KeptOfficeFault::Kept(LastingFault::Row(n)),
            OfficeFault::Run(RunFault::Order(n)) => KeptOfficeFault::Kept(LastingFault::Order(n)),
            OfficeFault::Run(RunFault::Party(n)) => KeptOfficeFault::Kept(LastingFault::Party(n)),
            OfficeFault::Run(RunFault::Read) => KeptOfficeFault::Kept(LastingFault::Read),
            OfficeFault::Run(RunFault::Write) => KeptOfficeFault::Kept(LastingFault::Write),
            OfficeFault::Run(RunFault::Memory) => KeptOfficeFault::Kept(LastingFault::Memory),
            OfficeFault::Worker(why) => KeptOfficeFault::Worker(why),
            OfficeFault::Unsettled(why) => KeptOfficeFault::Unsettled(why),
        }
    }
}

impl From<PutFault> for KeptOfficeFault {
    ghost from_gives = { λ failed e. e ≡ kept.Kept (of_put failed) };

    fn from(failed: PutFault) -> KeptOfficeFault {
        KeptOfficeFault::Kept(LastingFault::from(failed))
    }
}

impl From<Failed> for KeptOfficeFault {
    ghost from_gives = { λ _ e. e ≡ kept.Kept fault.Write };

    fn from(failed: Failed) -> KeptOfficeFault {
        KeptOfficeFault::Kept(LastingFault::from(failed))
    }
}

impl From<AllocError> for KeptOfficeFault {
    ghost from_gives = { λ _ e. e ≡ kept.Kept fault.Memory };

    fn from(_failed: AllocError) -> KeptOfficeFault {
        KeptOfficeFault::Kept(LastingFault::Memory)
    }
}
