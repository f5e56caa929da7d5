//! Why attending fails.

ghost use Rattle.std.specs.Prelude.{◌≡◌};
ghost use Rattle.title_counter.specs.declared.fault.CounterFault.TheVariants as fault;

use std::alloc::AllocError;
use thiserror::Error;
use title_device::Failed;

/// Why rows weren't attended to their end.
#[derive(Clone, Copy, Debug, PartialEq, Eq, Error)]
pub enum CounterFault {
    /// The source has failed, or gave more bytes than are taken.
    #[error("the rows can't be read")]
    Read,
    /// The sink has failed.
    #[error("the answers can't be written")]
    Write,
    /// Memory ran out before the first row.
    #[error("out of memory")]
    Memory,
}

impl From<Failed> for CounterFault {
    ghost from_gives = { λ _ e. e ≡ fault.Write };

    fn from(_failed: Failed) -> CounterFault {
        CounterFault::Write
    }
}

impl From<AllocError> for CounterFault {
    ghost from_gives = { λ _ e. e ≡ fault.Memory };

    fn from(_failed: AllocError) -> CounterFault {
        CounterFault::Memory
    }
}
