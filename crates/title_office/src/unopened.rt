//! Why an office isn't opened.

ghost use Rattle.std.specs.Prelude.{◌≡◌};
ghost use Rattle.title_office.specs.declared.unopened.Unopened.TheVariants as unopened;

use std::alloc::AllocError;
use thiserror::Error;

/// Why an office isn't opened.
#[derive(Clone, Copy, Debug, Error)]
pub enum Unopened {
    /// Memory ran out.
    #[error("out of memory")]
    Memory,
    /// No place for a viewer could be made.
    #[error("no place for a viewer could be made")]
    NoPlace,
}

impl From<AllocError> for Unopened {
    ghost from_gives = { λ _ e. e ≡ unopened.Memory };

    fn from(_failed: AllocError) -> Unopened {
        Unopened::Memory
    }
}
