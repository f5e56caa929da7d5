//! Records.

ghost use Rattle.std.specs.Prelude.{◌≡◌, IfOk};

use crate::lists::Steps;
use std::alloc::{AllocError, Global};

/// A committed transaction: its examiner and its steps, in order.
#[derive(Debug, Drop)]
pub struct Record {
    pub examiner: u32,
    pub steps: Steps,
}

impl Record {
    /// An equal record.
    pub fn copy(&self, alloc: Global) -> Result<Record, AllocError>
        ensures copy { IfOk result (λ copied. copied ≡ self.now) }
    {
        Ok(Record {
            examiner: self.examiner,
            steps: self.steps.copy(alloc)?,
        })
    }
}
