//! What came of a commit, and why an office can't be settled.

use thiserror::Error;
use title_chain::Record;

/// A committed transaction as its examiner knows it: the place that the commit told, from 1, and the record.
#[derive(Debug, Drop)]
pub struct Outcome {
    pub place: u64,
    pub rec: Record,
}

/// Why outcomes aren't the records, each once, each with its place. A place is a record's number, from 1.
#[derive(Clone, Copy, Debug, PartialEq, Eq, Error)]
pub enum Unsettled {
    /// This examiner has a transaction open, the least of them.
    #[error("examiner {0} has a transaction open")]
    Open(u32),
    /// No record has this place, the least such place of an outcome.
    #[error("no record has the place {0}")]
    Unknown(u64),
    /// No outcome has this place.
    #[error("no outcome has the place {0}")]
    Missing(u64),
    /// Several outcomes have this place.
    #[error("several outcomes have the place {0}")]
    Doubled(u64),
    /// The outcome with this place has another record.
    #[error("the outcome with the place {0} has another record")]
    Different(u64),
    /// Memory ran out.
    #[error("out of memory")]
    Memory,
}
