//! Why a call is refused.

use thiserror::Error;
use title_instrument::Cause;

/// Why a desk refuses a call, in the order of refusals: of those that hold the first is told.
#[derive(Clone, Copy, Debug, PartialEq, Eq, Error)]
pub enum Denial {
    /// The examiner has no transaction open.
    #[error("no transaction is open")]
    NotOpen,
    /// The examiner has one open already.
    #[error("a transaction is open already")]
    AlreadyOpen,
    /// The tract names a township that is not declared.
    #[error("the tract has a township that is not declared")]
    NoSuchTownship,
    /// The instrument can't stand.
    #[error("the instrument can't stand")]
    Invalid(Cause),
    /// The transaction has as many steps as one may have.
    #[error("the transaction has too many steps")]
    TooLong,
    /// A step of this examiner's open transaction is in the way, the least of them.
    #[error("a step of examiner {0} is in the way")]
    Conflict(u32),
}
