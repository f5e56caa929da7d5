//! Why a viewer shows nothing.

use thiserror::Error;

/// Why a viewer's call is refused.
#[derive(Clone, Copy, Debug, Error)]
pub enum Unseen {
    /// The receipt is not of the viewer's office.
    #[error("the receipt is not of the viewer's office")]
    Stranger,
    /// The office shows nothing any more.
    #[error("the office is closed")]
    Closed,
    /// The tract names a township that is not declared.
    #[error("the tract has a township that is not declared")]
    NoSuchTownship,
    /// Memory ran out.
    #[error("out of memory")]
    Memory,
}
