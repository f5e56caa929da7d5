//! Where a plant's file ends.

use title_daybook::Stood;
use title_journal::Gate;

/// The gate behind a plant's file at rest, and how much stands in it.
#[derive(Clone, Copy)]
pub(crate) struct Mark {
    pub gate: Gate,
    pub stood: Stood,
}
