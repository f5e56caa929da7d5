//! What is kept of cells while an image is out.

use title_instrument::Owners;
use title_land::{Cell, Land};

/// A cell with owners.
#[derive(Drop)]
pub(crate) struct Kept {
    pub cell: Cell,
    pub owners: Owners,
}

/// An image that is out: its tract, and what each of its cells held.
#[derive(Drop)]
pub(crate) struct Lent {
    pub land: Land,
    pub old: Vec<Kept>,
}
