//! Rows of sheets.

use title_instrument::Estate;
use title_land::Node;

/// One row of a sheet: in every cell of the node a party owns so many units of the estate; a whole is 2^32 units.
#[derive(Clone, Copy, Debug, PartialEq, Eq)]
pub struct SheetRow {
    pub node: Node,
    pub estate: Estate,
    pub party: u32,
    pub units: u64,
}
