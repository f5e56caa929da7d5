//! The rows of a sheet.

ghost use Rattle.std.specs.Prelude.{◌≡◌, slice_range};
ghost use Rattle.title_plat.specs.Parts.{same_estate, is_row_of};

use title_aliquot::Node;
use title_instrument::Estate;
use title_share::Share;

/// The estates, in the order in which a sheet lists them.
pub const ESTATES: [Estate; 3] = [Estate::S, Estate::O, Estate::M];

/// One row of a sheet: this party has this share of an estate in each cell of a node.
#[derive(Drop)]
pub struct Row {
    pub node: Node,
    pub estate: Estate,
    pub party: String,
    pub share: Share,
}

/// Whether two estates are one.
pub(crate) fn same_estate(a: Estate, b: Estate) -> bool
    ensures same { result ≡ same_estate a b }
{
    a == b
}

/// Whether a row is of this node and estate.
pub(crate) fn is_row_of(row: &Row, node: &Node, estate: Estate) -> bool
    ensures is { result ≡ is_row_of node.now estate row.now }
{
    row.node.is(node) && same_estate(row.estate, estate)
}

/// The rows from one place to before another, as far as there are any.
pub(crate) fn rows_between(rows: &[Row], first: usize, end: usize) -> &[Row]
    ensures between { result.now ≡ slice_range rows.now first end }
{
    let end = end.min(rows.len());
    &rows[first.min(end)..end]
}
