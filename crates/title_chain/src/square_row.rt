//! Rows of sheets whose section and estate are known.

ghost use Rattle.std.specs.Prelude.{◌≡◌, IfOk, IfSome, map};
ghost use Rattle.title_chain.specs.SquareRows.{row_in};

use crate::same_parts::{Same, same_estate, same_share};
use std::alloc::{AllocError, Global};
use title_instrument::Estate;
use title_land::{Node, Section, Within};
use title_share::Share;
use title_store::SheetRow;

/// A row of a sheet less its section and estate: in every cell of a square of the section a party owns this share.
#[derive(Clone, Copy, Debug)]
pub struct SquareRow {
    pub within: Within,
    pub party: u32,
    pub share: Share,
}

impl SquareRow {
    /// A row less its section and estate. `None` where it isn't a row of these.
    pub fn of(section: Section, estate: Estate, row: &SheetRow) -> Option<SquareRow>
        ensures of { IfSome result (λ square. row_in section estate square ≡ row.now) }
    {
        let Node::Part(other, within) = row.node else {
            return None;
        };
        if !(section.is(other) && same_estate(estate, row.estate)) {
            return None;
        }
        let share = Share::new(row.units)?;
        Some(SquareRow {
            within,
            party: row.party,
            share,
        })
    }

    /// The row, with its section and estate.
    pub fn row(&self, section: Section, estate: Estate) -> SheetRow
        ensures row { result ≡ row_in section estate self.now }
    {
        SheetRow {
            node: Node::Part(section, self.within),
            estate,
            party: self.party,
            units: self.share.units(),
        }
    }
}

impl Same for SquareRow {
    fn is_one(&self, other: &SquareRow) -> bool {
        self.within.is(other.within)
            && self.party == other.party
            && same_share(self.share, other.share)
    }
}

/// The section of a row, where it is one of a section.
pub(crate) fn section_of(row: &SheetRow) -> Option<Section> {
    match row.node {
        Node::Part(section, _) => Some(section),
        _ => None,
    }
}

/// Rows less their section and estate. `None` where one isn't a row of these.
pub(crate) fn squares_of(
    alloc: Global,
    section: Section,
    estate: Estate,
    rows: &[SheetRow],
) -> Result<Option<Vec<SquareRow>>, AllocError>
    ensures squares { IfOk result (λ some. IfSome some (λ squares. map (row_in section estate) squares.items ≡ rows.now)) }
{
    let mut squares = Vec::with_capacity(alloc, rows.len())?;
    for row in rows {
        let Some(square) = SquareRow::of(section, estate, row) else {
            return Ok(None);
        };
        squares.push_reserved(square);
    }
    Ok(Some(squares))
}
