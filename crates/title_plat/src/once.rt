//! Whether rows are a sheet's: whether each cell lies in one part of every estate, or in none of any, and shares are a whole.

ghost use Rattle.std.specs.Prelude.{◌≡◌, ◌==◌, sum_by};
ghost use Rattle.std.specs.List.{list_all};
ghost use Rattle.title_plat.specs.Drawn.{land_of};
ghost use Rattle.title_share.specs.Rows.{whole_units};
ghost use Rattle.title_plat.specs.Once.{is_once, is_once_on, is_whole, parts_at, parts_in, row_is_once, section_is_once, township_is_once};

use crate::frame::Frame;
use crate::parts::{Part, owners_of};
use crate::row::{Row, same_estate};
use title_aliquot::{Cell, Rectangle, Section, Township};
use title_instrument::Estate;
use title_share::WHOLE;

// How many parts of an estate have a cell.
fn parts_at(parts: &[Part], estate: Estate, cell: Cell) -> usize
    ensures count { result ≡ parts_at parts.now estate cell }
{
    parts
        .iter()
        .filter(|part| same_estate(part.estate, estate) && part.node.has(cell))
        .count()
}

// Whether a cell lies in one part of each estate, or in none of any.
fn is_once(parts: &[Part], cell: Cell) -> bool
    ensures once { result ≡ is_once parts.now cell }
{
    let count = parts_at(parts, Estate::S, cell);
    count <= 1
        && count == parts_at(parts, Estate::O, cell)
        && count == parts_at(parts, Estate::M, cell)
}

// Whether each cell of a section's row does.
fn row_is_once(parts: &[Part], section: Section, row: u8) -> bool
    ensures once { result ≡ row_is_once parts.now section row }
{
    (0..Rectangle::section().width).all(|column| {
        is_once(
            parts,
            Cell {
                section,
                row,
                column,
            },
        )
    })
}

// Whether each cell of a section does.
fn section_is_once(parts: &[Part], section: Section) -> bool
    ensures once { result ≡ section_is_once parts.now section }
{
    (0..Rectangle::section().height).all(|row| row_is_once(parts, section, row))
}

// Whether each cell of a township does.
fn township_is_once(parts: &[Part], township: Township) -> bool
    ensures once { result ≡ township_is_once parts.now township }
{
    township
        .sections()
        .all(|section| section_is_once(parts, section))
}

// Whether each cell of some townships does.
fn townships_are_once(parts: &[Part], townships: &[Township]) -> bool
    ensures once { result ≡ list_all (township_is_once parts.now) townships.now }
{
    townships
        .iter()
        .all(|township| township_is_once(parts, *township))
}

// How many parts an estate has.
fn parts_in(parts: &[Part], estate: Estate) -> usize
    ensures count { result ≡ parts_in parts.now estate }
{
    parts
        .iter()
        .filter(|part| same_estate(part.estate, estate))
        .count()
}

/// Whether each cell of the land that is drawn lies in one part of every estate, or in none of any.
pub(crate) fn is_once_on(parts: &[Part], frame: &Frame) -> bool
    ensures once { result ≡ is_once_on parts.now (land_of frame.now) }
{
    match frame {
        Frame::Section(section) => section_is_once(parts, *section),
        Frame::Townships(townships) => townships_are_once(parts, townships.as_slice()),
        Frame::Everything => {
            parts_in(parts, Estate::S) == 1
                && parts_in(parts, Estate::O) == 1
                && parts_in(parts, Estate::M) == 1
        }
    }
}

// Whether the shares of some rows are a whole.
fn sums_to_whole(owners: &[Row]) -> bool
    ensures whole { result ≡ (sum_by (λ row. row.share) owners.now == whole_units) }
{
    let mut sum: u64 = 0;
    for row in owners {
        sum = sum.saturating_add(row.share.units());
    }
    sum == WHOLE
}

// Whether the shares of a part's owners are a whole.
fn is_whole(rows: &[Row], part: &Part) -> bool
    ensures whole { result ≡ is_whole rows.now part.now }
{
    sums_to_whole(owners_of(rows, part))
}

/// Whether the shares of each part's owners are a whole.
pub(crate) fn are_whole(rows: &[Row], parts: &[Part]) -> bool
    ensures whole { result ≡ list_all (is_whole rows.now) parts.now }
{
    parts.iter().all(|part| is_whole(rows, part))
}
