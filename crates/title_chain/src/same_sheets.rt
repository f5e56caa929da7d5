//! Whether two sheets are one.

ghost use Rattle.std.specs.Prelude.{◌≡◌, ◌↔◌, true, length, slice_get};
ghost use Rattle.title_chain.specs.{SheetParts.{all_rows}, KeptRows.{rows_in, sheet_in}};

use crate::lists::{Lines, Part, Sheet, SheetRows};
use crate::same_parts::{Same, same_estate, same_lists};

// Whether rows are kept alike and are the same.
fn same_lines(a: &Lines, b: &Lines) -> bool
    ensures same { result ≡ true → rows_in a.now ≡ rows_in b.now }
{
    match (a, b) {
        (Lines::Plain(rows), Lines::Plain(others)) => same_lists(rows, others),
        (Lines::Squares(section, estate, rows), Lines::Squares(other, another, others)) => {
            section.is(*other) && same_estate(*estate, *another) && same_lists(rows, others)
        }
        _ => false,
    }
}

// Whether parts are part by part the same.
fn same_parts(a: &[Part], b: &[Part]) -> bool
    ensures same { result ≡ true → all_rows a.now ≡ all_rows b.now }
{
    if a.len() != b.len() {
        return false;
    }
    for (part, other) in a.iter().zip(b) {
        if !same_lines(part.lines(), other.lines()) {
            return false;
        }
    }
    true
}

// Whether two sheets have the same row at an index, or both have none there.
fn same_at(a: &SheetRows, b: &SheetRows, index: usize) -> bool
    ensures same { (result ≡ true) ↔ (slice_get a.now index ≡ slice_get b.now index) }
{
    let Some(row) = a.row(index) else {
        return b.row(index).is_none();
    };
    let Some(other) = b.row(index) else {
        return false;
    };
    row.is_one(&other)
}

// Whether two sheets of as many rows have the same rows, however these are parted.
fn same_row_by_row(a: &SheetRows, b: &SheetRows) -> bool
    requires as_many { length a.now ≡ length b.now }
    ensures same { (result ≡ true) ↔ (a.now ≡ b.now) }
{
    for index in 0..a.len() {
        if !same_at(a, b, index) {
            return false;
        }
    }
    true
}

// Whether two sheets are kept alike and are the same.
fn same_kept(a: &Sheet, b: &Sheet) -> bool
    ensures same { result ≡ true → sheet_in a.now ≡ sheet_in b.now }
{
    match (a, b) {
        (Sheet::Whole(lines), Sheet::Whole(others)) => same_lines(lines, others),
        (Sheet::Parted(parts), Sheet::Parted(others)) => {
            same_parts(parts.as_slice(), others.as_slice())
        }
        _ => false,
    }
}

/// Whether two sheets have the same rows, in order. Where they are kept alike, part is compared with part.
pub(crate) fn same_sheets(a: &SheetRows, b: &SheetRows) -> bool
    ensures same { (result ≡ true) ↔ (a.now ≡ b.now) }
{
    a.len() == b.len() && (same_kept(a.sheet(), b.sheet()) || same_row_by_row(a, b))
}
