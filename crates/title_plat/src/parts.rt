//! The parts of a sheet.

ghost use Rattle.std.specs.Prelude.{◌≡◌, ◌≤◌, ◌<◌, ◌∷◌, IfOk, length, drop};
ghost use Rattle.std.specs.List.{prefix_len};
ghost use Rattle.title_plat.specs.Parts.{is_row_of, owners_of, parts_from, parts_of};

use crate::row::{Row, is_row_of, rows_between};
use std::alloc::{AllocError, Global};
use title_aliquot::Node;
use title_instrument::Estate;

/// A part of a sheet: a node, one of its estates, and which rows say who owns it there, from `first` to before `end`.
#[derive(Clone, Copy, Debug, PartialEq, Eq)]
pub struct Part {
    pub node: Node,
    pub estate: Estate,
    pub first: usize,
    pub end: usize,
}

// How many rows at the front are of this node and estate.
fn run_length(rows: &[Row], node: &Node, estate: Estate) -> usize
    ensures run { result ≡ prefix_len (is_row_of node.now estate) rows.now }
{
    rows.iter()
        .take_while(|row| is_row_of(row, node, estate))
        .count()
}

// The part that begins at a row.
fn part_at(rows: &[Row], first: usize) -> Part
    requires here { first < length rows.now }
    ensures some { first < result.end }
    ensures within { result.end ≤ length rows.now }
    ensures part { parts_from first (drop first rows.now)
        ≡ result ∷ parts_from result.end (drop result.end rows.now) }
{
    let row = &rows[first];
    let count = run_length(&rows[first + 1..], &row.node, row.estate);
    Part {
        node: row.node,
        estate: row.estate,
        first,
        end: first + 1 + count,
    }
}

/// The parts of a sheet: runs of rows with one node and estate, each as long as it can be.
pub fn parts_of(alloc: Global, rows: &[Row]) -> Result<Vec<Part>, AllocError>
    ensures parts { IfOk result (λ parts. parts.items ≡ parts_of rows.now) }
{
    let mut parts = Vec::new(alloc);
    let mut at = 0;
    while at < rows.len() {
        let part = part_at(rows, at);
        at = part.end;
        parts.push(part)?;
    }
    Ok(parts)
}

/// The rows of a part.
pub fn owners_of<'a>(rows: &'a [Row], part: &Part) -> &'a [Row]
    ensures owners { result.now ≡ owners_of rows.now part.now }
{
    rows_between(rows, part.first, part.end)
}
