//! Sets of a section's cells.

ghost use Rattle.std.specs.{List.{list_any, zip}, Prelude.{◌==◌, not, bit_and, ◌≡◌, ◌↔◌, ◌<◌, ◌≤◌, ◌+◌, ◌*◌, ◌^◌, ◌&&◌, ℕ, true, false}};
ghost use Rattle.title_land.specs.{Depth.{depth}, Grids.{with_rectangle, AddsRectangle}, Survey.{side}, Rectangles.{InSection, holds}};
ghost use Rattle.title_land.specs.Grids.{IsGrid, grid_has, grid_of, fills, has_some, cell_count, cells_counted, grids_meet};
ghost use Rattle.title_land.specs.RowBits.{HasColumns};

use crate::rectangle::{ROWS, Rectangle, SIDE};
use std::marker::Model;

/// A set of a section's cells, by rows from the north and columns from the west. A contract sees it as its rows of cells.
#[derive(Clone, Copy, Debug, PartialEq, Eq)]
pub struct Grid {
    rows: [u32; ROWS],
}

impl Model for Grid {
    ghost use Rattle.std.specs.{List.{list_any, zip}, Prelude.{◌==◌, not, bit_and, Bool, List}};

    ghost Value = { List (List Bool) };

    ghost use Rattle.title_land.specs.{Depth.{depth}, RowBits.{grid_cells, row_numbers, IsRows}, RowNumbers.{rows_back}};

    ghost view = { λ g. grid_cells depth g.rows };

    ghost invariant = { λ g. IsRows depth g.rows };

    ghost inverse = { λ cells. record { rows = row_numbers cells } };

    ghost inverse_ok = { λ g h i. record { rows = rows_back depth g.rows h i } };
}

impl Grid {
    /// No cell.
    pub fn empty() -> Grid
        ensures empty { result ≡ grid_of depth (λ row column. false) }
        ensures has { (row column : ℕ) → grid_has result row column ≡ false }
    {
        Grid { rows: [0; ROWS] }
    }

    /// All cells.
    pub fn full() -> Grid
        ensures full { result ≡ grid_of depth (λ row column. true) }
        ensures has { (row column : ℕ)
            → row < side depth → column < side depth → grid_has result row column ≡ true }
    {
        let columns = columns_of(Rectangle::section());
        Grid {
            rows: [columns; ROWS],
        }
    }

    /// The cells of a rectangle.
    pub fn of(r: Rectangle) -> Grid
        requires inside { InSection depth r }
        ensures of { result ≡ grid_of depth (holds r) }
    {
        Grid::empty().with(r)
    }

    /// Whether the cell of this row and column lies in it; off the grid no cell does.
    pub fn has(&self, row: u8, column: u8) -> bool
        ensures has { result ≡ grid_has self.now row column }
    {
        match self.rows.get(row as usize) {
            Some(cells) => column < SIDE && (cells >> column) & 1 == 1,
            None => false,
        }
    }

    /// It has as many rows as a section's side, each as long. It does nothing: its type says so, and a proof may cite it.
    pub fn is_sized(&self)
        ensures sized { IsGrid depth self.now }
    {
        let _ = &self.rows;
    }

    /// Whether the sets are one.
    pub fn is(&self, other: &Grid) -> bool
        ensures is { (result ≡ true) ↔ (self.now ≡ other.now) }
    {
        self.rows == other.rows
    }

    /// Whether it has a cell.
    pub fn has_some(&self) -> bool
        ensures some { result ≡ has_some self.now }
    {
        have_bits(&self.rows)
    }

    /// The number of its cells.
    pub fn cell_count(&self) -> u32
        ensures count { result ≡ cell_count self.now }
        ensures cells { result ≡ cells_counted depth (grid_has self.now) }
        ensures most { result ≤ side depth * side depth }
    {
        let mut count = 0;
        for row in &self.rows {
            count += row.count_ones();
        }
        count
    }

    /// Whether the sets share a cell.
    pub fn meets(&self, other: &Grid) -> bool
        ensures meets { result ≡ grids_meet self.now other.now }
    {
        share_bits(&self.rows, &other.rows)
    }

    /// The set with a rectangle's cells added.
    pub fn with(self, r: Rectangle) -> Grid
        requires inside { InSection depth r }
        ensures with { result ≡ with_rectangle depth self r }
        ensures adds { AddsRectangle depth self r result }
    {
        let columns = columns_of(r);
        let mut rows = self.rows;
        for row in r.top..r.top + r.height {
            rows[row as usize] |= columns;
        }
        Grid { rows }
    }
}

/// The columns of a rectangle, as a row's number.
fn columns_of(r: Rectangle) -> u32
    requires inside { InSection depth r }
    ensures fits { result < 2 ^ side depth }
    ensures columns { HasColumns result r.left r.width }
{
    (((1u64 << r.width) - 1) << r.left) as u32
}

/// Whether a set has each cell of a rectangle.
#[tactic(auto, using(crate::specs::Laws::Sides::side_fits))]
pub fn fills(grid: &Grid, r: Rectangle) -> bool
    requires inside { InSection depth r }
    ensures fills { result ≡ fills (grid_has grid.now) r }
{
    let columns = columns_of(r);
    for row in r.top..r.top + r.height {
        if grid.rows[row as usize] & columns != columns {
            return false;
        }
    }
    true
}

/// Whether a row's number has a bit set.
fn have_bits(rows: &[u32]) -> bool
    ensures some { result ≡ list_any (λ row. not (row == 0)) rows.now }
{
    rows.iter().any(|row| *row != 0)
}

/// Whether two rows of one number have a bit in common.
fn share_bits(rows: &[u32], others: &[u32]) -> bool
    ensures shared { result
        ≡ list_any (λ pair. not (bit_and pair.0 pair.1 == 0)) (zip rows.now others.now) }
{
    rows.iter()
        .zip(others.iter())
        .any(|(row, other)| row & other != 0)
}
