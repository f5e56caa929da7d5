//! Parts of sections in the cells form: the section's text, ` cells`, and a word of four hexadecimal digits for each row.

ghost use Rattle.std.specs.{Prelude.{◌≡◌, ◌≤◌, ◌<◌, ◌++◌, ◌∷◌, [], Some, IfOk, OnOk, length}, String.{string_bytes}};
ghost use Rattle.title_land.specs.{Depth.{depth}, Grids.{grid_has, grid_of}};
ghost use Rattle.title_plan.specs.Lands.{land_in};
ghost use Rattle.title_spelling.specs.Cells.{cells_in, digit_at, if_spelled, is_marked, row_text, section_of, spelled_cells, value_of};

use std::alloc::{AllocError, Global};
use title_land::{Grid, Land, Rectangle, SIDE, Section, Tract};
use title_plan::read_tract;

/// The bytes of the rows at the end of a text in the cells form: a space and a word of four digits for each of 16 rows.
const ROWS_BYTES: usize = 80;

/// The bytes of the rows and of the word in front of them.
const CELLS_BYTES: usize = 86;

// ---- spelling

// The digit of four cells of a row, from a column on.
fn digit_of(cells: &Grid, row: u8, column: u8) -> u8
    requires inside { column ≤ 12 }
    ensures digit { result ≡ digit_at (grid_has cells.now) row column }
{
    let mut number = 0;
    if cells.has(row, column) {
        number += 8;
    }
    if cells.has(row, column + 1) {
        number += 4;
    }
    if cells.has(row, column + 2) {
        number += 2;
    }
    if cells.has(row, column + 3) {
        number += 1;
    }
    if number < 10 {
        b'0' + number
    } else {
        b'a' - 10 + number
    }
}

// Adds the digit of four cells of a row.
fn push_digit(text: &mut String, cells: &Grid, row: u8, column: u8) -> Result<(), AllocError>
    requires inside { column ≤ 12 }
    ensures added { OnOk result (string_bytes text.new ≡ string_bytes text.old ++ digit_at (grid_has cells.now) row column ∷ []) }
{
    text.push(char::from(digit_of(cells, row, column)))
}

// Adds a space and the word of a row.
fn push_row(text: &mut String, cells: &Grid, row: u8) -> Result<(), AllocError>
    ensures added { OnOk result (string_bytes text.new ≡ string_bytes text.old ++ row_text (grid_has cells.now) row) }
{
    text.push(' ')?;
    push_digit(text, cells, row, 0)?;
    push_digit(text, cells, row, 4)?;
    push_digit(text, cells, row, 8)?;
    push_digit(text, cells, row, 12)
}

/// A part of a section in the cells form.
pub fn spell_cells(alloc: Global, section: Section, cells: &Grid) -> Result<String, AllocError>
    ensures spelled { IfOk result (λ text. string_bytes text ≡ spelled_cells section cells.now) }
{
    let mut text = format!(in alloc; "{section} cells")?;
    for row in 0..SIDE {
        push_row(&mut text, cells, row)?;
    }
    Ok(text)
}

// ---- reading

// The number of a digit.
fn value_of(byte: u8) -> u8
    ensures value { result ≡ value_of byte }
{
    if byte < b'a' {
        byte.saturating_sub(b'0')
    } else {
        byte - (b'a' - 10)
    }
}

// Whether the text of rows has the cell of this row and column.
fn is_marked(rows: &[u8], row: u8, column: u8) -> bool
    requires long { 80 ≤ length rows.now }
    requires in_rows { row < 16 }
    requires in_columns { column < 16 }
    ensures marked { result ≡ is_marked rows.now row column }
{
    let digit = rows[usize::from(5 * row + (1 + column / 4))];
    (value_of(digit) >> (3 - column % 4)) & 1 == 1
}

// The set of the cells that the text of rows has.
fn marked(rows: &[u8]) -> Grid
    requires long { 80 ≤ length rows.now }
    ensures marked { result ≡ grid_of depth (is_marked rows.now) }
{
    let mut cells = Grid::empty();
    for number in 0..256u16 {
        let (row, column) = ((number / 16) as u8, (number % 16) as u8);
        if is_marked(rows, row, column) {
            cells = cells.with(Rectangle {
                top: row,
                left: column,
                height: 1,
                width: 1,
            });
        }
    }
    cells.is_sized();
    cells
}

// The section of which a description says a part.
fn section_of(alloc: Global, text: &str) -> Result<Option<Section>, AllocError>
    ensures section { IfOk result (λ section. section ≡ section_of (land_in text.now)) }
{
    let Ok(tract) = read_tract(alloc, text)? else {
        return Ok(None);
    };
    match tract.land() {
        Land::Part(section, _) => Ok(Some(section)),
        _ => Ok(None),
    }
}

// The part of a section with these cells, where the text is its cells form.
fn if_spelled(
    alloc: Global,
    text: &str,
    section: Section,
    cells: Grid,
) -> Result<Option<Tract>, AllocError>
    ensures said { IfOk result (λ said. said ≡ if_spelled text.now (Some section) cells) }
{
    if !cells.has_some() {
        return Ok(None);
    }
    let spelled = spell_cells(alloc, section, &cells)?;
    if spelled.as_str() != text {
        return Ok(None);
    }
    Ok(Some(Tract::new(alloc, Land::Part(section, cells))?))
}

/// The part of a section of which a text is the cells form; `None` where it is of none.
pub fn read_cells(alloc: Global, text: &str) -> Result<Option<Tract>, AllocError>
    ensures said { IfOk result (λ said. said ≡ cells_in text.now) }
{
    if text.len() < CELLS_BYTES {
        return Ok(None);
    }
    let Some((front, cells)) = text.split_at_checked(text.len() - CELLS_BYTES) else {
        return Ok(None);
    };
    if !cells.starts_with(" cells") {
        return Ok(None);
    }
    let Some(section) = section_of(alloc, front)? else {
        return Ok(None);
    };
    let bytes = text.as_bytes();
    let rows = &bytes[bytes.len() - ROWS_BYTES..];
    if_spelled(alloc, text, section, marked(rows))
}
