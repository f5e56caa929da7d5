//! Where the sections of a township lie.

ghost use Rattle.std.specs.Prelude.{◌≡◌, ◌≤◌, ◌<◌};
ghost use Rattle.title_plat.specs.Townships.{section_number};

/// A position in a township, in rows of sections from the north and columns from the west.
#[derive(Clone, Copy, Debug, PartialEq, Eq)]
pub struct Position {
    pub row: u8,
    pub column: u8,
}

/// Where the section with this number lies: 1 in the northeast corner, then to the west, the next row back to the east, and
/// so on to 36 in the southeast corner (BLM, Manual of Surveying Instructions, 2009).
pub fn position_of(number: u8) -> Position
    requires numbered { (1 ≤ number) × (number ≤ 36) }
    ensures on_plat { (result.row < 6) × (result.column < 6) }
    ensures number { section_number result.row result.column ≡ number }
{
    let row = (number - 1) / 6;
    let along = (number - 1) % 6;
    let column = if row % 2 == 0 { 5 - along } else { along };
    Position { row, column }
}
