//! Laws of sheets. Each function does nothing: its clause is the law, proved.

ghost use Rattle.title_plat.specs.Laws.{PartsHaveTheRows, SheetsHaveEachCellOnce};

/// The parts of rows have each row once, in its order. Each part has one row at least, all of its node and estate, and two
/// neighbours differ in node or estate.
pub fn parts_have_the_rows()
    ensures law { PartsHaveTheRows }
{}

/// Rows are a sheet exactly where the shares of each part are a whole, and each cell of the land that is drawn lies in one part
/// of every estate, or in none of any. Of the whole plant each estate is one part.
pub fn sheets_have_each_cell_once()
    ensures law { SheetsHaveEachCellOnce }
{}
