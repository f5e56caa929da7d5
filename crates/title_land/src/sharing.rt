//! Laws of tracts that share a cell, for the crates above. Each function does nothing: its clause is the law, proved.

ghost use Rattle.title_land.specs.{SharedCells.{MeetsAtACell, CommonCellMeets, MeetsEitherWay}, Depth.{depth}};

/// The test of two tracts is true exactly where some cell of the grid lies in both.
pub fn meets_at_a_cell()
    ensures law { MeetsAtACell depth }
{}

/// Two tracts that have one cell meet.
pub fn common_cell_meets()
    ensures law { CommonCellMeets }
{}

/// Two tracts meet one another.
pub fn meets_either_way()
    ensures law { MeetsEitherWay }
{}
