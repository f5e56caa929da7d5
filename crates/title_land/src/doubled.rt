//! Laws between two depths: what a section that is quartered once more keeps. Each function does nothing: its clause is
//! the law, proved, for every depth.

ghost use Rattle.title_land.specs.Doubled.{APartDoubles, FourCellsLieIn, DoubledHasTheCells, NodesHaveTheCells, DoubledIsLand};
ghost use Rattle.title_land.specs.Doubled.{NodeLandDoubles, CoverDoubles, MeetsDoubles, CellsDouble, NodeCellsDouble};

/// A part that isn't too small is, in a section quartered once more, the same part with its sides doubled.
pub fn a_part_doubles()
    ensures law { APartDoubles }
{}

/// A cell is one of the four of another exactly where it lies in that other.
pub fn four_cells_lie_in()
    ensures law { FourCellsLieIn }
{}

/// A cell of the finer grid lies in the doubled land exactly where the cell that it lies in lies in the land.
pub fn doubled_has_the_cells()
    ensures law { DoubledHasTheCells }
{}

/// A cell of the finer grid lies in a node exactly where the cell that it lies in does.
pub fn nodes_have_the_cells()
    ensures law { NodesHaveTheCells }
{}

/// The doubled land is as large as the finer grid.
pub fn doubled_is_land()
    ensures law { DoubledIsLand }
{}

/// The doubled land of a node is the land of that node on the finer grid.
pub fn node_land_doubles()
    ensures law { NodeLandDoubles }
{}

/// The doubled land has the same cover, and so the same canonical texts.
pub fn cover_doubles()
    ensures law { CoverDoubles }
{}

/// Two lands meet exactly where their doubles do.
pub fn meets_doubles()
    ensures law { MeetsDoubles }
{}

/// The cells of the doubled land in order are those of the land, each replaced by its four.
pub fn cells_double()
    ensures law { CellsDouble }
{}

/// The cells of a node in order are, on the finer grid, those of the grid, each replaced by its four.
pub fn node_cells_double()
    ensures law { NodeCellsDouble }
{}
