//! Laws of land, for the crates above. Each function does nothing: its clause is the law, proved.

ghost use Rattle.title_land.specs.{CellOrder.{CellsFollowTheCover}, Constants.{DepthIsSaidOnce}, Depth.{depth}};
ghost use Rattle.title_land.specs.CellLaws.{SameCellsAreEqual, PlantHasItsCells, ListHasTheCells, NodeListHasTheCells};
ghost use Rattle.title_land.specs.CoverSets.{CoverNodesLieApart, CoverFindsTheNode, CoverHasItsCells, LandsShareACell, MeetsByCovers};
ghost use Rattle.title_land.specs.NodeNumbers.{NumbersTellNodes, NumbersGoUp};
ghost use Rattle.title_land.specs.NodeLaws.{AboveByParent, SameNodesAreEqual, AboveIsTransitive, AboveHasTheCells, NodesShareACell};

/// The code's numbers of the grid are those of the definitions: the depth is said once in each.
pub fn depth_is_said_once()
    ensures law { DepthIsSaidOnce }
{}

/// The test of nodes is their equality.
pub fn same_nodes_are_equal()
    ensures law { SameNodesAreEqual }
{}

/// Above a node lie its parent and what lies above that.
pub fn above_by_parent()
    ensures law { AboveByParent }
{}

/// No two nodes have one number.
pub fn numbers_tell_nodes()
    ensures law { NumbersTellNodes }
{}

/// The number of the node above comes from a node's own.
pub fn numbers_go_up()
    ensures law { NumbersGoUp }
{}

/// What lies above a node that lies above a third lies above that.
pub fn above_is_transitive()
    ensures law { AboveIsTransitive }
{}

/// A node that lies above another has its cells.
pub fn above_has_the_cells()
    ensures law { AboveHasTheCells depth }
{}

/// Two nodes share a cell exactly where they are one or one lies above the other.
pub fn nodes_share_a_cell()
    ensures law { NodesShareACell depth }
{}

/// A cell of the grid lies in a land exactly where it lies in a node of its cover.
pub fn cover_has_its_cells()
    ensures law { CoverHasItsCells depth }
{}

/// Two lands share a cell exactly where a node of the one's cover and a node of the other's are related.
pub fn lands_share_a_cell()
    ensures law { LandsShareACell depth }
{}

/// The test of two lands is that of their covers.
pub fn meets_by_covers()
    ensures law { MeetsByCovers depth }
{}

/// The test of cells is their equality.
pub fn same_cells_are_equal()
    ensures law { SameCellsAreEqual }
{}

/// The plant's list of cells has exactly the cells on the grid of the declared townships.
pub fn plant_has_its_cells()
    ensures law { PlantHasItsCells depth }
{}

/// A land's list of cells has exactly the plant's cells that lie in it.
pub fn list_has_the_cells()
    ensures law { ListHasTheCells depth }
{}

/// A node's list of cells has exactly the plant's cells that lie in it.
pub fn node_list_has_the_cells()
    ensures law { NodeListHasTheCells depth }
{}

/// No node of a cover lies above another.
pub fn cover_nodes_lie_apart()
    ensures law { CoverNodesLieApart depth }
{}

/// The cover has a node with the cell exactly where the cell lies in the land, and the node found has it.
pub fn cover_finds_the_node()
    ensures law { CoverFindsTheNode depth }
{}

/// A land's cells are listed in the order of its cover: those of an earlier node before those of a later one.
pub fn cells_follow_the_cover()
    ensures law { CellsFollowTheCover depth }
{}
