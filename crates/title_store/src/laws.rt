//! Laws of plants, posts and sheets.

ghost use Rattle.title_land.specs.Depth.{depth};
ghost use Rattle.title_store.specs.{RefusalLaws.{RefusedAtTheFirst}, SheetOrder.{SheetIsInOrder}};
ghost use Rattle.title_store.specs.SheetShows.{SheetShowsEachCell, SheetStaysInside, SheetNodesLieApart, SheetNodesAreLargest};
ghost use Rattle.title_store.specs.StoreLaws.{SheetSame, RefusedSame, EffectSame, EffectOutside, EffectRefused, SameDivisionsAreEqual};

/// The law of sheets: a sheet depends on the owners of the tract's cells and on nothing else.
pub fn sheet_same()
    ensures law { SheetSame }
{}

/// The law of refusals: whether a post is refused, and how, depends on the owners of the tract's cells and on nothing else.
pub fn refused_same()
    ensures law { RefusedSame }
{}

/// The law of posts: what a cell holds after one depends on the owners of the tract's cells and of that cell alone.
pub fn effect_same()
    ensures law { EffectSame }
{}

/// The law of other cells: a post changes no cell outside its tract.
pub fn effect_outside()
    ensures law { EffectOutside }
{}

/// The law of all or none: a refused post changes no cell.
pub fn effect_refused()
    ensures law { EffectRefused }
{}

/// The law of one holding: the test by which a sheet joins cells is equality of their holdings.
pub fn same_divisions_are_equal()
    ensures law { SameDivisionsAreEqual }
{}

/// The law of the first refusal: a cell of the named node refuses as named, the node is one of the tract's cover, and each
/// cell of the tract before that one has new owners.
pub fn refused_at_the_first()
    ensures law { RefusedAtTheFirst depth }
{}

/// Each cell of the tract lies, for each estate, in a node of the sheet whose rows are the entries of the cell's holding.
pub fn sheet_shows_each_cell()
    ensures law { SheetShowsEachCell depth }
{}

/// The nodes of a sheet have cells of the tract alone.
pub fn sheet_stays_inside()
    ensures law { SheetStaysInside depth }
{}

/// For one estate no cell lies in two nodes of a sheet.
pub fn sheet_nodes_lie_apart()
    ensures law { SheetNodesLieApart depth }
{}

/// No node of a sheet could be joined with its neighbours: a parent in the tract has cells with different holdings.
pub fn sheet_nodes_are_largest()
    ensures law { SheetNodesAreLargest depth }
{}

/// For each estate a sheet's nodes come in the order of their cells, where no township stands twice.
pub fn sheet_is_in_order()
    ensures law { SheetIsInOrder depth }
{}
