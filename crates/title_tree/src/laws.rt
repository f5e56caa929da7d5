//! Laws of plots, pieces and images, for the crates above. Each function does nothing: its clause is the law, proved.

ghost use Rattle.title_land.specs.Depth.{depth};
ghost use Rattle.title_tree.specs.{CellWays.{SquaresByPaths, CellWaysAreWhole}, PieceLaws.{NoneRefusesThere, ACellRefuses}};
ghost use Rattle.title_tree.specs.DepthLaws.{GraftFits, PlotAtFits, SplitFits, ChangedFits, TidiedFits, TidiedAllFits};
ghost use Rattle.title_tree.specs.Joining.{TidiedIsTidy, TidiedWhereWritten};
ghost use Rattle.title_tree.specs.LendingLaws.{PutKeeps, RestoreKeeps, ForgetKeeps, RefineKeeps, NoneIsKept};
ghost use Rattle.title_tree.specs.PieceLaws.{SwappedShows, TakenHolds, PutShows, PutTakes, MadeBeforeTheSplit, SplitAllReaches};
ghost use Rattle.title_tree.specs.PlotLaws.{GraftShows, PlotAtShows, SplitShows, TidiedShows, TidiedAllShows, ChangedShows};
ghost use Rattle.title_tree.specs.PlotLaws.{FirstLeafRefuses, NoneRefuses, SplitReaches, SplitKeeps, GraftKeeps, ChangedKeeps, NodesBelow};
ghost use Rattle.title_tree.specs.PlotLaws.{SplitElsewhere, UniformIsHeld, UniformIsFound};

use crate::change::Change;

/// After a graft the cells below the path hold what the new plot holds, and all others what they held.
pub fn graft_shows()
    ensures law { GraftShows }
{}

/// The plot at a path holds what its cells hold in the whole.
pub fn plot_at_shows()
    ensures law { PlotAtShows }
{}

/// Quartering changes no cell.
pub fn split_shows()
    ensures law { SplitShows }
{}

/// Joining leaves that hold the same changes no cell.
pub fn tidied_shows()
    ensures law { TidiedShows }
{}

/// Joining leaves at some paths and above them changes no cell.
pub fn tidied_all_shows()
    ensures law { TidiedAllShows }
{}

/// A change of the leaves is that of the cells.
pub fn changed_shows()
    ensures law { ChangedShows }
{}

/// A uniform plot's division is that of each cell.
pub fn uniform_is_held()
    ensures law { UniformIsHeld }
{}

/// A plot whose cells all have one division is uniform, however it is quartered.
pub fn uniform_is_found()
    ensures law { UniformIsFound }
{}

/// The first leaf that refuses a change refuses it as the first cell that does.
pub fn first_leaf_refuses<C: Change>()
    ensures law { FirstLeafRefuses C.Refusal }
{}

/// Where no leaf refuses a change, no cell does.
pub fn none_refuses<C: Change>()
    ensures law { NoneRefuses C.Refusal }
{}

/// A plot quartered down to a path has a node there.
pub fn split_reaches()
    ensures law { SplitReaches }
{}

/// Quartering keeps each node.
pub fn split_keeps()
    ensures law { SplitKeeps }
{}

/// A graft keeps each node that doesn't lie in it, and those in it that the new plot has too.
pub fn graft_keeps()
    ensures law { GraftKeeps }
{}

/// A change keeps exactly the nodes.
pub fn changed_keeps()
    ensures law { ChangedKeeps }
{}

/// A node below a path is one of the plot at that path.
pub fn nodes_below()
    ensures law { NodesBelow }
{}

/// Quartering doesn't change the plot at a path that it doesn't go on below.
pub fn split_elsewhere()
    ensures law { SplitElsewhere }
{}

/// After an exchange the cells of the pieces hold what the pieces held, and all others what they held.
pub fn swapped_shows()
    ensures law { SwappedShows }
{}

/// After an exchange the pieces hold what their cells held.
pub fn taken_holds()
    ensures law { TakenHolds }
{}

/// After a put the cells at its paths are changed, and no others.
pub fn put_shows()
    ensures law { PutShows }
{}

/// What a put takes away is what the cells held.
pub fn put_takes()
    ensures law { PutTakes }
{}

/// What is made before the plot is quartered is what would be made after.
pub fn made_before_the_split()
    ensures law { MadeBeforeTheSplit }
{}

/// A plot that is quartered down to each of some paths has a node there, and all nodes and cells that it had.
pub fn split_all_reaches()
    ensures law { SplitAllReaches }
{}

/// After a put each image that is out can go back, the new one too.
pub fn put_keeps()
    ensures law { PutKeeps }
{}

/// After an image has gone back each other can, where no later one that is out lay in its nodes.
pub fn restore_keeps()
    ensures law { RestoreKeeps }
{}

/// After images have been let go each other can go back.
pub fn forget_keeps()
    ensures law { ForgetKeeps }
{}

/// After quartering each image that is out can go back.
pub fn refine_keeps()
    ensures law { RefineKeeps }
{}

/// Where no image is out, each can go back.
pub fn none_is_kept()
    ensures law { NoneIsKept }
{}

/// A plot that fits the levels below a path may stand there.
pub fn graft_fits()
    ensures law { GraftFits }
{}

/// What stands at a path fits the levels below it.
pub fn plot_at_fits()
    ensures law { PlotAtFits }
{}

/// Quartering down to a path goes no deeper than the path.
pub fn split_fits()
    ensures law { SplitFits }
{}

/// A change goes no deeper.
pub fn changed_fits()
    ensures law { ChangedFits }
{}

/// Joining leaves goes no deeper.
pub fn tidied_fits()
    ensures law { TidiedFits }
{}

/// Joining leaves at some paths and above them goes no deeper.
pub fn tidied_all_fits()
    ensures law { TidiedAllFits }
{}

/// Where no leaf at some paths refuses a change, no cell there does.
pub fn none_refuses_there<C: Change>()
    ensures law { NoneRefusesThere C.Refusal }
{}

/// The reason of a leaf at some paths that refuses a change is that of a cell there.
pub fn a_cell_refuses<C: Change>()
    ensures law { ACellRefuses C.Refusal }
{}

/// A cell lies in a square exactly where the square's path begins the cell's.
pub fn squares_by_paths()
    ensures law { SquaresByPaths depth }
{}

/// A cell's path has as many quarters as a section has levels.
pub fn cell_ways_are_whole()
    ensures law { CellWaysAreWhole depth }
{}

/// A tidied plot is tidy.
pub fn tidied_is_tidy()
    ensures law { TidiedIsTidy }
{}

/// A tidy plot that was changed at some paths alone is tidy again once it is tidied there.
pub fn tidied_where_written()
    ensures law { TidiedWhereWritten }
{}
