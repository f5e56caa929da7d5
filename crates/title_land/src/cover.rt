//! Covers of sets of a section's cells.

ghost use Rattle.std.specs.Prelude.{◌≡◌, ◌+◌, ◌++◌, ◌≤◌, OnOk, IfOk, IfSome, length, map};
ghost use Rattle.title_land.specs.{Depth.{depth}, Covers.{cover_below, section_cover, node_at}, Grids.{grid_has, grid_of, IsGrid}};
ghost use Rattle.title_land.specs.{Nodes.{square}, Rectangles.{holds, InSection}};

use crate::grid::{Grid, fills};
use crate::node::{Node, Within};
use crate::rectangle::{DEPTH, Quarter, Rectangle};
use crate::survey::Section;
use std::alloc::{AllocError, Global};

// Adds the nodes that list the set within one square, with so many levels below it. Squares without a cell of the set aren't walked.
fn add_cover(
    grid: &Grid,
    section: Section,
    levels: u8,
    within: Within,
    area: Rectangle,
    nodes: &mut Vec<Node>,
) -> Result<(), AllocError>
    requires levels { levels + length within ≡ depth }
    requires area { area ≡ square depth within }
    requires inside { InSection depth area }
    ensures cover { OnOk result (nodes.new.items
        ≡ nodes.old.items ++ map (node_at section) (cover_below depth (grid_has grid.now) levels within)) }
{
    if fills(grid, area) {
        nodes.push(Node::Part(section, within))?;
    } else if levels > 0 && grid.meets(&Grid::of(area)) {
        for which in Quarter::ALL {
            let (square, quarter) = (within.quarter(which), area.quarter(which));
            add_cover(grid, section, levels - 1, square, quarter, nodes)?;
        }
    }
    Ok(())
}

/// The nodes that list a set of a section's cells.
#[tactic(auto, using(crate::specs::Laws::Sides::depth_is))]
pub(crate) fn cover_of(
    alloc: Global,
    section: Section,
    grid: &Grid,
) -> Result<Vec<Node>, AllocError>
    ensures cover { IfOk result (λ nodes. nodes.items ≡ section_cover depth section (grid_has grid.now)) }
    ensures sized { IsGrid depth grid.now }
{
    grid.is_sized();
    let mut nodes = Vec::new(alloc);
    let whole = Within::section();
    add_cover(grid, section, DEPTH, whole, whole.square(), &mut nodes)?;
    Ok(nodes)
}

// The first square at or below this one that the set fills, going down by the first quarter that it touches.
fn filled_square(grid: &Grid, levels: u8, within: Within, area: Rectangle) -> Option<Within>
    requires levels { levels + length within ≡ depth }
    requires area { area ≡ square depth within }
    requires inside { InSection depth area }
{
    if fills(grid, area) {
        return Some(within);
    }
    if levels == 0 {
        return None;
    }
    for which in Quarter::ALL {
        let quarter = area.quarter(which);
        if grid.meets(&Grid::of(quarter)) {
            return filled_square(grid, levels - 1, within.quarter(which), quarter);
        }
    }
    None
}

/// The square that has just the set's cells, where there is one.
#[tactic(auto, using(crate::specs::Laws::Sides::depth_is))]
pub(crate) fn sole_square(grid: &Grid) -> Option<Within>
    ensures square { IfSome result (λ w. grid.now ≡ grid_of depth (holds (square depth w))) }
    ensures short { IfSome result (λ w. length w ≤ depth) }
{
    let whole = Within::section();
    let within = filled_square(grid, DEPTH, whole, whole.square())?;
    if grid.is(&Grid::of(within.square())) {
        Some(within)
    } else {
        None
    }
}
