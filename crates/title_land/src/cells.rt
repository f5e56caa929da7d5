//! Cells of tracts in their order: townships as declared, sections 1 to 36, quarters as they are listed.

ghost use Rattle.std.specs.{Prelude.{◌≡◌, ◌≤◌, ◌+◌, ◌++◌, OnOk, IfOk, filter, find, length}, List.{list_any}};
ghost use Rattle.title_land.specs.{Depth.{depth}, Survey.{same_township}, Rectangles.{InSection}, Nodes.{square, node_has, are_related}};
ghost use Rattle.title_land.specs.{Nestings.{lies_in}, Lands.{has, cover_of, is_in_plant}};
ghost use Rattle.title_land.specs.CellLists.{same_cell, cells_below, section_cells, township_cells, cells_of};

use crate::node::{Node, Within};
use crate::rectangle::{DEPTH, Quarter, Rectangle};
use crate::survey::{Cell, Section, Township};
use crate::tract::{Land, Tract};
use std::alloc::{AllocError, Global};

impl Township {
    /// Whether it is one of these.
    pub fn is_among(self, townships: &[Township]) -> bool
        ensures among { result ≡ list_any (same_township self) townships.now }
    {
        townships.iter().any(|other| self.is(*other))
    }
}

impl Cell {
    /// Whether it is this cell.
    pub fn is(self, other: Cell) -> bool
        ensures is { result ≡ same_cell self other }
    {
        self.section.is(other.section) && self.row == other.row && self.column == other.column
    }
}

impl Within {
    /// The cells of the square.
    pub fn square(self) -> Rectangle
        ensures square { result ≡ square depth self }
        ensures inside { InSection depth result }
        ensures short { length self ≤ depth }
    {
        match self.split() {
            None => Rectangle::section(),
            Some((which, outer)) => outer.square().quarter(which),
        }
    }

    // Whether it lies in another square: it is that one, or a quarter of a square that lies in it.
    fn lies_in(self, other: Within) -> bool
        ensures lies { result ≡ lies_in other self }
    {
        if self == other {
            return true;
        }
        match self.split() {
            None => false,
            Some((_, outer)) => outer.lies_in(other),
        }
    }
}

impl Node {
    /// Whether the cell lies in it.
    pub fn has(self, cell: Cell) -> bool
        ensures has { result ≡ node_has depth self cell }
    {
        match self {
            Node::Everything => true,
            Node::Township(township) => township.is(cell.section.township),
            Node::Part(section, within) => {
                section.is(cell.section) && within.square().holds(cell.row, cell.column)
            }
        }
    }

    /// Whether the nodes share a cell: they are one, or one lies above the other.
    pub fn meets(self, other: Node) -> bool
        ensures meets { result ≡ are_related self other }
    {
        self.is_in_tree();
        other.is_in_tree();
        match self {
            Node::Everything => true,
            Node::Township(t) => match other {
                Node::Everything => true,
                Node::Township(u) => t.is(u),
                Node::Part(u, _) => t.is(u.township),
            },
            Node::Part(s, v) => match other {
                Node::Everything => true,
                Node::Township(u) => s.township.is(u),
                Node::Part(u, w) => s.is(u) && (v.lies_in(w) || w.lies_in(v)),
            },
        }
    }
}

impl Tract {
    /// Whether all its townships are declared; every cell needs one township at least.
    pub fn is_in(&self, townships: &[Township]) -> bool
        ensures is_in { result ≡ is_in_plant townships.now self.now }
    {
        match self.home() {
            Node::Everything => !townships.is_empty(),
            Node::Township(township) => township.is_among(townships),
            Node::Part(section, _) => section.township.is_among(townships),
        }
    }

    /// The first node of the cover that has the cell; `None` where the cell doesn't lie in the tract.
    pub fn node_of(&self, cell: Cell) -> Option<Node>
        ensures node { result ≡ find (λ n. node_has depth n cell) (cover_of depth self.now) }
    {
        self.cover().iter().copied().find(|node| node.has(cell))
    }
}

/// Adds the cells of a square, with so many levels below it, that lie in the tract.
fn add_square(
    tract: &Tract,
    section: Section,
    levels: u8,
    within: Within,
    cells: &mut Vec<Cell>,
) -> Result<(), AllocError>
    requires levels { levels + length within ≡ depth }
    ensures cells { OnOk result (cells.new.items
        ≡ cells.old.items ++ filter (has tract.now) (cells_below depth section levels within)) }
{
    if levels == 0 {
        let corner = within.square();
        let cell = Cell {
            section,
            row: corner.top,
            column: corner.left,
        };
        if tract.has_cell(cell) {
            cells.push(cell)?;
        }
        return Ok(());
    }
    for which in Quarter::ALL {
        add_square(tract, section, levels - 1, within.quarter(which), cells)?;
    }
    Ok(())
}

/// Adds the cells of a section that lie in the tract.
#[tactic(auto, using(crate::specs::Laws::Sides::depth_is))]
fn add_section(tract: &Tract, section: Section, cells: &mut Vec<Cell>) -> Result<(), AllocError>
    ensures cells { OnOk result (cells.new.items
        ≡ cells.old.items ++ filter (has tract.now) (section_cells depth section)) }
{
    add_square(tract, section, DEPTH, Within::section(), cells)
}

/// Adds the cells of a township that lie in the tract, trying each.
fn add_township(tract: &Tract, township: Township, cells: &mut Vec<Cell>) -> Result<(), AllocError>
    ensures cells { OnOk result (cells.new.items
        ≡ cells.old.items ++ filter (has tract.now) (township_cells depth township)) }
{
    for section in township.sections() {
        add_section(tract, section, cells)?;
    }
    Ok(())
}

/// Adds the cells of a township that lie in the tract, trying those alone that may.
fn add_cells(tract: &Tract, township: Township, cells: &mut Vec<Cell>) -> Result<(), AllocError>
    ensures cells { OnOk result (cells.new.items
        ≡ cells.old.items ++ filter (has tract.now) (township_cells depth township)) }
{
    match tract.land() {
        Land::Township(other) if !other.is(township) => Ok(()),
        Land::Part(section, _) => {
            if section.township.is(township) {
                add_section(tract, section, cells)
            } else {
                Ok(())
            }
        }
        _ => add_township(tract, township, cells),
    }
}

/// The cells of the tract in the declared townships, in order.
pub fn cells_of(
    alloc: Global,
    townships: &[Township],
    tract: &Tract,
) -> Result<Vec<Cell>, AllocError>
    ensures cells { IfOk result (λ cells. cells.items ≡ cells_of depth townships.now tract.now) }
{
    let mut cells = Vec::new(alloc);
    for township in townships {
        add_cells(tract, *township, &mut cells)?;
    }
    Ok(cells)
}
