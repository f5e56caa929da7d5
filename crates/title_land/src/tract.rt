//! Tracts.

ghost use Rattle.std.specs.{Prelude.{◌≡◌, ◌↔◌, ◌<◌, ◌≤◌, ◌&&◌, IfOk, IfSome, true, length}, List.{list_any}};
ghost use Rattle.title_land.specs.{Depth.{depth}, declared.tract.Land.{Land}, CoverSets.{IsCover}, Acres.{half_acres_of}};
ghost use Rattle.title_land.specs.{Nodes.{square, are_related, IsNode}, Rectangles.{half_of, holds}, Survey.{same_section}};
ghost use Rattle.title_land.specs.Lands.{has, cover_of, home_of, land_of, half_land, meets, Meets, IsLand};

use crate::acres::{CELL_HALF_ACRES, TOWNSHIP_HALF_ACRES};
use crate::cover::{cover_of, sole_square};
use crate::grid::Grid;
use crate::node::{Node, Within};
use crate::rectangle::Half;
use crate::survey::{Cell, Section, Township};
use std::alloc::{AllocError, Global};
use std::marker::Model;
use std::slice;
use std::sync::Arc;

/// What a tract is: every cell, a township, or a set of one section's cells.
#[derive(Clone, Copy, Debug, PartialEq, Eq)]
pub enum Land {
    Everything,
    Township(Township),
    Part(Section, Grid),
}

impl Land {
    /// The land that has a node's cells.
    pub fn of(node: Node) -> Land
        ensures of { result ≡ land_of depth node }
        ensures sized { IsLand depth result }
        ensures tree { IsNode depth node }
    {
        match node {
            Node::Everything => Land::Everything,
            Node::Township(township) => Land::Township(township),
            Node::Part(section, within) => Land::Part(section, Grid::of(within.square())),
        }
    }

    /// Whether both are one.
    pub fn is(&self, other: &Land) -> bool
        ensures same { (result ≡ true) ↔ (self.now ≡ other.now) }
    {
        match (self, other) {
            (Land::Everything, Land::Everything) => true,
            (Land::Township(t), Land::Township(u)) => t.is(*u),
            (Land::Part(s, grid), Land::Part(u, cells)) => s.is(*u) && grid.is(cells),
            _ => false,
        }
    }
}

// A set of a section's cells beside its cover.
#[derive(Debug, Drop)]
struct Shape {
    cells: Grid,
    cover: Vec<Node>,
}

// A half of a square beside the two nodes of its cover.
#[derive(Debug, Drop)]
struct Halved {
    section: Section,
    which: Half,
    within: Within,
    nodes: [Node; 2],
}

impl Halved {
    // The land that has its cells.
    fn land(&self) -> Land
        ensures of { result ≡ half_land depth self.now.section self.now.which self.now.within }
        ensures sized { IsLand depth result }
    {
        Land::Part(
            self.section,
            Grid::of(self.within.square().half(self.which)),
        )
    }

    // Whether a cell lies in it.
    fn has(&self, cell: Cell) -> bool
        ensures has { result ≡ (same_section self.now.section cell.section
            && holds (half_of self.now.which (square depth self.now.within)) cell.row cell.column) }
    {
        let square = self.within.square();
        self.section.is(cell.section) && square.half(self.which).holds(cell.row, cell.column)
    }
}

// What a tract keeps: the one node of its cover, or what copies share: a half of a square, or a set.
#[derive(Debug, Drop)]
enum Extent {
    Node(Node),
    Half(Arc<Halved>),
    Shape(Section, Arc<Shape>),
}

/// A set of cells, with its cover. A contract sees it as its `Land`. A tract that is a node takes no memory; copies of
/// any other share what it keeps.
#[derive(Debug)]
pub struct Tract {
    extent: Extent,
}

// Written out so that a caller's paths don't part where it lets a tract go.
impl Drop for Tract {
    fn drop(self) {
        let Tract { extent } = self;
        drop(extent);
    }
}

impl Model for Tract {
    ghost use Rattle.title_land.specs.{declared.tract.Land.{Land}, Extents.{kept_land, IsExtent}};

    ghost Value = { Land };

    ghost view = { λ t. kept_land t.extent };

    ghost invariant = { λ t. IsExtent t.extent };
}

// Whether two lands share a cell.
#[tactic(auto, unfolding(crate::specs::Lands::meets))]
fn lands_meet(a: &Land, b: &Land) -> bool
    ensures meets { result ≡ meets a.now b.now }
{
    match (a, b) {
        (Land::Everything, Land::Part(_, grid)) | (Land::Part(_, grid), Land::Everything) => {
            grid.has_some()
        }
        (Land::Everything, _) | (_, Land::Everything) => true,
        (Land::Township(t), Land::Township(u)) => t.is(*u),
        (Land::Township(t), Land::Part(u, grid)) => t.is(u.township) && grid.has_some(),
        (Land::Part(s, grid), Land::Township(u)) => s.township.is(*u) && grid.has_some(),
        (Land::Part(s, grid), Land::Part(u, cells)) => s.is(*u) && grid.meets(cells),
    }
}

// Whether a node shares a cell with one of these.
fn meets_one(node: &Node, others: &[Node]) -> bool
    ensures one { result ≡ list_any (are_related node.now) others.now }
{
    others.iter().any(|other| node.meets(*other))
}

// Whether a node of one list shares a cell with one of the other.
fn nodes_meet(nodes: &[Node], others: &[Node]) -> bool
    ensures meet { result ≡ list_any (λ n. list_any (are_related n) others.now) nodes.now }
{
    nodes.iter().any(|node| meets_one(node, others))
}

impl Tract {
    /// The tract that has a node's cells. Takes no memory.
    pub fn of(node: Node) -> Tract
        ensures of { result ≡ land_of depth node }
    {
        node.is_in_tree();
        Tract {
            extent: Extent::Node(node),
        }
    }

    /// The tract that has the cells of a half of a square, which isn't a cell. No set of cells is made.
    pub fn of_half(
        alloc: Global,
        section: Section,
        which: Half,
        within: Within,
    ) -> Result<Tract, AllocError>
        requires wide { length within < depth }
        ensures of { IfOk result (λ t. t ≡ half_land depth section which within) }
    {
        let quarters = which.quarters();
        let first = within.quarter(quarters.0);
        let second = within.quarter(quarters.1);
        let nodes = [Node::Part(section, first), Node::Part(section, second)];
        let halved = Arc::new(
            alloc,
            Halved {
                section,
                which,
                within,
                nodes,
            },
        )?;
        Ok(Tract {
            extent: Extent::Half(halved),
        })
    }

    /// The tract of this land.
    pub fn new(alloc: Global, land: Land) -> Result<Tract, AllocError>
        ensures new { IfOk result (λ t. t ≡ land) }
    {
        let (section, cells) = match land {
            Land::Everything => return Ok(Tract::of(Node::Everything)),
            Land::Township(township) => return Ok(Tract::of(Node::Township(township))),
            Land::Part(section, cells) => (section, cells),
        };
        if let Some(within) = sole_square(&cells) {
            return Ok(Tract::of(Node::Part(section, within)));
        }
        let cover = cover_of(alloc, section, &cells)?;
        let shape = Arc::new(alloc, Shape { cells, cover })?;
        Ok(Tract {
            extent: Extent::Shape(section, shape),
        })
    }

    /// The land of the tract.
    pub fn land(&self) -> Land
        ensures land { result ≡ self.now }
        ensures sized { IsLand depth self.now }
    {
        match &self.extent {
            Extent::Node(node) => Land::of(*node),
            Extent::Half(half) => half.land(),
            Extent::Shape(section, shape) => Land::Part(*section, shape.cells),
        }
    }

    /// Where the tract lies, by one node: the section that has it, or else the township, or the whole plant.
    pub fn home(&self) -> Node
        ensures home { result ≡ home_of self.now }
    {
        match &self.extent {
            Extent::Node(node) => node.home(),
            Extent::Half(half) => half.section.node(),
            Extent::Shape(section, _) => section.node(),
        }
    }

    /// The nodes whose cells all lie in the tract and whose parent's don't, in order.
    pub fn cover(&self) -> &[Node]
        ensures cover { result.now ≡ cover_of depth self.now }
        ensures set { IsCover depth self.now result.now }
        ensures sized { IsLand depth self.now }
    {
        match &self.extent {
            Extent::Node(node) => slice::from_ref(node),
            Extent::Half(half) => half.nodes.as_slice(),
            Extent::Shape(_, shape) => shape.cover.as_slice(),
        }
    }

    /// Whether a cell lies in the tract.
    #[tactic(auto, unfolding(crate::specs::Lands::has))]
    pub fn has_cell(&self, cell: Cell) -> bool
        ensures has { result ≡ has self.now cell }
    {
        match &self.extent {
            Extent::Node(node) => node.has(cell),
            Extent::Half(half) => half.has(cell),
            Extent::Shape(section, shape) => {
                section.is(cell.section) && shape.cells.has(cell.row, cell.column)
            }
        }
    }

    // Whether one of them keeps a set of cells.
    fn either_keeps_set(&self, other: &Tract) -> bool {
        match (&self.extent, &other.extent) {
            (Extent::Shape(..), _) | (_, Extent::Shape(..)) => true,
            _ => false,
        }
    }

    // Whether the tracts share a cell: by the few nodes of their covers, or by sets where one keeps a set.
    fn shares_with(&self, other: &Tract) -> bool
        ensures meets { result ≡ meets self.now other.now }
        ensures sized { IsLand depth self.now }
        ensures other_sized { IsLand depth other.now }
    {
        if self.either_keeps_set(other) {
            lands_meet(&self.land(), &other.land())
        } else {
            let nodes = self.cover();
            let others = other.cover();
            nodes_meet(nodes, others)
        }
    }

    /// Whether the tracts share a cell.
    pub fn meets(&self, other: &Tract) -> bool
        ensures meets { result ≡ meets self.now other.now }
        ensures shares { (result ≡ true) ↔ Meets depth self.now other.now }
    {
        match (&self.extent, &other.extent) {
            (Extent::Node(a), Extent::Node(b)) => a.meets(*b),
            _ => self.shares_with(other),
        }
    }

    /// Its nominal acres, in half acres: 5 for each of its cells. `None` for the whole plant alone, whose cells
    /// aren't numbered.
    pub fn half_acres(&self) -> Option<u32>
        ensures half_acres { result ≡ half_acres_of depth self.now }
    {
        match &self.land() {
            Land::Everything => None,
            Land::Township(_) => Some(TOWNSHIP_HALF_ACRES),
            Land::Part(_, cells) => Some(cells.cell_count() * CELL_HALF_ACRES),
        }
    }

    /// An equal tract, which shares what this one keeps. Takes no memory; refused, as for want of memory, where
    /// 2^63 - 1 copies share already.
    pub fn copy(&self, _alloc: Global) -> Result<Tract, AllocError>
        ensures copy { IfOk result (λ t. t ≡ self.now) }
    {
        let extent = match &self.extent {
            Extent::Node(node) => Extent::Node(*node),
            Extent::Half(half) => Extent::Half(half.clone()?),
            Extent::Shape(section, shape) => Extent::Shape(*section, shape.clone()?),
        };
        Ok(Tract { extent })
    }
}
