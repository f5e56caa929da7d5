//! The cells of nodes in the plant, and the nodes right below them, in their order.

ghost use Rattle.std.specs.Prelude.{◌≡◌, ◌++◌, [], IfOk, OnOk, map};
ghost use Rattle.title_land.specs.{Depth.{depth}, CellLists.{sections_of, node_cells, children_of}};
ghost use Rattle.title_land.specs.declared.node.Node.TheVariants as node;

use crate::cells::cells_of;
use crate::node::{Node, Within};
use crate::rectangle::Quarter;
use crate::survey::{Cell, Section, Township};
use crate::tract::Tract;
use std::alloc::{AllocError, Global};

/// The cells of a node in the declared townships, in order.
pub fn node_cells(
    alloc: Global,
    townships: &[Township],
    node: Node,
) -> Result<Vec<Cell>, AllocError>
    ensures cells { IfOk result (λ cells. cells.items ≡ node_cells depth townships.now node) }
{
    node.is_in_tree();
    let tract = Tract::of(node);
    cells_of(alloc, townships, &tract)
}

// The quarters of a square as nodes, in order; a cell has none.
fn quarters_of(alloc: Global, section: Section, within: Within) -> Result<Vec<Node>, AllocError>
    ensures quarters { IfOk result (λ nodes. nodes.items ≡ children_of depth [] (node.Part section within)) }
{
    let mut nodes = Vec::new(alloc);
    if !within.is_cell() {
        for which in Quarter::ALL {
            nodes.push(Node::Part(section, within.quarter(which)))?;
        }
    }
    Ok(nodes)
}

/// The nodes right below a node, in order: those of the whole plant are the declared townships, a cell has none.
pub fn children_of(
    alloc: Global,
    townships: &[Township],
    node: Node,
) -> Result<Vec<Node>, AllocError>
    ensures children { IfOk result (λ nodes. nodes.items ≡ children_of depth townships.now node) }
{
    match node {
        Node::Everything => townships
            .iter()
            .map(|township| Node::Township(*township))
            .collect(alloc),
        Node::Township(township) => township
            .sections()
            .map(|section| Node::Part(section, Within::section()))
            .collect(alloc),
        Node::Part(section, within) => quarters_of(alloc, section, within),
    }
}
