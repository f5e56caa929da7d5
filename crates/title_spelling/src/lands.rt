//! Texts of land in a plant's file.

ghost use Rattle.std.specs.{Prelude.{◌≡◌, ◌++◌, IfOk, OnOk}, String.{string_bytes}};
ghost use Rattle.title_spelling.specs.Lands.{is_part, kept_land_in, part_spelling, path_of, same_cells, spelling, union_text};

use crate::cells::{read_cells, spell_cells};
use std::alloc::{AllocError, Global};
use std::fmt::Write;
use title_aliquot::DescFault;
use title_land::{Grid, Land, Node, Section, Tract};
use title_plan::read_tract;

/// The most bytes of a union.
pub const LONGEST_UNION: usize = 1_000;

// ---- reading

/// The tract that a text of a plant's file says, or the text's fault: one in the cells form says that part of a section, and
/// any other what it says in a script. `Err` is Memory.
pub fn read_land(alloc: Global, text: &str) -> Result<Result<Tract, DescFault>, AllocError>
    ensures said { IfOk result (λ said. said ≡ kept_land_in text.now) }
{
    match read_cells(alloc, text)? {
        Some(tract) => Ok(Ok(tract)),
        None => read_tract(alloc, text),
    }
}

// ---- spelling

// Whether the sets of cells are one.
fn same_cells(cells: &Grid, other: &Grid) -> bool
    ensures same { result ≡ same_cells cells.now other.now }
{
    cells.is(other)
}

// Whether a text says this part of the section.
fn says_part(alloc: Global, section: Section, cells: &Grid, text: &str) -> Result<bool, AllocError>
    ensures says { IfOk result (λ says. says ≡ is_part section cells.now (kept_land_in text.now)) }
{
    let Ok(tract) = read_land(alloc, text)? else {
        return Ok(false);
    };
    match tract.land() {
        Land::Part(other, marked) => Ok(section.is(other) && same_cells(cells, &marked)),
        _ => Ok(false),
    }
}

// Adds what a node's quarters add to its section's text.
fn push_path(text: &mut String, node: &Node) -> Result<(), AllocError>
    ensures added { OnOk result (string_bytes text.new ≡ string_bytes text.old ++ path_of node.now) }
{
    if let Node::Part(_, within) = node {
        write!(text, "{within}")?;
    }
    Ok(())
}

// Squares of a section as a union.
fn spell_union(alloc: Global, section: Section, nodes: &[Node]) -> Result<String, AllocError>
    ensures union { IfOk result (λ text. string_bytes text ≡ union_text section nodes.now) }
{
    let mut text = format!(in alloc; "{section}")?;
    let Some((first, others)) = nodes.split_first() else {
        return Ok(text);
    };
    push_path(&mut text, first)?;
    for node in others {
        text.push(',')?;
        push_path(&mut text, node)?;
    }
    Ok(text)
}

// A part of a section by the nodes of its cover.
fn spell_part(
    alloc: Global,
    section: Section,
    cells: &Grid,
    nodes: &[Node],
) -> Result<String, AllocError>
    ensures spelled { IfOk result (λ text. string_bytes text ≡ part_spelling section cells.now nodes.now) }
{
    if let [node] = nodes {
        return format!(in alloc; "{node}");
    }
    let union = spell_union(alloc, section, nodes)?;
    if union.len() <= LONGEST_UNION && says_part(alloc, section, cells, union.as_str())? {
        return Ok(union);
    }
    spell_cells(alloc, section, cells)
}

/// The text of a tract in a plant's file: that of the one node of its cover, or the union of its nodes where this isn't too long,
/// or else its cells.
pub fn spell(alloc: Global, tract: &Tract) -> Result<String, AllocError>
    ensures spelled { IfOk result (λ text. string_bytes text ≡ spelling tract.now) }
{
    match tract.land() {
        Land::Everything => format!(in alloc; "everything"),
        Land::Township(township) => format!(in alloc; "{township}"),
        Land::Part(section, cells) => spell_part(alloc, section, &cells, tract.cover()),
    }
}
