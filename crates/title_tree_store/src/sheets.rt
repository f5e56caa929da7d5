//! Rows of sheets, read off trees.

ghost use Rattle.std.specs.{Prelude.{◌≡◌, ◌+◌, ◌++◌, [], true, length, OnOk, IfOk}, List.{flat_map}, Option.{option_map}};
ghost use Rattle.title_land.specs.{Depth.{depth}, Lands.{cover_of, is_in_plant}};
ghost use Rattle.title_tree.specs.{Plots.{agreed, uniform}, Trees.{plot}};
ghost use Rattle.title_store.specs.{Sheets.{holding_rows, rows_or}, Plants.{IsEachOnce}};
ghost use Rattle.title_tree_store.specs.{Grounds.{grounds_uniform}, TreeSheets.{tree_sheet}, SquareSheets.{townships_sheet}};
ghost use Rattle.title_tree_store.specs.SquareSheets.{part_sheet, plant_sheet, square_sheet, township_sheet};
ghost use Rattle.title_land.specs.declared.node.Node.TheVariants as node;

use crate::ground::Ground;
use crate::townships::Townships;
use crate::walks::{ground_of, section_tree};
use std::alloc::AllocError;
use title_instrument::Estate;
use title_land::{Node, Quarter, Section, Township, Tract, Within};
use title_share::Holding;
use title_store::SheetRow;
use title_tree::{Path, Tree, is_same};

// The one holding of townships that all have it.
fn holding_of(grounds: &[Ground]) -> Option<&Holding>
    ensures holding { option_map (λ held. held.now) result ≡ grounds_uniform grounds.now }
{
    let (first, rest) = grounds.split_first()?;
    let held = first.uniform()?;
    if rest.is_empty() {
        return Some(held);
    }
    let other = holding_of(rest)?;
    if is_same(held, other) {
        Some(held)
    } else {
        None
    }
}

// Adds one row for each entry of a holding.
fn add_entries(
    node: &Node,
    estate: Estate,
    held: &Holding,
    rows: &mut Vec<SheetRow>,
) -> Result<(), AllocError>
    ensures rows { OnOk result (rows.new.items ≡ rows.old.items ++ holding_rows node.now estate held.now) }
{
    let entries = held.rows();
    rows.reserve(entries.len())?;
    for entry in entries {
        rows.push_reserved(SheetRow {
            node: *node,
            estate,
            party: entry.0,
            units: entry.1,
        });
    }
    Ok(())
}

// The one holding of four quarters, where each has one and these are the same.
fn agreed<'a>(
    first: Option<&'a Holding>,
    second: Option<&'a Holding>,
    third: Option<&'a Holding>,
    fourth: Option<&'a Holding>,
) -> Option<&'a Holding>
    ensures agreed { option_map (λ held. held.now) result
        ≡ agreed (option_map (λ held. held.now) first.entry) (option_map (λ held. held.now) second.entry)
        (option_map (λ held. held.now) third.entry) (option_map (λ held. held.now) fourth.entry) }
{
    let held = first?;
    let second = second?;
    let third = third?;
    let fourth = fourth?;
    (is_same(held, second) && is_same(held, third) && is_same(held, fourth)).then_some(held)
}

// Adds the rows of the one holding of a square that is a cell or a leaf, where it has one, and gives it.
fn add_uniform<'a>(
    tree: &'a Tree,
    section: Section,
    within: Within,
    estate: Estate,
    rows: &mut Vec<SheetRow>,
) -> Result<Option<&'a Holding>, AllocError>
    requires last { square_sheet (plot tree.now) estate section within
        ≡ rows_or (node.Part section within) estate (uniform (plot tree.now)) [] }
    ensures rows { OnOk result (rows.new.items ≡ rows.old.items ++ square_sheet (plot tree.now) estate section within) }
    ensures held { IfOk result (λ some. option_map (λ held. held.now) some ≡ uniform (plot tree.now)) }
{
    let Some(held) = tree.uniform() else {
        return Ok(None);
    };
    add_entries(&Node::Part(section, within), estate, held, rows)?;
    Ok(Some(held))
}

// Adds the sheet of a square of a section from what stands there, and gives the one holding of the square, where it has one. The
// quarters' sheets are added first, and give way to the rows of the square's one holding.
fn add_square<'a>(
    tree: &'a Tree,
    section: Section,
    within: Within,
    estate: Estate,
    rows: &mut Vec<SheetRow>,
) -> Result<Option<&'a Holding>, AllocError>
    ensures rows { OnOk result (rows.new.items ≡ rows.old.items ++ square_sheet (plot tree.now) estate section within) }
    ensures held { IfOk result (λ some. option_map (λ held. held.now) some ≡ uniform (plot tree.now)) }
{
    let Tree::Quarters(four) = tree else {
        return add_uniform(tree, section, within, estate, rows);
    };
    if within.is_cell() {
        return add_uniform(tree, section, within, estate, rows);
    }
    let count = rows.len();
    let inner = within.quarter(Quarter::Northeast);
    let first = add_square(&four.northeast, section, inner, estate, rows)?;
    let inner = within.quarter(Quarter::Northwest);
    let second = add_square(&four.northwest, section, inner, estate, rows)?;
    let inner = within.quarter(Quarter::Southwest);
    let third = add_square(&four.southwest, section, inner, estate, rows)?;
    let inner = within.quarter(Quarter::Southeast);
    let fourth = add_square(&four.southeast, section, inner, estate, rows)?;
    let Some(held) = agreed(first, second, third, fourth) else {
        return Ok(None);
    };
    rows.truncate(count);
    add_entries(&Node::Part(section, within), estate, held, rows)?;
    Ok(Some(held))
}

// Adds the sheets of nodes of a section from what stands in the section.
fn add_parts(
    tree: &Tree,
    nodes: &[Node],
    estate: Estate,
    rows: &mut Vec<SheetRow>,
) -> Result<(), AllocError>
    ensures rows { OnOk result (rows.new.items ≡ rows.old.items ++ flat_map (part_sheet (plot tree.now) estate) nodes.now) }
{
    for node in nodes {
        if let Node::Part(section, within) = node {
            let path = Path::root().inside_square(*within)?;
            add_square(tree.at(path), *section, *within, estate, rows)?;
        }
    }
    Ok(())
}

// Adds the sheet of a township.
fn add_township(
    ground: &Ground,
    township: Township,
    estate: Estate,
    rows: &mut Vec<SheetRow>,
) -> Result<(), AllocError>
    ensures rows { OnOk result (rows.new.items ≡ rows.old.items ++ township_sheet ground.now estate township) }
{
    if let Some(held) = ground.uniform() {
        return add_entries(&Node::Township(township), estate, held, rows);
    }
    for section in township.sections() {
        let stands = ground.section(usize::from(section.number - 1));
        add_square(stands, section, Within::section(), estate, rows)?;
    }
    Ok(())
}

// Adds the sheets of townships.
fn add_townships(
    grounds: &[Ground],
    townships: &[Township],
    estate: Estate,
    rows: &mut Vec<SheetRow>,
) -> Result<(), AllocError>
    ensures rows { OnOk result (rows.new.items ≡ rows.old.items ++ townships_sheet grounds.now estate townships.now) }
{
    let (Some((ground, grounds)), Some((township, townships))) = (
        grounds.split_first(),
        townships.split_first(),
    ) else {
        return Ok(());
    };
    add_township(ground, *township, estate, rows)?;
    add_townships(grounds, townships, estate, rows)
}

// Adds the sheet of the whole plant.
fn add_plant(
    grounds: &[Ground],
    townships: &Townships,
    estate: Estate,
    rows: &mut Vec<SheetRow>,
) -> Result<(), AllocError>
    ensures rows { OnOk result (rows.new.items ≡ rows.old.items ++ plant_sheet grounds.now estate townships.now) }
{
    if let Some(held) = holding_of(grounds) {
        return add_entries(&Node::Everything, estate, held, rows);
    }
    add_townships(grounds, townships.list(), estate, rows)
}

/// Adds the sheet of a tract for one estate: the sheets of its cover's nodes in order. The nodes of a part of a section are
/// walked to from the section, which is found once.
pub(crate) fn add_estate(
    grounds: &[Ground],
    townships: &Townships,
    estate: Estate,
    tract: &Tract,
    rows: &mut Vec<SheetRow>,
) -> Result<(), AllocError>
    requires once { IsEachOnce townships.now }
    requires sized { length grounds.now ≡ length townships.now }
    requires within { is_in_plant townships.now tract.now ≡ true }
    ensures rows { OnOk result (rows.new.items ≡ rows.old.items
        ++ flat_map (tree_sheet (depth + 2) townships.now grounds.now estate) (cover_of depth tract.now)) }
{
    match tract.home() {
        Node::Everything => add_plant(grounds, townships, estate, rows),
        Node::Township(township) => {
            let ground = ground_of(grounds, townships, township);
            add_township(ground, township, estate, rows)
        }
        Node::Part(section, _) => {
            let stands = section_tree(grounds, townships, section);
            add_parts(stands, tract.cover(), estate, rows)
        }
    }
}
