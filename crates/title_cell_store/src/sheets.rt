//! Rows of sheets, made from a map of owners.

ghost use Rattle.std.specs.{Prelude.{◌≡◌, ◌+◌, ◌++◌, Some, None, IfOk, OnOk, MatchOption, is_some}, List.{flat_map}};
ghost use Rattle.title_land.specs.{Depth.{depth}, CellLists.{node_cells}, Lands.{cover_of}};
ghost use Rattle.title_cell_store.specs.CellMaps.{content_of};
ghost use Rattle.title_store.specs.Sheets.{one_holding, holding_rows, sheet_below};

use crate::cell_map::CellMap;
use std::alloc::{AllocError, Global};
use title_instrument::Estate;
use title_land::{Cell, DEPTH, Node, Township, Tract, children_of, node_cells};
use title_share::Holding;
use title_store::SheetRow;

// The levels of nodes below the whole plant: townships, sections, and as often as a section is quartered.
#[tactic(auto, using(title_land::specs::Laws::Sides::depth_is))]
fn levels_below_plant() -> u8
    ensures levels { result ≡ depth + 2 }
{
    DEPTH + 2
}

// The one holding that all these cells have of an estate, where they have one.
fn one_holding<'a>(map: &'a CellMap, estate: Estate, cells: &[Cell]) -> Option<&'a Holding>
    ensures holding { MatchOption result
        (one_holding estate (content_of map.now) cells.now ≡ None)
        (λ held. one_holding estate (content_of map.now) cells.now ≡ Some held.now) }
{
    let Some((first, others)) = cells.split_first() else {
        return None;
    };
    let held = map.owners(*first).of(estate);
    for cell in others {
        if !map.owners(*cell).of(estate).same(held) {
            return None;
        }
    }
    Some(held)
}

/// Whether all cells of a node have one holding of an estate.
pub(crate) fn is_one(
    alloc: Global,
    map: &CellMap,
    townships: &[Township],
    estate: Estate,
    node: Node,
) -> Result<bool, AllocError>
    ensures one { IfOk result (λ one. one
        ≡ is_some (one_holding estate (content_of map.now) (node_cells depth townships.now node))) }
{
    let cells = node_cells(alloc, townships, node)?;
    Ok(one_holding(map, estate, &cells).is_some())
}

// Adds one row for each entry of a holding.
fn add_entries(
    node: &Node,
    estate: Estate,
    held: &Holding,
    rows: &mut Vec<SheetRow>,
) -> Result<(), AllocError>
    ensures rows { OnOk result (rows.new.items ≡ rows.old.items ++ holding_rows node.now estate held.now) }
{
    for entry in held.rows() {
        rows.push(SheetRow {
            node: *node,
            estate,
            party: entry.0,
            units: entry.1,
        })?;
    }
    Ok(())
}

// Adds the sheet of a node with so many levels of nodes below it.
fn add_sheet(
    alloc: Global,
    map: &CellMap,
    townships: &[Township],
    levels: u8,
    estate: Estate,
    node: Node,
    rows: &mut Vec<SheetRow>,
) -> Result<(), AllocError>
    ensures rows { OnOk result (rows.new.items
        ≡ rows.old.items ++ sheet_below levels depth townships.now (content_of map.now) estate node) }
{
    let cells = node_cells(alloc, townships, node)?;
    if let Some(held) = one_holding(map, estate, &cells) {
        return add_entries(&node, estate, held, rows);
    }
    if levels == 0 {
        return Ok(());
    }
    for child in &children_of(alloc, townships, node)? {
        add_sheet(alloc, map, townships, levels - 1, estate, *child, rows)?;
    }
    Ok(())
}

/// Adds the sheet of a tract for one estate: the sheets of its cover's nodes in order.
#[tactic(auto, using(title_land::specs::Laws::Sides::depth_is))]
pub(crate) fn add_estate(
    alloc: Global,
    map: &CellMap,
    townships: &[Township],
    estate: Estate,
    tract: &Tract,
    rows: &mut Vec<SheetRow>,
) -> Result<(), AllocError>
    ensures rows { OnOk result (rows.new.items
        ≡ rows.old.items ++ flat_map (sheet_below (depth + 2) depth townships.now (content_of map.now) estate) (cover_of depth tract.now)) }
{
    let levels = levels_below_plant();
    for node in tract.cover() {
        add_sheet(alloc, map, townships, levels, estate, *node, rows)?;
    }
    Ok(())
}
