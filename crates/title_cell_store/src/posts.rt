//! What a post does to cells.

ghost use Rattle.std.specs.Prelude.{IfOk};
ghost use Rattle.title_cell_store.specs.CellMaps.{content_of, IsComputed};

use crate::cell_map::CellMap;
use crate::kept::Kept;
use std::alloc::{AllocError, Global};
use title_instrument::{Effect, Estate, Instrument, Rule};
use title_land::Cell;

/// What cells held before a post and what they are to hold after it, or the first of them that refuses it.
#[derive(Drop)]
pub(crate) enum Computed {
    Done(Vec<Kept>, Vec<Kept>),
    Refused(Rule, Estate, Cell),
}

/// Computes what a post does to cells. Nothing changes hands.
pub(crate) fn compute(
    alloc: Global,
    map: &CellMap,
    cells: &[Cell],
    instrument: &Instrument,
) -> Result<Computed, AllocError>
    ensures computed { IfOk result (IsComputed instrument.now (content_of map.now) cells.now) }
{
    let mut old = Vec::new(alloc);
    let mut new = Vec::new(alloc);
    for cell in cells {
        let cell = *cell;
        let before = map.owners(cell);
        match instrument.apply_cell(alloc, before)? {
            Effect::Done(owners) => {
                let before = before.copy(alloc)?;
                old.push(Kept {
                    cell,
                    owners: before,
                })?;
                new.push(Kept { cell, owners })?;
            }
            Effect::Refused(rule, estate) => return Ok(Computed::Refused(rule, estate, cell)),
        }
    }
    Ok(Computed::Done(old, new))
}
