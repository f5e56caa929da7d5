//! Owners by cell.

ghost use Rattle.std.specs.Prelude.{◌≡◌};
ghost use Rattle.title_instrument.specs.Owners.{opening_owners};

use crate::kept::Kept;
use std::alloc::{AllocError, Global};
use std::collections::BTreeMap;
use title_instrument::Owners;
use title_land::Cell;

/// Owners by cell; a cell that it doesn't hold has the opening owners.
#[derive(Drop)]
pub(crate) struct CellMap {
    owners: BTreeMap<Cell, Owners>,
    opening: Owners,
    ghost opens: { opening ≡ opening_owners },
}

impl CellMap {
    ghost use Rattle.std.specs.{Prelude.{◌∷◌, true, cond, Some, unwrap_or, IfOk, OnOk}, List.{AllByRecursion}, BTreeMap.{get}};
    ghost use Rattle.title_land.specs.{declared.survey.Cell.{Cell}, CellLists.{same_cell}};
    ghost use Rattle.title_cell_store.specs.CellMaps.{content_of, is_there, IsWritten, kept_at, kept_cells};

    /// The map that holds no cell.
    pub(crate) fn new(alloc: Global) -> Result<CellMap, AllocError>
        ensures content { IfOk result (λ m. (c : Cell) → content_of m c ≡ opening_owners) }
    {
        let opening = Owners::opening(alloc)?;
        Ok(CellMap {
            owners: BTreeMap::new(alloc),
            opening,
        })
    }

    /// The owners of a cell.
    pub(crate) fn owners(&self, cell: Cell) -> &Owners
        ensures owners { result.now ≡ content_of self.now cell }
    {
        match self.owners.get(&cell) {
            Some(owners) => owners,
            None => &self.opening,
        }
    }

    // Gives a cell a slot. Nothing changes hands.
    fn make_slot(&mut self, alloc: Global, cell: Cell) -> Result<(), AllocError>
        ensures content { (c : Cell) → content_of self.new c ≡ content_of self.old c }
        ensures stays { (c : Cell) → is_there self.old c ≡ true → is_there self.new c ≡ true }
        ensures there { OnOk result (is_there self.new cell ≡ true) }
    {
        if self.owners.contains_key(&cell) {
            return Ok(());
        }
        let owners = self.opening.copy(alloc)?;
        self.owners.insert(cell, owners)?;
        Ok(())
    }

    /// Gives each cell of a list a slot. Nothing changes hands.
    pub(crate) fn make_slots(&mut self, alloc: Global, cells: &[Cell]) -> Result<(), AllocError>
        ensures content { (c : Cell) → content_of self.new c ≡ content_of self.old c }
        ensures stays { (c : Cell) → is_there self.old c ≡ true → is_there self.new c ≡ true }
        ensures there { OnOk result (AllByRecursion (λ c. is_there self.new c ≡ true) cells.now) }
    {
        for cell in cells {
            self.make_slot(alloc, *cell)?;
        }
        Ok(())
    }

    // Writes owners into a cell that has a slot, which takes no memory.
    fn write(&mut self, cell: Cell, owners: Owners)
        requires there { is_there self.old cell ≡ true }
        ensures written { IsWritten self.old self.new cell owners }
    {
        let _ = self.owners.insert(cell, owners);
    }

    /// Writes owners into cells that have a slot; of two for one cell the first stays. Takes no memory.
    pub(crate) fn write_all(&mut self, mut kept: Vec<Kept>)
        requires there { AllByRecursion (λ c. is_there self.old c ≡ true) (kept_cells kept.items) }
        ensures content { (c : Cell) → content_of self.new c ≡ unwrap_or (kept_at kept.items c) (content_of self.old c) }
        ensures stays { (c : Cell) → is_there self.old c ≡ true → is_there self.new c ≡ true }
    {
        while let Some(Kept { cell, owners }) = kept.pop() {
            self.write(cell, owners);
        }
    }
}
