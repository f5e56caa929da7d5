//! The plant that a viewer keeps.

ghost use Rattle.std.specs.Prelude.{◌≡◌, IfOk, OnOk, IfSome, true, reverse, length};
ghost use Rattle.title_land.specs.{Depth.{depth}, Lands.{is_in_plant}};
ghost use Rattle.title_store.specs.{Plants.{IsEachOnce}, Sheets.{sheet_of}};
ghost use Rattle.title_chain.specs.Alone.{IsSerial};
ghost use Rattle.title_views.specs.Views.{IsKept, IsMade, IsSheetIn};

use std::alloc::{AllocError, Global};
use title_chain::{Record, SheetRows, post_all_again};
use title_land::{Land, Township, Tract};
use title_store::Store;

/// The sheet of a tract, by the tract's land.
#[derive(Drop)]
pub struct Made {
    pub(crate) land: Land,
    pub(crate) rows: SheetRows,
}

/// A plant that was made of so many records, and the sheet that was last made of it, if one was.
#[derive(Drop)]
pub struct Kept<S: Store + Drop> {
    pub(crate) store: S,
    pub(crate) count: usize,
    pub(crate) made: Option<Made>,
}

impl Made {
    // The same rows, where they are of this land. They are shared, so no memory is taken.
    fn of(&self, land: &Land) -> Option<SheetRows>
        ensures rows { IfSome result (λ rows. rows ≡ self.now.rows) }
        ensures land { IfSome result (λ rows. self.now.land ≡ land.now) }
    {
        if !self.land.is(land) {
            return None;
        }
        self.rows.copy().ok()
    }
}

// Posts again what the records from a place on posted, one record after another, and tidies up after each.
fn post_rest_again<S: Store>(
    store: &mut S,
    records: &[Record],
    from: usize,
) -> Result<(), AllocError>
    requires made { IsMade (S.declared store.old) records.now from (S.content store.old) (S.declared store.old) (S.out store.old) }
    requires serial { IsSerial depth (S.declared store.old) (reverse records.now) }
    ensures made { OnOk result (IsMade (S.declared store.old) records.now (length records.now) (S.content store.new)
        (S.declared store.new) (S.out store.new)) }
{
    for index in from..records.len() {
        post_all_again(store, records[index].steps.as_slice())?;
        store.tidy();
    }
    Ok(())
}

// The plant made of these records, by what was kept of an earlier view, if anything was. The sheet that was kept is let go.
pub(crate) fn bring_up<S: Store + Drop>(
    alloc: Global,
    townships: &[Township],
    kept: Option<Kept<S>>,
    records: &[Record],
) -> Result<Kept<S>, AllocError>
    requires once { IsEachOnce townships.now }
    requires serial { IsSerial depth townships.now (reverse records.now) }
    requires kept { IfSome kept (λ k. IsKept townships.now records.now k.count (S.content k.store) (S.declared k.store)
        (S.out k.store) k.made) }
    ensures kept { IfOk result (λ k. IsKept townships.now records.now k.count (S.content k.store) (S.declared k.store)
        (S.out k.store) k.made) }
    ensures count { IfOk result (λ k. k.count ≡ length records.now) }
{
    let mut kept = match kept {
        Some(kept) => kept,
        None => Kept {
            store: S::open(alloc, townships)?,
            count: 0,
            made: None,
        },
    };
    post_rest_again(&mut kept.store, records, kept.count)?;
    kept.count = records.len();
    kept.made = None;
    Ok(kept)
}

impl<S: Store + Drop> Kept<S> {
    // The sheet that was last made, where it is of this land and was made after so many records.
    pub(crate) fn again(&self, count: usize, land: &Land) -> Option<SheetRows>
        requires made { IfSome self.now.made (λ m. IsSheetIn (S.declared self.now.store) (S.content self.now.store) m.land m.rows) }
        ensures count { IfSome result (λ rows. self.now.count ≡ count) }
        ensures sheet { IfSome result (λ rows. IsSheetIn (S.declared self.now.store) (S.content self.now.store) land.now rows) }
    {
        if self.count != count {
            return None;
        }
        let Some(made) = &self.made else {
            return None;
        };
        made.of(land)
    }

    // The sheet of a tract, which is kept.
    pub(crate) fn sheet(&mut self, alloc: Global, tract: &Tract) -> Result<SheetRows, AllocError>
        requires within { is_in_plant (S.declared self.old.store) tract.now ≡ true }
        requires made { IfSome self.old.made (λ m. IsSheetIn (S.declared self.old.store) (S.content self.old.store) m.land m.rows) }
        ensures store { self.new.store ≡ self.old.store }
        ensures count { self.new.count ≡ self.old.count }
        ensures made { IfSome self.new.made (λ m. IsSheetIn (S.declared self.new.store) (S.content self.new.store) m.land m.rows) }
        ensures sheet { IfOk result (λ rows. rows
            ≡ sheet_of depth (S.declared self.old.store) (S.content self.old.store) tract.now) }
    {
        let rows = SheetRows::new(self.store.sheet(alloc, tract)?)?;
        self.made = Some(Made {
            land: tract.land(),
            rows: rows.copy()?,
        });
        Ok(rows)
    }
}
