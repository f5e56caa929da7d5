//! The sheet after a list of records, made from the posted instruments alone.

ghost use Rattle.std.specs.Prelude.{◌≡◌, IfOk, OnOk, [], true, reverse};
ghost use Rattle.title_land.specs.{Depth.{depth}, Lands.{is_in_plant}};
ghost use Rattle.title_store.specs.{Plants.{SameContent, IsEachOnce}, Sheets.{sheet_of}};
ghost use Rattle.title_chain.specs.{Asks.{effect}, Alone.{opening_plant, after_steps, plant_after, IsSerial}, Replays.{CanReplay, Replays}};

use crate::ask::{Answer, Ask, Step};
use crate::lists::{Records, SheetRows};
use crate::record::Record;
use std::alloc::{AllocError, Global};
use title_land::{Township, Tract};
use title_store::Store;

// Posts a step's instrument again, if it was posted.
fn post_again<S: Store>(store: &mut S, step: &Step) -> Result<(), AllocError>
    requires none { S.out store.old ≡ [] }
    requires replays { CanReplay depth (S.declared store.old) (S.content store.old) step.now }
    ensures content { OnOk result (SameContent (effect depth (S.declared store.old) (S.content store.old) step.now.ask)
        (S.content store.new)) }
    ensures declared { S.declared store.new ≡ S.declared store.old }
    ensures out { OnOk result (S.out store.new ≡ []) }
{
    let (Ask::Post(posting), Answer::Posted) = (&step.ask, &step.answer) else {
        return Ok(());
    };
    let terms = posting.terms();
    store.put_alone(&terms.tract, &terms.instrument)?;
    Ok(())
}

/// Posts again what these steps posted, one after another, in a plant of which no before-image is out; the plant then is as it
/// was after the steps. `Err` is Memory, and then only some are posted.
pub fn post_all_again<S: Store>(store: &mut S, steps: &[Step]) -> Result<(), AllocError>
    requires none { S.out store.old ≡ [] }
    requires replays { Replays depth (S.declared store.old) (S.content store.old) (reverse steps.now) }
    ensures content { OnOk result (SameContent (after_steps depth (S.declared store.old) (S.content store.old) (reverse steps.now))
        (S.content store.new)) }
    ensures declared { S.declared store.new ≡ S.declared store.old }
    ensures out { OnOk result (S.out store.new ≡ []) }
{
    for step in steps {
        post_again(store, step)?;
    }
    Ok(())
}

// Posts again what these records posted, one record after another.
fn post_records_again<S: Store>(store: &mut S, records: &[Record]) -> Result<(), AllocError>
    requires none { S.out store.old ≡ [] }
    requires opening { SameContent opening_plant (S.content store.old) }
    requires serial { IsSerial depth (S.declared store.old) (reverse records.now) }
    ensures content { OnOk result (SameContent (plant_after depth (S.declared store.old) (reverse records.now)) (S.content store.new)) }
    ensures declared { S.declared store.new ≡ S.declared store.old }
{
    for record in records {
        post_all_again(store, record.steps.as_slice())?;
    }
    Ok(())
}

/// The sheet after these records, made from their posted instruments alone, in order: a plant of these townships is opened
/// in a store, and each of them is posted again. No township stands twice, and each record's answers are those that its asks
/// get alone, one after another, after the records before it.
pub fn sheet_by_chain<S: Store + Drop>(
    alloc: Global,
    records: &Records,
    townships: &[Township],
    tract: &Tract,
) -> Result<SheetRows, AllocError>
    requires once { IsEachOnce townships.now }
    requires within { is_in_plant townships.now tract.now ≡ true }
    requires serial { IsSerial depth townships.now (reverse records.now) }
    ensures sheet { IfOk result (λ rows. rows ≡ sheet_of depth townships.now (plant_after depth townships.now (reverse records.now))
        tract.now) }
{
    let mut store = S::open(alloc, townships)?;
    post_records_again(&mut store, records.as_slice())?;
    SheetRows::new(store.sheet(alloc, tract)?)
}
