//! One look at what is published.

ghost use Rattle.std.specs.Prelude.{◌≡◌, IfSome, length, MatchResult, true};
ghost use mathlib.Core.List.{IsPrefix};
ghost use Rattle.left_right.specs.Sides.{view};
ghost use Rattle.title_land.specs.Lands.{is_in_plant};
ghost use Rattle.title_store.specs.Plants.{IsEachOnce};
ghost use Rattle.title_ledger.specs.Ledgers.{AreSerial, sure_of, IsSettled};
ghost use Rattle.title_views.specs.Views.{IsKept, IsNoRecord, IsOf, IsUnseen, record_at, sheet_after};

use crate::kept::{Kept, bring_up};
use crate::published::{Published, Sees, Watch};
use crate::unseen::Unseen;
use crate::viewer::Seen;
use std::alloc::Global;
use title_chain::Record;
use title_land::{Township, Tract};
use title_ledger::{Front, Room};
use title_store::Store;

// The sheet of a tract after these records, and the plant that was made for it, if one was.
fn sheet_of_all<S: Store + Drop>(
    alloc: Global,
    townships: &[Township],
    kept: Option<Kept<S>>,
    records: &[Record],
    tract: &Tract,
) -> (Option<Kept<S>>, Result<Seen, Unseen>)
    requires once { IsEachOnce townships.now }
    requires serial { AreSerial townships.now records.now }
    requires within { is_in_plant townships.now tract.now ≡ true }
    requires kept { IfSome kept (λ k. IsKept townships.now records.now k.count (S.content k.store) (S.declared k.store)
        (S.out k.store) k.made) }
    ensures kept { IfSome result.0 (λ k. IsKept townships.now records.now k.count (S.content k.store) (S.declared k.store)
        (S.out k.store) k.made) }
    ensures shown { MatchResult result.1
        (λ s. (s.front ≡ length records.now) × (s.rows ≡ sheet_after townships.now records.now tract.now))
        (λ why. why ≡ Unseen.Memory) }
{
    let Ok(mut kept) = bring_up(alloc, townships, kept, records) else {
        return (None, Err(Unseen::Memory));
    };
    let front = records.len() as u64;
    match kept.sheet(alloc, tract) {
        Ok(rows) => (Some(kept), Ok(Seen { front, rows })),
        Err(_) => (Some(kept), Err(Unseen::Memory)),
    }
}

// Whether what is published begins with all that was learnt of.
fn covers<B: Room>(told: &Front<B>, published: &Published) -> bool
    requires settled { IsSettled told.now }
    requires its { IsOf B.setting.townships B.book published.now }
    ensures covers { result ≡ true → IsPrefix (sure_of told.now) published.now.records }
{
    told.covered_by(published.page())
}

// The sheet that was last made, where it is of this tract and no record came since.
fn seen_again<B: Room, S: Store + Drop>(
    kept: &Option<Kept<S>>,
    records: &[Record],
    tract: &Tract,
) -> Option<Seen>
    requires kept { IfSome kept.now (λ k. IsKept B.setting.townships records.now k.count (S.content k.store) (S.declared k.store)
        (S.out k.store) k.made) }
    ensures again { IfSome result (λ s. (s.front ≡ length records.now)
        × (s.rows ≡ sheet_after B.setting.townships records.now tract.now) × (is_in_plant B.setting.townships tract.now ≡ true)) }
{
    let Some(kept) = kept else {
        return None;
    };
    let count = records.len();
    let rows = kept.again(count, &tract.land())?;
    let front = count as u64;
    Some(Seen { front, rows })
}

// The sheet of a tract by what is published.
fn sheet_in<B: Room, S: Store + Drop>(
    alloc: Global,
    townships: &[Township],
    told: &Front<B>,
    kept: Option<Kept<S>>,
    published: &Published,
    tract: &Tract,
) -> (Option<Kept<S>>, Result<Seen, Unseen>)
    requires townships { townships.now ≡ B.setting.townships }
    requires once { IsEachOnce B.setting.townships }
    requires settled { IsSettled told.now }
    requires its { IsOf B.setting.townships B.book published.now }
    requires kept { IfSome kept (λ k. IsKept B.setting.townships published.now.records k.count (S.content k.store)
        (S.declared k.store) (S.out k.store) k.made) }
    ensures kept { IfSome result.0 (λ k. IsKept B.setting.townships published.now.records k.count (S.content k.store)
        (S.declared k.store) (S.out k.store) k.made) }
    ensures shown { MatchResult result.1
        (λ s. IsPrefix (sure_of told.now) published.now.records × (s.front ≡ length published.now.records)
        × (s.rows ≡ sheet_after B.setting.townships published.now.records tract.now)
        × (is_in_plant B.setting.townships tract.now ≡ true))
        (IsUnseen B.setting.townships tract.now) }
{
    if !covers(told, published) {
        return (kept, Err(Unseen::Closed));
    }
    let records = published.records();
    if let Some(seen) = seen_again::<B, S>(&kept, records, tract) {
        return (kept, Ok(seen));
    }
    if !tract.is_in(townships) {
        return (kept, Err(Unseen::NoSuchTownship));
    }
    sheet_of_all(alloc, townships, kept, records, tract)
}

/// One look at the sheet of a tract.
pub(crate) fn look<B: Room, S: Store + Drop>(
    alloc: Global,
    townships: &[Township],
    told: &Front<B>,
    reader: Watch<B>,
    kept: Option<Kept<S>>,
    tract: &Tract,
) -> (Watch<B>, Option<Kept<S>>, Result<Seen, Unseen>)
    requires townships { townships.now ≡ B.setting.townships }
    requires once { IsEachOnce B.setting.townships }
    requires settled { IsSettled told.now }
    requires kept { IfSome kept (λ k. IsKept B.setting.townships (view reader.place) k.count (S.content k.store)
        (S.declared k.store) (S.out k.store) k.made) }
    ensures later { IsPrefix (view reader.place) (view result.0.place) }
    ensures kept { IfSome result.1 (λ k. IsKept B.setting.townships (view result.0.place) k.count (S.content k.store)
        (S.declared k.store) (S.out k.store) k.made) }
    ensures shown { MatchResult result.2
        (λ s. AreSerial B.setting.townships (view result.0.place) × IsPrefix (sure_of told.now) (view result.0.place)
        × (s.front ≡ length (view result.0.place)) × (s.rows ≡ sheet_after B.setting.townships (view result.0.place) tract.now)
        × (is_in_plant B.setting.townships tract.now ≡ true))
        (IsUnseen B.setting.townships tract.now) }
{
    let reading = match reader.enter_as::<Sees<B>>() {
        Ok(reading) => reading,
        Err(reader) => return (reader, kept, Err(Unseen::Closed)),
    };
    let (kept, answer) = sheet_in(alloc, townships, told, kept, reading.get(), tract);
    (reading.leave(), kept, answer)
}

// The record at a place.
fn copy_at(alloc: Global, records: &[Record], place: u64) -> Result<Option<Record>, Unseen>
    ensures copied { MatchResult result (λ rec. rec ≡ record_at records.now place) (λ why. why ≡ Unseen.Memory) }
{
    if place == 0 {
        return Ok(None);
    }
    let Some(rec) = records.get((place - 1) as usize) else {
        return Ok(None);
    };
    match rec.copy(alloc) {
        Ok(copy) => Ok(Some(copy)),
        Err(_) => Err(Unseen::Memory),
    }
}

// The record at a place of what is published, and how many records that are.
fn record_in<B: Room>(
    alloc: Global,
    told: &Front<B>,
    published: &Published,
    place: u64,
) -> Result<(usize, Option<Record>), Unseen>
    requires settled { IsSettled told.now }
    requires its { IsOf B.setting.townships B.book published.now }
    ensures shown { MatchResult result
        (λ s. IsPrefix (sure_of told.now) published.now.records × (s.0 ≡ length published.now.records)
        × (s.1 ≡ record_at published.now.records place)) IsNoRecord }
{
    if !covers(told, published) {
        return Err(Unseen::Closed);
    }
    let records = published.records();
    match copy_at(alloc, records, place) {
        Ok(rec) => Ok((records.len(), rec)),
        Err(why) => Err(why),
    }
}

/// One look at the record at a place.
pub(crate) fn look_up<B: Room>(
    alloc: Global,
    told: &Front<B>,
    reader: Watch<B>,
    place: u64,
) -> (Watch<B>, Result<(usize, Option<Record>), Unseen>)
    requires settled { IsSettled told.now }
    ensures later { IsPrefix (view reader.place) (view result.0.place) }
    ensures shown { MatchResult result.1
        (λ s. AreSerial B.setting.townships (view result.0.place) × IsPrefix (sure_of told.now) (view result.0.place)
        × (s.0 ≡ length (view result.0.place)) × (s.1 ≡ record_at (view result.0.place) place)) IsNoRecord }
{
    let reading = match reader.enter_as::<Sees<B>>() {
        Ok(reading) => reading,
        Err(reader) => return (reader, Err(Unseen::Closed)),
    };
    let answer = record_in(alloc, told, reading.get(), place);
    (reading.leave(), answer)
}
