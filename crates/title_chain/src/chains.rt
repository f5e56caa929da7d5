//! Chains of tracts.

ghost use Rattle.std.specs.{Prelude.{◌≡◌, IfOk, ◌++◌, reverse, slice_get}, List.{flat_map}};
ghost use Rattle.title_chain.specs.{StepEntries.{entry_of, step_entries}, Chains.{record_entries, chain_of}};
ghost use Rattle.title_chain.specs.PostSpots.{posted, posting_of, step_entry, entry_at, own_entry_at};

use crate::ask::{Answer, Ask, Entry, Step};
use crate::lists::{Entries, Records};
use crate::record::Record;
use crate::spot::Spot;
use std::alloc::{AllocError, Global};
use title_land::Tract;

// Adds the entry of a step: it was posted, and its tract shares a cell.
fn add_entry(
    alloc: Global,
    entries: &mut Vec<Entry>,
    place: u64,
    step: &Step,
    tract: &Tract,
) -> Result<(), AllocError>
    ensures added { IfOk result (λ _. entries.new.items ≡ entries.old.items ++ entry_of place tract.now step.now.ask step.now.answer) }
{
    let (Ask::Post(posting), Answer::Posted) = (&step.ask, &step.answer) else {
        return Ok(());
    };
    if !tract.meets(&posting.terms().tract) {
        return Ok(());
    }
    let posting = posting.copy(alloc)?;
    entries.push(Entry { place, posting })?;
    Ok(())
}

/// Adds the entries of these steps, each with this place.
pub(crate) fn add_entries(
    alloc: Global,
    entries: &mut Vec<Entry>,
    place: u64,
    steps: &[Step],
    tract: &Tract,
) -> Result<(), AllocError>
    ensures added { IfOk result (λ _. entries.new.items ≡ entries.old.items ++ step_entries place tract.now (reverse steps.now)) }
{
    for step in steps {
        add_entry(alloc, entries, place, step, tract)?;
    }
    Ok(())
}

/// Adds the entries of these records, each with its record's number from 1.
pub(crate) fn add_records(
    alloc: Global,
    entries: &mut Vec<Entry>,
    records: &[Record],
    tract: &Tract,
) -> Result<(), AllocError>
    ensures added { IfOk result (λ _. entries.new.items ≡ entries.old.items ++ record_entries tract.now (reverse records.now)) }
{
    let mut place = 0;
    for record in records {
        place += 1;
        add_entries(alloc, entries, place, record.steps.as_slice(), tract)?;
    }
    Ok(())
}

// Adds the entry of a step that was posted, whatever its tract. Inline in both callers, each of which calls it once for each
// spot, so that an entry is made where the list has it and isn't handed on.
#[inline(always)]
fn add_posted(
    alloc: Global,
    entries: &mut Vec<Entry>,
    place: u64,
    step: &Step,
) -> Result<(), AllocError>
    ensures added { IfOk result (λ _. entries.new.items ≡ entries.old.items ++ posted place (posting_of step.now.ask step.now.answer)) }
{
    match (&step.ask, &step.answer) {
        (Ask::Post(posting), Answer::Posted) => {
            let posting = posting.copy(alloc)?;
            entries.push(Entry { place, posting })?;
            Ok(())
        }
        _ => Ok(()),
    }
}

// Adds the entry of the step at an index, if there is one, with this place.
#[inline(always)]
fn add_step_at(
    alloc: Global,
    entries: &mut Vec<Entry>,
    place: u64,
    steps: &[Step],
    index: usize,
) -> Result<(), AllocError>
    ensures added { IfOk result (λ _. entries.new.items ≡ entries.old.items ++ step_entry place (slice_get steps.now index)) }
{
    let Some(step) = steps.get(index) else {
        return Ok(());
    };
    add_posted(alloc, entries, place, step)
}

// Adds the entry of the step at a spot, if these records have it, with its record's number from 1.
fn add_entry_at(
    alloc: Global,
    entries: &mut Vec<Entry>,
    records: &[Record],
    spot: Spot,
) -> Result<(), AllocError>
    ensures added { IfOk result (λ _. entries.new.items ≡ entries.old.items ++ entry_at records.now spot) }
{
    let Some(record) = records.get(spot.record) else {
        return Ok(());
    };
    let place = spot.record as u64 + 1;
    let steps = record.steps.as_slice();
    add_step_at(alloc, entries, place, steps, spot.step)
}

/// Adds the entries of the steps at these spots of records, each with its record's number from 1, with room for all at once.
pub(crate) fn add_entries_at(
    alloc: Global,
    entries: &mut Vec<Entry>,
    records: &[Record],
    spots: &[Spot],
) -> Result<(), AllocError>
    ensures added { IfOk result (λ _. entries.new.items ≡ entries.old.items ++ flat_map (entry_at records.now) spots.now) }
{
    entries.reserve_exact(spots.len())?;
    for spot in spots {
        add_entry_at(alloc, entries, records, *spot)?;
    }
    Ok(())
}

/// Adds the entries of a transaction's own steps at these spots, each with place 0, with room for all at once.
pub(crate) fn add_own_entries_at(
    alloc: Global,
    entries: &mut Vec<Entry>,
    steps: &[Step],
    spots: &[Spot],
) -> Result<(), AllocError>
    ensures added { IfOk result (λ _. entries.new.items ≡ entries.old.items ++ flat_map (own_entry_at steps.now) spots.now) }
{
    entries.reserve_exact(spots.len())?;
    for spot in spots {
        add_step_at(alloc, entries, 0, steps, spot.step)?;
    }
    Ok(())
}

/// The chain of a tract: the posted instruments whose tracts share a cell with it, first those of these records, each
/// with its record's number from 1, then those of a transaction's own steps with 0. A refused post isn't in it.
pub fn chain(
    alloc: Global,
    records: &Records,
    own: &[Step],
    tract: &Tract,
) -> Result<Entries, AllocError>
    ensures chain { IfOk result (λ entries. entries ≡ chain_of (reverse records.now) (reverse own.now) tract.now) }
{
    let mut entries = Vec::new(alloc);
    add_records(alloc, &mut entries, records.as_slice(), tract)?;
    add_entries(alloc, &mut entries, 0, own, tract)?;
    Entries::new(entries)
}
