//! Outcomes held against records.

ghost use Rattle.std.specs.Prelude.{◌≡◌, ◌∷◌, [], length, IfErr, OnOk};
ghost use Rattle.title_settle.specs.{declared.outcome.Outcome.{Outcome}, Marks.{least_with, AreMarks, IsLeastUnknown, IsMark, IsWrongAt}};
ghost use Rattle.title_settle.specs.Settling.{outcomes_at, AreKnown, IsSettled, IsUneven};

use crate::marks::{Mark, marks_of};
use crate::outcome::{Outcome, Unsettled};
use std::alloc::Global;
use title_chain::Record;

// The lesser of the least unknown place so far and this place, if it is none of so many.
fn lesser_unknown(least: Option<u64>, places: usize, place: u64) -> Option<u64>
    ensures lesser { result ≡ least_with least places place }
{
    if 1 <= place && place <= places as u64 {
        return least;
    }
    match least {
        Some(before) if before <= place => Some(before),
        _ => Some(place),
    }
}

// The least place of an outcome that no record has.
fn least_unknown(records: &[Record], outcomes: &[Outcome]) -> Option<u64>
    ensures least { IsLeastUnknown records.now outcomes.now result }
{
    let mut least = None;
    for outcome in outcomes {
        least = lesser_unknown(least, records.len(), outcome.place);
    }
    least
}

// Holds the outcomes with a place, as its mark tells them, against its record.
fn compare_at(
    committed: &Record,
    outcomes: &[Outcome],
    mark: Mark,
    place: u64,
) -> Result<(), Unsettled>
    requires mark { IsMark outcomes.now place (outcomes_at outcomes.now place) mark }
    ensures right { OnOk result (outcomes_at outcomes.now place ≡ record { place = place; rec = committed.now } ∷ []) }
    ensures wrong { IfErr result (λ why. IsWrongAt outcomes.now place committed.now why) }
{
    match mark {
        Mark::Unseen => Err(Unsettled::Missing(place)),
        Mark::Once(index) if outcomes[index].rec.same(committed) => Ok(()),
        Mark::Once(_) => Err(Unsettled::Different(place)),
        Mark::Several => Err(Unsettled::Doubled(place)),
    }
}

// Holds the outcomes of each place, as the marks tell them, against its record, in the order of the places.
fn compare_marked(records: &[Record], outcomes: &[Outcome], marks: &[Mark]) -> Result<(), Unsettled>
    requires known { AreKnown records.now outcomes.now }
    requires marks { AreMarks (length records.now) outcomes.now outcomes.now marks.now }
    ensures settled { OnOk result (IsSettled records.now outcomes.now) }
    ensures uneven { IfErr result (λ why. IsUneven records.now outcomes.now why) }
{
    for (index, record) in records.iter().enumerate() {
        compare_at(record, outcomes, marks[index], index as u64 + 1)?;
    }
    Ok(())
}

/// Whether the outcomes are the records, which stand in order, each once, each with its place. Faults in their order: Unknown
/// of the least place that no record has; Memory, which the rest takes; then, of the least place at fault, Missing, Doubled
/// or Different.
pub fn compare(alloc: Global, records: &[Record], outcomes: &[Outcome]) -> Result<(), Unsettled>
    ensures settled { OnOk result (IsSettled records.now outcomes.now) }
    ensures uneven { IfErr result (λ why. IsUneven records.now outcomes.now why) }
{
    if let Some(place) = least_unknown(records, outcomes) {
        return Err(Unsettled::Unknown(place));
    }
    let Ok(marks) = marks_of(alloc, records.len(), outcomes) else {
        return Err(Unsettled::Memory);
    };
    compare_marked(records, outcomes, &marks)
}
