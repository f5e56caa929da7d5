//! How often each place is seen among outcomes.

ghost use Rattle.std.specs.{Prelude.{◌≡◌, ◌≤◌, ◌-◌, IfOk, All, length}, List.{slice_index_or, slice_set}};
ghost use Rattle.title_settle.specs.declared.marks.Mark.TheVariants as mark;
ghost use Rattle.title_settle.specs.Marks.{mark_after, AreMarks};

use crate::outcome::Outcome;
use std::alloc::{AllocError, Global};

/// How often a place was seen, with the index of the outcome that has it alone.
#[derive(Clone, Copy)]
pub(crate) enum Mark {
    Unseen,
    Once(usize),
    Several,
}

impl Mark {
    // The mark once the outcome with this index has the place too.
    fn after(self, index: usize) -> Mark
        ensures after { result ≡ mark_after self index }
    {
        match self {
            Mark::Unseen => Mark::Once(index),
            Mark::Once(_) | Mark::Several => Mark::Several,
        }
    }
}

// Marks the place of the outcome with this index.
fn mark_place(marks: &mut [Mark], place: u64, index: usize)
    requires first { 1 ≤ place }
    requires last { place ≤ length marks.old }
    ensures marked { marks.new ≡ slice_set marks.old (place - 1) (mark_after (slice_index_or marks.old (place - 1) mark.Unseen) index) }
{
    let at = place as usize - 1;
    marks[at] = marks[at].after(index);
}

/// The marks of so many places, in order, from 1. Each outcome has one of these places.
pub(crate) fn marks_of(
    alloc: Global,
    places: usize,
    outcomes: &[Outcome],
) -> Result<Vec<Mark>, AllocError>
    requires known { All (λ o. (1 ≤ o.place) × (o.place ≤ places)) outcomes.now }
    ensures marks { IfOk result (λ marks. AreMarks places outcomes.now outcomes.now marks.items) }
{
    let mut marks = vec![in alloc; Mark::Unseen; places]?;
    for (index, outcome) in outcomes.iter().enumerate() {
        mark_place(&mut marks, outcome.place, index);
    }
    Ok(marks)
}
