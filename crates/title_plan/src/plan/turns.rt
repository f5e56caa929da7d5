//! Examiners and the turns of their steps.

ghost use Rattle.std.specs.Prelude.{◌≡◌, OnOk};
ghost use Rattle.title_plan.specs.{Asked.{asked_in}, Rows.{done}};
ghost use Rattle.title_plan.specs.Plans.{is_begin, is_beyond, is_other_inside, is_out_of_turn, stands_alone, with_begun, with_ended};

use crate::line::Schedule;
use crate::plan::Plan;
use crate::row::Act;
use std::alloc::AllocError;

// Whether an examiner is above the number of the office's examiners.
pub(super) fn is_beyond(schedule: Schedule, examiner: u32) -> bool
    ensures beyond { result ≡ is_beyond schedule examiner }
{
    match schedule {
        Schedule::Interleaved | Schedule::Serial => false,
        Schedule::Office(number) => examiner > number,
    }
}

fn is_begin(act: &Act<&str>) -> bool
    ensures begin { result ≡ is_begin (done act.now) }
{
    matches!(act, Act::Begin)
}

fn is_other_inside(inside: &[u32], examiner: u32) -> bool
    ensures other { result ≡ is_other_inside inside.now examiner }
{
    inside.iter().any(|open| *open != examiner)
}

// An examiner's transaction ends.
pub(super) fn end(inside: &mut Vec<u32>, examiner: u32)
    ensures ended { inside.new.items ≡ with_ended inside.old.items examiner }
{
    inside.retain(|open| *open != examiner);
}

// An examiner's transaction begins.
pub(super) fn begin(
    inside: &mut Vec<u32>,
    schedule: Schedule,
    examiner: u32,
) -> Result<(), AllocError>
    ensures begun { OnOk result (inside.new.items ≡ with_begun schedule inside.old.items examiner) }
{
    if let Schedule::Interleaved = schedule {
        return Ok(());
    }
    end(inside, examiner);
    Ok(inside.push(examiner)?)
}

impl Plan {
    // Whether an examiner's step is out of its turn.
    pub(super) fn is_out_of_turn(&self, schedule: Schedule, examiner: u32, act: &Act<&str>) -> bool
        ensures out { result ≡ is_out_of_turn schedule (asked_in self.now).inside examiner (done act.now) }
    {
        match schedule {
            Schedule::Interleaved => false,
            Schedule::Serial => is_other_inside(self.inside.as_slice(), examiner),
            Schedule::Office(_) => is_begin(act) == self.inside.contains(&examiner),
        }
    }

    // Whether a step is a transaction of its own.
    pub(super) fn stands_alone(&self, schedule: Schedule) -> bool
        ensures alone { result ≡ stands_alone schedule (asked_in self.now).inside }
    {
        matches!(schedule, Schedule::Serial) && self.inside.is_empty()
    }
}
