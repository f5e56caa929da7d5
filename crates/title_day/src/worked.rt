//! What the workers of an office have done, counted and gathered.

ghost use Rattle.std.specs.{Prelude.{◌≡◌, ◌++◌, IfOk, OnOk, map}, List.{flat_map}};
ghost use Rattle.title_day.specs.OfficeDays.{first_there, tally_of};

use crate::tally::Tally;
use std::alloc::{AllocError, Global};
use std::collections::VecDeque;
use title_office::{Fault, Outcome, Room, Worked};

/// The fault of the first worker that has ended with one.
pub(crate) fn first_fault<B: Room>(worked: &[Worked<B>]) -> Option<Fault>
    ensures first { result ≡ first_there (map (λ w. w.fault) worked.now) }
{
    for one in worked {
        if let Some(why) = one.fault {
            return Some(why);
        }
    }
    None
}

// What came of a worker's transactions.
fn tally<B: Room>(worked: &Worked<B>) -> Tally
    ensures tally { result ≡ tally_of worked.now.examiner worked.now.outcomes.items worked.now.aborted worked.now.given_up }
{
    Tally {
        examiner: worked.examiner,
        committed: worked.outcomes.len() as u64,
        aborted: worked.aborted,
        given_up: worked.given_up,
    }
}

/// What came of each worker's transactions.
pub(crate) fn tallies<B: Room>(
    alloc: Global,
    worked: &[Worked<B>],
) -> Result<Vec<Tally>, AllocError>
    ensures tallies { IfOk result (λ v. v.items
        ≡ map (λ w. tally_of w.examiner w.outcomes.items w.aborted w.given_up) worked.now) }
{
    let mut tallies = Vec::new(alloc);
    for one in worked {
        tallies.push(tally(one))?;
    }
    Ok(tallies)
}

// Moves the outcomes of a worker behind those of others.
fn move_behind(gathered: &mut VecDeque<Outcome>, outcomes: Vec<Outcome>) -> Result<(), AllocError>
    ensures moved { OnOk result (gathered.new.items ≡ gathered.old.items ++ outcomes.items) }
{
    let mut outcomes = VecDeque::from(outcomes);
    gathered.append(&mut outcomes)
}

/// The outcomes of what stood, and behind them those of all workers.
pub(crate) fn gather<B: Room>(
    stood: Vec<Outcome>,
    worked: Vec<Worked<B>>,
) -> Result<Vec<Outcome>, AllocError>
    ensures outcomes { IfOk result (λ v. v.items ≡ stood.items ++ flat_map (λ w. w.outcomes.items) worked.items) }
{
    let mut gathered = VecDeque::from(stood);
    let mut rest = VecDeque::from(worked);
    while let Some(one) = rest.pop_front() {
        let Worked { outcomes, .. } = one;
        move_behind(&mut gathered, outcomes)?;
    }
    Ok(Vec::from(gathered))
}
