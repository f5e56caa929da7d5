//! The jobs that are still to be started.

ghost use Rattle.std.specs.Prelude.{◌≡◌, ◌+◌, ◌++◌, ◌∷◌, [], IfOk, MatchOption, MatchResult, map, vec_len};
ghost use Rattle.title_office.specs.Workers.{examiners_of, seat_examiners};

use crate::seat::Seat;
use crate::workers::job::Job;
use crate::workers::tally::Tally;
use std::alloc::{AllocError, Global};
use title_ledger::Room;
use title_turns::Script;

/// The scripts that no thread runs yet, in their order, and for each the seat of its examiner and an empty tally with room.
#[derive(Drop)]
pub(crate) struct Jobs<B: Room> {
    pub(crate) seats: Vec<Seat<B>>,
    pub(crate) scripts: Vec<Script>,
    pub(crate) tallies: Vec<Tally>,
    pub(crate) ghost own: { seat_examiners seats.items ≡ examiners_of scripts.items },
    pub(crate) ghost left: { map (λ t. t.left) tallies.items ≡ map (λ s. vec_len s.transactions) scripts.items },
    pub(crate) ghost empty: { map (λ t. vec_len t.outcomes + t.aborted + t.given_up) tallies.items ≡ map (λ s. 0) scripts.items },
}

impl<B: Room> Jobs<B> {
    /// The jobs of scripts. `Err`: want of memory, with both lists.
    pub(crate) fn new(
        alloc: Global,
        seats: Vec<Seat<B>>,
        scripts: Vec<Script>,
    ) -> Result<Jobs<B>, (Vec<Seat<B>>, Vec<Script>)>
        requires fits { seat_examiners seats.items ≡ examiners_of scripts.items }
        ensures jobs { MatchResult result (λ jobs. jobs.scripts ≡ scripts) (λ e. (e.0 ≡ seats) × (e.1 ≡ scripts)) }
    {
        match tallies_of(alloc, scripts.as_slice()) {
            Ok(tallies) => Ok(Jobs {
                seats,
                scripts,
                tallies,
            }),
            Err(_) => Err((seats, scripts)),
        }
    }

    /// The last job.
    pub(crate) fn pop(&mut self) -> Option<Job<B>>
        ensures last { MatchOption result (self.old.scripts.items ≡ []) (λ job.
            self.old.scripts.items ≡ self.new.scripts.items ++ job.script ∷ []) }
        ensures len { MatchOption result (vec_len self.old.scripts ≡ 0) (λ _. vec_len self.old.scripts ≡ vec_len self.new.scripts + 1) }
    {
        let script = self.scripts.pop()?;
        let seat = self.seats.pop()?;
        let tally = self.tallies.pop()?;
        Some(Job {
            seat,
            script,
            tally,
        })
    }
}

// An empty tally with room for each script's transactions.
fn tallies_of(alloc: Global, scripts: &[Script]) -> Result<Vec<Tally>, AllocError>
    ensures left { IfOk result (λ tallies. map (λ t. t.left) tallies.items ≡ map (λ s. vec_len s.transactions) scripts.now) }
    ensures empty { IfOk result (λ tallies.
        map (λ t. vec_len t.outcomes + t.aborted + t.given_up) tallies.items ≡ map (λ s. 0) scripts.now) }
{
    let mut tallies = Vec::new(alloc);
    for script in scripts {
        tallies.push(Tally::new(alloc, script.transactions.len())?)?;
    }
    Ok(tallies)
}
