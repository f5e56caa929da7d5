//! What a worker has so far.

ghost use Rattle.std.specs.Prelude.{◌≡◌, ◌+◌, ◌^◌, ◌<◌, ◌≤◌, IfOk, [], vec_capacity, vec_len};
ghost use Rattle.title_office.specs.Turns.{with_came};

use crate::fault::Fault;
use crate::seat::Seat;
use crate::workers::Worked;
use crate::workers::came::Came;
use std::alloc::{AllocError, Global};
use title_ledger::Room;
use title_settle::Outcome;

/// The outcomes of a worker's transactions, and how many were aborted by their own script, given up, and are still to come. There
/// is room for an outcome of each that is to come.
#[derive(Drop)]
pub(crate) struct Tally {
    pub(crate) outcomes: Vec<Outcome>,
    pub(crate) aborted: u64,
    pub(crate) given_up: u64,
    pub(crate) left: usize,
    pub(crate) ghost room: { vec_len outcomes + left ≤ vec_capacity outcomes },
    pub(crate) ghost fits: { vec_len outcomes + aborted + given_up + left < 2 ^ 64 },
}

impl Tally {
    /// A tally of so many transactions, all of which are still to come.
    pub(crate) fn new(alloc: Global, all: usize) -> Result<Tally, AllocError>
        ensures left { IfOk result (λ tally. tally.left ≡ all) }
        ensures empty { IfOk result (λ tally. vec_len tally.outcomes + tally.aborted + tally.given_up ≡ 0) }
    {
        let outcomes = Vec::with_capacity(alloc, all)?;
        Ok(Tally {
            outcomes,
            aborted: 0,
            given_up: 0,
            left: all,
        })
    }

    /// Counts what came of the next transaction.
    pub(crate) fn count(&mut self, came: Came)
        requires left { 0 < self.old.left }
        ensures left { self.new.left + 1 ≡ self.old.left }
        ensures counted { record { outcomes = self.new.outcomes.items; aborted = self.new.aborted; given_up = self.new.given_up }
            ≡ with_came came
            (record { outcomes = self.old.outcomes.items; aborted = self.old.aborted; given_up = self.old.given_up }) }
        ensures whole { vec_len self.new.outcomes + self.new.aborted + self.new.given_up
            ≡ vec_len self.old.outcomes + self.old.aborted + self.old.given_up + 1 }
    {
        self.left -= 1;
        match came {
            Came::Committed(outcome) => self.outcomes.push_reserved(outcome),
            Came::Aborted => self.aborted += 1,
            Came::InTheWay => self.given_up += 1,
        }
    }

    /// What the worker answers.
    pub(crate) fn ended<B: Room>(
        self,
        examiner: u32,
        seat: Option<Seat<B>>,
        fault: Option<Fault>,
    ) -> Worked<B>
        ensures examiner { result.examiner ≡ examiner }
        ensures seat { result.seat ≡ seat }
        ensures fault { result.fault ≡ fault }
        ensures counts { (result.outcomes ≡ self.outcomes) × (result.aborted ≡ self.aborted) × (result.given_up ≡ self.given_up) }
    {
        let Tally {
            outcomes,
            aborted,
            given_up,
            left: _,
        } = self;
        Worked {
            examiner,
            seat,
            outcomes,
            aborted,
            given_up,
            fault,
        }
    }
}
