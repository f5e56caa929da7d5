//! A worker's calls to its office.

ghost use Rattle.std.specs.Prelude.{◌≡◌, MatchResult, IfErr, IfSome, None, OnOk, Some};
ghost use Rattle.title_office.specs.{declared.workers.came.Came.TheVariants.{Committed}, Offices.{Answers, Refuses}};
ghost use Rattle.title_office.specs.Turns.{EndsTry, EndsWorker, GoesOn, HasAsked, IsBegun, IsCommitOf, IsLater, IsPassedOver};

use crate::fault::Fault;
use crate::gate::Gate;
use crate::office::{Done, Office};
use crate::seat::Seat;
use crate::slip::Slip;
use crate::workers::caller::Caller;
use std::alloc::Global;
use std::sync::Wait;
use title_chain::Ask;
use title_ledger::Room;
use title_trace::Denial;

/// What the workers share: their office, and the gate that stands before and after each call.
#[derive(Drop)]
pub(crate) struct Bench<'a, B: Room, R: Wait, G: Gate> {
    pub(crate) rt: &'a R,
    pub(crate) alloc: Global,
    pub(crate) office: &'a Office<B>,
    pub(crate) gate: &'a G,
}

impl<'a, B: Room, R: Wait, G: Gate> Bench<'a, B, R, G> {
    /// Begins a transaction.
    pub(crate) fn begin(
        &self,
        caller: &mut Caller,
        seat: Seat<B>,
    ) -> Result<Slip<B>, (Seat<B>, Fault)>
        ensures begun { MatchResult result (λ slip. IsBegun seat slip)
            (λ e. (e.0.examiner ≡ seat.examiner) × EndsWorker e.1) }
    {
        caller.before(self.rt, self.gate);
        let begun = self.office.begin(self.rt, seat);
        caller.after(self.rt, self.gate);
        begun
    }

    /// Commits the transaction.
    pub(crate) fn commit(
        &self,
        caller: &mut Caller,
        slip: Slip<B>,
    ) -> Result<Done<B>, (Slip<B>, Fault)>
        ensures committed { MatchResult result (λ done. IsLater slip.seat done.seat
            × IsCommitOf slip (Committed (record { place = done.place; rec = done.rec })) done.seat)
            (λ e. (e.0.seat.examiner ≡ slip.seat.examiner) × EndsWorker e.1) }
    {
        caller.before(self.rt, self.gate);
        let committed = self.office.commit(self.rt, slip);
        caller.after(self.rt, self.gate);
        committed
    }

    /// Aborts the transaction. `None`: the office takes the slip for a stranger's.
    pub(crate) fn abort(&self, caller: &mut Caller, slip: Slip<B>) -> Option<Seat<B>>
        ensures back { IfSome result (λ seat. IsLater slip.seat seat) }
    {
        caller.before(self.rt, self.gate);
        let aborted = self.office.abort(self.rt, slip);
        caller.after(self.rt, self.gate);
        seat_back(aborted)
    }

    /// Makes a step. One that is refused with Invalid, TooLong or NoSuchTownship is passed over.
    pub(crate) fn step(
        &self,
        caller: &mut Caller,
        slip: &mut Slip<B>,
        ask: &Ask,
    ) -> Result<(), Fault>
        ensures seat { GoesOn slip.old slip.new }
        ensures asked { OnOk result (HasAsked B.setting slip.old ask.now slip.new) }
        ensures ended { IfErr result EndsTry }
    {
        let Ok(copy) = ask.copy(self.alloc) else {
            return Err(Fault::Memory);
        };
        caller.before(self.rt, self.gate);
        let answered = self.ask(slip, copy);
        caller.after(self.rt, self.gate);
        passed_over(answered)
    }

    fn ask(&self, slip: &mut Slip<B>, ask: Ask) -> Result<(), Fault>
        ensures answered { MatchResult result (λ _. Answers B.setting slip.old ask slip.new)
            (λ why. Refuses B.setting slip.old ask slip.new why) }
    {
        match ask {
            Ask::Sheet(tract) => self.office.sheet(self.rt, slip, tract),
            Ask::Chain(tract) => self.office.chain(self.rt, slip, tract),
            Ask::Post(posting) => self.office.post(self.rt, slip, posting),
        }
    }
}

fn seat_back<B: Room>(aborted: Result<(Seat<B>, bool), (Slip<B>, Fault)>) -> Option<Seat<B>>
    ensures back { MatchResult aborted (λ back. result ≡ Some back.0) (λ e. result ≡ None) }
{
    let Ok((seat, _)) = aborted else {
        return None;
    };
    Some(seat)
}

// A step that is refused for itself alone is passed over.
fn passed_over(answered: Result<(), Fault>) -> Result<(), Fault>
    ensures over { OnOk result (IfErr answered IsPassedOver) }
    ensures ended { IfErr result EndsTry }
    ensures same { IfErr result (λ why. answered ≡ Err why) }
{
    match answered {
        Err(Fault::Denied(Denial::NoSuchTownship)) => Ok(()),
        Err(Fault::Denied(Denial::Invalid(_))) => Ok(()),
        Err(Fault::Denied(Denial::TooLong)) => Ok(()),
        other => other,
    }
}
