//! A worker's transactions.

ghost use Rattle.std.specs.Prelude.{◌≡◌, ◌+◌, IfOk, IfErr, IfSome, MatchResult, OnOk, Some, [], length, map, vec_len};
ghost use Rattle.title_turns.specs.Dealt.{dealt_in};
ghost use Rattle.title_office.specs.declared.workers.came.Came.TheVariants as came;
ghost use Rattle.title_office.specs.Transactions.{IsRunOf, asks_of, served_asks};
ghost use Rattle.title_office.specs.Turns.{EndsTry, EndsWorker, GoesOn, HasRun, IsCameOf, IsCommitOf, IsLater, report_of};

use crate::fault::Fault;
use crate::gate::Gate;
use crate::office::Done;
use crate::seat::Seat;
use crate::slip::Slip;
use crate::workers::Worked;
use crate::workers::bench::Bench;
use crate::workers::caller::Caller;
use crate::workers::came::{Came, Stop, Tried};
use crate::workers::job::Job;
use crate::workers::tally::Tally;
use std::sync::Wait;
use std::thread;
use title_chain::Ask;
use title_ledger::Room;
use title_settle::Outcome;
use title_trace::Denial;
use title_turns::Transaction;

impl<'a, B: Room, R: Wait, G: Gate> Bench<'a, B, R, G> {
    /// Runs a job's script.
    pub(crate) fn run(&self, job: Job<B>, tries: u32) -> Worked<B>
        ensures run { HasRun B.setting job.script (report_of result) }
    {
        let Job {
            seat,
            script,
            mut tally,
        } = job;
        match self.run_all(seat, script.transactions.as_slice(), tries, &mut tally) {
            Ok(seat) => tally.ended(script.examiner, Some(seat), None),
            Err(stop) => stopped(tally, script.examiner, stop),
        }
    }

    fn run_all(
        &self,
        seat: Seat<B>,
        transactions: &[Transaction],
        tries: u32,
        tally: &mut Tally,
    ) -> Result<Seat<B>, Stop<B>>
        requires empty { vec_len tally.old.outcomes + tally.old.aborted + tally.old.given_up ≡ 0 }
        requires left { tally.old.left ≡ length transactions.now }
        ensures seat { MatchResult result (λ back. back.examiner ≡ seat.examiner)
            (λ stop. IfSome stop.seat (λ back. back.examiner ≡ seat.examiner) × EndsWorker stop.fault) }
        ensures run { IsRunOf B.setting seat.examiner (map dealt_in transactions.now) tally.new.outcomes.items }
        ensures counted { OnOk result (vec_len tally.new.outcomes + tally.new.aborted + tally.new.given_up ≡ length transactions.now) }
    {
        let mut seat = seat;
        let mut caller = Caller {
            examiner: seat.examiner,
            call: 0,
        };
        for transaction in transactions {
            let (back, came) = self.transact(&mut caller, seat, transaction, tries)?;
            seat = back;
            tally.count(came);
        }
        Ok(seat)
    }

    // A transaction that another is in the way of is begun again, so often at most.
    fn transact(
        &self,
        caller: &mut Caller,
        seat: Seat<B>,
        transaction: &Transaction,
        tries: u32,
    ) -> Tried<B>
        ensures seat { MatchResult result (λ tried. IsLater seat tried.0)
            (λ stop. IfSome stop.seat (λ back. back.examiner ≡ seat.examiner) × EndsWorker stop.fault) }
        ensures came { IfOk result (λ tried. IsCameOf B.setting seat (dealt_in transaction.now) tried.1 tried.0) }
    {
        let mut seat = seat;
        for _ in 0..tries {
            let (back, came) = self.attempt(caller, seat, transaction)?;
            seat = back;
            match came {
                Came::InTheWay => thread::yield_now(),
                done => return Ok((seat, done)),
            }
        }
        Ok((seat, Came::InTheWay))
    }

    fn attempt(&self, caller: &mut Caller, seat: Seat<B>, transaction: &Transaction) -> Tried<B>
        ensures seat { MatchResult result (λ tried. IsLater seat tried.0)
            (λ stop. IfSome stop.seat (λ back. back.examiner ≡ seat.examiner) × EndsWorker stop.fault) }
        ensures came { IfOk result (λ tried. IsCameOf B.setting seat (dealt_in transaction.now) tried.1 tried.0) }
    {
        let mut slip = match self.begin(caller, seat) {
            Ok(slip) => slip,
            Err((seat, fault)) => return Err(Stop::of(Some(seat), fault)),
        };
        match self.ask_all(caller, &mut slip, transaction.asks.as_slice()) {
            Ok(()) if transaction.commits => self.finish(caller, slip),
            Ok(()) => self.back_out(caller, slip, Came::Aborted),
            Err(why) => self.refused(caller, slip, why),
        }
    }

    // Makes the steps in order, until one ends the try.
    fn ask_all(&self, caller: &mut Caller, slip: &mut Slip<B>, asks: &[Ask]) -> Result<(), Fault>
        requires none { slip.old.rec.steps ≡ [] }
        ensures seat { GoesOn slip.old slip.new }
        ensures asked { OnOk result (asks_of slip.new.rec ≡ served_asks B.setting asks.now) }
        ensures ended { IfErr result EndsTry }
    {
        for ask in asks {
            self.step(caller, slip, ask)?;
        }
        Ok(())
    }

    fn finish(&self, caller: &mut Caller, slip: Slip<B>) -> Tried<B>
        ensures seat { MatchResult result (λ tried. IsLater slip.seat tried.0)
            (λ stop. IfSome stop.seat (λ back. back.examiner ≡ slip.seat.examiner) × EndsWorker stop.fault) }
        ensures came { IfOk result (λ tried. IsCommitOf slip tried.1 tried.0) }
    {
        match self.commit(caller, slip) {
            Ok(done) => {
                let Done {
                    place,
                    rec,
                    seat,
                    ..
                } = done;
                Ok((seat, Came::Committed(Outcome { place, rec })))
            }
            Err((slip, fault)) => Err(self.stop(caller, slip, fault)),
        }
    }

    // After a step that ended the try.
    fn refused(&self, caller: &mut Caller, slip: Slip<B>, why: Fault) -> Tried<B>
        requires ended { EndsTry why }
        ensures seat { MatchResult result (λ tried. IsLater slip.seat tried.0)
            (λ stop. IfSome stop.seat (λ back. back.examiner ≡ slip.seat.examiner) × EndsWorker stop.fault) }
        ensures came { IfOk result (λ tried. tried.1 ≡ came.InTheWay) }
    {
        match why {
            Fault::Denied(Denial::Conflict(_)) => self.back_out(caller, slip, Came::InTheWay),
            fault => Err(self.stop(caller, slip, fault)),
        }
    }

    // Aborts the transaction; the worker goes on.
    fn back_out(&self, caller: &mut Caller, slip: Slip<B>, came: Came) -> Tried<B>
        ensures seat { MatchResult result (λ tried. IsLater slip.seat tried.0)
            (λ stop. IfSome stop.seat (λ back. back.examiner ≡ slip.seat.examiner) × EndsWorker stop.fault) }
        ensures came { IfOk result (λ tried. tried.1 ≡ came) }
    {
        match self.abort(caller, slip) {
            Some(seat) => Ok((seat, came)),
            None => Err(Stop::of(None, Fault::Stranger)),
        }
    }

    // Aborts the transaction; the worker ends with this fault.
    fn stop(&self, caller: &mut Caller, slip: Slip<B>, fault: Fault) -> Stop<B>
        ensures seat { IfSome result.seat (λ back. back.examiner ≡ slip.seat.examiner) }
        ensures fault { result.fault ≡ fault }
    {
        let seat = self.abort(caller, slip);
        Stop::of(seat, fault)
    }
}

fn stopped<B: Room>(tally: Tally, examiner: u32, stop: Stop<B>) -> Worked<B>
    ensures examiner { result.examiner ≡ examiner }
    ensures seat { result.seat ≡ stop.seat }
    ensures fault { result.fault ≡ Some stop.fault }
    ensures outcomes { result.outcomes ≡ tally.outcomes }
{
    let Stop { seat, fault } = stop;
    tally.ended(examiner, seat, Some(fault))
}
