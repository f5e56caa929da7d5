//! The office's calls, behind its lock.

ghost use Rattle.std.specs.Prelude.{◌≡◌, ◌++◌, ◌∷◌, [], MatchResult, IfOk, OnOk, false};
ghost use Rattle.title_chain.specs.declared.ask.Answer.{Answer};
ghost use Rattle.title_trace.specs.declared.call.Request.TheVariants as request;
ghost use Rattle.title_trace.specs.{declared.call.Reply.TheVariants.{Answered}, Trace.{is_open}};
ghost use Rattle.title_office.specs.declared.fault.Fault.TheVariants as fault;
ghost use Rattle.title_office.specs.Offices.{Aborts, Answers, Begins, Commits, HasSeen, IsLast, IsRefused, Refuses, Stands};

use crate::books::Books;
use crate::fault::{Fault, answer_in, refusal};
use crate::office::Done;
use crate::seat::Seat;
use crate::slip::Slip;
use std::sync::Wait;
use title_chain::{Ask, Step};
use title_ledger::Room;
use title_trace::{Denial, Request};

impl<B: Room> Books<B> {
    // Opens a transaction.
    pub(crate) fn begin_of<R: Wait>(
        &mut self,
        rt: &R,
        seat: Seat<B>,
    ) -> Result<Slip<B>, (Seat<B>, Fault)>
        ensures begun { MatchResult result (λ slip. Begins B.setting seat slip)
            (λ e. (e.0 ≡ seat) × IsRefused B.setting (HasSeen seat) (request.Begin seat.examiner) e.1) }
        ensures stands { IfOk result (λ slip. Stands slip self.new) }
    {
        if !self.has_shown(&seat) {
            return Err((seat, Fault::Stranger));
        }
        self.is_due();
        let (examiner, receipt) = (seat.examiner(), self.receipt(&seat));
        let reply = self.serve(rt, Request::Begin(examiner));
        if let Some(why) = refusal(&reply) {
            return Err((seat, why));
        }
        Ok(seat.opened(self.alloc, receipt))
    }

    // Asks the desk, and adds the ask with its answer to the steps. Room for it is made first, so that after the answer nothing fails.
    fn add_step<R: Wait>(
        &mut self,
        rt: &R,
        examiner: u32,
        ask: Ask,
        steps: &mut Vec<Step>,
    ) -> Result<(), Fault>
        ensures added { MatchResult result
            (λ _. (given : Answer) × IsLast B.setting self.old (request.Step examiner ask) (Answered given)
            × (self.new ≡ record { request = request.Step examiner ask; reply = Answered given } ∷ self.old)
            × (steps.new.items ≡ steps.old.items ++ record { ask = ask; answer = given } ∷ []))
            (λ why. IsRefused B.setting (λ before. before ≡ self.old) (request.Step examiner ask) why
            × (steps.new.items ≡ steps.old.items)) }
    {
        let Ok(copied) = ask.copy(self.alloc) else {
            return Err(Fault::Memory);
        };
        let Ok(()) = steps.reserve(1) else {
            return Err(Fault::Memory);
        };
        self.is_due();
        let reply = self.serve(rt, Request::Step(examiner, ask));
        match answer_in(reply) {
            Ok(answer) => {
                steps.push_reserved(Step {
                    ask: copied,
                    answer,
                });
                Ok(())
            }
            Err(why) => Err(why),
        }
    }

    // Asks for a step of the slip's transaction.
    pub(crate) fn step_of<R: Wait>(
        &mut self,
        rt: &R,
        slip: &mut Slip<B>,
        ask: Ask,
    ) -> Result<(), Fault>
        ensures answered { MatchResult result (λ _. Answers B.setting slip.old ask slip.new)
            (λ why. Refuses B.setting slip.old ask slip.new why) }
        ensures stands { OnOk result (Stands slip.new self.new) }
    {
        self.is_due();
        if let Err(why) = self.standing(slip) {
            return Err(why);
        }
        let (examiner, receipt) = (slip.examiner(), self.receipt(slip.seat()));
        let Ok(mut steps) = slip.take_steps(self.alloc) else {
            return Err(Fault::Memory);
        };
        let answer = self.add_step(rt, examiner, ask, &mut steps);
        slip.put_steps(steps);
        if let Err(why) = answer {
            return Err(why);
        }
        slip.see(receipt);
        Ok(())
    }

    // Commits the slip's transaction.
    pub(crate) fn commit_of<R: Wait>(
        &mut self,
        rt: &R,
        slip: Slip<B>,
    ) -> Result<Done<B>, (Slip<B>, Fault)>
        ensures committed { MatchResult result (λ done. Commits B.setting slip done.place done.rec done.receipt done.seat)
            (λ e. (e.0 ≡ slip) × IsRefused B.setting (Stands slip) (request.Commit slip.seat.examiner) e.1) }
        ensures shut { OnOk result (is_open slip.seat.examiner self.new ≡ false) }
    {
        self.is_due();
        if let Err(why) = self.standing(&slip) {
            return Err((slip, why));
        }
        let reply = self.serve(rt, Request::Commit(slip.examiner()));
        if let Some(why) = refusal(&reply) {
            return Err((slip, why));
        }
        let receipt = self.receipt(slip.seat());
        Ok(slip.committed(receipt))
    }

    // Aborts the slip's transaction, where it is open.
    pub(crate) fn abort_of<R: Wait>(
        &mut self,
        rt: &R,
        slip: Slip<B>,
    ) -> Result<(Seat<B>, bool), (Slip<B>, Fault)>
        ensures aborted { MatchResult result (λ back. Aborts B.setting slip back.0 back.1)
            (λ e. (e.0 ≡ slip) × (e.1 ≡ fault.Stranger)) }
        ensures shut { OnOk result (is_open slip.seat.examiner self.new ≡ false) }
    {
        self.is_due();
        match self.standing(&slip) {
            Ok(()) => {
                self.serve(rt, Request::Abort(slip.examiner()));
                Ok((slip.into_seat(), true))
            }
            Err(Fault::Denied(Denial::NotOpen)) => Ok((slip.into_seat(), false)),
            Err(_) => Err((slip, Fault::Stranger)),
        }
    }
}
