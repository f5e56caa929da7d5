//! Slips.

ghost use Rattle.std.specs.Prelude.{◌≡◌, [], IfOk, OnErr, OnOk, length, option_map};
ghost use Rattle.title_office.specs.Offices.{last_answer, having_seen, with_steps};

use crate::office::Done;
use crate::seat::Seat;
use std::alloc::{AllocError, Global};
use std::marker::Model;
use std::mem::replace;
use title_chain::{Answer, Record, Step, Steps};
use title_ledger::Room;
use title_views::Receipt;

/// An open transaction: the seat that it was begun from, its steps so far, and the receipt of what its last answer stands on.
#[derive(Drop)]
pub struct Slip<B: Room> {
    pub(crate) seat: Seat<B>,
    pub(crate) rec: Record,
    pub(crate) receipt: Receipt<B>,
}

impl<B: Room> Model for Slip<B> {
    ghost use Rattle.std.specs.Prelude.{◌≡◌};
    ghost use Rattle.title_office.specs.Offices.{SlipState};

    ghost Value = { SlipState };

    ghost view = { λ s. record { seat = s.seat; rec = s.rec; receipt = s.receipt } };

    ghost invariant = { λ s. s.rec.examiner ≡ s.seat.examiner };
}

impl<B: Room> Slip<B> {
    /// The steps that were answered, in order.
    pub fn record(&self) -> &Record
        ensures steps { result.now ≡ self.now.rec }
    {
        &self.rec
    }

    /// The answer to the last step; `None` before the first.
    pub fn last(&self) -> Option<&Answer>
        ensures last { option_map (λ answer. answer.now) result ≡ last_answer self.now.rec.steps }
    {
        let step = self.rec.steps.as_slice().last()?;
        Some(&step.answer)
    }

    /// The receipt of the records that were committed when its last call was answered. Takes no memory.
    pub fn receipt(&self) -> &Receipt<B>
        ensures receipt { result.now ≡ self.now.receipt }
    {
        &self.receipt
    }

    // The examiner whose transaction it is.
    pub(crate) fn examiner(&self) -> u32
        ensures examiner { result ≡ self.now.seat.examiner }
        ensures own { result ≡ self.now.rec.examiner }
    {
        self.rec.examiner
    }

    // The seat that it was begun from.
    pub(crate) fn seat(&self) -> &Seat<B>
        ensures seat { result.now ≡ self.now.seat }
    {
        &self.seat
    }

    // Takes the steps out. `Err` changes nothing.
    pub(crate) fn take_steps(&mut self, alloc: Global) -> Result<Vec<Step>, AllocError>
        ensures taken { IfOk result (λ steps. steps.items ≡ self.old.rec.steps) }
        ensures left { OnOk result (self.new ≡ with_steps self.old []) }
        ensures err { OnErr result (self.new ≡ self.old) }
    {
        match replace(&mut self.rec.steps, Steps::empty(alloc)).into_vec(alloc) {
            Ok(steps) => Ok(steps),
            Err(steps) => {
                self.rec.steps = steps;
                Err(AllocError)
            }
        }
    }

    // Puts steps in the place of those that it has.
    pub(crate) fn put_steps(&mut self, steps: Vec<Step>)
        ensures put { self.new ≡ with_steps self.old steps.items }
    {
        self.rec.steps = Steps::new(steps);
    }

    // Takes a receipt, whose records its seat has then seen.
    pub(crate) fn see(&mut self, receipt: Receipt<B>)
        ensures seen { self.new ≡ having_seen self.old receipt }
    {
        self.seat.seen = receipt.place();
        self.receipt = receipt;
    }

    // What comes of a commit with this receipt.
    pub(crate) fn committed(self, receipt: Receipt<B>) -> Done<B>
        ensures place { result.place ≡ length receipt.front }
        ensures rec { result.rec ≡ self.rec }
        ensures receipt { result.receipt ≡ receipt }
        ensures seat { result.seat ≡ record self.seat { seen = length receipt.front } }
    {
        let Slip {
            seat,
            rec,
            receipt: _,
        } = self;
        let place = receipt.place();
        Done {
            place,
            rec,
            receipt,
            seat: seat.having_seen(place),
        }
    }

    // The seat that it was begun from, by value.
    pub(crate) fn into_seat(self) -> Seat<B>
        ensures seat { result ≡ self.seat }
    {
        let Slip {
            seat,
            rec: _,
            receipt: _,
        } = self;
        seat
    }
}
