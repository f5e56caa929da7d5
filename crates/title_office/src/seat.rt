//! Seats.

ghost use Rattle.std.specs.Prelude.{◌≡◌, [], length};

use crate::slip::Slip;
use std::alloc::Global;
use std::marker::{Model, PhantomData};
use title_chain::{Record, Steps};
use title_ledger::Room;
use title_views::Receipt;

/// The right of one examiner to open a transaction at one office. It knows how many records its examiner has seen committed.
#[derive(Drop)]
pub struct Seat<B: Room> {
    pub(crate) number: u64,
    pub(crate) examiner: u32,
    pub(crate) seen: u64,
    pub(crate) of: PhantomData<B>,
}

impl<B: Room> Model for Seat<B> {
    ghost use Rattle.title_office.specs.Offices.{SeatState};

    ghost Value = { SeatState };

    ghost view = { λ s. record { number = s.number; examiner = s.examiner; seen = s.seen } };
}

impl<B: Room> Seat<B> {
    /// The examiner whose seat it is.
    pub fn examiner(&self) -> u32
        ensures examiner { result ≡ self.now.examiner }
    {
        self.examiner
    }

    // The seat of an examiner who has seen no record.
    pub(crate) fn new(number: u64, examiner: u32) -> Seat<B>
        ensures new { result ≡ record { number = number; examiner = examiner; seen = 0 } }
    {
        Seat {
            number,
            examiner,
            seen: 0,
            of: PhantomData,
        }
    }

    // The slip of a transaction begun from this seat, which has seen the records of a receipt.
    pub(crate) fn opened(self, alloc: Global, receipt: Receipt<B>) -> Slip<B>
        ensures opened { result ≡ record {
          seat = record self { seen = length receipt.front };
          rec = record { examiner = self.examiner; steps = [] };
          receipt = receipt;
        } }
    {
        let rec = Record {
            examiner: self.examiner,
            steps: Steps::empty(alloc),
        };
        Slip {
            seat: self.having_seen(receipt.place()),
            rec,
            receipt,
        }
    }

    // The seat, having seen so many records.
    pub(crate) fn having_seen(self, seen: u64) -> Seat<B>
        ensures seen { result ≡ record self { seen = seen } }
    {
        Seat { seen, ..self }
    }
}
