//! Receipts.

ghost use Rattle.std.specs.Prelude.{◌≡◌, length};
ghost use Rattle.title_ledger.specs.Ledgers.{AreSerial, sure_of, IsSettled};

use std::marker::Model;
use title_ledger::{Front, Room};

/// What an answer of an office stands on. A contract sees the office's number and the records that were committed.
#[derive(Drop)]
pub struct Receipt<B: Room> {
    pub(crate) number: u64,
    pub(crate) place: u64,
    pub(crate) front: Front<B>,
}

impl<B: Room> Model for Receipt<B> {
    ghost use Rattle.std.specs.Prelude.{◌≡◌, length};
    ghost use Rattle.title_ledger.specs.Ledgers.{sure_of, IsSettled};
    ghost use Rattle.title_views.specs.Views.{Shows};

    ghost Value = { Shows };

    ghost view = { λ r. record { number = r.number; front = sure_of r.front } };

    ghost invariant = { λ r. IsSettled r.front × (r.place ≡ length (sure_of r.front)) };
}

impl<B: Room> Receipt<B> {
    pub(crate) fn new(number: u64, place: u64, front: Front<B>) -> Receipt<B>
        requires settled { IsSettled front }
        requires place { place ≡ length (sure_of front) }
        ensures new { result ≡ record { number = number; front = sure_of front } }
    {
        Receipt {
            number,
            place,
            front,
        }
    }

    /// How many records were committed: for a commit the place of its record.
    pub fn place(&self) -> u64
        ensures place { result ≡ length self.now.front }
    {
        self.place
    }

    /// The records are serial. It does nothing: its type says so, and a proof may cite it.
    pub fn is_serial(&self)
        ensures serial { AreSerial B.setting.townships self.now.front }
    {
        self.front.serial();
    }
}
