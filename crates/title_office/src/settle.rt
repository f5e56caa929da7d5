//! The settling of an office.

ghost use Rattle.std.specs.Prelude.{◌≡◌, MatchResult};
ghost use Rattle.title_office.specs.Offices.{IsUnsettled, Settles};

use crate::books::Books;
use crate::office::Office;
use std::marker::Model;
use std::sync::{Mutex, Wait};
use title_chain::Records;
use title_ledger::Room;
use title_settle::{Outcome, Unsettled, compare};
use title_views::Fronts;

/// A settled office: its committed records, in the order of their commits. Its viewers still show them. It isn't let go but by `close`.
pub struct Settled<B: Room> {
    pub records: Records,
    fronts: Fronts<B>,
}

impl<B: Room> Settled<B> {
    /// Ends the office, and gives its records: its viewers show nothing from then on. It may wait for them; takes no memory.
    pub fn close<R: Wait>(self, rt: &R) -> Records
        ensures records { result ≡ self.records }
    {
        let Settled { records, fronts } = self;
        fronts.close(rt);
        records
    }
}

impl<B: Room> Books<B> {
    // The records, where nobody has a transaction open and the outcomes are these records.
    fn settled(&self, outcomes: &[Outcome]) -> Result<Records, Unsettled>
        ensures settled { MatchResult result (λ records. Settles B.setting outcomes.now records)
            (λ why. IsUnsettled B.setting outcomes.now why) }
    {
        if let Some(examiner) = self.desk.first_open() {
            return Err(Unsettled::Open(examiner));
        }
        let records = self.desk.records();
        if let Err(why) = compare(self.alloc, records, outcomes) {
            return Err(why);
        }
        match Records::copy_of(self.alloc, records) {
            Ok(records) => Ok(records),
            Err(_) => Err(Unsettled::Memory),
        }
    }
}

impl<B: Room> Office<B> {
    /// Ends the office where nobody has a transaction open and the outcomes are its records, each once, each with its place. Else office
    /// and outcomes come back, with the first reason in this order: Open of the least examiner; Unknown of the least place that no
    /// record has; at the least place at fault Missing, Doubled or Different; Memory in place of any.
    pub fn settle(
        self,
        outcomes: Vec<Outcome>,
    ) -> Result<Settled<B>, (Office<B>, Vec<Outcome>, Unsettled)>
        ensures settled { MatchResult result (λ done. Settles B.setting outcomes.items done.records)
            (λ e. (e.0 ≡ self) × (e.1 ≡ outcomes) × IsUnsettled B.setting outcomes.items e.2) }
    {
        let Office { number, books } = self;
        let books = books.into_inner();
        match books.settled(&outcomes) {
            Ok(records) => {
                let Books {
                    alloc: _,
                    desk: _,
                    fronts,
                } = books;
                Ok(Settled { records, fronts })
            }
            Err(why) => {
                let books = Mutex::new(books);
                Err((Office { number, books }, outcomes, why))
            }
        }
    }
}
