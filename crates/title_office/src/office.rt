//! The office's calls.

ghost use Rattle.std.specs.Prelude.{◌≡◌, ◌≢◌, MatchResult, OnErr, OnOk, IfErr, false};
ghost use Rattle.title_chain.specs.declared.ask.Ask.TheVariants.{Sheet, Chain, Post};
ghost use Rattle.title_trace.specs.declared.call.Request.TheVariants as request;
ghost use Rattle.title_office.specs.declared.fault.Fault.TheVariants as fault;
ghost use Rattle.title_office.specs.Offices.{Aborts, Answers, Begins, Commits, HasSeen, IsRefused, Refuses, Stands, Sweeps};

use crate::books::Books;
use crate::fault::Fault;
use crate::seat::Seat;
use crate::slip::Slip;
use std::marker::Model;
use std::sync::{Mutex, MutexGuard, Wait};
use title_chain::{Ask, Posting, Record};
use title_land::Tract;
use title_ledger::Room;
use title_trace::Reply;
use title_views::Receipt;

/// One desk behind a lock. A contract sees its number, by which it tells its own seats and slips from those of another office with
/// the same parameter. It isn't let go but by `settle` and `close`.
pub struct Office<B: Room> {
    pub(crate) number: u64,
    pub(crate) books: Mutex<Books<B>>,
}

impl<B: Room> Model for Office<B> {
    ghost use Rattle.std.specs.Prelude.{ℕ};

    ghost Value = { ℕ };

    ghost view = { λ o. o.number };
}

/// A commit: the place of the record, from 1, the record, the receipt of the records up to it, and the seat, which has seen them.
#[derive(Drop)]
pub struct Done<B: Room> {
    pub place: u64,
    pub rec: Record,
    pub receipt: Receipt<B>,
    pub seat: Seat<B>,
}

impl<B: Room> Office<B> {
    /// Opens a transaction. Faults: Stranger, AlreadyOpen, Memory; the seat comes back as it was.
    pub fn begin<R: Wait>(&self, rt: &R, seat: Seat<B>) -> Result<Slip<B>, (Seat<B>, Fault)>
        ensures begun { MatchResult result (λ slip. Begins B.setting seat slip)
            (λ e. (e.0 ≡ seat) × IsRefused B.setting (HasSeen seat) (request.Begin seat.examiner) e.1) }
        ensures own { OnOk result (seat.number ≡ self.now) }
    {
        if seat.number != self.number {
            return Err((seat, Fault::Stranger));
        }
        let mut books = self.books.lock(rt);
        let answer = books.begin_of(rt, seat);
        MutexGuard::unlock(books);
        answer
    }

    // A step of the slip's transaction.
    fn step<R: Wait>(&self, rt: &R, slip: &mut Slip<B>, ask: Ask) -> Result<(), Fault>
        ensures answered { MatchResult result (λ _. Answers B.setting slip.old ask slip.new)
            (λ why. Refuses B.setting slip.old ask slip.new why) }
        ensures own { OnOk result (slip.old.seat.number ≡ self.now) }
    {
        if slip.seat.number != self.number {
            return Err(Fault::Stranger);
        }
        let mut books = self.books.lock(rt);
        let answer = books.step_of(rt, slip, ask);
        MutexGuard::unlock(books);
        answer
    }

    /// Asks for a tract's sheet. Faults in their order: Stranger by the number, NotOpen, Stranger by the steps or by the records seen,
    /// NoSuchTownship, TooLong, Conflict; Memory in place of any but the first three. After a fault the slip is as it was.
    pub fn sheet<R: Wait>(&self, rt: &R, slip: &mut Slip<B>, tract: Tract) -> Result<(), Fault>
        ensures answered { MatchResult result (λ _. Answers B.setting slip.old (Sheet tract) slip.new)
            (λ why. Refuses B.setting slip.old (Sheet tract) slip.new why) }
        ensures own { OnOk result (slip.old.seat.number ≡ self.now) }
    {
        self.step(rt, slip, Ask::Sheet(tract))
    }

    /// Asks for a tract's chain. Faults as those of `sheet`.
    pub fn chain<R: Wait>(&self, rt: &R, slip: &mut Slip<B>, tract: Tract) -> Result<(), Fault>
        ensures answered { MatchResult result (λ _. Answers B.setting slip.old (Chain tract) slip.new)
            (λ why. Refuses B.setting slip.old (Chain tract) slip.new why) }
        ensures own { OnOk result (slip.old.seat.number ≡ self.now) }
    {
        self.step(rt, slip, Ask::Chain(tract))
    }

    /// Posts an instrument; a rule's refusal is an answer. Faults as those of `sheet`, and Invalid behind NoSuchTownship.
    pub fn post<R: Wait>(&self, rt: &R, slip: &mut Slip<B>, posting: Posting) -> Result<(), Fault>
        ensures answered { MatchResult result (λ _. Answers B.setting slip.old (Post posting) slip.new)
            (λ why. Refuses B.setting slip.old (Post posting) slip.new why) }
        ensures own { OnOk result (slip.old.seat.number ≡ self.now) }
    {
        self.step(rt, slip, Ask::Post(posting))
    }

    /// Commits the transaction. Faults in their order: Stranger by the number, NotOpen, Stranger by the steps or by the records seen,
    /// Memory; the slip comes back as it was.
    pub fn commit<R: Wait>(&self, rt: &R, slip: Slip<B>) -> Result<Done<B>, (Slip<B>, Fault)>
        ensures committed { MatchResult result (λ done. Commits B.setting slip done.place done.rec done.receipt done.seat)
            (λ e. (e.0 ≡ slip) × IsRefused B.setting (Stands slip) (request.Commit slip.seat.examiner) e.1) }
        ensures own { OnOk result (slip.seat.number ≡ self.now) }
    {
        if slip.seat.number != self.number {
            return Err((slip, Fault::Stranger));
        }
        let mut books = self.books.lock(rt);
        let answer = books.commit_of(rt, slip);
        MutexGuard::unlock(books);
        answer
    }

    /// Aborts the transaction and gives the seat back; false where it isn't open, as after a sweep. Takes no memory. The only fault
    /// is Stranger: by the number, or, where the examiner has a transaction open, by the steps or by the records seen.
    pub fn abort<R: Wait>(&self, rt: &R, slip: Slip<B>) -> Result<(Seat<B>, bool), (Slip<B>, Fault)>
        ensures aborted { MatchResult result (λ back. Aborts B.setting slip back.0 back.1)
            (λ e. (e.0 ≡ slip) × (e.1 ≡ fault.Stranger)) }
        ensures own { OnOk result (slip.seat.number ≡ self.now) }
    {
        if slip.seat.number != self.number {
            return Err((slip, Fault::Stranger));
        }
        let mut books = self.books.lock(rt);
        let answer = books.abort_of(rt, slip);
        MutexGuard::unlock(books);
        answer
    }

    /// Aborts for an examiner who is gone: Aborted, or NotOpen where it has no transaction open. Takes no memory.
    pub fn sweep<R: Wait>(&self, rt: &R, examiner: u32) -> Reply
        ensures swept { Sweeps B.setting examiner result }
    {
        let mut books = self.books.lock(rt);
        let reply = books.sweep(rt, examiner);
        MutexGuard::unlock(books);
        reply
    }

    /// Ends the office: its viewers show nothing from then on. It may wait for them; takes no memory.
    pub fn close<R: Wait>(self, rt: &R) {
        let Office { number: _, books } = self;
        books.into_inner().close(rt);
    }
}
