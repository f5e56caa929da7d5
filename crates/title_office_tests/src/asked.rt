//! What the tests ask of an office and its viewers. A test of a type parameter is much cheaper to prove than one of the office itself,
//! whose fields are walked for each function that names it: so these calls name it, and the tests speak of an `Asked`.

use std::process::Abort;
use std::sync::Wait;
use title_chain::{Answer, Posting, Record, Records};
use title_land::Tract;
use title_office::{
    Done, Fault, Office, Outcome, Room, Seat, Seen, Settled, Slip, Unseen, Unsettled, Viewer,
};
use title_trace::{Denial, Reply};

/// A viewer.
pub trait Shows {
    fn sheet_of(&mut self, tract: &Tract) -> Result<Seen, Unseen>;

    fn record_at(&mut self, place: u64) -> Result<Option<Record>, Unseen>;
}

/// An office. What it doesn't do as its call says stops the test.
pub trait Asked {
    type Seat: Drop;

    type Slip: Drop;

    type Done: Drop;

    type Viewer: Shows + Drop;

    type Settled;

    /// A seat's transaction.
    fn begun<R: Wait + Abort>(&self, rt: &R, seat: Self::Seat) -> Self::Slip;

    fn posted<R: Wait>(&self, rt: &R, slip: &mut Self::Slip, posting: Posting) -> Result<(), Fault>;

    fn asked_sheet<R: Wait>(
        &self,
        rt: &R,
        slip: &mut Self::Slip,
        tract: Tract,
    ) -> Result<(), Fault>;

    fn asked_chain<R: Wait>(
        &self,
        rt: &R,
        slip: &mut Self::Slip,
        tract: Tract,
    ) -> Result<(), Fault>;

    /// The answer to a slip's last step.
    fn answer(slip: &Self::Slip) -> Option<&Answer>;

    /// How many records a slip has seen.
    fn seen(slip: &Self::Slip) -> u64;

    /// A slip's commit.
    fn committed<R: Wait + Abort>(&self, rt: &R, slip: Self::Slip) -> Self::Done;

    /// The place of a commit.
    fn place(done: &Self::Done) -> u64;

    /// The place that the receipt of a commit tells.
    fn receipt_place(done: &Self::Done) -> u64;

    /// The outcome of a commit, and the seat.
    fn outcome(done: Self::Done) -> (Outcome, Self::Seat);

    /// A viewer learns of a commit.
    fn learnt(viewer: &mut Self::Viewer, done: &Self::Done) -> Result<(), Unseen>;

    /// A slip that isn't committed, and why.
    fn refused<R: Wait + Abort>(&self, rt: &R, slip: Self::Slip) -> (Self::Slip, Fault);

    /// The seat of a slip that is aborted, and whether the slip was open.
    fn aborted<R: Wait + Abort>(&self, rt: &R, slip: Self::Slip) -> (Self::Seat, bool);

    /// Sweeps an examiner: whether it had a transaction open.
    fn swept<R: Wait + Abort>(&self, rt: &R, examiner: u32) -> bool;

    /// The office, once it is settled with these outcomes.
    fn settled<R: Abort>(self, rt: &R, outcomes: Vec<Outcome>) -> Self::Settled;

    /// An office that can't be settled with these outcomes: it comes back, with how many outcomes came back and the reason.
    fn unsettled<R: Abort>(self, rt: &R, outcomes: Vec<Outcome>) -> (Self, usize, Unsettled);

    /// The records of a settled office, which is closed.
    fn records<R: Wait>(settled: Self::Settled, rt: &R) -> Records;

    fn closed<R: Wait>(self, rt: &R);
}

impl<B: Room> Shows for Viewer<B> {
    fn sheet_of(&mut self, tract: &Tract) -> Result<Seen, Unseen> {
        self.sheet(tract)
    }

    fn record_at(&mut self, place: u64) -> Result<Option<Record>, Unseen> {
        self.record(place)
    }
}

impl<B: Room> Asked for Office<B> {
    type Seat = Seat<B>;

    type Slip = Slip<B>;

    type Done = Done<B>;

    type Viewer = Viewer<B>;

    type Settled = Settled<B>;

    fn begun<R: Wait + Abort>(&self, rt: &R, seat: Seat<B>) -> Slip<B> {
        match self.begin(rt, seat) {
            Ok(slip) => slip,
            Err(_) => panic!(rt; "the seat begins"),
        }
    }

    fn posted<R: Wait>(&self, rt: &R, slip: &mut Slip<B>, posting: Posting) -> Result<(), Fault> {
        self.post(rt, slip, posting)
    }

    fn asked_sheet<R: Wait>(&self, rt: &R, slip: &mut Slip<B>, tract: Tract) -> Result<(), Fault> {
        self.sheet(rt, slip, tract)
    }

    fn asked_chain<R: Wait>(&self, rt: &R, slip: &mut Slip<B>, tract: Tract) -> Result<(), Fault> {
        self.chain(rt, slip, tract)
    }

    fn answer(slip: &Slip<B>) -> Option<&Answer> {
        slip.last()
    }

    fn seen(slip: &Slip<B>) -> u64 {
        slip.receipt().place()
    }

    fn committed<R: Wait + Abort>(&self, rt: &R, slip: Slip<B>) -> Done<B> {
        match self.commit(rt, slip) {
            Ok(done) => done,
            Err(_) => panic!(rt; "the slip commits"),
        }
    }

    fn place(done: &Done<B>) -> u64 {
        done.place
    }

    fn receipt_place(done: &Done<B>) -> u64 {
        done.receipt.place()
    }

    fn outcome(done: Done<B>) -> (Outcome, Seat<B>) {
        let Done {
            place,
            rec,
            seat,
            ..
        } = done;
        (Outcome { place, rec }, seat)
    }

    fn learnt(viewer: &mut Viewer<B>, done: &Done<B>) -> Result<(), Unseen> {
        viewer.learn(&done.receipt)
    }

    fn refused<R: Wait + Abort>(&self, rt: &R, slip: Slip<B>) -> (Slip<B>, Fault) {
        match self.commit(rt, slip) {
            Ok(_) => panic!(rt; "the slip isn't committed"),
            Err(back) => back,
        }
    }

    fn aborted<R: Wait + Abort>(&self, rt: &R, slip: Slip<B>) -> (Seat<B>, bool) {
        match self.abort(rt, slip) {
            Ok(back) => back,
            Err(_) => panic!(rt; "the office takes the slip"),
        }
    }

    fn swept<R: Wait + Abort>(&self, rt: &R, examiner: u32) -> bool {
        match self.sweep(rt, examiner) {
            Reply::Aborted => true,
            Reply::Denied(Denial::NotOpen) => false,
            _ => panic!(rt; "a sweep aborts, or finds nothing open"),
        }
    }

    fn settled<R: Abort>(self, rt: &R, outcomes: Vec<Outcome>) -> Settled<B> {
        match self.settle(outcomes) {
            Ok(settled) => settled,
            Err(_) => panic!(rt; "the office is settled"),
        }
    }

    fn unsettled<R: Abort>(self, rt: &R, outcomes: Vec<Outcome>) -> (Office<B>, usize, Unsettled) {
        match self.settle(outcomes) {
            Ok(_) => panic!(rt; "the office isn't settled"),
            Err((office, back, why)) => (office, back.len(), why),
        }
    }

    fn records<R: Wait>(settled: Settled<B>, rt: &R) -> Records {
        settled.close(rt)
    }

    fn closed<R: Wait>(self, rt: &R) {
        self.close(rt);
    }
}
