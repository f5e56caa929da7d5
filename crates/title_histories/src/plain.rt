//! The plain machine: a desk over cells and over a list of locks, at which one transaction is open at a time.

use std::alloc::{AllocError, Global};
use std::fmt::{Display, Error, Formatter, Write};
use title_cell_store::CellStore;
use title_chain::{Answer, Ask, Record, Step};
use title_chance::PARTIES;
use title_desk::{Desk, may_open};
use title_land::Township;
use title_lock::RowLocks;
use title_settle::Outcome;
use title_trace::{Reply, Request};

/// Where a history and the plain machine disagree first: a step, from 1, of the transaction at a place, or that a place has
/// no transaction or more than one.
#[derive(Clone, Copy)]
pub enum Disagreement {
    Step(u64, u64),
    Place(u64),
}

/// Where a history and the plain machine disagree first, if they do.
pub type Found = Result<Option<Disagreement>, AllocError>;

/// A plain machine.
pub struct Plain {
    alloc: Global,
    desk: Desk<CellStore, RowLocks>,
}

// By hand, so that whoever lets one go sees one call.
impl Drop for Plain {
    fn drop(self) {
        let Plain { alloc: _, desk } = self;
        drop(desk);
    }
}

impl Display for Disagreement {
    fn fmt<W: Write>(&self, f: &mut Formatter<W>) -> Result<(), Error> {
        match self {
            Disagreement::Step(place, step) => write!(f, "place {place}, step {step} disagrees"),
            Disagreement::Place(place) => write!(f, "place {place} has not one transaction"),
        }
    }
}

// Whether a step was answered so.
fn is_same(alloc: Global, step: &Step, answer: Answer) -> Result<bool, AllocError> {
    let ask = step.ask.copy(alloc)?;
    Ok(Step { ask, answer }.same(step))
}

impl Plain {
    /// A machine that has run nothing; an error also where no desk opens for these townships.
    pub fn new(alloc: Global, townships: &[Township]) -> Result<Plain, AllocError> {
        if !may_open(PARTIES, townships) {
            return Err(AllocError);
        }
        let desk = Desk::open(alloc, PARTIES, townships)?;
        Ok(Plain { alloc, desk })
    }

    /// Serves a request.
    pub fn serve(&mut self, request: Request) -> Reply {
        self.desk.serve(request)
    }

    /// The transactions that it has committed, in order.
    pub fn records(&self) -> &[Record] {
        self.desk.records()
    }

    fn reply_to(&mut self, examiner: u32, ask: &Ask) -> Result<Reply, AllocError> {
        let ask = ask.copy(self.alloc)?;
        Ok(self.desk.serve(Request::Step(examiner, ask)))
    }

    // Whether it answers a step alike.
    fn agrees(&mut self, examiner: u32, step: &Step) -> Result<bool, AllocError> {
        match self.reply_to(examiner, &step.ask)? {
            Reply::Answered(answer) => is_same(self.alloc, step, answer),
            Reply::Memory => Err(AllocError),
            _ => Ok(false),
        }
    }

    // The first step of a transaction that it answers otherwise, from 1.
    fn first_step(&mut self, record: &Record) -> Result<Option<u64>, AllocError> {
        let mut number = 0u64;
        for step in record.steps.as_slice() {
            number = number.saturating_add(1);
            if !self.agrees(record.examiner, step)? {
                return Ok(Some(number));
            }
        }
        Ok(None)
    }

    // Commits the transaction at a place.
    fn commit(&mut self, place: u64, examiner: u32) -> Found {
        match self.desk.serve(Request::Commit(examiner)) {
            Reply::Committed(told) if told == place => Ok(None),
            Reply::Memory => Err(AllocError),
            _ => Ok(Some(Disagreement::Place(place))),
        }
    }

    // Runs the transaction at a place.
    fn run(&mut self, place: u64, record: &Record) -> Found {
        self.desk.serve(Request::Begin(record.examiner));
        match self.first_step(record)? {
            Some(step) => Ok(Some(Disagreement::Step(place, step))),
            None => self.commit(place, record.examiner),
        }
    }

    // Runs the transactions of a history, each at its place from 1, and tells the first disagreement.
    fn check(&mut self, history: &[Outcome]) -> Found {
        for index in 0..history.len() {
            let place = (index as u64).saturating_add(1);
            let Some(outcome) = history.iter().find(|outcome| outcome.place == place) else {
                return Ok(Some(Disagreement::Place(place)));
            };
            let found = self.run(place, &outcome.rec)?;
            if found.is_some() {
                return Ok(found);
            }
        }
        Ok(None)
    }
}

/// Runs a history on a new machine.
pub fn check(alloc: Global, townships: &[Township], history: &[Outcome]) -> Found {
    Plain::new(alloc, townships)?.check(history)
}
