//! An office's calls, each made again at once where it wants memory.

use crate::deeds::{Sale, Wish};
use crate::telling::{tell_answer, tell_reply};
use crate::viewing;
use crate::wanted::Wanted;
use anyhow::{Result, bail};
use std::alloc::{AllocError, Global};
use std::fmt::Display;
use std::sync::Wait;
use title_chain::{Ask, Record, Records};
use title_ledger::Room;
use title_office::{Done, Fault, Office, Outcome, Receipt, Seat, Slip, Unsettled, Viewer};
use title_trace::Reply;

/// Who asks an office, and tells what it answers.
#[derive(Drop)]
pub struct Asker<'a, B: Room, R: Wait + Print> {
    pub rt: &'a R,
    pub alloc: Global,
    pub office: &'a Office<B>,
}

/// What an examiner has of an office: its seat, the slip of its transaction, or what its commit came to.
pub struct Examiner<B: Room> {
    pub seat: Option<Seat<B>>,
    pub slip: Option<Slip<B>>,
    pub done: Option<Done<B>>,
}

// By hand, so that whoever lets one go sees one call.
impl<B: Room> Drop for Examiner<B> {
    fn drop(self) {
        let Examiner { seat, slip, done } = self;
        drop(seat);
        drop(slip);
        drop(done);
    }
}

// What shows that a transaction isn't committed yet: how many records a viewer shows, and that the slip has its steps.
#[derive(Clone, Copy)]
struct Before {
    front: u64,
    is_as_it_was: bool,
}

// Puts what an office gave where it belongs, or puts back what it didn't take.
fn put<T: Drop, E: Drop>(
    answer: Result<T, (E, Fault)>,
    given: &mut Option<T>,
    back: &mut Option<E>,
) -> Result<(), Fault> {
    match answer {
        Ok(value) => {
            *given = Some(value);
            Ok(())
        }
        Err((value, why)) => {
            *back = Some(value);
            Err(why)
        }
    }
}

// Puts back the seat of a transaction that is aborted: whether it was open.
fn put_back<T: Drop, E: Drop>(answer: Result<(T, bool), E>, seat: &mut Option<T>) -> Result<bool> {
    match answer {
        Ok((value, was_open)) => {
            *seat = Some(value);
            Ok(was_open)
        }
        Err(_) => bail!("a slip isn't aborted"),
    }
}

// Tells what an examiner has done.
fn tell(rt: &impl Print, examiner: u32, what: impl Display + Drop) -> Result<()> {
    println!(rt; "{examiner},{what}")?;
    Ok(())
}

// A copy of a slip's record.
fn record_of<B: Room>(
    slip: &Slip<B>,
    alloc: Global,
    wanted: &mut Wanted,
) -> Result<Record, AllocError> {
    wanted.again(|| slip.record().copy(alloc))
}

// Looks at an examiner's slip and a viewer before a commit.
fn look<B: Room>(
    mine: &Examiner<B>,
    kept: &Record,
    viewer: &mut Viewer<B>,
    alloc: Global,
    wanted: &mut Wanted,
) -> Result<Before> {
    let front = viewing::front(viewer, alloc, wanted)?;
    let is_as_it_was = match &mine.slip {
        Some(slip) => slip.record().same(kept),
        None => false,
    };
    Ok(Before {
        front,
        is_as_it_was,
    })
}

fn tell_before(rt: &impl Print, before: Before) -> Result<()> {
    println!(rt;
        "before the commit: front {}, the slip as it was: {}",
        before.front, before.is_as_it_was
    )?;
    Ok(())
}

impl<B: Room> Examiner<B> {
    /// Who has a seat, or none.
    pub fn new(seat: Option<Seat<B>>) -> Examiner<B> {
        Examiner {
            seat,
            slip: None,
            done: None,
        }
    }

    /// Whose seat or slip it has.
    pub fn number(&self) -> u32 {
        if let Some(seat) = &self.seat {
            return seat.examiner();
        }
        match &self.slip {
            Some(slip) => slip.record().examiner,
            None => 0,
        }
    }

    // A copy of its slip's record.
    fn record(&self, alloc: Global, wanted: &mut Wanted) -> Result<Record> {
        match &self.slip {
            Some(slip) => Ok(record_of(slip, alloc, wanted)?),
            None => bail!("no transaction is open"),
        }
    }

    // Tells the place of its commit.
    fn tell_place(&self, rt: &impl Print) -> Result<()> {
        match &self.done {
            Some(done) => tell(
                rt,
                done.seat.examiner(),
                format_args!("committed,{}", done.place),
            ),
            None => bail!("nothing is committed"),
        }
    }

    /// A viewer learns of its commit.
    pub fn teach(&self, rt: &impl Print, viewer: &mut Viewer<B>) -> Result<()> {
        match &self.done {
            Some(done) => learn(rt, viewer, &done.receipt),
            None => bail!("nothing is committed"),
        }
    }

    /// Adds the outcome of its commit, and has its seat again.
    pub fn keep(&mut self, outcomes: &mut Vec<Outcome>) -> Result<()> {
        match self.done.take() {
            Some(done) => Ok(keep(done, &mut self.seat, outcomes)?),
            None => bail!("nothing is committed"),
        }
    }
}

// A viewer learns of a commit.
fn learn<B: Room>(rt: &impl Print, viewer: &mut Viewer<B>, receipt: &Receipt<B>) -> Result<()> {
    viewer.learn(receipt)?;
    println!(rt; "viewer: learnt of {}", receipt.place())?;
    Ok(())
}

// Adds the outcome of a commit, and puts its seat back.
fn keep<B: Room>(
    done: Done<B>,
    back: &mut Option<Seat<B>>,
    outcomes: &mut Vec<Outcome>,
) -> Result<(), AllocError> {
    let Done {
        place,
        rec,
        seat,
        ..
    } = done;
    *back = Some(seat);
    add_outcome(outcomes, Outcome { place, rec })
}

impl<B: Room, R: Wait + Print> Asker<'_, B, R> {
    // Begins a transaction; a stranger is who has no seat.
    fn begin_once(&self, mine: &mut Examiner<B>) -> Result<(), Fault> {
        let Some(seat) = mine.seat.take() else {
            return Err(Fault::Stranger);
        };
        let answer = self.office.begin(self.rt, seat);
        put(answer, &mut mine.slip, &mut mine.seat)
    }

    /// Begins a transaction, and tells nothing.
    pub fn begin_again(&self, mine: &mut Examiner<B>, wanted: &mut Wanted) -> Result<(), Fault> {
        match self.begin_once(mine) {
            Err(Fault::Memory) => {
                wanted.count();
                self.begin_once(mine)
            }
            answer => answer,
        }
    }

    /// Begins a transaction.
    pub fn begin(&self, mine: &mut Examiner<B>, wanted: &mut Wanted) -> Result<()> {
        let examiner = mine.number();
        self.begin_again(mine, wanted)?;
        tell(self.rt, examiner, "began")
    }

    fn ask(&self, slip: &mut Slip<B>, ask: Ask) -> Result<(), Fault> {
        match ask {
            Ask::Sheet(tract) => self.office.sheet(self.rt, slip, tract),
            Ask::Chain(tract) => self.office.chain(self.rt, slip, tract),
            Ask::Post(posting) => self.office.post(self.rt, slip, posting),
        }
    }

    /// Takes a step.
    pub fn step(&self, slip: &mut Slip<B>, wish: Wish, wanted: &mut Wanted) -> Result<()> {
        let answer = self.ask(slip, wish.ask(self.alloc, wanted)?);
        if let Err(Fault::Memory) = answer {
            wanted.count();
            self.ask(slip, wish.ask(self.alloc, wanted)?)?;
            return Ok(());
        }
        answer?;
        Ok(())
    }

    /// Takes a step, and tells its answer.
    pub fn step_told(&self, slip: &mut Slip<B>, wish: Wish, wanted: &mut Wanted) -> Result<()> {
        self.step(slip, wish, wanted)?;
        let Some(answer) = slip.last() else {
            bail!("a step has no answer");
        };
        tell_answer(self.rt, slip.record().examiner, answer)?;
        Ok(())
    }

    /// Takes steps, and tells their answers.
    pub fn steps_told(
        &self,
        slip: &mut Slip<B>,
        wishes: &[Wish],
        wanted: &mut Wanted,
    ) -> Result<()> {
        for wish in wishes {
            self.step_told(slip, *wish, wanted)?;
        }
        Ok(())
    }

    // Commits a transaction; a stranger is who has no slip.
    fn commit_once(&self, mine: &mut Examiner<B>) -> Result<(), Fault> {
        let Some(slip) = mine.slip.take() else {
            return Err(Fault::Stranger);
        };
        let answer = self.office.commit(self.rt, slip);
        put(answer, &mut mine.done, &mut mine.slip)
    }

    // Commits a slip whose record is this, and tells what showed before that it wasn't committed yet.
    fn commit_kept(
        &self,
        mine: &mut Examiner<B>,
        kept: &Record,
        viewer: &mut Viewer<B>,
        wanted: &mut Wanted,
    ) -> Result<()> {
        let mut before = look(mine, kept, viewer, self.alloc, wanted)?;
        if let Err(why) = self.commit_once(mine) {
            let Fault::Memory = why else { bail!(why) };
            wanted.count();
            before = look(mine, kept, viewer, self.alloc, wanted)?;
            self.commit_once(mine)?;
        }
        tell_before(self.rt, before)
    }

    // Commits; before the commit that is taken a viewer shows the records of others alone, and the slip has its steps.
    fn commit(
        &self,
        mine: &mut Examiner<B>,
        viewer: &mut Viewer<B>,
        wanted: &mut Wanted,
    ) -> Result<()> {
        let kept = mine.record(self.alloc, wanted)?;
        self.commit_kept(mine, &kept, viewer, wanted)
    }

    /// Begins, takes steps, and tells their answers.
    pub fn take(&self, mine: &mut Examiner<B>, wishes: &[Wish], wanted: &mut Wanted) -> Result<()> {
        self.begin(mine, wanted)?;
        match &mut mine.slip {
            Some(slip) => self.steps_told(slip, wishes, wanted),
            None => bail!("no transaction is open"),
        }
    }

    /// The same of a transaction that is then aborted.
    pub fn take_back(
        &self,
        mine: &mut Examiner<B>,
        wishes: &[Wish],
        wanted: &mut Wanted,
    ) -> Result<()> {
        self.take(mine, wishes, wanted)?;
        self.abort(mine)
    }

    /// Begins, posts a deed and commits.
    pub fn sell(
        &self,
        mine: &mut Examiner<B>,
        sale: Sale,
        viewer: &mut Viewer<B>,
        wanted: &mut Wanted,
    ) -> Result<()> {
        self.take(mine, &[Wish::Post(sale)], wanted)?;
        self.commit(mine, viewer, wanted)?;
        mine.tell_place(self.rt)
    }

    // Why a slip whose examiner was swept isn't committed.
    fn commit_swept(&self, mine: &mut Examiner<B>, wanted: &mut Wanted) -> Result<Fault> {
        let mut answer = self.commit_once(mine);
        if let Err(Fault::Memory) = answer {
            wanted.count();
            answer = self.commit_once(mine);
        }
        match answer {
            Ok(()) => bail!("a slip whose examiner was swept was committed"),
            Err(why) => Ok(why),
        }
    }

    /// Tells why a slip whose examiner was swept isn't committed.
    pub fn tell_swept(&self, mine: &mut Examiner<B>, wanted: &mut Wanted) -> Result<()> {
        let why = self.commit_swept(mine, wanted)?;
        tell(self.rt, mine.number(), format_args!("not committed: {why}"))
    }

    /// Aborts, which wants no memory, and tells nothing: whether the transaction was open.
    pub fn abort_untold(&self, mine: &mut Examiner<B>) -> Result<bool> {
        let Some(slip) = mine.slip.take() else {
            bail!("no transaction is open");
        };
        put_back(self.office.abort(self.rt, slip), &mut mine.seat)
    }

    /// Aborts, which wants no memory, and tells whether the transaction was open.
    pub fn abort(&self, mine: &mut Examiner<B>) -> Result<()> {
        let examiner = mine.number();
        let was_open = self.abort_untold(mine)?;
        tell(
            self.rt,
            examiner,
            format_args!("aborted, was open: {was_open}"),
        )
    }

    // Sweeps an examiner.
    fn sweep(&self, examiner: u32, wanted: &mut Wanted) -> Reply {
        match self.office.sweep(self.rt, examiner) {
            Reply::Memory => {
                wanted.count();
                self.office.sweep(self.rt, examiner)
            }
            reply => reply,
        }
    }

    /// Sweeps an examiner twice: the first time, while it is open, that wants no memory.
    pub fn sweep_twice(&self, examiner: u32, wanted: &mut Wanted) -> Result<()> {
        tell_reply(self.rt, examiner, &self.office.sweep(self.rt, examiner))?;
        Ok(tell_reply(self.rt, examiner, &self.sweep(examiner, wanted))?)
    }
}

/// Settles an office, and ends it: its records.
pub fn settle<B: Room, R: Wait>(
    rt: &R,
    office: Office<B>,
    outcomes: Vec<Outcome>,
    wanted: &mut Wanted,
) -> Result<Records, Unsettled> {
    let (office, outcomes, why) = match office.settle(outcomes) {
        Ok(settled) => return Ok(settled.close(rt)),
        Err(back) => back,
    };
    let Unsettled::Memory = why else {
        office.close(rt);
        return Err(why);
    };
    wanted.count();
    match office.settle(outcomes) {
        Ok(settled) => Ok(settled.close(rt)),
        Err((office, _, why)) => {
            office.close(rt);
            Err(why)
        }
    }
}

/// A list with room for the outcomes of two examiners.
pub fn outcomes(alloc: Global, wanted: &mut Wanted) -> Result<Vec<Outcome>, AllocError> {
    wanted.again(|| Vec::with_capacity(alloc, 2))
}

/// Adds an outcome.
pub fn add_outcome(outcomes: &mut Vec<Outcome>, outcome: Outcome) -> Result<(), AllocError> {
    outcomes.push(outcome)?;
    Ok(())
}

/// The last two of a list, in order.
pub fn last_two<T: Drop>(items: Vec<T>) -> Option<(T, T)> {
    let mut items = items;
    match (items.pop(), items.pop()) {
        (Some(second), Some(first)) => Some((first, second)),
        _ => None,
    }
}
