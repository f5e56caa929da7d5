//! Two scripts that an office runs by threads.

ghost use Rattle.std.specs.Prelude.{◌≡◌, IfOk};
ghost use Rattle.title_office.specs.Workers.{examiners_of, seat_examiners};

use crate::asker::{Asker, Examiner, add_outcome, last_two};
use crate::deeds::{Sale, WHOLE, Wish};
use crate::parcels::Parcel;
use crate::wanted::Wanted;
use anyhow::{Result, bail};
use std::alloc::{AllocError, Global};
use std::sync::Wait;
use std::thread::Threads;
use title_chain::{Answer, SheetRows};
use title_instrument::Estate;
use title_land::Node;
use title_ledger::Room;
use title_office::{
    Fault, Office, OpenGate, Outcome, Script, Seat, Slip, Transaction, Worked, work,
};
use title_store::SheetRow;

const TRIES: u32 = 100;

// Which of the two deeds were committed.
#[derive(Clone, Copy)]
struct Sold {
    first: bool,
    second: bool,
}

// The deed of an examiner's script: 1 sells section 5 to ADAMS, 2 sells section 6 to BELL.
fn sale_of(examiner: u32) -> Sale {
    let parcel = if examiner == 1 {
        Parcel::Section
    } else {
        Parcel::NextSection
    };
    Sale {
        doc: u64::from(examiner),
        grantee: examiner,
        units: WHOLE,
        parcel,
    }
}

fn one<T: Drop>(alloc: Global, item: T) -> Result<Vec<T>, AllocError> {
    let mut items = Vec::new(alloc);
    items.push(item)?;
    Ok(items)
}

fn script(alloc: Global, examiner: u32, wanted: &mut Wanted) -> Result<Script>
    ensures examiner { IfOk result (λ s. s.examiner ≡ examiner) }
{
    let ask = Wish::Post(sale_of(examiner)).ask(alloc, wanted)?;
    let transaction = Transaction {
        asks: one(alloc, ask)?,
        commits: true,
    };
    Ok(Script {
        examiner,
        transactions: one(alloc, transaction)?,
    })
}

// A script for each seat.
fn scripts_for<B: Room>(
    alloc: Global,
    seats: &[Seat<B>],
    wanted: &mut Wanted,
) -> Result<Vec<Script>>
    ensures fits { IfOk result (λ scripts. seat_examiners seats.now ≡ examiners_of scripts.items) }
{
    let mut scripts = Vec::new(alloc);
    for seat in seats {
        let script = script(alloc, seat.examiner(), wanted)?;
        scripts.push(script)?;
    }
    Ok(scripts)
}

// The same, made once more where a growth was refused.
fn scripts_again<B: Room>(
    alloc: Global,
    seats: &[Seat<B>],
    wanted: &mut Wanted,
) -> Result<Vec<Script>>
    ensures fits { IfOk result (λ scripts. seat_examiners seats.now ≡ examiners_of scripts.items) }
{
    if let Ok(scripts) = scripts_for(alloc, seats, wanted) {
        return Ok(scripts);
    }
    wanted.count();
    scripts_for(alloc, seats, wanted)
}

// What came of scripts, where they were run.
fn worked<T: Drop, S: Drop, A: Drop>(answer: Result<T, (S, A, Fault)>) -> Result<T> {
    match answer {
        Ok(worked) => Ok(worked),
        Err((_, _, why)) => bail!(why),
    }
}

// Runs scripts by threads; once more where memory was refused before any thread was started.
fn work_twice<B: Room + Send + Sync, R: Threads + Wait + Sync>(
    rt: &R,
    alloc: Global,
    office: &Office<B>,
    seats: Vec<Seat<B>>,
    scripts: Vec<Script>,
    wanted: &mut Wanted,
) -> Result<Vec<Worked<B>>>
    requires fits { seat_examiners seats.items ≡ examiners_of scripts.items }
{
    let (seats, scripts, _) = match work(rt, alloc, office, seats, scripts, TRIES, &OpenGate) {
        Ok(worked) => return Ok(worked),
        Err(back) => back,
    };
    wanted.count();
    worked(work(rt, alloc, office, seats, scripts, TRIES, &OpenGate))
}

// The same of a script for each seat.
fn work_again<B: Room + Send + Sync, R: Threads + Wait + Sync>(
    rt: &R,
    alloc: Global,
    office: &Office<B>,
    seats: Vec<Seat<B>>,
    wanted: &mut Wanted,
) -> Result<Vec<Worked<B>>> {
    let scripts = scripts_again(alloc, seats.as_slice(), wanted)?;
    work_twice(rt, alloc, office, seats, scripts, wanted)
}

// Whether a worker has committed its transaction at the first try.
fn is_done<B: Room>(worked: &Worked<B>) -> bool {
    worked.fault.is_none() && worked.seat.is_some() && worked.outcomes.len() == 1
}

// Whether a worker was refused memory, or a thread for want of memory, and has committed nothing.
fn is_refused<B: Room>(worked: &Worked<B>) -> bool {
    let is_as_told = match worked.fault {
        Some(Fault::Memory) => worked.seat.is_some(),
        Some(Fault::NoThread) => worked.seat.is_none(),
        _ => false,
    };
    is_as_told && worked.outcomes.is_empty()
}

// Whether a worker is done, or was refused, which is counted; and has given nothing up.
fn is_due<B: Room>(worked: &Worked<B>, wanted: &mut Wanted) -> bool {
    if worked.aborted > 0 || worked.given_up > 0 {
        return false;
    }
    if is_refused(worked) {
        wanted.count();
        return true;
    }
    is_done(worked)
}

fn add_outcomes(outcomes: &mut Vec<Outcome>, more: Vec<Outcome>) -> Result<(), AllocError> {
    for outcome in more {
        add_outcome(outcomes, outcome)?;
    }
    Ok(())
}

// Adds a worker's outcomes: the seat that it gave back.
fn take<B: Room>(
    worked: Worked<B>,
    outcomes: &mut Vec<Outcome>,
) -> Result<Option<Seat<B>>, AllocError> {
    let Worked {
        seat,
        outcomes: more,
        ..
    } = worked;
    add_outcomes(outcomes, more)?;
    Ok(seat)
}

// The one of two seats that is there.
fn either_seat<B: Room>(first: Option<Seat<B>>, second: Option<Seat<B>>) -> Option<Seat<B>> {
    match first {
        Some(seat) => Some(seat),
        None => second,
    }
}

// Adds the outcomes of two workers: a seat that one of them gave back.
fn take_both<B: Room>(
    first: Worked<B>,
    second: Worked<B>,
    outcomes: &mut Vec<Outcome>,
) -> Result<Option<Seat<B>>, AllocError> {
    let first = take(first, outcomes)?;
    Ok(either_seat(first, take(second, outcomes)?))
}

// Whether each of two workers has done what it had to; one alone may have been refused.
fn are_due<B: Room>(first: &Worked<B>, second: &Worked<B>, wanted: &mut Wanted) -> bool {
    let is_one_done = is_done(first) || is_done(second);
    let is_first_due = is_due(first, wanted);
    is_due(second, wanted) && is_first_due && is_one_done
}

impl Sold {
    // What the outcomes say.
    fn of(outcomes: &[Outcome]) -> Sold {
        let mut sold = Sold {
            first: false,
            second: false,
        };
        for outcome in outcomes {
            match outcome.rec.examiner {
                1 => sold.first = true,
                _ => sold.second = true,
            }
        }
        sold
    }

    // Who has the surface of a section.
    fn owner_of(self, section: u8) -> u32 {
        match section {
            5 if self.first => 1,
            6 if self.second => 2,
            _ => 0,
        }
    }

    // Whether a row of the sheet of all land is that after these sales.
    fn is_row_due(self, row: &SheetRow) -> bool {
        let (is_part, owner) = match row.node {
            Node::Part(section, _) => (true, self.owner_of(section.number)),
            _ => (false, 0),
        };
        let is_surface = matches!(row.estate, Estate::S);
        is_part == is_surface && row.party == owner && row.units == WHOLE
    }

    // Whether these are the rows: one a section, and one for each of the other estates.
    fn are_rows_due(self, rows: &SheetRows) -> bool {
        let mut are_due = rows.len() == 38;
        for index in 0..rows.len() {
            are_due &= match rows.row(index) {
                Some(row) => self.is_row_due(&row),
                None => false,
            };
        }
        are_due
    }
}

// Whether a slip is shown the sheet of all land after these sales.
fn is_sheet_due<B: Room, R: Wait + Print>(
    asker: &Asker<'_, B, R>,
    slip: &mut Slip<B>,
    sold: Sold,
    wanted: &mut Wanted,
) -> Result<bool> {
    asker.step(slip, Wish::Sheet(Parcel::Everything), wanted)?;
    Ok(match slip.last() {
        Some(Answer::Rows(rows)) => sold.are_rows_due(rows),
        _ => false,
    })
}

// Whether an examiner is shown the plant after these sales, in a transaction that is then aborted.
fn is_shown<B: Room, R: Wait + Print>(
    asker: &Asker<'_, B, R>,
    mine: &mut Examiner<B>,
    sold: Sold,
    wanted: &mut Wanted,
) -> Result<bool> {
    asker.begin_again(mine, wanted)?;
    let is_due = match &mut mine.slip {
        Some(slip) => is_sheet_due(asker, slip, sold, wanted)?,
        None => false,
    };
    asker.abort_untold(mine)?;
    Ok(is_due)
}

// Tells what came of two workers, by what an examiner is shown if it has a seat.
fn tell_due<B: Room, R: Wait + Print>(
    asker: &Asker<'_, B, R>,
    are_due: bool,
    mine: &mut Examiner<B>,
    sold: Sold,
    wanted: &mut Wanted,
) -> Result<()> {
    let is_plant_due = mine.seat.is_some() && is_shown(asker, mine, sold, wanted)?;
    println!(asker.rt; "each worker is done, or one alone was refused: {are_due}")?;
    println!(asker.rt; "the plant is that after what was committed: {is_plant_due}")?;
    Ok(())
}

// The same: their outcomes are added.
fn tell_workers<B: Room, R: Wait + Print>(
    asker: &Asker<'_, B, R>,
    first: Worked<B>,
    second: Worked<B>,
    outcomes: &mut Vec<Outcome>,
    wanted: &mut Wanted,
) -> Result<()> {
    let are_due = are_due(&first, &second, wanted);
    let mine = &mut Examiner::new(take_both(first, second, outcomes)?);
    tell_due(asker, are_due, mine, Sold::of(outcomes.as_slice()), wanted)
}

/// Runs two scripts by threads, and looks at what came of them: the outcomes are added.
pub fn run_scripts<B: Room + Send + Sync, R: Threads + Wait + Sync + Print>(
    asker: &Asker<'_, B, R>,
    seats: Vec<Seat<B>>,
    outcomes: &mut Vec<Outcome>,
    wanted: &mut Wanted,
) -> Result<()> {
    let worked = work_again(asker.rt, asker.alloc, asker.office, seats, wanted)?;
    match last_two(worked) {
        Some((first, second)) => tell_workers(asker, first, second, outcomes, wanted),
        None => bail!("there are not two workers"),
    }
}
