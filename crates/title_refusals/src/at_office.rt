//! Examiners and viewers of an office.

ghost use Rattle.std.specs.Prelude.{◌≡◌, ◌≤◌};
ghost use Rattle.title_trace.specs.Due.{MayOpen};

use crate::asker::{Asker, Examiner, last_two, outcomes, settle};
use crate::crew::run_scripts;
use crate::deeds::{Sale, WHOLE, Wish};
use crate::parcels::{Parcel, township};
use crate::telling::tell_records;
use crate::viewing::{tell_other, tell_sheet, tell_views};
use crate::wanted::Wanted;
use anyhow::{Result, bail};
use std::alloc::Global;
use std::io;
use std::marker::Brand;
use std::sync::Wait;
use std::thread::Threads;
use title_chain::Record;
use title_desk::may_open;
use title_land::Township;
use title_ledger::{Ledger, Room};
use title_office::{Office, Opened, Outcome, Seat, Viewer};

// The office's number.
const OFFICE: u64 = 7;

// All of the surface of a section.
const FIRST_SALE: Sale = Sale {
    doc: 101,
    grantee: 1,
    units: WHOLE,
    parcel: Parcel::Section,
};

const SECOND_SALE: Sale = Sale {
    doc: 102,
    grantee: 1,
    units: WHOLE,
    parcel: Parcel::NextSection,
};

/// What is done in a day by two examiners, of whom viewers see something.
#[derive(Clone, Copy)]
pub enum Day {
    /// One commits, and what it wrote is read back.
    ReadsBack,
    /// One aborts, and is swept the next time.
    Aborts,
    /// Both commit, one after the other, and after each a viewer is asked for all that it shows.
    Views,
}

/// What is done in an office of two examiners.
#[derive(Clone, Copy)]
pub enum Work {
    Day(Day),
    /// Two scripts are run by threads; there are no viewers.
    Scripts,
}

impl Work {
    // UNITED STATES and ADAMS; scripts sell to BELL too.
    fn parties(self) -> u32 {
        match self {
            Work::Day(_) => 2,
            Work::Scripts => 3,
        }
    }

    fn viewers(self) -> u32
        ensures few { result ≤ 64 }
    {
        match self {
            Work::Day(_) => 2,
            Work::Scripts => 0,
        }
    }
}

// An examiner reads all land and a chain in a transaction that is then aborted.
fn look_round<B: Room, R: Wait + Print>(
    asker: &Asker<'_, B, R>,
    mine: &mut Examiner<B>,
    wanted: &mut Wanted,
) -> Result<()> {
    let wishes = [
        Wish::Sheet(Parcel::Everything),
        Wish::Chain(Parcel::Section),
    ];
    asker.take_back(mine, &wishes, wanted)
}

// A commit is read back: a viewer learns of it, and shows its section; the other one has learnt of nothing.
fn read_back<B: Room, R: Wait + Print>(
    asker: &Asker<'_, B, R>,
    mine: &mut Examiner<B>,
    viewer: &mut Viewer<B>,
    other: &mut Viewer<B>,
    outcomes: &mut Vec<Outcome>,
    wanted: &mut Wanted,
) -> Result<()> {
    asker.sell(mine, FIRST_SALE, other, wanted)?;
    mine.teach(asker.rt, viewer)?;
    tell_sheet(asker.rt, viewer, asker.alloc, Parcel::Section, wanted)?;
    tell_other(asker.rt, other, asker.alloc, wanted)?;
    mine.keep(outcomes)?;
    look_round(asker, mine, wanted)
}

// An examiner posts a deed and is swept, and then isn't committed, but aborted.
fn sweep_sale<B: Room, R: Wait + Print>(
    asker: &Asker<'_, B, R>,
    mine: &mut Examiner<B>,
    wanted: &mut Wanted,
) -> Result<()> {
    let examiner = mine.number();
    asker.take(mine, &[Wish::Post(FIRST_SALE)], wanted)?;
    asker.sweep_twice(examiner, wanted)?;
    asker.tell_swept(mine, wanted)?;
    asker.abort(mine)
}

// A deed is aborted, and another is swept; nothing is to be seen of them.
fn abort_all<B: Room, R: Wait + Print>(
    asker: &Asker<'_, B, R>,
    mine: &mut Examiner<B>,
    viewer: &mut Viewer<B>,
    other: &mut Viewer<B>,
    wanted: &mut Wanted,
) -> Result<()> {
    asker.take_back(mine, &[Wish::Post(FIRST_SALE)], wanted)?;
    tell_sheet(asker.rt, viewer, asker.alloc, Parcel::Section, wanted)?;
    sweep_sale(asker, mine, wanted)?;
    tell_other(asker.rt, other, asker.alloc, wanted)?;
    look_round(asker, mine, wanted)
}

// An examiner commits a deed, and a viewer that has learnt of it is asked for all that it shows.
fn view_sale<B: Room, R: Wait + Print>(
    asker: &Asker<'_, B, R>,
    mine: &mut Examiner<B>,
    sale: Sale,
    viewer: &mut Viewer<B>,
    other: &mut Viewer<B>,
    outcomes: &mut Vec<Outcome>,
    wanted: &mut Wanted,
) -> Result<()> {
    asker.sell(mine, sale, other, wanted)?;
    mine.teach(asker.rt, viewer)?;
    tell_views(asker.rt, viewer, asker.alloc, wanted)?;
    mine.keep(outcomes)
}

// What is done in a day: the outcomes are added.
fn run_day<B: Room, R: Wait + Print>(
    asker: &Asker<'_, B, R>,
    day: Day,
    first: &mut Examiner<B>,
    second: &mut Examiner<B>,
    viewers: &mut [Viewer<B>],
    outcomes: &mut Vec<Outcome>,
    wanted: &mut Wanted,
) -> Result<()> {
    let Some((viewer, rest)) = viewers.split_first_mut() else {
        bail!("there are not two viewers");
    };
    let Some((other, _)) = rest.split_first_mut() else {
        bail!("there are not two viewers");
    };
    match day {
        Day::ReadsBack => read_back(asker, first, viewer, other, outcomes, wanted),
        Day::Aborts => abort_all(asker, first, viewer, other, wanted),
        Day::Views => {
            view_sale(asker, first, FIRST_SALE, viewer, other, outcomes, wanted)?;
            view_sale(asker, second, SECOND_SALE, viewer, other, outcomes, wanted)
        }
    }
}

// The same, from the seats of an office.
fn run_from<B: Room, R: Wait + Print>(
    asker: &Asker<'_, B, R>,
    day: Day,
    seats: Vec<Seat<B>>,
    viewers: &mut [Viewer<B>],
    outcomes: &mut Vec<Outcome>,
    wanted: &mut Wanted,
) -> Result<()> {
    let Some((first, second)) = last_two(seats) else {
        bail!("there are not two seats");
    };
    let first = &mut Examiner::new(Some(first));
    let second = &mut Examiner::new(Some(second));
    run_day(asker, day, first, second, viewers, outcomes, wanted)
}

// Does the work: the outcomes are added.
fn run<B: Room + Send + Sync, R: Threads + Wait + Sync + Print>(
    asker: &Asker<'_, B, R>,
    work: Work,
    seats: Vec<Seat<B>>,
    viewers: &mut [Viewer<B>],
    outcomes: &mut Vec<Outcome>,
    wanted: &mut Wanted,
) -> Result<()> {
    match work {
        Work::Day(day) => run_from(asker, day, seats, viewers, outcomes, wanted),
        Work::Scripts => run_scripts(asker, seats, outcomes, wanted),
    }
}

// Tells the records of an office, of scripts only whether they are as many as the outcomes.
fn tell_end(rt: &impl Print, work: Work, records: &[Record], outcomes: usize) -> io::Result<()> {
    match work {
        Work::Day(_) => tell_records(rt, records),
        Work::Scripts => {
            let are_all = records.len() == outcomes;
            println!(rt; "settled with each outcome: {are_all}")
        }
    }
}

// Settles an office, and tells its records.
fn tell_settled<B: Room, R: Wait + Print>(
    rt: &R,
    office: Office<B>,
    outcomes: Vec<Outcome>,
    work: Work,
    wanted: &mut Wanted,
) -> Result<()> {
    let committed = outcomes.len();
    let records = settle(rt, office, outcomes, wanted)?;
    Ok(tell_end(rt, work, records.as_slice(), committed)?)
}

// Does the work in an office, and settles it.
fn run_opened<B: Room + Send + Sync, R: Threads + Wait + Sync + Print>(
    rt: &R,
    alloc: Global,
    opened: Opened<B>,
    work: Work,
    outcomes: Vec<Outcome>,
    wanted: &mut Wanted,
) -> Result<()> {
    let Opened {
        office,
        seats,
        mut viewers,
    } = opened;
    let mut outcomes = outcomes;
    let asker = Asker {
        rt,
        alloc,
        office: &office,
    };
    match run(&asker, work, seats, &mut viewers, &mut outcomes, wanted) {
        Ok(()) => tell_settled(rt, office, outcomes, work, wanted),
        Err(why) => {
            office.close(rt);
            Err(why)
        }
    }
}

// The same in an office that is opened; false where it wasn't for want of memory.
fn run_in_office<B: Room + Send + Sync, R: Threads + Wait + Sync + Print>(
    rt: &R,
    alloc: Global,
    ledger: Ledger,
    parties: u32,
    townships: &[Township],
    work: Work,
    wanted: &mut Wanted,
) -> Result<bool>
    requires book { ledger ≡ B.book }
    requires setting { B.setting ≡ record { parties = parties; townships = townships.now } }
    requires may_open { MayOpen parties townships.now }
{
    let outcomes = outcomes(alloc, wanted)?;
    let viewers = work.viewers();
    match Office::<B>::open(rt, alloc, ledger, OFFICE, parties, townships, 2, viewers) {
        Ok(opened) => {
            run_opened(rt, alloc, opened, work, outcomes, wanted)?;
            Ok(true)
        }
        Err(_) => Ok(false),
    }
}

// The same in an office of its own parameter.
fn run_once<R: Threads + Wait + Sync + Print>(
    rt: &R,
    alloc: Global,
    parties: u32,
    townships: &[Township],
    work: Work,
    wanted: &mut Wanted,
) -> Result<bool>
    requires may_open { MayOpen parties townships.now }
{
    run_in_office::<Brand, _>(rt, alloc, Ledger::new(), parties, townships, work, wanted)
}

// Works in an office for these townships, which is opened once more where a growth was refused.
fn run_again<R: Threads + Wait + Sync + Print>(
    rt: &R,
    alloc: Global,
    parties: u32,
    townships: &[Township],
    work: Work,
    wanted: &mut Wanted,
) -> Result<()>
    requires may_open { MayOpen parties townships.now }
{
    if run_once(rt, alloc, parties, townships, work, wanted)? {
        return Ok(());
    }
    wanted.count();
    if run_once(rt, alloc, parties, townships, work, wanted)? {
        return Ok(());
    }
    bail!("memory was refused twice");
}

/// Works in an office of the plant.
pub fn tell<R: Threads + Wait + Sync + Print>(
    rt: &R,
    alloc: Global,
    work: Work,
    wanted: &mut Wanted,
) -> Result<()> {
    let Some(township) = township() else {
        bail!("there is no such township");
    };
    let (parties, townships) = (work.parties(), [township]);
    if !may_open(parties, &townships) {
        bail!("an office can't be opened for these");
    }
    run_again(rt, alloc, parties, &townships, work, wanted)
}
