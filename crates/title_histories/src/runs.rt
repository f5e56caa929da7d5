//! Runs of scripts by threads in one office, held against the plain machine.

ghost use Rattle.std.specs.Prelude.{◌≡◌, ◌≤◌, IfOk};
ghost use Rattle.title_trace.specs.Due.{MayOpen};
ghost use Rattle.title_office.specs.{Offices.{most_seats}, Workers.{examiners_of, seat_examiners}};

use crate::gate::Yielding;
use crate::plain::{Disagreement, Found, check};
use crate::scripts::{count_calls, script};
use std::alloc::{AllocError, Global};
use std::marker::Brand;
use std::sync::Wait;
use std::thread::Threads;
use title_chance::{Chance, Ground, PARTIES, Reach, TOWNSHIPS, township};
use title_desk::may_open;
use title_land::Township;
use title_office::{Ledger, Office, Opened, Room, Script, Seat, Worked, work};
use title_settle::Outcome;

// How often a transaction is begun before it is given up.
const TRIES: u32 = 100_000;

// How many tracts of sections the scripts speak of.
const TRACTS: u32 = 12;

/// How many runs had transactions in each other's way, how many histories disagree with the plain machine, in how many runs a worker
/// ended before its script did, and the first disagreement.
#[derive(Clone, Copy)]
pub struct Told {
    pub contended: u32,
    pub disagree: u32,
    pub ended_early: u32,
    pub first: Option<Disagreement>,
}

// What came of one run.
#[derive(Clone, Copy)]
struct Run {
    is_contended: bool,
    has_ended_early: bool,
    found: Option<Disagreement>,
}

// What the scripts of a run speak of.
#[derive(Clone, Copy)]
struct Subject<'a> {
    alloc: Global,
    ground: &'a Ground,
}

impl Told {
    fn new() -> Told {
        Told {
            contended: 0,
            disagree: 0,
            ended_early: 0,
            first: None,
        }
    }

    fn count(&mut self, run: Run) {
        if run.is_contended {
            self.contended = self.contended.saturating_add(1);
        }
        if run.has_ended_early {
            self.ended_early = self.ended_early.saturating_add(1);
        }
        if run.found.is_some() {
            self.disagree = self.disagree.saturating_add(1);
        }
        if self.first.is_none() {
            self.first = run.found;
        }
    }
}

// A script for each seat.
fn scripts_for<B: Room>(
    subject: Subject<'_>,
    chance: &mut Chance,
    seats: &[Seat<B>],
) -> Result<Vec<Script>, AllocError>
    ensures fits { IfOk result (λ scripts. seat_examiners seats.now ≡ examiners_of scripts.items) }
{
    let mut scripts = Vec::new(subject.alloc);
    for seat in seats {
        let script = script(subject.alloc, chance, subject.ground, seat.examiner())?;
        scripts.push(script)?;
    }
    Ok(scripts)
}

// Whether a worker has ended before its script did.
fn has_ended_early<B: Room>(worked: &[Worked<B>]) -> bool {
    let mut has_ended = false;
    for each in worked {
        has_ended |= each.fault.is_some();
    }
    has_ended
}

fn add_outcomes(history: &mut Vec<Outcome>, outcomes: Vec<Outcome>) -> Result<(), AllocError> {
    for outcome in outcomes {
        history.push(outcome)?;
    }
    Ok(())
}

fn add_all<B: Room>(history: &mut Vec<Outcome>, worked: Vec<Worked<B>>) -> Result<(), AllocError> {
    for each in worked {
        let Worked { outcomes, .. } = each;
        add_outcomes(history, outcomes)?;
    }
    Ok(())
}

// The committed transactions of all workers.
fn history_of<B: Room>(alloc: Global, worked: Vec<Worked<B>>) -> Result<Vec<Outcome>, AllocError> {
    let mut history = Vec::new(alloc);
    add_all(&mut history, worked)?;
    Ok(history)
}

fn check_worked<B: Room>(alloc: Global, townships: &[Township], worked: Vec<Worked<B>>) -> Found {
    let history = history_of(alloc, worked)?;
    check(alloc, townships, history.as_slice())
}

// What came of a run.
fn judge<B: Room>(
    alloc: Global,
    townships: &[Township],
    worked: Vec<Worked<B>>,
    is_contended: bool,
) -> Result<Run, AllocError> {
    let has_ended_early = has_ended_early(worked.as_slice());
    let found = check_worked(alloc, townships, worked)?;
    Ok(Run {
        is_contended,
        has_ended_early,
        found,
    })
}

// Runs scripts by threads, and checks their history.
fn work_at<B: Room + Send + Sync, R: Threads + Wait + Sync>(
    rt: &R,
    alloc: Global,
    townships: &[Township],
    office: &Office<B>,
    seats: Vec<Seat<B>>,
    scripts: Vec<Script>,
) -> Result<Run, AllocError>
    requires fits { seat_examiners seats.items ≡ examiners_of scripts.items }
{
    let calls = count_calls(scripts.as_slice());
    let gate = Yielding::new();
    match work(rt, alloc, office, seats, scripts, TRIES, &gate) {
        Ok(worked) => judge(alloc, townships, worked, gate.calls() > calls),
        Err(_) => Err(AllocError),
    }
}

// The same with a script for each seat.
fn run_scripts<B: Room + Send + Sync, R: Threads + Wait + Sync>(
    rt: &R,
    subject: Subject<'_>,
    chance: &mut Chance,
    townships: &[Township],
    office: &Office<B>,
    seats: Vec<Seat<B>>,
) -> Result<Run, AllocError> {
    let scripts = scripts_for(subject, chance, seats.as_slice())?;
    work_at(rt, subject.alloc, townships, office, seats, scripts)
}

// The same for so many examiners in a new office.
fn run_in_office<B: Room + Send + Sync, R: Threads + Wait + Sync>(
    rt: &R,
    subject: Subject<'_>,
    chance: &mut Chance,
    ledger: Ledger,
    parties: u32,
    townships: &[Township],
    examiners: u32,
) -> Result<Run, AllocError>
    requires book { ledger ≡ B.book }
    requires setting { B.setting ≡ record { parties = parties; townships = townships.now } }
    requires may_open { MayOpen parties townships.now }
    requires seats { examiners ≤ most_seats }
{
    let alloc = subject.alloc;
    let opened = Office::<B>::open(rt, alloc, ledger, 1, parties, townships, examiners, 0);
    let Ok(opened) = opened else {
        return Err(AllocError);
    };
    let Opened {
        office,
        seats,
        viewers: _,
    } = opened;
    let run = run_scripts(rt, subject, chance, townships, &office, seats);
    office.close(rt);
    run
}

// The same, in an office of its own parameter.
fn run_once<R: Threads + Wait + Sync>(
    rt: &R,
    subject: Subject<'_>,
    chance: &mut Chance,
    parties: u32,
    townships: &[Township],
    examiners: u32,
) -> Result<Run, AllocError>
    requires may_open { MayOpen parties townships.now }
    requires seats { examiners ≤ most_seats }
{
    run_in_office::<Brand, _>(
        rt,
        subject,
        chance,
        Ledger::new(),
        parties,
        townships,
        examiners,
    )
}

// Counts runs until so many had transactions in each other's way.
fn count_runs<R: Threads + Wait + Sync>(
    rt: &R,
    subject: Subject<'_>,
    chance: &mut Chance,
    parties: u32,
    townships: &[Township],
    wanted: (u32, u32),
) -> Result<Told, AllocError>
    requires may_open { MayOpen parties townships.now }
{
    let mut told = Told::new();
    for _ in 0..wanted.1 {
        if told.contended >= wanted.0 {
            return Ok(told);
        }
        let examiners = chance.below(7).saturating_add(2).min(8);
        told.count(run_once(rt, subject, chance, parties, townships, examiners)?);
    }
    Ok(told)
}

fn add_townships(townships: &mut Vec<Township>) -> Result<(), AllocError> {
    for number in 1..=TOWNSHIPS {
        if let Some(township) = township(number) {
            townships.push(township)?;
        }
    }
    Ok(())
}

fn townships(alloc: Global) -> Result<Vec<Township>, AllocError> {
    let mut townships = Vec::new(alloc);
    add_townships(&mut townships)?;
    Ok(townships)
}

// Counts runs over these townships; none where no office opens.
fn count_in<R: Threads + Wait + Sync>(
    rt: &R,
    alloc: Global,
    chance: &mut Chance,
    townships: &[Township],
    wanted: (u32, u32),
) -> Result<Told, AllocError> {
    let ground = Ground::new(alloc, chance, TRACTS, Reach::Plant)?;
    let subject = Subject {
        alloc,
        ground: &ground,
    };
    if !may_open(PARTIES, townships) {
        return Ok(Told::new());
    }
    count_runs(rt, subject, chance, PARTIES, townships, wanted)
}

/// Runs scripts of two to eight examiners, each in an office of its own, until so many runs had transactions in each other's way,
/// or so many runs were made in all.
pub fn run_all<R: Threads + Wait + Sync>(
    rt: &R,
    alloc: Global,
    contended: u32,
    most_runs: u32,
) -> Result<Told, AllocError> {
    let mut chance = Chance::new(5);
    let townships = townships(alloc)?;
    let wanted = (contended, most_runs);
    count_in(rt, alloc, &mut chance, townships.as_slice(), wanted)
}
