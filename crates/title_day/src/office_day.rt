//! An office's day: it is opened on a desk, its scripts are run, and it is settled.

ghost use Rattle.std.specs.Prelude.{◌≡◌, ◌≤◌, ◌+◌, [], IfErr, IfOk, List, ℕ, length, map, reverse};
ghost use Rattle.title_land.specs.Depth.{depth};
ghost use Rattle.title_store.specs.Plants.{IsEachOnce};
ghost use Rattle.title_chain.specs.Alone.{IsSerial};
ghost use Rattle.title_chain.specs.declared.record.Record.{Record as RecordOf};
ghost use Rattle.title_trace.specs.{Due.{MayOpen}, Trace.{committed}};
ghost use Rattle.title_turns.specs.Dealt.{Dealt, told_by};
ghost use Rattle.title_office.specs.{Offices.{most_seats, opening_seats}, Transactions.{AreRunsOf}};
ghost use Rattle.title_office.specs.Workers.{examiners_of, seat_examiners};
ghost use Rattle.title_day.specs.{DaysOn.{GoesOnFrom}, OfficeDays.{AreTold, IsOfficeTrouble, committed_by, tally_of}};
ghost use Rattle.title_day.specs.OfficeRecords.{AreMadeOf, placed};

use crate::office_fault::OfficeFault;
use crate::tally::Tally;
use crate::worked::{first_fault, gather, tallies};
use std::alloc::{AllocError, Global};
use std::marker::Brand;
use std::sync::Wait;
use std::thread::Threads;
use title_chain::{Record, Records};
use title_desk::Desk;
use title_land::Township;
use title_lock::NodeLocks;
use title_office::{
    Ledger, Office, OpenGate, Opened, Outcome, Room, Script, Seat, Unopened, Worked, work,
};
use title_script::RunFault;
use title_settle::laws::as_many_outcomes_as_records;
use title_tree_store::TreeStore;

/// What a settled office leaves: a tally for each examiner, in order, and the committed records in the order of their commits.
#[derive(Drop)]
pub struct Day {
    pub tallies: Vec<Tally>,
    pub records: Records,
}

// The number by which the office tells its own seats and slips.
const OFFICE: u64 = 1;

// Nobody looks at it while its scripts run.
const VIEWERS: u32 = 0;

// Records as outcomes, each with its place.
fn outcomes_of(alloc: Global, records: &[Record]) -> Result<Vec<Outcome>, AllocError>
    ensures outcomes { IfOk result (λ v. v.items ≡ placed 1 records.now) }
{
    let mut outcomes = Vec::new(alloc);
    for (index, rec) in records.iter().enumerate() {
        let copied = rec.copy(alloc)?;
        outcomes.push(Outcome {
            place: index as u64 + 1,
            rec: copied,
        })?;
    }
    Ok(outcomes)
}

// Runs the scripts; the fault of the first worker that has ended with one ends the day.
fn run_scripts<B: Room + Send + Sync, T: Threads + Wait + Sync>(
    rt: &T,
    alloc: Global,
    office: &Office<B>,
    seats: Vec<Seat<B>>,
    scripts: Vec<Script>,
    tries: u32,
) -> Result<Vec<Worked<B>>, OfficeFault>
    requires fits { seat_examiners seats.items ≡ examiners_of scripts.items }
    ensures told { IfOk result (λ v. AreTold scripts.items
        (map (λ w. tally_of w.examiner w.outcomes.items w.aborted w.given_up) v.items)) }
    ensures runs { IfOk result (λ v. AreRunsOf B.setting (map told_by scripts.items) (map (λ w. w.outcomes.items) v.items)) }
    ensures why { IfErr result IsOfficeTrouble }
{
    let Ok(worked) = work(rt, alloc, office, seats, scripts, tries, &OpenGate) else {
        return Err(OfficeFault::Run(RunFault::Memory));
    };
    match first_fault(worked.as_slice()) {
        Some(why) => Err(OfficeFault::Worker(why)),
        None => Ok(worked),
    }
}

// Settles the office with what stood and what the workers know, and ends it.
fn settle<B: Room, T: Wait>(
    rt: &T,
    alloc: Global,
    office: Office<B>,
    stood: Vec<Outcome>,
    worked: Vec<Worked<B>>,
) -> Result<Day, OfficeFault>
    ensures tallies { IfOk result (λ day. day.tallies.items
        ≡ map (λ w. tally_of w.examiner w.outcomes.items w.aborted w.given_up) worked.items) }
    ensures made { (old : List RecordOf) (dealt : List (ℕ × List Dealt)) → stood.items ≡ placed 1 old
        → AreRunsOf B.setting dealt (map (λ w. w.outcomes.items) worked.items)
        → IfOk result (λ day. AreMadeOf B.setting dealt (reverse old) day.tallies.items day.records) }
    ensures begins { (old : List RecordOf) → stood.items ≡ placed 1 old
        → IfOk result (λ day. GoesOnFrom B.setting (reverse old) day.records) }
    ensures why { IfErr result IsOfficeTrouble }
{
    let Ok(tallies) = tallies(alloc, worked.as_slice()) else {
        office.close(rt);
        return Err(OfficeFault::Run(RunFault::Memory));
    };
    let Ok(outcomes) = gather(stood, worked) else {
        office.close(rt);
        return Err(OfficeFault::Run(RunFault::Memory));
    };
    match office.settle(outcomes) {
        Ok(settled) => Ok(Day {
            tallies,
            records: settled.close(rt),
        }),
        Err((office, _, why)) => {
            office.close(rt);
            Err(OfficeFault::Unsettled(why))
        }
    }
}

// Runs the scripts in an office that has just been opened, settles it with what stood and ends it; Memory where there was none for either.
fn run_opened<B: Room + Send + Sync, T: Threads + Wait + Sync>(
    rt: &T,
    alloc: Global,
    opened: Result<Opened<B>, Unopened>,
    stood: Result<Vec<Outcome>, AllocError>,
    scripts: Vec<Script>,
    tries: u32,
) -> Result<Day, OfficeFault>
    requires fits { IfOk opened (λ o. seat_examiners o.seats.items ≡ examiners_of scripts.items) }
    ensures told { IfOk result (λ day. AreTold scripts.items day.tallies.items) }
    ensures made { (old : List RecordOf) → IfOk stood (λ v. v.items ≡ placed 1 old)
        → IfOk result (λ day. AreMadeOf B.setting (map told_by scripts.items) (reverse old) day.tallies.items day.records) }
    ensures begins { (old : List RecordOf) → IfOk stood (λ v. v.items ≡ placed 1 old)
        → IfOk result (λ day. GoesOnFrom B.setting (reverse old) day.records) }
    ensures why { IfErr result IsOfficeTrouble }
{
    let Ok(opened) = opened else {
        return Err(OfficeFault::Run(RunFault::Memory));
    };
    let Opened {
        office,
        seats,
        viewers: _,
    } = opened;
    let Ok(stood) = stood else {
        office.close(rt);
        return Err(OfficeFault::Run(RunFault::Memory));
    };
    match run_scripts(rt, alloc, &office, seats, scripts, tries) {
        Ok(worked) => settle(rt, alloc, office, stood, worked),
        Err(why) => {
            office.close(rt);
            Err(why)
        }
    }
}

// Opens an office without viewers on a desk, runs the scripts, settles it and ends it.
fn keep_day<B: Room + Send + Sync, T: Threads + Wait + Sync>(
    rt: &T,
    alloc: Global,
    ledger: Ledger,
    desk: Desk<TreeStore, NodeLocks>,
    townships: &[Township],
    examiners: u32,
    scripts: Vec<Script>,
    tries: u32,
) -> Result<Day, OfficeFault>
    requires book { ledger ≡ B.book }
    requires setting { B.setting ≡ desk.setting }
    requires townships { townships.now ≡ desk.setting.townships }
    requires once { IsEachOnce townships.now }
    requires seats { examiners ≤ most_seats }
    requires fits { seat_examiners (opening_seats 1 examiners) ≡ examiners_of scripts.items }
    ensures told { IfOk result (λ day. AreTold scripts.items day.tallies.items) }
    ensures made { IfOk result (λ day. AreMadeOf desk.setting (map told_by scripts.items) (committed desk.trace) day.tallies.items
        day.records) }
    ensures counted { IfOk result (λ day. committed_by day.tallies.items + length (committed desk.trace) ≡ length day.records) }
    ensures begins { IfOk result (λ day. GoesOnFrom desk.setting (committed desk.trace) day.records) }
    ensures why { IfErr result IsOfficeTrouble }
{
    as_many_outcomes_as_records();
    let stood = outcomes_of(alloc, desk.records());
    let opened = Office::<B>::open_on(
        rt, alloc, ledger, OFFICE, desk, townships, examiners, VIEWERS,
    );
    run_opened(rt, alloc, opened, stood, scripts, tries)
}

/// Opens an office on a desk of these townships that has served what stands, runs each examiner's script by a thread of its own, and
/// settles the office: the records are those that stood and, behind them, what the scripts' transactions have come to, each once. Faults:
/// that of the least examiner whose worker has ended with one; why the office can't be settled; Memory.
pub fn run_day_on<T: Threads + Wait + Sync>(
    rt: &T,
    alloc: Global,
    desk: Desk<TreeStore, NodeLocks>,
    townships: &[Township],
    examiners: u32,
    scripts: Vec<Script>,
    tries: u32,
) -> Result<Day, OfficeFault>
    requires townships { townships.now ≡ desk.setting.townships }
    requires once { IsEachOnce townships.now }
    requires seats { examiners ≤ most_seats }
    requires fits { seat_examiners (opening_seats 1 examiners) ≡ examiners_of scripts.items }
    ensures told { IfOk result (λ day. AreTold scripts.items day.tallies.items) }
    ensures made { IfOk result (λ day. AreMadeOf desk.setting (map told_by scripts.items) (committed desk.trace) day.tallies.items
        day.records) }
    ensures counted { IfOk result (λ day. committed_by day.tallies.items + length (committed desk.trace) ≡ length day.records) }
    ensures begins { IfOk result (λ day. GoesOnFrom desk.setting (committed desk.trace) day.records) }
    ensures why { IfErr result IsOfficeTrouble }
{
    keep_day::<Brand, _>(
        rt,
        alloc,
        Ledger::new(),
        desk,
        townships,
        examiners,
        scripts,
        tries,
    )
}

/// The same on a new desk, for parties numbered from 0 and these townships.
pub(crate) fn run_day<T: Threads + Wait + Sync>(
    rt: &T,
    alloc: Global,
    parties: u32,
    townships: &[Township],
    examiners: u32,
    scripts: Vec<Script>,
    tries: u32,
) -> Result<Day, OfficeFault>
    requires may_open { MayOpen parties townships.now }
    requires seats { examiners ≤ most_seats }
    requires fits { seat_examiners (opening_seats 1 examiners) ≡ examiners_of scripts.items }
    ensures told { IfOk result (λ day. AreTold scripts.items day.tallies.items) }
    ensures made { IfOk result (λ day. AreMadeOf (record { parties = parties; townships = townships.now }) (map told_by scripts.items) []
        day.tallies.items day.records) }
    ensures counted { IfOk result (λ day. committed_by day.tallies.items ≡ length day.records) }
    ensures serial { IfOk result (λ day. IsSerial depth townships.now (reverse day.records)) }
    ensures why { IfErr result IsOfficeTrouble }
{
    let desk = Desk::open(alloc, parties, townships)?;
    run_day_on(rt, alloc, desk, townships, examiners, scripts, tries)
}
