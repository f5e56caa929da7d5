//! How often a worker begins a transaction that another open one is in the way of.

ghost use Rattle.std.specs.Prelude.{◌≡◌, [], ◌∷◌};
ghost use Rattle.title_office.specs.Workers.{examiners_of, seat_examiners};

use crate::checks::must;
use crate::days::{WHOLE, begin_with_deed, commit_at, open, township, two_of};
use crate::turns::script;
use std::alloc::Global;
use std::marker::Brand;
use std::process::Abort;
use std::sync::Wait;
use std::sync::atomic::{AtomicU64, Ordering};
use std::thread::Threads;
use title_land::Township;
use title_office::{Gate, Ledger, Office, Opened, Room, Script, Seat, Worked, work};

/// A worker with so many tries of one transaction, a deed of this section: how often it begins, how many calls it makes, and whether
/// the transaction is committed or given up.
#[derive(Clone, Copy)]
struct Case {
    section: u8,
    tries: u32,
    begun: u64,
    calls: u64,
    committed: usize,
    given_up: u64,
}

// Another has section 5, and none has section 6.
static CASES: [Case; 4] = [
    Case {
        section: 5,
        tries: 1,
        begun: 1,
        calls: 3,
        committed: 0,
        given_up: 1,
    },
    Case {
        section: 5,
        tries: 3,
        begun: 3,
        calls: 9,
        committed: 0,
        given_up: 1,
    },
    Case {
        section: 6,
        tries: 3,
        begun: 1,
        calls: 3,
        committed: 1,
        given_up: 0,
    },
    Case {
        section: 6,
        tries: 0,
        begun: 0,
        calls: 0,
        committed: 0,
        given_up: 1,
    },
];

/// The calls of a try: its begin, its one step and its end.
const TRY: u64 = 3;

/// How many transactions a worker has begun, and how many calls it has made.
#[derive(Drop)]
struct Counts {
    begun: AtomicU64,
    calls: AtomicU64,
}

impl Counts {
    fn new() -> Counts {
        Counts {
            begun: AtomicU64::new(0),
            calls: AtomicU64::new(0),
        }
    }
}

impl Gate for Counts {
    fn before<R: Wait>(&self, _rt: &R, _examiner: u32, call: u64) {
        if call % TRY == 0 {
            self.begun.fetch_add(1, Ordering::SeqCst);
        }
    }

    fn after<R: Wait>(&self, _rt: &R, _examiner: u32, _call: u64) {
        self.calls.fetch_add(1, Ordering::SeqCst);
    }
}

fn assert_counts(rt: &impl Abort, counts: &Counts, case: &Case) {
    let begun = counts.begun.load(Ordering::SeqCst);
    must(rt, begun == case.begun, "so often it begins");
    let calls = counts.calls.load(Ordering::SeqCst);
    must(rt, calls == case.calls, "so many calls");
}

fn assert_worked<B: Room>(rt: &impl Abort, worked: &Worked<B>, case: &Case) {
    must(rt, worked.fault.is_none(), "no fault");
    must(rt, worked.outcomes.len() == case.committed, "committed");
    must(rt, worked.aborted == 0, "its script aborts none");
    must(rt, worked.given_up == case.given_up, "given up");
}

fn seat_back<B: Room>(rt: &impl Abort, worked: Worked<B>) -> Seat<B> {
    let Worked { seat, .. } = worked;
    seat.expect(rt, "the seat comes back")
}

fn scripts(rt: &impl Abort, alloc: Global, examiner: u32, number: u8) -> Vec<Script>
    ensures one { examiners_of result.items ≡ examiner ∷ [] }
{
    let mut scripts = Vec::new(alloc);
    let added = scripts.push(script(rt, alloc, examiner, number));
    added.expect(rt, "there is memory");
    scripts
}

fn seats<B: Room>(rt: &impl Abort, alloc: Global, seat: Seat<B>) -> Vec<Seat<B>>
    ensures one { seat_examiners result.items ≡ seat.examiner ∷ [] }
{
    let mut seats = Vec::new(alloc);
    seats.push(seat).expect(rt, "there is memory");
    seats
}

// The worker of one seat.
fn work_alone<B: Room + Send + Sync, R: Threads + Wait + Abort + Sync>(
    rt: &R,
    alloc: Global,
    office: &Office<B>,
    seat: Seat<B>,
    case: &Case,
    gate: &Counts,
) -> Worked<B> {
    let scripts = scripts(rt, alloc, seat.examiner(), case.section);
    let seats = seats(rt, alloc, seat);
    match work(rt, alloc, office, seats, scripts, case.tries, gate) {
        Ok(mut worked) => worked.pop().expect(rt, "a worker"),
        Err(_) => panic!(rt; "there is memory"),
    }
}

fn run_case<B: Room + Send + Sync, R: Threads + Wait + Abort + Sync>(
    rt: &R,
    alloc: Global,
    office: &Office<B>,
    seat: Seat<B>,
    case: &Case,
) -> Seat<B> {
    let counts = Counts::new();
    let worked = work_alone(rt, alloc, office, seat, case, &counts);
    assert_counts(rt, &counts, case);
    assert_worked(rt, &worked, case);
    seat_back(rt, worked)
}

fn run_cases<B: Room + Send + Sync, R: Threads + Wait + Abort + Sync>(
    rt: &R,
    alloc: Global,
    office: &Office<B>,
    seat: Seat<B>,
    cases: &[Case],
) {
    let mut seat = seat;
    for case in cases {
        seat = run_case(rt, alloc, office, seat, case);
    }
}

// The first examiner has section 5 all the while, and commits behind what the second one's workers committed.
fn try_beside<B: Room + Send + Sync, R: Threads + Wait + Abort + Sync>(
    rt: &R,
    alloc: Global,
    office: &Office<B>,
    first: Seat<B>,
    second: Seat<B>,
) {
    let slip = begin_with_deed(rt, alloc, office, first, 5, WHOLE);
    run_cases(rt, alloc, office, second, &CASES);
    commit_at(rt, office, slip, 2);
}

fn tries_day<B: Room + Send + Sync, R: Threads + Wait + Abort + Sync>(
    rt: &R,
    alloc: Global,
    ledger: Ledger,
    townships: &[Township],
)
    requires book { ledger ≡ B.book }
    requires setting { B.setting ≡ record { parties = 2; townships = townships.now } }
{
    let Opened {
        office,
        seats,
        viewers: _,
    } = open::<B, R>(rt, alloc, ledger, townships, 2, 0);
    let (first, second) = two_of(rt, seats);
    try_beside(rt, alloc, &office, first, second);
    office.close(rt);
}

#[test]
fn no_try_too_many(rt: HostRuntime) {
    let townships = [township(&rt)];
    tries_day::<Brand, _>(&rt, rt.alloc(), Ledger::new(), &townships);
}
