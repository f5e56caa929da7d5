//! Workers run beside each other: none begins before the other has come to its begin, and the first commits only once the second has
//! made its step.

ghost use Rattle.std.specs.Prelude.{◌≡◌, [], ◌∷◌};
ghost use Rattle.title_office.specs.{Offices.{opening_seats}, Workers.{examiners_of}};

use crate::checks::must;
use crate::days::{WHOLE, deed, open, section, township};
use std::alloc::Global;
use std::marker::Brand;
use std::process::Abort;
use std::sync::Wait;
use std::sync::atomic::{AtomicBool, Ordering};
use std::thread::{Threads, yield_now};
use title_chain::Ask;
use title_land::Township;
use title_office::{Gate, Ledger, Office, Opened, Room, Script, Seat, Transaction, Worked, work};

/// The most looks that a worker has for what the other tells.
const TURNS: u32 = 1_000_000_000;

/// The first call of a worker whose script has one transaction with one step.
const BEGIN: u64 = 0;

/// Its second call.
const STEP: u64 = 1;

/// Its third and last.
const COMMIT: u64 = 2;

/// What two workers tell each other: each that it has come to its begin, the second that its step is made; and whether one has waited
/// in vain.
#[derive(Drop)]
struct Flags {
    first: AtomicBool,
    second: AtomicBool,
    stepped: AtomicBool,
    in_vain: AtomicBool,
}

impl Flags {
    fn new() -> Flags {
        Flags {
            first: AtomicBool::new(false),
            second: AtomicBool::new(false),
            stepped: AtomicBool::new(false),
            in_vain: AtomicBool::new(false),
        }
    }

    // Tells that one has come, and waits for the other.
    fn meet(&self, own: &AtomicBool, other: &AtomicBool) {
        own.store(true, Ordering::SeqCst);
        self.wait_for(other);
    }

    // Looks until the flag is set, but not for ever.
    fn wait_for(&self, flag: &AtomicBool) {
        for _ in 0..TURNS {
            if flag.load(Ordering::SeqCst) {
                return;
            }
            yield_now();
        }
        self.in_vain.store(true, Ordering::SeqCst);
    }
}

impl Gate for Flags {
    fn before<R: Wait>(&self, _rt: &R, examiner: u32, call: u64) {
        match (examiner, call) {
            (1, BEGIN) => self.meet(&self.first, &self.second),
            (1, COMMIT) => self.wait_for(&self.stepped),
            (2, BEGIN) => self.meet(&self.second, &self.first),
            _ => {}
        }
    }

    fn after<R: Wait>(&self, _rt: &R, examiner: u32, call: u64) {
        if examiner == 2 && call == STEP {
            self.stepped.store(true, Ordering::SeqCst);
        }
    }
}

// A post in this section.
fn asks(rt: &impl Abort, alloc: Global, number: u8) -> Vec<Ask> {
    let mut asks = Vec::new(alloc);
    let posting = deed(rt, alloc, section(rt, alloc, number), WHOLE);
    asks.push(Ask::Post(posting)).expect(rt, "there is memory");
    asks
}

fn transactions(rt: &impl Abort, alloc: Global, asks: Vec<Ask>) -> Vec<Transaction> {
    let mut transactions = Vec::new(alloc);
    let added = transactions.push(Transaction {
        asks,
        commits: true,
    });
    added.expect(rt, "there is memory");
    transactions
}

/// A script of one transaction with one post in this section.
pub fn script(rt: &impl Abort, alloc: Global, examiner: u32, number: u8) -> Script
    ensures examiner { result.examiner ≡ examiner }
{
    let asks = asks(rt, alloc, number);
    let transactions = transactions(rt, alloc, asks);
    Script {
        examiner,
        transactions,
    }
}

// A worker has committed its transaction.
fn assert_worked<B: Room>(rt: &impl Abort, worked: &Worked<B>) {
    must(rt, worked.fault.is_none(), "no fault");
    must(rt, worked.seat.is_some(), "the seat comes back");
    must(rt, worked.outcomes.len() == 1, "one outcome");
    must(rt, worked.aborted == 0, "none aborted");
    must(rt, worked.given_up == 0, "none given up");
}

// Each of the two workers has.
fn assert_done<B: Room>(rt: &impl Abort, worked: &[Worked<B>]) {
    must(rt, worked.len() == 2, "two workers");
    for each in worked {
        assert_worked(rt, each);
    }
}

fn scripts(rt: &impl Abort, alloc: Global) -> Vec<Script>
    ensures two { examiners_of result.items ≡ 1 ∷ 2 ∷ [] }
{
    let mut scripts = Vec::new(alloc);
    let first = scripts.push(script(rt, alloc, 1, 5));
    first.expect(rt, "there is memory");
    let second = scripts.push(script(rt, alloc, 2, 6));
    second.expect(rt, "there is memory");
    scripts
}

// Two workers, each with a script of its own, in an office of two seats.
fn work_at<B: Room + Send + Sync, R: Threads + Wait + Abort + Sync>(
    rt: &R,
    alloc: Global,
    office: &Office<B>,
    seats: Vec<Seat<B>>,
    gate: &Flags,
)
    requires seats { seats.items ≡ opening_seats 7 2 }
{
    match work(rt, alloc, office, seats, scripts(rt, alloc), 1, gate) {
        Ok(worked) => assert_done(rt, &worked),
        Err(_) => panic!(rt; "there is memory"),
    }
}

// Neither waits in vain.
fn turns_day<B: Room + Send + Sync, R: Threads + Wait + Abort + Sync>(
    rt: &R,
    alloc: Global,
    ledger: Ledger,
    townships: &[Township],
)
    requires book { ledger ≡ B.book }
    requires setting { B.setting ≡ record { parties = 2; townships = townships.now } }
{
    let gate = Flags::new();
    let Opened {
        office,
        seats,
        viewers: _,
    } = open::<B, R>(rt, alloc, ledger, townships, 2, 0);
    work_at(rt, alloc, &office, seats, &gate);
    office.close(rt);
    let is_in_vain = gate.in_vain.load(Ordering::SeqCst);
    must(rt, !is_in_vain, "none waits in vain");
}

#[test]
fn workers_overlap(rt: HostRuntime) {
    let townships = [township(&rt)];
    turns_day::<Brand, _>(&rt, rt.alloc(), Ledger::new(), &townships);
}
