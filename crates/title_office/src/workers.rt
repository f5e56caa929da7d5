//! Scripts run by threads.

mod bench;
mod caller;
mod came;
mod crew;
mod job;
mod jobs;
mod pledge;
mod tally;
mod worker;

ghost use Rattle.std.specs.Prelude.{◌≡◌, All, IfErr, IfOk, IfSome, IsSome, None, map};
ghost use Rattle.title_turns.specs.Dealt.{told_by};
ghost use Rattle.title_office.specs.declared.fault.Fault.TheVariants as fault;
ghost use Rattle.title_office.specs.{Transactions.{AreRunsOf}, Turns.{EndsWorker}, Workers.{AreCounted, examiners_of, seat_examiners}};

use crate::fault::Fault;
use crate::gate::Gate;
use crate::office::Office;
use crate::seat::Seat;
use crate::workers::bench::Bench;
use crate::workers::crew::run_threads;
use crate::workers::jobs::Jobs;
use std::alloc::Global;
use std::marker::Model;
use std::sync::Wait;
use std::thread::Threads;
use title_ledger::Room;
use title_settle::Outcome;
use title_turns::Script;

/// What came of a script: an outcome for each transaction that was committed, in order; how many were aborted by their own script,
/// and how many were given up after the last try; the fault that ended the worker, if one did. The seat is missing only where no
/// thread was started (NoThread), or where the office took the slip for a stranger's.
#[derive(Drop)]
pub struct Worked<B: Room> {
    pub examiner: u32,
    pub seat: Option<Seat<B>>,
    pub outcomes: Vec<Outcome>,
    pub aborted: u64,
    pub given_up: u64,
    pub fault: Option<Fault>,
}

/// Runs each script by a thread of its own, from the seat at the same index. On Conflict a transaction is aborted and begun again, at most
/// so many times in all, then given up; a step refused with Invalid, TooLong or NoSuchTownship is passed over; on any other fault
/// the transaction is aborted and the worker ends with it. `Err` is Memory, before any thread is started, with both lists.
pub fn work<B: Room + Send + Sync, R: Threads + Wait + Sync, G: Gate + Sync>(
    rt: &R,
    alloc: Global,
    office: &Office<B>,
    seats: Vec<Seat<B>>,
    scripts: Vec<Script>,
    tries: u32,
    gate: &G,
) -> Result<Vec<Worked<B>>, (Vec<Seat<B>>, Vec<Script>, Fault)>
    requires fits { seat_examiners seats.items ≡ examiners_of scripts.items }
    ensures workers { IfOk result (λ worked. map (λ w. w.examiner) worked.items ≡ examiners_of scripts.items) }
    ensures counted { IfOk result (λ worked. AreCounted scripts.items (map (λ w. record {
      outcomes = w.outcomes.items;
      aborted = w.aborted;
      given_up = w.given_up;
      fault = w.fault;
    }) worked.items)) }
    ensures runs { IfOk result (λ worked.
        AreRunsOf B.setting (map told_by scripts.items) (map (λ w. w.outcomes.items) worked.items)) }
    ensures seats { IfOk result (λ worked. All (λ w. IfSome w.seat (λ s. s.examiner ≡ w.examiner)) worked.items) }
    ensures seated { IfOk result (λ worked. All (λ w. w.fault ≡ None → IsSome w.seat) worked.items) }
    ensures faults { IfOk result (λ worked. All (λ w. IfSome w.fault EndsWorker) worked.items) }
    ensures back { IfErr result (λ e. (e.0 ≡ seats) × (e.1 ≡ scripts) × (e.2 ≡ fault.Memory)) }
{
    let Ok(worked) = Vec::with_capacity(alloc, scripts.len()) else {
        return Err((seats, scripts, Fault::Memory));
    };
    let bench = Bench {
        rt,
        alloc,
        office,
        gate,
    };
    match Jobs::new(alloc, seats, scripts) {
        Ok(jobs) => Ok(run_threads(&bench, tries, jobs, worked)),
        Err((seats, scripts)) => Err((seats, scripts, Fault::Memory)),
    }
}
