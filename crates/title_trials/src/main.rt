//! Compares what is meant to be one, by lists of calls that are the same in every run, and prints how many lists differ.
//!
//! - `locks`: the two tables of locks, `NodeLocks`, listed and by node in turn, and `RowLocks`, by their answers and by the modes
//!   that they tell.
//! - `counts`: how many examiners hold a node in each mode, IS to X, in a worked case.
//! - `soak`: a million calls of one table of locks, after which nobody holds anything.
//! - `stores`: the two stores, `CellStore` and `TreeStore`, each behind a desk, by their replies and their sheets; and
//!   that trees have the fewest nodes once nobody has a transaction open, and after each ask that is a transaction of its own.
//!
//! With the word `growths` it makes ten short lists of each alone. A call that wants memory is made again, so it prints the same
//! whichever growth is refused, and tells on standard error how many calls wanted memory (`bench/refuse_growths.py`).
#![tactic(auto)]

mod calls;
mod counts;
mod locks;
mod replies;
mod soak;
mod spread;
mod stores;
mod turns;

use anyhow::Result;
use counts::{Case, Counts};
use replies::Tally;
use std::env;
use title_chance::Reach;
use title_lock::{Guards, LockFault, NodeLocks};

// The lists of each run.
const LOCKS: locks::Extent = locks::Extent {
    lists: 200,
    calls: 300,
    tracts: 200,
};

const STORES: stores::Extent = stores::Extent {
    lists: 200,
    requests: 100,
    alone: 12,
    examiners: 8,
    tracts: 100,
    reach: Reach::Plant,
};

const LONG: stores::Extent = stores::Extent {
    lists: 1,
    requests: 1_000,
    alone: 100,
    examiners: 8,
    tracts: 100,
    reach: Reach::Plant,
};

// The lists of a run whose growths are refused in turn.
const FEW_LOCKS: locks::Extent = locks::Extent {
    lists: 10,
    calls: 40,
    tracts: 20,
};

const FEW_STORES: stores::Extent = stores::Extent {
    lists: 9,
    requests: 16,
    alone: 4,
    examiners: 2,
    tracts: 20,
    reach: Reach::Section,
};

const ONE_MORE: stores::Extent = stores::Extent {
    lists: 1,
    requests: 40,
    alone: 12,
    examiners: 3,
    tracts: 20,
    reach: Reach::Section,
};

// Asks both tables of locks; how many calls wanted memory.
fn tell_locks<R: Print + AllocGlobal>(rt: &R, extent: locks::Extent) -> Result<u32> {
    let compared = locks::compare(rt.alloc(), extent)?;
    let (free, in_the_way) = (compared.tally.free, compared.tally.in_the_way);
    println!(rt;
        "locks: {} lists of {} calls, {} differ",
        extent.lists, extent.calls, compared.differ
    )?;
    println!(rt; "locks: {free} free, {in_the_way} with one in the way")?;
    Ok(compared.tally.wanted)
}

fn tell_counts<R: Print>(rt: &R, counts: &Counts) -> Result<()> {
    println!(rt; "counts: {:?} at all of the plant", counts.plant)?;
    println!(rt; "counts: {:?} at the section", counts.section)?;
    println!(rt; "counts: {:?} at its quarter", counts.quarter)?;
    println!(rt; "counts: {:?} in the corner", counts.corner)?;
    println!(rt; "counts: {:?} beside the corner", counts.beside)?;
    Ok(())
}

// The counts of the case in a table of locks, and those when examiner 1 has given back.
fn count_case<R: AllocGlobal>(rt: &R) -> Result<(Counts, Counts), LockFault> {
    let (case, mut locks) = (Case::new(), NodeLocks::new(rt.alloc()));
    case.ask(&mut locks)?;
    let before = case.counts(&locks);
    locks.give_back(1);
    Ok((before, case.counts(&locks)))
}

fn tell_case<R: Print + AllocGlobal>(rt: &R) -> Result<()> {
    let (before, after) = count_case(rt)?;
    tell_counts(rt, &before)?;
    println!(rt; "counts: 1 gives back")?;
    tell_counts(rt, &after)
}

fn tell_soak<R: Print + AllocGlobal>(rt: &R) -> Result<()> {
    let soaked = soak::soak(rt.alloc())?;
    let (free, in_the_way) = (soaked.tally.free, soaked.tally.in_the_way);
    println!(rt;
        "soak: {} calls, {free} free, {in_the_way} with one in the way",
        soak::CALLS
    )?;
    println!(rt;
        "soak: {} counted at the nodes, and {} when all have given back",
        soaked.before, soaked.after
    )?;
    Ok(())
}

// What was replied to requests.
fn tell_requests<R: Print>(rt: &R, tally: Tally) -> Result<()> {
    println!(rt;
        "stores: {} posted, {} refused, {} sheets",
        tally.posted, tally.refused, tally.sheets
    )?;
    println!(rt;
        "stores: {} conflicts, {} commits, {} aborts, {} others",
        tally.conflicts, tally.committed, tally.aborted, tally.others
    )?;
    Ok(())
}

// What was replied to asks alone.
fn tell_alone<R: Print>(rt: &R, alone: Tally) -> Result<()> {
    println!(rt;
        "stores: alone {} posted, {} refused, {} sheets and chains, {} others",
        alone.posted, alone.refused, alone.sheets, alone.others
    )?;
    Ok(())
}

// Asks both stores; how many requests wanted memory.
fn tell_stores<R: Print + AllocGlobal>(
    rt: &R,
    extent: stores::Extent,
    last: stores::Extent,
) -> Result<u32> {
    let compared = stores::compare(rt.alloc(), extent, last)?;
    let (differ, tally, alone) = (compared.differ, compared.tally, compared.alone);
    println!(rt;
        "stores: {} lists of {} requests and one of {}, {differ} differ or stay untidy",
        extent.lists, extent.requests, last.requests
    )?;
    tell_requests(rt, tally)?;
    tell_alone(rt, alone)?;
    Ok(tally.wanted.saturating_add(alone.wanted))
}

// Whether the first word is `growths`.
fn are_growths_asked(rt: &HostRuntime) -> Result<bool> {
    for word in env::args(rt)?.skip(1) {
        return Ok(word.as_str() == "growths");
    }
    Ok(false)
}

// The short lists, and how many calls wanted memory, beside those before.
fn tell_growths(rt: &HostRuntime, before: u32) -> Result<()> {
    let of_locks = tell_locks(rt, FEW_LOCKS)?;
    let of_stores = tell_stores(rt, FEW_STORES, ONE_MORE)?;
    let wanted = before.saturating_add(of_locks).saturating_add(of_stores);
    eprintln!(rt; "growths: {wanted} wanted memory")?;
    Ok(())
}

fn tell_all(rt: &HostRuntime) -> Result<()> {
    tell_locks(rt, LOCKS)?;
    tell_case(rt)?;
    tell_soak(rt)?;
    tell_stores(rt, STORES, LONG)?;
    Ok(())
}

fn main(rt: HostRuntime) -> Result<()> {
    let (are_growths, wanted) = match are_growths_asked(&rt) {
        Ok(are_growths) => (are_growths, 0),
        Err(_) => (are_growths_asked(&rt)?, 1),
    };
    if are_growths {
        tell_growths(&rt, wanted)
    } else {
        tell_all(&rt)
    }
}
