//! A node that as many examiners hold as there may be.

use crate::case::{Case, Tried};
use crate::held::{asks, is_counted};
use crate::parcel::Parcel;
use anyhow::Result;
use std::alloc::Global;
use title_lock::{Access, Guards, LockFault, NodeLocks};
use title_script::Schedule;

const EXAMINERS: u32 = 9_999;

// All read a section.
fn read_all(locks: &mut NodeLocks) -> Result<()> {
    for examiner in 1..=EXAMINERS {
        asks(locks, examiner, Parcel::section(1), Access::Read, Ok(()))?;
    }
    is_counted(locks, Parcel::section(1), [0, 0, 9_999, 0, 0])?;
    is_counted(locks, Parcel::Township(0), [9_999, 0, 0, 0, 0])
}

// The last may post there as soon as it is alone.
fn post_alone(locks: &mut NodeLocks) -> Result<()> {
    let (section, conflict) = (Parcel::section(1), Err(LockFault::Conflict(1)));
    asks(locks, EXAMINERS, section, Access::Post, conflict)?;
    for examiner in 1..EXAMINERS {
        locks.give_back(examiner);
    }
    asks(locks, EXAMINERS, section, Access::Post, Ok(()))?;
    is_counted(locks, section, [0, 0, 0, 0, 1])
}

fn try_locks(locks: &mut NodeLocks) -> Result<()> {
    read_all(locks)?;
    post_alone(locks)
}

fn add_readers(case: &mut Case) {
    for examiner in 1..=EXAMINERS {
        case.step(examiner, "begin", "began");
    }
    for examiner in 1..=EXAMINERS {
        case.sheet_unsold(examiner, Parcel::section(1));
    }
}

const DEED: &str = "deed,1,UNITED STATES,ADAMS,S,W1/1,,T1N R1W sec 1";

fn add_ends(case: &mut Case) {
    case.step(EXAMINERS, DEED, "conflict,1");
    for examiner in 1..EXAMINERS {
        case.step(examiner, "commit", format_args!("committed,{examiner}"));
    }
    case.step(EXAMINERS, DEED, "posted");
    case.step(EXAMINERS, "commit", format_args!("committed,{EXAMINERS}"));
}

fn interleaved(alloc: Global) -> Result<Tried> {
    let mut case = Case::new(alloc);
    case.declare_plant(1);
    add_readers(&mut case);
    add_ends(&mut case);
    case.run(Schedule::Interleaved)
}

fn tried(alloc: Global) -> Result<Tried> {
    try_locks(&mut NodeLocks::new(alloc))?;
    interleaved(alloc)
}

/// Its readers, by the table of locks by node and by a script.
pub fn count(alloc: Global) -> Result<String> {
    let tried = tried(alloc)?;
    Ok(format!(in alloc; "{EXAMINERS}, {tried}")?)
}
