//! Histories of offices. Scripts of two to eight examiners are run by threads in one office, and what their committed
//! transactions were answered is held against a plain machine, which runs them alone, in the order of their places.
//!
//! - `contended`: runs in which transactions were in each other's way, until there are 200 of them.
//! - Three histories by hand that no plain machine answers, and the one that they were made of.
#![tactic(auto)]

mod doctored;
mod gate;
mod plain;
mod runs;
mod scripts;

use anyhow::Result;
use doctored::Doctored;
use plain::Disagreement;
use std::sync::Wait;
use std::thread::Threads;

// How many runs with transactions in each other's way are wanted, and the most that are made for them.
const CONTENDED: u32 = 200;

const MOST_RUNS: u32 = 2_000;

fn tell_runs<R: Threads + Wait + Sync + Print + AllocGlobal>(rt: &R) -> Result<()> {
    let told = runs::run_all(rt, rt.alloc(), CONTENDED, MOST_RUNS)?;
    println!(rt;
        "contended: {} runs, {} disagree, {} ended early",
        told.contended, told.disagree, told.ended_early
    )?;
    if let Some(disagreement) = told.first {
        println!(rt; "contended: {disagreement}")?;
    }
    Ok(())
}

fn tell_found<R: Print>(rt: &R, which: &str, found: Option<Disagreement>) -> Result<()> {
    match found {
        Some(disagreement) => println!(rt; "{which}: {disagreement}")?,
        None => println!(rt; "{which}: every step agrees")?,
    }
    Ok(())
}

fn tell_each<R: Print>(rt: &R, doctored: &Doctored) -> Result<()> {
    tell_found(rt, "as it was", doctored.as_it_was()?)?;
    tell_found(rt, "two places exchanged", doctored.places_exchanged()?)?;
    tell_found(rt, "a stale sheet", doctored.stale_sheet()?)?;
    let found = doctored.aborted_deed_that_shows()?;
    tell_found(rt, "an aborted deed that shows", found)
}

fn tell_doctored<R: Print + AllocGlobal>(rt: &R) -> Result<()> {
    match Doctored::new(rt.alloc())? {
        Some(doctored) => tell_each(rt, &doctored)?,
        None => println!(rt; "there is no such section")?,
    }
    Ok(())
}

fn main(rt: HostRuntime) -> Result<()> {
    tell_runs(&rt)?;
    tell_doctored(&rt)
}
