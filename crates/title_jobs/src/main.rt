//! The jobs that users of the plant wait for, on scripts that a seed makes, for `bench/run`, which takes the time.
//!
//!     title_jobs JOB SEED
//!
//! Makes the job's scripts, has them served by the calls of the program `titleplant`, and prints of each how many bytes it and its
//! report have, and a digest of the report. Without words it does all jobs by short scripts.
#![tactic(auto)]

mod backlog;
mod chains;
mod crowds;
mod digest;
mod instrument;
mod job;
mod land;
mod long_tracts;
mod names;
mod offices;
mod script;
mod served;
mod sheets;
mod words;

use anyhow::Result;
use job::{Job, do_job};
use std::sync::Wait;
use std::thread::Threads;
use words::{Asked, asked_by_words};

fn do_all<R: Threads + Wait + Sync + Print + AllocGlobal>(rt: &R) -> Result<()> {
    for job in Job::ALL {
        do_job(rt, job, 1, true)?;
    }
    Ok(())
}

fn main(rt: HostRuntime) -> Result<()> {
    match asked_by_words(&rt)? {
        Asked::All => do_all(&rt),
        Asked::One(job, seed) => do_job(&rt, job, seed, false),
        Asked::Nothing => Ok(println!(rt; "title_jobs JOB SEED")?),
    }
}
