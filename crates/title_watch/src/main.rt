//! How many sheets of a section viewers are shown while one examiner commits: for `bench/views.py`, which takes the time.
//!
//!     title_watch VIEWERS RECORDS SALES SHEETS
//!
//! An office commits so many records, each a deed of a section. Then so many viewers ask for so many sheets each, every one by a
//! thread, while the examiner commits so many records more. Without words it is 2 viewers, 8 records, 8 more and 100 sheets.
#![tactic(auto)]

mod job;
mod office;
mod sales;
mod views;

use anyhow::Result;
use job::Job;
use std::sync::Wait;
use std::thread::Threads;

fn tell<R: Threads + Wait + Sync + Print + AllocGlobal>(rt: &R, job: Job) -> Result<()> {
    let Some(told) = office::run(rt, rt.alloc(), job)? else {
        println!(rt; "the office doesn't open")?;
        return Ok(());
    };
    println!(rt; "{} records, {} sheets", told.records, told.sheets)?;
    Ok(())
}

fn main(rt: HostRuntime) -> Result<()> {
    let job = Job::of_words(&rt)?;
    tell(&rt, job)
}
