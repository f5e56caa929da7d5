//! The jobs.

use crate::backlog::{add_bargains, add_deeds};
use crate::chains::{add_histories, add_parts};
use crate::crowds::{add_crowd, add_interleaved};
use crate::long_tracts::add_long;
use crate::names::Names;
use crate::offices::add_day;
use crate::served::{serve_day, serve_script};
use crate::sheets::add_owners;
use anyhow::Result;
use std::sync::Wait;
use std::thread::Threads;
use title_chance::Chance;
use title_script::Schedule;

/// A job: a backlog of deeds and of bargains, sheets of many owners, chains of title, fifty examiners at once, an office's day by
/// threads, or what is awkward: long descriptions, and nearly ten thousand examiners at once.
#[derive(Clone, Copy)]
pub enum Job {
    Backlog,
    Owners,
    Histories,
    Fifty,
    Office,
    Awkward,
}

impl Job {
    /// All of them.
    pub const ALL: [Job; 6] = [
        Job::Backlog,
        Job::Owners,
        Job::Histories,
        Job::Fifty,
        Job::Office,
        Job::Awkward,
    ];

    /// Its name.
    pub fn name(self) -> &'static str {
        match self {
            Job::Backlog => "backlog",
            Job::Owners => "owners",
            Job::Histories => "histories",
            Job::Fifty => "fifty",
            Job::Office => "office",
            Job::Awkward => "awkward",
        }
    }

    /// The job of this name.
    pub fn named(name: &str) -> Option<Job> {
        Job::ALL.into_iter().find(|job| job.name() == name)
    }
}

// A number of rows or transactions; where the script is to be short, one of two hundred, and one at least.
fn some(count: u32, is_short: bool) -> u32 {
    if is_short {
        (count / 200).saturating_add(1)
    } else {
        count
    }
}

// Deeds, and bargains.
fn do_backlog<R: Print + AllocGlobal>(rt: &R, seed: u64, is_short: bool) -> Result<()> {
    let names = Names::new(rt.alloc(), 64, 200)?;
    let mut chance = Chance::new(seed);
    let mut script = names.declared(rt.alloc())?;
    add_deeds(&mut script, &names, &mut chance, some(90_000, is_short))?;
    serve_script(rt, Job::Backlog, Schedule::Serial, &script)?;
    let mut script = names.declared(rt.alloc())?;
    add_bargains(&mut script, &names, &mut chance, some(8_000, is_short))?;
    serve_script(rt, Job::Backlog, Schedule::Serial, &script)
}

// Sheets of many owners.
fn do_owners<R: Print + AllocGlobal>(rt: &R, seed: u64, is_short: bool) -> Result<()> {
    let names = Names::new(rt.alloc(), 64, 200)?;
    let mut chance = Chance::new(seed);
    let mut script = names.declared(rt.alloc())?;
    let (posted, sheets) = (some(600, is_short), some(20_000, is_short));
    add_owners(&mut script, &names, &mut chance, posted, sheets)?;
    serve_script(rt, Job::Owners, Schedule::Serial, &script)
}

// Chains of sections, and of cells.
fn do_histories<R: Print + AllocGlobal>(rt: &R, seed: u64, is_short: bool) -> Result<()> {
    let names = Names::new(rt.alloc(), 64, 200)?;
    let mut chance = Chance::new(seed);
    let mut script = names.declared(rt.alloc())?;
    let (posted, chains) = (some(2_000, is_short), some(80_000, is_short));
    add_histories(rt.alloc(), &mut script, &names, &mut chance, posted, chains)?;
    serve_script(rt, Job::Histories, Schedule::Serial, &script)?;
    let mut script = names.declared(rt.alloc())?;
    add_parts(&mut script, &names, &mut chance, some(45_000, is_short))?;
    serve_script(rt, Job::Histories, Schedule::Serial, &script)
}

// Fifty examiners at once.
fn do_fifty<R: Print + AllocGlobal>(rt: &R, seed: u64, is_short: bool) -> Result<()> {
    let names = Names::new(rt.alloc(), 64, 200)?;
    let mut chance = Chance::new(seed);
    let mut script = names.declared(rt.alloc())?;
    let rows = some(95_000, is_short);
    add_interleaved(rt.alloc(), &mut script, &names, &mut chance, 50, rows)?;
    serve_script(rt, Job::Fifty, Schedule::Interleaved, &script)
}

// An office's day.
fn do_office<R: Threads + Wait + Sync + Print + AllocGlobal>(
    rt: &R,
    seed: u64,
    is_short: bool,
) -> Result<()> {
    let names = Names::new(rt.alloc(), 64, 200)?;
    let mut chance = Chance::new(seed);
    let mut script = names.declared(rt.alloc())?;
    add_day(&mut script, &names, &mut chance, some(1_200, is_short))?;
    serve_day(rt, Job::Office, &script)
}

// Long descriptions, and a crowd.
fn do_awkward<R: Print + AllocGlobal>(rt: &R, seed: u64, is_short: bool) -> Result<()> {
    let names = Names::new(rt.alloc(), 64, 200)?;
    let mut chance = Chance::new(seed);
    let mut script = names.declared(rt.alloc())?;
    add_long(&mut script, &names, &mut chance, some(4_000, is_short))?;
    serve_script(rt, Job::Awkward, Schedule::Serial, &script)?;
    let mut script = names.declared(rt.alloc())?;
    let (examiners, posts) = (some(9_999, is_short), some(20_000, is_short));
    add_crowd(&mut script, &names, &mut chance, examiners, posts)?;
    serve_script(rt, Job::Awkward, Schedule::Interleaved, &script)
}

/// Does a job with the scripts of a seed, all or short ones.
pub fn do_job<R: Threads + Wait + Sync + Print + AllocGlobal>(
    rt: &R,
    job: Job,
    seed: u64,
    is_short: bool,
) -> Result<()> {
    match job {
        Job::Backlog => do_backlog(rt, seed, is_short),
        Job::Owners => do_owners(rt, seed, is_short),
        Job::Histories => do_histories(rt, seed, is_short),
        Job::Fifty => do_fifty(rt, seed, is_short),
        Job::Office => do_office(rt, seed, is_short),
        Job::Awkward => do_awkward(rt, seed, is_short),
    }
}
