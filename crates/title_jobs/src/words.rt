//! What the words after the program's name ask for.

use crate::job::Job;
use anyhow::Result;
use std::env;

/// All jobs by short scripts, a job with a seed, or nothing that is understood.
#[derive(Clone, Copy)]
pub enum Asked {
    All,
    One(Job, u64),
    Nothing,
}

// The job and the seed that two words name.
fn one(job: &str, seed: &str) -> Option<Asked> {
    let job = Job::named(job)?;
    let seed = seed.parse::<u64>().ok()?;
    Some(Asked::One(job, seed))
}

/// What the words ask for.
pub fn asked_by_words(rt: &HostRuntime) -> Result<Asked> {
    let words = env::args(rt)?.skip(1).collect::<Vec<String>>(rt.alloc())?;
    match words.as_slice() {
        [] => Ok(Asked::All),
        [job, seed] => Ok(one(job.as_str(), seed.as_str()).unwrap_or(Asked::Nothing)),
        _ => Ok(Asked::Nothing),
    }
}
