//! Scripts, served as the program serves them.

use crate::digest::Digest;
use crate::job::Job;
use crate::offices::EXAMINERS;
use crate::script::Script;
use anyhow::Result;
use std::sync::Wait;
use std::thread::Threads;
use title_device::Device;
use title_program::{Unwatched, serve, serve_office};
use title_script::Schedule;

// How often a transaction of an office is begun at most.
const TRIES: u32 = 100;

// Prints how many bytes a script and its report have, and the digest of this.
fn tell<R: Print>(rt: &R, job: Job, script: &Script, digest: Digest) -> Result<()> {
    let (name, length) = (job.name(), script.bytes().len());
    let Digest { bytes, sum } = digest;
    println!(rt; "{name}: script {length}, report {bytes}, digest {sum:016x}")?;
    Ok(())
}

/// Serves a script's steps in their order, by its schedule.
pub fn serve_script<R: Print + AllocGlobal>(
    rt: &R,
    job: Job,
    schedule: Schedule,
    script: &Script,
) -> Result<()> {
    let mut source = Device::new(script.bytes());
    let mut digest = Digest::default();
    serve(
        rt.alloc(),
        schedule,
        &mut source,
        &mut digest,
        &mut Unwatched,
    );
    tell(rt, job, script, digest)
}

/// Serves the script of an office's day by threads.
pub fn serve_day<R: Threads + Wait + Sync + Print + AllocGlobal>(
    rt: &R,
    job: Job,
    script: &Script,
) -> Result<()> {
    let mut source = Device::new(script.bytes());
    let mut digest = Digest::default();
    serve_office(rt, rt.alloc(), EXAMINERS, TRIES, &mut source, &mut digest);
    tell(rt, job, script, digest)
}
