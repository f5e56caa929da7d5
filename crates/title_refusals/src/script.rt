//! A script that is run from its bytes to those of its report.

use crate::wanted::Wanted;
use anyhow::{Result, bail};
use std::alloc::{AllocError, Global};
use std::str;
use title_device::Device;
use title_script::{RunFault, run};

const SCRIPT: &str = "\
township,T3N R2W
party,ADAMS
party,BELL
1,begin
2,begin
1,deed,11,UNITED STATES,ADAMS,S,W1/1,,T3N R2W sec 5
2,deed,12,UNITED STATES,BELL,S,W1/1,,T3N R2W sec 6
1,chain,T3N R2W sec 5
2,commit
1,commit
3,begin
3,chain,T3N R2W
";

// More bytes than the report has.
const ROOM: usize = 1_024;

// What came of a run: how it ended, and the bytes that were written.
#[derive(Drop)]
struct Came {
    ending: Result<(), RunFault>,
    written: Vec<u8>,
}

// Runs the script once, into a list that has room for the report.
fn run_once(alloc: Global, script: &str, written: Vec<u8>) -> Came {
    let mut source = Device::new(script.as_bytes());
    let mut sink = Device::new(written);
    let ending = run(alloc, &mut source, &mut sink);
    Came {
        ending,
        written: sink.into_inner(),
    }
}

// Runs the script, and once more where memory was refused, before which nothing was written.
fn run_again(alloc: Global, script: &str, wanted: &mut Wanted) -> Result<Came> {
    let room = wanted.again(|| Vec::with_capacity(alloc, ROOM))?;
    let came = run_once(alloc, script, room);
    let Err(RunFault::Memory) = came.ending else {
        return Ok(came);
    };
    wanted.count();
    if !came.written.is_empty() {
        bail!("something was written before memory was refused");
    }
    Ok(run_once(alloc, script, came.written))
}

fn tell_lines(rt: &impl Print, report: &str) -> Result<()> {
    for line in report.lines() {
        println!(rt; "{line}")?;
    }
    Ok(())
}

/// Runs a script, and tells its report.
pub fn tell(rt: &impl Print, alloc: Global, wanted: &mut Wanted) -> Result<()> {
    let Came { ending, written } = run_again(alloc, SCRIPT, wanted)?;
    ending?;
    tell_lines(rt, str::from_utf8(written.as_slice())?)
}
