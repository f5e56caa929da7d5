//! Cut and spoilt scripts, given to the functions that the program calls and to a plain second reading of the formats, which has
//! to tell the same fault at the same row, or a report of as many steps.
//!
//! - Every beginning of three scripts: two by `run` and by `alone`, one by `office`.
//! - A script of 24 bytes with each byte at each index, by `run`: 6,144 scripts.
//! - 2,000 scripts that chance makes of the three: bits turned, rows exchanged, fields left out, quotes unbalanced and more; 975 by
//!   `run`, 975 by `alone` and 50 by `office`.
#![tactic(auto)]

mod bytes;
mod cuts;
mod forms;
mod land;
mod line;
mod mutated;
mod part;
mod program;
mod reading;
mod report;
mod split;
mod spoil;
mod step;
mod tally;
mod trial;

use anyhow::Result;
use bytes::try_bytes;
use cuts::try_cuts;
use mutated::try_spoilt;
use reading::Command;
use std::fs;
use std::rt::Files;
use std::sync::Wait;
use std::thread::Threads;

// Scripts, by what command each is run, and how many spoilt ones are made of it.
static SUBJECTS: [(&str, Command, u32); 5] = [
    ("places_in_order_of_commit", Command::Run, 775),
    ("places_in_order_of_commit", Command::Alone, 200),
    ("quantum_kinds", Command::Run, 200),
    ("quantum_kinds", Command::Alone, 775),
    ("threads_two_examiners", Command::Office, 50),
];

fn script<R: Files + AllocGlobal>(rt: &R, name: &str) -> Result<Vec<u8>> {
    let path = format!(in rt.alloc(); "{name}.csv")?;
    Ok(fs::read(rt, path.as_str())?)
}

// Tries the beginnings of a script, and so many spoilt ones.
fn try_subject<R: Files + Print + AllocGlobal + Threads + Wait + Sync>(
    rt: &R,
    (name, command, count): (&str, Command, u32),
) -> Result<()> {
    let script = script(rt, name)?;
    try_cuts(rt, name, command, script.as_slice())?;
    try_spoilt(rt, name, command, script.as_slice(), count)
}

fn try_small<R: Files + Print + AllocGlobal + Threads + Wait + Sync>(rt: &R) -> Result<()> {
    let name = "small";
    let script = script(rt, name)?;
    try_bytes(rt, name, Command::Run, script.as_slice())
}

fn main(rt: HostRuntime) -> Result<()> {
    for subject in &SUBJECTS {
        try_subject(&rt, *subject)?;
    }
    try_small(&rt)
}
