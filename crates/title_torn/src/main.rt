//! A plant's file on a disk that is torn and refuses calls: 200 transactions in eight days, and files written by hand. What stands
//! is held against what the scripts put in, and against a second reading that shares no code with the first.
//!
//! By the word `memory` it only serves a few scripts, each call that wants memory being made once more: what it tells is the same
//! whichever growth is refused, and standard error tells how many calls there were. `bench/refuse_growths.py` refuses each growth.
#![tactic(auto)]

mod client;
mod day;
mod days;
mod devices;
mod faults;
mod files;
mod large;
mod lies;
mod memory;
mod second;
mod served;
mod split;
mod tally;
mod tearing;
mod told;
mod trial;

use anyhow::Result;
use client::try_client;
use day::{Day, Plant};
use days::try_day;
use faults::try_faults;
use files::{try_beginnings, try_files};
use large::try_large;
use memory::Wanted;
use std::env;
use std::rt::Files;
use tearing::Depth;
use title_lasting::Schedule;
use told::try_script;

static DAYS: [(&str, Schedule, Depth); 8] = [
    ("monday", Schedule::Serial, Depth::Beginnings),
    ("tuesday", Schedule::Interleaved, Depth::Bytes),
    ("wednesday", Schedule::Serial, Depth::Beginnings),
    ("thursday", Schedule::Serial, Depth::Beginnings),
    ("friday", Schedule::Serial, Depth::Bytes),
    ("saturday", Schedule::Serial, Depth::Beginnings),
    ("sunday", Schedule::Interleaved, Depth::Beginnings),
    ("later", Schedule::Serial, Depth::Beginnings),
];

// Tries a day of a name on a plant, which becomes what stands after it.
fn try_named<R: Files + Print + AllocGlobal>(
    rt: &R,
    plant: &mut Plant,
    (name, schedule, depth): (&'static str, Schedule, Depth),
) -> Result<()> {
    let day = Day::read(rt, name, schedule)?;
    *plant = try_day(rt, plant, &day, depth)?;
    try_script(rt, &day, plant)
}

// The days, one on top of the other, and the beginnings of the last file.
fn try_days<R: Files + Print + AllocGlobal>(rt: &R) -> Result<()> {
    let mut plant = Plant::new(rt.alloc())?;
    for day in &DAYS {
        try_named(rt, &mut plant, *day)?;
    }
    try_beginnings(rt, plant.file.as_slice())
}

fn try_all<R: Files + Print + AllocGlobal>(rt: &R) -> Result<()> {
    try_days(rt)?;
    try_files(rt)?;
    try_faults(rt)?;
    try_client(rt)?;
    try_large(rt)
}

// Whether the first word asks for the calls that are made again where memory is refused.
fn asks_for_memory(rt: &HostRuntime) -> Result<bool> {
    match env::args(rt)?.nth(1) {
        Some(word) => Ok(word.as_str() == "memory"),
        None => Ok(false),
    }
}

// The same, made again.
fn is_of_memory(rt: &HostRuntime, wanted: &mut Wanted) -> Result<bool> {
    if let Ok(asked) = asks_for_memory(rt) {
        return Ok(asked);
    }
    wanted.count();
    asks_for_memory(rt)
}

fn main(rt: HostRuntime) -> Result<()> {
    let mut wanted = Wanted::new();
    if !is_of_memory(&rt, &mut wanted)? {
        try_all(&rt)?;
    }
    memory::tell(&rt, rt.alloc(), &mut wanted)?;
    eprintln!(rt; "growths: {} wanted memory", wanted.calls())?;
    Ok(())
}
