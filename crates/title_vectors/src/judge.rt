//! What came of command lines, held against what is stored.

use crate::case::Case;
use crate::rows::field;
use crate::run::{Came, run, told_of_cut};
use crate::tally::Tally;
use anyhow::Result;
use csv::StringRecord;
use std::alloc::{AllocError, Global};
use std::rt::Files;
use std::sync::Wait;
use std::thread::Threads;

// The number of lines before the first that differs.
fn lines_alike(came: &[u8], wanted: &[u8]) -> usize {
    let mut alike = 0usize;
    for (index, byte) in came.iter().enumerate() {
        if wanted.get(index) != Some(byte) {
            break;
        }
        if *byte == b'\n' {
            alike = alike.saturating_add(1);
        }
    }
    alike
}

// The line after so many others.
fn line_after(alloc: Global, text: &[u8], others: usize) -> Result<String, AllocError> {
    match text.split(|byte| *byte == b'\n').nth(others) {
        Some(line) => String::from_utf8_lossy(alloc, line),
        None => Ok(String::new(alloc)),
    }
}

// Names a command line that doesn't end as stored, with the first line that differs.
fn tell<R: Print + AllocGlobal>(rt: &R, name: &str, case: &Case, came: &Came) -> Result<()> {
    let alike = lines_alike(came.stdout.as_slice(), case.stdout.as_slice());
    let line = line_after(rt.alloc(), came.stdout.as_slice(), alike)?;
    let status = came.status;
    println!(rt; "differs: {name}: status {status}, and after {alike} lines: {line}")?;
    Ok(())
}

// Counts a command line. One that doesn't end as stored is named.
fn judge_ending<R: Print + AllocGlobal>(
    rt: &R,
    name: &str,
    case: &Case,
    came: &Came,
    tally: &mut Tally,
) -> Result<()> {
    let is_same = came.status == case.status && came.stdout == case.stdout;
    tally.count(is_same);
    if is_same {
        return Ok(());
    }
    tell(rt, name, case, came)
}

/// Judges a description by its text, the status and the lines of its tract.
pub fn judge_tract<R: Print + AllocGlobal + Threads + Wait + Sync>(
    rt: &R,
    text: &str,
    status: &str,
    row: &StringRecord,
    tally: &mut Tally,
) -> Result<()> {
    let mut case = Case::new(rt.alloc());
    case.take_tract(text, status, row)?;
    judge_ending(rt, text, &case, &run(rt, &case), tally)
}

/// Judges a run by its files' name, the status and the words.
pub fn judge_run<R: Files + Print + AllocGlobal + Threads + Wait + Sync>(
    rt: &R,
    name: &str,
    status: &str,
    row: &StringRecord,
    tally: &mut Tally,
) -> Result<()> {
    let mut case = Case::new(rt.alloc());
    case.take_run(rt, name, status, row)?;
    judge_ending(rt, name, &case, &run(rt, &case), tally)
}

// Counts what is told on the errors. What isn't told as stored is named.
fn judge_told<R: Print + AllocGlobal>(
    rt: &R,
    name: &str,
    what: &str,
    told: &[u8],
    wanted: &str,
    tally: &mut Tally,
) -> Result<()> {
    let is_same = told == wanted.as_bytes();
    tally.count(is_same);
    if !is_same {
        let told = String::from_utf8_lossy(rt.alloc(), told)?;
        println!(rt; "tells: {name}{what}: {told}")?;
    }
    Ok(())
}

/// Judges what is told of a script by its name, the text and the words.
pub fn judge_advice<R: Files + Print + AllocGlobal + Threads + Wait + Sync>(
    rt: &R,
    name: &str,
    wanted: &str,
    row: &StringRecord,
    tally: &mut Tally,
) -> Result<()> {
    let mut case = Case::new(rt.alloc());
    case.take_script(rt, name, row)?;
    judge_told(rt, name, "", run(rt, &case).told(), wanted, tally)
}

/// Judges what is told of a number of bytes that were cut off the end of a plant's file, by whether they are kept beside it or lost, the
/// sentence and the words.
pub fn judge_cut<R: Print + AllocGlobal>(
    rt: &R,
    bytes: &str,
    kept: &str,
    row: &StringRecord,
    tally: &mut Tally,
) -> Result<()> {
    let wanted = field(row, 2)?;
    let cut = bytes.parse::<usize>()?;
    let mut case = Case::new(rt.alloc());
    case.add_words(row, 3)?;
    let told = told_of_cut(rt.alloc(), case.words.as_slice(), cut, kept == "kept");
    judge_told(rt, bytes, " bytes cut", told.as_slice(), wanted, tally)
}
