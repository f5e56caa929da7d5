//! The rows that a client of a desk sends, on a plant's file in memory: all at once, byte by byte, and broken off at each byte.

use crate::day::{Day, NEW, Plant, last_of};
use crate::devices::{FlakyReader, FlakyWriter};
use crate::served::{Served, standing};
use anyhow::Result;
use std::alloc::{AllocError, Global};
use std::rt::Files;
use title_device::Device;
use title_disk::TornDisk;
use title_kept_desk::attend_onto;
use title_lasting::{LastingFault, Schedule};

// Rows that all come at once, on a new file: which call of the disk is refused.
fn sit_at_once(alloc: Global, rows: &[u8], refused: Option<usize>) -> Result<Served, AllocError> {
    let mut disk = TornDisk::new(alloc, Vec::from_slice(alloc, NEW)?, refused);
    let mut source = Device::new(rows);
    let mut sink = Device::new(Vec::new(alloc));
    let ended = attend_onto(alloc, &mut disk, &mut source, &mut sink);
    Ok(Served {
        disk,
        cut: ended.cut,
        outcome: ended.outcome,
        report: sink.into_inner(),
    })
}

// Rows that come byte by byte, on a new file: after how many bytes the reader that gives them and the writer that takes answers fail.
fn sit_by_bytes(
    alloc: Global,
    rows: &[u8],
    read: usize,
    written: usize,
) -> Result<Served, AllocError> {
    let mut disk = TornDisk::new(alloc, Vec::from_slice(alloc, NEW)?, None);
    let mut source = Device::new(FlakyReader {
        left: rows,
        good_turns: read,
    });
    let mut sink = Device::new(FlakyWriter {
        taken: Vec::new(alloc),
        good_turns: written,
    });
    let ended = attend_onto(alloc, &mut disk, &mut source, &mut sink);
    let FlakyWriter { taken, .. } = sink.into_inner();
    Ok(Served {
        disk,
        cut: ended.cut,
        outcome: ended.outcome,
        report: taken,
    })
}

// Whether a line tells of a commit.
fn is_commit(line: &[u8]) -> bool {
    match line.split(|byte| *byte == b',').nth(1) {
        Some(word) => word == "committed".as_bytes(),
        None => false,
    }
}

// How many answers tell of a commit.
fn commits_in(answers: &[u8]) -> u64 {
    let commits = answers
        .split(|byte| *byte == b'\n')
        .filter(|line| is_commit(*line));
    commits.count() as u64
}

// The last place in a file; none where it is no plant.
fn last_in(alloc: Global, file: &[u8]) -> Result<Option<u64>, AllocError> {
    let told = standing(alloc, file)?;
    Ok(match told.outcome {
        Ok(()) => Some(last_of(told.text.as_slice())),
        Err(_) => None,
    })
}

// Whether as many transactions stand as were told, or, where it was the writer that failed, not fewer.
fn is_enough(last: Option<u64>, told: u64, wanted: LastingFault) -> bool {
    match (last, wanted) {
        (Some(last), LastingFault::Write) => last >= told,
        (Some(last), _) => last == told,
        (None, _) => false,
    }
}

// Whether a desk that is broken off after so many bytes has told the first answers alone, and so much stands.
fn is_as_told(
    alloc: Global,
    day: &Day,
    read: usize,
    written: usize,
    wanted: LastingFault,
) -> Result<bool, AllocError> {
    let sat = sit_by_bytes(alloc, day.script.as_slice(), read, written)?;
    let last = last_in(alloc, sat.disk.bytes())?;
    Ok(
        sat.outcome == Err(wanted)
            && day.report.starts_with(sat.report.as_slice())
            && is_enough(last, commits_in(sat.report.as_slice()), wanted),
    )
}

// Whether rows that all come at once are one block.
fn is_block(alloc: Global, after: &Plant, day: &Day) -> Result<bool, AllocError> {
    let sat = sit_at_once(alloc, day.script.as_slice(), None)?;
    Ok(
        sat.outcome.is_ok()
            && sat.report.as_slice() == day.report.as_slice()
            && sat.disk.bytes() == after.file.as_slice(),
    )
}

// Whether by rows that come byte by byte the same stands.
fn is_same(alloc: Global, after: &Plant, day: &Day) -> Result<bool, AllocError> {
    let sat = sit_by_bytes(alloc, day.script.as_slice(), usize::MAX, usize::MAX)?;
    let last = last_in(alloc, sat.disk.bytes())?;
    Ok(
        sat.outcome.is_ok()
            && sat.report.as_slice() == day.report.as_slice()
            && last == Some(after.last()),
    )
}

// Whether rows are served as they have to be, at once and byte by byte.
fn is_served(alloc: Global, day: &Day) -> Result<bool, AllocError> {
    let after = Plant::new(alloc)?.after(alloc, day)?;
    let is_block = is_block(alloc, &after, day)?;
    let is_same = is_same(alloc, &after, day)?;
    Ok(is_block && is_same)
}

// How many of the desks that are broken off differ: after each byte of the rows, and after each of the answers.
fn broken_off(alloc: Global, day: &Day) -> Result<u32, AllocError> {
    let mut differ = 0u32;
    for read in 0..day.script.len().saturating_add(1) {
        if !is_as_told(alloc, day, read, usize::MAX, LastingFault::Read)? {
            differ = differ.saturating_add(1);
        }
    }
    for written in 0..day.report.len() {
        if !is_as_told(alloc, day, usize::MAX, written, LastingFault::Write)? {
            differ = differ.saturating_add(1);
        }
    }
    Ok(differ)
}

// Whether nothing is told of rows that came at once where this call of the disk is refused.
fn is_refused(alloc: Global, day: &Day, call: usize) -> Result<bool, AllocError> {
    let sat = sit_at_once(alloc, day.script.as_slice(), Some(call))?;
    let wanted = if call < 5 {
        LastingFault::Disk
    } else {
        LastingFault::Unsure
    };
    Ok(sat.outcome == Err(wanted) && sat.report.is_empty())
}

// How many of the desks differ of which a call of the disk is refused.
fn refused(alloc: Global, day: &Day) -> Result<u32, AllocError> {
    let mut differ = 0u32;
    // Read; line feed, block, closed gate, sync; mark, sync.
    for call in 0..7usize {
        if !is_refused(alloc, day, call)? {
            differ = differ.saturating_add(1);
        }
    }
    Ok(differ)
}

// Tells how the rows of a client are served, whole, broken off and refused.
fn tell_client<R: Print + AllocGlobal>(rt: &R, day: &Day) -> Result<()> {
    let is_right = is_served(rt.alloc(), day)?;
    let broken = broken_off(rt.alloc(), day)?;
    let refused = refused(rt.alloc(), day)?;
    let places = day.script.len().saturating_add(day.report.len());
    let times = places.saturating_add(1);
    println!(rt;
        "a client's rows are answered: {is_right}\nbroken off {times} times: {broken} differ"
    )?;
    println!(rt; "with each call of the disk refused: {refused} differ")?;
    Ok(())
}

/// Serves the rows of the client on a new file.
pub fn try_client<R: Files + Print + AllocGlobal>(rt: &R) -> Result<()> {
    let day = Day::read(rt, "client", Schedule::Interleaved)?;
    tell_client(rt, &day)
}
