//! A viewer's calls, each made again at once where it wants memory.

use crate::parcels::Parcel;
use crate::telling::{tell_record, tell_rows};
use crate::wanted::Wanted;
use anyhow::Result;
use std::alloc::Global;
use std::io;
use title_chain::Record;
use title_land::Tract;
use title_ledger::Room;
use title_office::{Seen, Unseen, Viewer};

fn sheet<B: Room>(
    viewer: &mut Viewer<B>,
    tract: &Tract,
    wanted: &mut Wanted,
) -> Result<Seen, Unseen> {
    match viewer.sheet(tract) {
        Err(Unseen::Memory) => {
            wanted.count();
            viewer.sheet(tract)
        }
        answer => answer,
    }
}

fn record<B: Room>(
    viewer: &mut Viewer<B>,
    place: u64,
    wanted: &mut Wanted,
) -> Result<Option<Record>, Unseen> {
    match viewer.record(place) {
        Err(Unseen::Memory) => {
            wanted.count();
            viewer.record(place)
        }
        answer => answer,
    }
}

/// How many records a viewer shows.
pub fn front<B: Room>(viewer: &mut Viewer<B>, alloc: Global, wanted: &mut Wanted) -> Result<u64> {
    let tract = Parcel::Section.tract(alloc, wanted)?;
    Ok(sheet(viewer, &tract, wanted)?.front)
}

fn tell_seen(rt: &impl Print, seen: &Seen) -> io::Result<()> {
    println!(rt; "viewer: front {}", seen.front)?;
    tell_rows(rt, 0, &seen.rows)
}

fn tell_answer(rt: &impl Print, answer: Result<Seen, Unseen>) -> io::Result<()> {
    match answer {
        Ok(seen) => tell_seen(rt, &seen),
        Err(why) => println!(rt; "viewer: {why}"),
    }
}

/// Tells what a viewer shows of a parcel.
pub fn tell_sheet<B: Room>(
    rt: &impl Print,
    viewer: &mut Viewer<B>,
    alloc: Global,
    parcel: Parcel,
    wanted: &mut Wanted,
) -> Result<()> {
    let tract = parcel.tract(alloc, wanted)?;
    Ok(tell_answer(rt, sheet(viewer, &tract, wanted))?)
}

fn tell_found(rt: &impl Print, place: u64, found: Option<Record>) -> io::Result<()> {
    match found {
        Some(record) => tell_record(rt, place, &record),
        None => println!(rt; "no record {place}"),
    }
}

/// Tells the record that a viewer shows at a place, from 1.
pub fn tell_record_at<B: Room>(
    rt: &impl Print,
    viewer: &mut Viewer<B>,
    place: u64,
    wanted: &mut Wanted,
) -> Result<()> {
    Ok(tell_found(rt, place, record(viewer, place, wanted)?)?)
}

/// One that has learnt of nothing may show a front before the commit.
pub fn tell_other<B: Room>(
    rt: &impl Print,
    other: &mut Viewer<B>,
    alloc: Global,
    wanted: &mut Wanted,
) -> Result<()> {
    let shown = front(other, alloc, wanted)?;
    println!(rt; "the other viewer: front 0 or 1: {}", shown <= 1)?;
    Ok(())
}

/// Tells all that a viewer shows: sheets, one of them of land outside the plant, and records.
pub fn tell_views<B: Room>(
    rt: &impl Print,
    viewer: &mut Viewer<B>,
    alloc: Global,
    wanted: &mut Wanted,
) -> Result<()> {
    for parcel in [Parcel::Section, Parcel::Undeclared, Parcel::TwoNodes] {
        tell_sheet(rt, viewer, alloc, parcel, wanted)?;
    }
    for place in 0..3 {
        tell_record_at(rt, viewer, place, wanted)?;
    }
    tell_sheet(rt, viewer, alloc, Parcel::Everything, wanted)
}
