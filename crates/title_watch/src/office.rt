//! An office whose examiner commits while its viewers ask.

ghost use Rattle.std.specs.Prelude.{◌≡◌, ◌≤◌};
ghost use Rattle.title_trace.specs.Due.{MayOpen};
ghost use Rattle.title_views.specs.Views.{most_viewers};

use crate::job::Job;
use crate::sales::{Selling, first_section, sell_all, township};
use crate::views::watch_all;
use std::alloc::{AllocError, Global};
use std::marker::Brand;
use std::sync::Wait;
use std::thread::Threads;
use title_desk::may_open;
use title_land::{Township, Tract};
use title_office::{Ledger, MOST_VIEWERS, Office, Opened, Room, Seat, Viewer};

/// How many records were committed in all, and how many sheets were shown.
#[derive(Clone, Copy)]
pub struct Told {
    pub records: u32,
    pub sheets: u64,
}

// The seat of the one examiner, after the first sales.
fn sell_first<B: Room, R: Wait>(
    rt: &R,
    alloc: Global,
    office: &Office<B>,
    seats: Vec<Seat<B>>,
    records: u32,
) -> Result<Seat<B>, AllocError> {
    let mut seats = seats;
    match seats.pop() {
        Some(seat) => sell_all(rt, alloc, office, seat, 0, records),
        None => Err(AllocError),
    }
}

// Sells while the viewers ask.
fn sell_and_watch<B: Room + Send + Sync, R: Threads + Wait + Sync>(
    rt: &R,
    alloc: Global,
    office: &Office<B>,
    seats: Vec<Seat<B>>,
    viewers: Vec<Viewer<B>>,
    tract: &Tract,
    job: Job,
) -> Result<Told, AllocError> {
    let seat = sell_first(rt, alloc, office, seats, job.records)?;
    let selling = Selling {
        rt,
        alloc,
        office,
        seat,
        from: job.records,
        to: job.records.saturating_add(job.sales),
    };
    let (sheets, records) = watch_all(tract, viewers, job.sheets, selling);
    Ok(Told {
        records: records?,
        sheets: sheets?,
    })
}

fn run_in_office<B: Room + Send + Sync, R: Threads + Wait + Sync>(
    rt: &R,
    alloc: Global,
    ledger: Ledger,
    parties: u32,
    townships: &[Township],
    tract: &Tract,
    job: Job,
) -> Result<Told, AllocError>
    requires book { ledger ≡ B.book }
    requires setting { B.setting ≡ record { parties = parties; townships = townships.now } }
    requires may_open { MayOpen parties townships.now }
    requires viewers { job.viewers ≤ most_viewers }
{
    let opened = Office::<B>::open(rt, alloc, ledger, 1, parties, townships, 1, job.viewers);
    let Ok(opened) = opened else {
        return Err(AllocError);
    };
    let Opened {
        office,
        seats,
        viewers,
    } = opened;
    let told = sell_and_watch(rt, alloc, &office, seats, viewers, tract, job);
    office.close(rt);
    told
}

// The same in an office of its own parameter.
fn run_once<R: Threads + Wait + Sync>(
    rt: &R,
    alloc: Global,
    parties: u32,
    townships: &[Township],
    tract: &Tract,
    job: Job,
) -> Result<Told, AllocError>
    requires may_open { MayOpen parties townships.now }
    requires viewers { job.viewers ≤ most_viewers }
{
    run_in_office::<Brand, _>(rt, alloc, Ledger::new(), parties, townships, tract, job)
}

/// Does the job; `None` where an office can't have so many viewers.
pub fn run<R: Threads + Wait + Sync>(
    rt: &R,
    alloc: Global,
    job: Job,
) -> Result<Option<Told>, AllocError> {
    let Some(township) = township() else {
        return Ok(None);
    };
    let townships = [township];
    if job.viewers > MOST_VIEWERS || !may_open(2, &townships) {
        return Ok(None);
    }
    let tract = first_section(alloc)?;
    Ok(Some(run_once(rt, alloc, 2, &townships, &tract, job)?))
}
