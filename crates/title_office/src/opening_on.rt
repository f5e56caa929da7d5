//! The opening of an office on a desk that has committed records already.

ghost use Rattle.std.specs.Prelude.{◌≡◌, ◌<◌, ◌≤◌, IfErr, IfOk, OnOk, replicate, reverse, []};
ghost use Rattle.title_ledger.specs.Ledgers.{AreSerial};
ghost use Rattle.title_store.specs.Plants.{IsEachOnce};
ghost use Rattle.title_trace.specs.Trace.{committed};
ghost use Rattle.title_views.specs.Views.{most_viewers};
ghost use Rattle.title_office.specs.{declared.unopened.Unopened.TheVariants.{NoPlace}, Offices.{most_seats, opening_seats, sight_on}};

use crate::books::Books;
use crate::office::Office;
use crate::opening::{Opened, seats_of};
use crate::seat::Seat;
use crate::unopened::Unopened;
use std::alloc::{AllocError, Global};
use std::marker::Model;
use std::sync::{Mutex, Wait};
use title_chain::Record;
use title_desk::Desk;
use title_land::Township;
use title_ledger::{Ledger, Room};
use title_lock::NodeLocks;
use title_tree_store::TreeStore;
use title_views::{Fronts, Viewer};

// Publishes records, the oldest first.
fn publish_all<B: Room, R: Wait>(
    rt: &R,
    alloc: Global,
    fronts: &mut Fronts<B>,
    records: &[Record],
) -> Result<(), AllocError>
    requires none { fronts.old ≡ [] }
    requires serial { AreSerial B.setting.townships records.now }
    ensures all { OnOk result (fronts.new ≡ records.now) }
{
    for rec in records {
        let copied = rec.copy(alloc)?;
        fronts.add(rt, copied)?;
    }
    Ok(())
}

// A viewer of an office that has these records published.
fn viewer_on<B: Room>(
    alloc: Global,
    fronts: &Fronts<B>,
    number: u64,
    townships: &[Township],
) -> Result<Viewer<B>, Unopened>
    requires townships { townships.now ≡ B.setting.townships }
    requires once { IsEachOnce B.setting.townships }
    ensures viewer { IfOk result (λ viewer. viewer ≡ sight_on number fronts.now) }
{
    let townships = Vec::from_slice(alloc, townships)?;
    match fronts.viewer(alloc, number, townships) {
        Ok(viewer) => Ok(viewer),
        Err(_) => Err(Unopened::NoPlace),
    }
}

// So many viewers of an office that has these records published.
fn viewers_on<B: Room>(
    alloc: Global,
    fronts: &Fronts<B>,
    number: u64,
    townships: &[Township],
    viewers: u32,
) -> Result<Vec<Viewer<B>>, Unopened>
    requires townships { townships.now ≡ B.setting.townships }
    requires once { IsEachOnce B.setting.townships }
    ensures viewers { IfOk result (λ all. all.items ≡ replicate viewers (sight_on number fronts.now)) }
    ensures why { IfErr result (λ e. e ≡ NoPlace → 0 < viewers) }
{
    let mut all = Vec::with_capacity(alloc, viewers as usize)?;
    for _before in 0..viewers {
        all.push_reserved(viewer_on(alloc, fronts, number, townships)?);
    }
    Ok(all)
}

// Publishes records and then opens so many viewers of them.
fn fill<B: Room, R: Wait>(
    rt: &R,
    alloc: Global,
    fronts: &mut Fronts<B>,
    records: &[Record],
    number: u64,
    townships: &[Township],
    viewers: u32,
) -> Result<Vec<Viewer<B>>, Unopened>
    requires none { fronts.old ≡ [] }
    requires serial { AreSerial B.setting.townships records.now }
    requires townships { townships.now ≡ B.setting.townships }
    requires once { IsEachOnce B.setting.townships }
    ensures all { OnOk result (fronts.new ≡ records.now) }
    ensures viewers { IfOk result (λ all. all.items ≡ replicate viewers (sight_on number records.now)) }
    ensures why { IfErr result (λ e. e ≡ NoPlace → 0 < viewers) }
{
    publish_all(rt, alloc, fronts, records)?;
    viewers_on(alloc, &*fronts, number, townships, viewers)
}

// Fronts that have these records published, and so many viewers of them; where that fails, the fronts are closed.
fn watched_on<B: Room, R: Wait>(
    rt: &R,
    alloc: Global,
    ledger: Ledger,
    records: &[Record],
    number: u64,
    townships: &[Township],
    viewers: u32,
) -> Result<(Fronts<B>, Vec<Viewer<B>>), Unopened>
    requires book { ledger ≡ B.book }
    requires serial { AreSerial B.setting.townships records.now }
    requires townships { townships.now ≡ B.setting.townships }
    requires once { IsEachOnce B.setting.townships }
    requires viewers { viewers ≤ most_viewers }
    ensures all { IfOk result (λ watched. watched.0 ≡ records.now) }
    ensures viewers { IfOk result (λ watched. watched.1.items ≡ replicate viewers (sight_on number records.now)) }
    ensures why { IfErr result (λ e. e ≡ NoPlace → 0 < viewers) }
{
    let mut fronts = Fronts::<B>::open(alloc, ledger, viewers)?;
    match fill(rt, alloc, &mut fronts, records, number, townships, viewers) {
        Ok(viewers) => Ok((fronts, viewers)),
        Err(why) => {
            fronts.close(rt);
            Err(why)
        }
    }
}

// The seats of so many examiners beside such fronts and viewers.
fn seated_on<B: Room, R: Wait>(
    rt: &R,
    alloc: Global,
    ledger: Ledger,
    records: &[Record],
    number: u64,
    townships: &[Township],
    examiners: u32,
    viewers: u32,
) -> Result<(Vec<Seat<B>>, Fronts<B>, Vec<Viewer<B>>), Unopened>
    requires book { ledger ≡ B.book }
    requires serial { AreSerial B.setting.townships records.now }
    requires townships { townships.now ≡ B.setting.townships }
    requires once { IsEachOnce B.setting.townships }
    requires viewers { viewers ≤ most_viewers }
    ensures seats { IfOk result (λ seated. seated.0.items ≡ opening_seats number examiners) }
    ensures all { IfOk result (λ seated. seated.1 ≡ records.now) }
    ensures viewers { IfOk result (λ seated. seated.2.items ≡ replicate viewers (sight_on number records.now)) }
    ensures why { IfErr result (λ e. e ≡ NoPlace → 0 < viewers) }
{
    let seats = seats_of(alloc, number, examiners)?;
    let (fronts, viewers) = watched_on::<B, R>(
        rt, alloc, ledger, records, number, townships, viewers,
    )?;
    Ok((seats, fronts, viewers))
}

impl<B: Room> Office<B> {
    /// Opens an office on a desk of these townships that has committed records already, with the seats of the examiners from 1 to a
    /// number of at most 64, in order, and so many viewers, 64 at most, which have seen no record and learnt of all that stand. Faults:
    /// those of `open`.
    pub fn open_on<R: Wait>(
        rt: &R,
        alloc: Global,
        ledger: Ledger,
        number: u64,
        desk: Desk<TreeStore, NodeLocks>,
        townships: &[Township],
        examiners: u32,
        viewers: u32,
    ) -> Result<Opened<B>, Unopened>
        requires book { ledger ≡ B.book }
        requires setting { B.setting ≡ desk.setting }
        requires townships { townships.now ≡ desk.setting.townships }
        requires once { IsEachOnce townships.now }
        requires seats { examiners ≤ most_seats }
        requires viewers { viewers ≤ most_viewers }
        ensures office { IfOk result (λ opened. opened.office ≡ number) }
        ensures seats { IfOk result (λ opened. opened.seats.items ≡ opening_seats number examiners) }
        ensures viewers { IfOk result (λ opened. opened.viewers.items
            ≡ replicate viewers (sight_on number (reverse (committed desk.trace)))) }
        ensures why { IfErr result (λ e. e ≡ NoPlace → 0 < viewers) }
    {
        desk.is_due();
        desk.is_serial();
        let (seats, fronts, viewers) = seated_on::<B, R>(
            rt,
            alloc,
            ledger,
            desk.records(),
            number,
            townships,
            examiners,
            viewers,
        )?;
        let held = Books {
            alloc,
            desk,
            fronts,
        };
        let books = Mutex::new(held);
        Ok(Opened {
            office: Office { number, books },
            seats,
            viewers,
        })
    }
}
