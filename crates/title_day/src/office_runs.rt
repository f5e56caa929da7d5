//! Runs of offices' scripts, from their bytes to the bytes of their reports.

ghost use Rattle.std.specs.Prelude.{◌≡◌, ◌≤◌, false, IfErr, IfOk};
ghost use Rattle.title_office.specs.Offices.{most_seats};
ghost use Rattle.title_day.specs.{Closings.{closed_text}, OfficeRuns.{IsOfficeRun, IsOwnCause, IsReportOf}};

use crate::closing::{Closing, close_office, write_closing};
use crate::office_day::run_day;
use crate::office_fault::OfficeFault;
use std::alloc::Global;
use std::sync::Wait;
use std::thread::Threads;
use title_dealing::{OfficeScript, read_office};
use title_device::{Sink, Source, read_all};

// What the report of the script of an office shows, whose examiners' rows are run by threads.
fn close_by_threads<T: Threads + Wait + Sync>(
    rt: &T,
    alloc: Global,
    examiners: u32,
    tries: u32,
    bytes: &[u8],
) -> Result<Closing, OfficeFault>
    requires seats { examiners ≤ most_seats }
    ensures report { IfOk result (λ closing. IsReportOf examiners bytes.now (closed_text closing)) }
    ensures why { IfErr result (IsOwnCause examiners bytes.now) }
{
    let script = read_office(alloc, examiners, bytes)?;
    let OfficeScript {
        parties,
        townships,
        scripts,
        steps,
    } = script;
    let count = parties.len() as u32;
    let plant = townships.as_slice();
    let day = run_day(rt, alloc, count, plant, examiners, scripts, tries)?;
    let closing = close_office(alloc, parties, plant, steps, day.tallies, 0, &day.records)?;
    Ok(closing)
}

/// Reads an office's script whole, runs each examiner's rows by a thread of its own, at most so many tries a transaction, settles the
/// office, and writes its report. Faults: those of `run_by`; that of a worker, of the least examiner; why the office can't be
/// settled. After every fault but Write nothing has been written; after Write a beginning of the report has.
pub fn run_office<T: Threads + Wait + Sync, R: Source, W: Sink>(
    rt: &T,
    alloc: Global,
    examiners: u32,
    tries: u32,
    source: &mut R,
    sink: &mut W,
) -> Result<(), OfficeFault>
    requires seats { examiners ≤ most_seats }
    requires source_works { R.has_failed source.old ≡ false }
    requires sink_works { W.has_failed sink.old ≡ false }
    ensures run { IsOfficeRun examiners (R.left source.old) (R.left source.new) (R.turns source.old) (R.turns source.new)
        (R.has_failed source.new) (W.taken sink.old) (W.taken sink.new) (W.has_failed sink.new) result }
{
    let script = read_all(alloc, source)?;
    let closing = close_by_threads(rt, alloc, examiners, tries, script.as_slice())?;
    write_closing(sink, &closing)?;
    Ok(())
}
