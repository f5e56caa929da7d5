//! Scripts of offices that a plant's file keeps, served by threads from the source to the output.

ghost use Rattle.std.specs.{Prelude.{◌≡◌, ◌≤◌, ◌∷◌, false}, Io.KnownBytes.{IsAtEnd}};
ghost use Rattle.title_disk.specs.Crashes.{Only};
ghost use Rattle.title_office.specs.Offices.{most_seats};
ghost use Rattle.title_script.specs.Runs.{IsReadWithin};
ghost use Rattle.title_program.specs.{Endings.{IsQuiet}, OfficeKeeping.{FailsBy, IsKeptOfficeServed, IsOfficeDayServed}};
ghost use Rattle.title_program.specs.declared.status.Status.TheVariants as status;

use crate::ending::{Ending, Why};
use crate::fault::Fault;
use crate::keeping::{refuse_file, tell_kept};
use crate::printing::tell;
use crate::status::Status;
use std::alloc::Global;
use std::sync::Wait;
use std::thread::Threads;
use title_device::{Sink, Source};
use title_disk::{Cabinet, Disk};
use title_kept_office::{KeptOfficeFault, run_office_onto};

// Prints the line of an office's fault; after a fault of the sink, nothing.
fn tell_kept_office<W: Sink>(alloc: Global, why: KeptOfficeFault, sink: &mut W) -> Status
    ensures told { FailsBy why (W.taken sink.old) (W.taken sink.new) (W.has_failed sink.old) (W.has_failed sink.new) result }
    ensures status { result ≡ status.Failure }
{
    match why {
        KeptOfficeFault::Kept(fault) => tell_kept(alloc, fault, sink),
        KeptOfficeFault::Worker(fault) => tell(alloc, Fault::from(fault), sink),
        KeptOfficeFault::Unsettled(fault) => tell(alloc, Fault::from(fault), sink),
    }
}

// Serves the script of an office on top of what stands in a file, all of which is on the disk.
fn serve_office_day<T: Threads + Wait + Sync, D: Disk, R: Source, W: Sink>(
    rt: &T,
    alloc: Global,
    examiners: u32,
    tries: u32,
    after: Option<u64>,
    file: &mut D,
    source: &mut R,
    sink: &mut W,
) -> Ending
    requires seats { examiners ≤ most_seats }
    requires file_works { D.has_failed file.old ≡ false }
    requires durable { Only (D.seen file.old) (D.may_leave file.old) }
    requires source_works { R.has_failed source.old ≡ false }
    requires sink_works { W.has_failed sink.old ≡ false }
    ensures served { IsOfficeDayServed D.seen D.may_leave D.moment D.left_since D.has_failed file.old examiners after
        (R.left source.old) (R.left source.new) (R.turns source.old) (R.turns source.new) (W.taken sink.old) (W.taken sink.new)
        (R.has_failed source.new) (W.has_failed sink.new) result.cut result.status }
    ensures all { result.status ≡ status.Success → IsAtEnd (R.left source.new) }
    ensures quiet { IsQuiet result }
    ensures turns { IsReadWithin (R.turns source.old) (R.turns source.new) }
{
    let ended = run_office_onto(rt, alloc, examiners, tries, after, file, source, sink);
    let cut = ended.cut;
    match ended.outcome {
        Ok(()) => Ending {
            status: Status::Success,
            why: None,
            cut,
        },
        Err(why) => Ending {
            status: tell_kept_office(alloc, why, sink),
            why: Some(Why::KeptOffice(examiners, why)),
            cut,
        },
    }
}

/// Serves the script in the source as an office of so many examiners on top of what stands in the plant's file of this name, puts into
/// the file what it declares and commits, and then writes its report to the sink. With `after` the last place in the file has to be that
/// one. A fault is told on the sink by its line, but that of a sink that has failed.
pub fn serve_kept_office<T: Threads + Wait + Sync, K: Cabinet, R: Source, W: Sink>(
    rt: &T,
    alloc: Global,
    examiners: u32,
    tries: u32,
    after: Option<u64>,
    plant: &str,
    cabinet: &mut K,
    source: &mut R,
    sink: &mut W,
) -> Ending
    requires seats { examiners ≤ most_seats }
    requires source_works { R.has_failed source.old ≡ false }
    requires sink_works { W.has_failed sink.old ≡ false }
    ensures served { IsKeptOfficeServed K.File.seen K.File.may_leave K.File.moment K.File.left_since K.File.has_failed K.name
        K.refuses plant.now examiners after (R.left source.old) (R.left source.new) (R.turns source.old) (R.turns source.new)
        (W.taken sink.old) (W.taken sink.new) (R.has_failed source.new) (W.has_failed sink.new) result.cut result.status }
    ensures asked { K.asked cabinet.new ≡ plant.now ∷ K.asked cabinet.old }
    ensures all { result.status ≡ status.Success → IsAtEnd (R.left source.new) }
    ensures quiet { IsQuiet result }
    ensures turns { IsReadWithin (R.turns source.old) (R.turns source.new) }
{
    let mut file = match cabinet.open(alloc, plant) {
        Ok(file) => file,
        Err(why) => return refuse_file(alloc, why, sink),
    };
    serve_office_day(rt, alloc, examiners, tries, after, &mut file, source, sink)
}
