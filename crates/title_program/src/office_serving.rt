//! Scripts of offices, served by threads from the source to the output.

ghost use Rattle.std.specs.{Prelude.{◌≡◌, ◌≢◌, ◌≤◌, false}, Io.KnownBytes.{IsAtEnd}};
ghost use Rattle.title_office.specs.Offices.{most_seats};
ghost use Rattle.title_script.specs.Runs.{IsReadWithin};
ghost use Rattle.title_program.specs.{Faults.{of_office}, OfficeServing.{IsOfficeServed, write_fault}, Endings.{IsQuiet}};
ghost use Rattle.title_program.specs.Printing.{TellsFault};
ghost use Rattle.title_program.specs.declared.status.Status.TheVariants as status;

use crate::ending::{Ending, Why};
use crate::fault::Fault;
use crate::printing::tell;
use crate::status::Status;
use std::alloc::Global;
use std::sync::Wait;
use std::thread::Threads;
use title_day::{OfficeFault, run_office};
use title_device::{Sink, Source};
use title_script::RunFault;

// Prints the line of an office's fault; after a fault of the sink, nothing.
fn tell_office<W: Sink>(alloc: Global, why: OfficeFault, sink: &mut W) -> Status
    ensures cut { why ≡ write_fault → sink.new ≡ sink.old }
    ensures told { why ≢ write_fault → TellsFault (of_office why) (W.taken sink.old) (W.taken sink.new) (W.has_failed sink.new) result }
    ensures status { result ≡ status.Failure }
{
    match why {
        OfficeFault::Run(RunFault::Write) => Status::Failure,
        _ => tell(alloc, Fault::from(why), sink),
    }
}

/// Serves the script in the source as an office of so many examiners, each a thread that begins a transaction at most so many times,
/// and writes its report to the sink. A fault is told there by its line, but that of a sink that has failed.
pub fn serve_office<T: Threads + Wait + Sync, R: Source, W: Sink>(
    rt: &T,
    alloc: Global,
    examiners: u32,
    tries: u32,
    source: &mut R,
    sink: &mut W,
) -> Ending
    requires seats { examiners ≤ most_seats }
    requires source_works { R.has_failed source.old ≡ false }
    requires sink_works { W.has_failed sink.old ≡ false }
    ensures served { IsOfficeServed examiners (R.left source.old) (R.has_failed source.new) (W.has_failed sink.new)
        (W.taken sink.old) (W.taken sink.new) result.status }
    ensures all { result.status ≡ status.Success → IsAtEnd (R.left source.new) }
    ensures quiet { IsQuiet result }
    ensures uncut { result.cut ≡ 0 }
    ensures turns { IsReadWithin (R.turns source.old) (R.turns source.new) }
{
    match run_office(rt, alloc, examiners, tries, source, sink) {
        Ok(()) => Ending::success(),
        Err(why) => Ending {
            status: tell_office(alloc, why, sink),
            why: Some(Why::Office(examiners, why)),
            cut: 0,
        },
    }
}
