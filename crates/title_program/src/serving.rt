//! Scripts, served from the source to the output.

ghost use Rattle.std.specs.{Prelude.{◌≡◌, ◌≢◌, false}, Io.KnownBytes.{IsAtEnd}};
ghost use Rattle.title_script.specs.Runs.{IsReadWithin};
ghost use Rattle.title_script.specs.declared.fault.RunFault.TheVariants as fault;
ghost use Rattle.title_program.specs.{Faults.{of_run}, Endings.{IsQuiet}, Printing.{TellsFault}, Serving.{IsServed}};
ghost use Rattle.title_program.specs.declared.status.Status.TheVariants as status;

use crate::ending::{Ending, Why};
use crate::fault::Fault;
use crate::printing::tell;
use crate::status::Status;
use std::alloc::Global;
use title_device::{Sink, Source};
use title_script::{RunFault, Schedule, Watch, run_by};

// Prints the line of a run's fault; after a fault of the sink, nothing.
fn tell_run<W: Sink>(alloc: Global, why: RunFault, sink: &mut W) -> Status
    ensures cut { why ≡ fault.Write → sink.new ≡ sink.old }
    ensures told { why ≢ fault.Write → TellsFault (of_run why) (W.taken sink.old) (W.taken sink.new) (W.has_failed sink.new) result }
    ensures status { result ≡ status.Failure }
{
    match why {
        RunFault::Write => Status::Failure,
        _ => tell(alloc, Fault::from(why), sink),
    }
}

/// Serves the script in the source by its schedule, and writes its report to the sink. A fault is told there by its line, but
/// that of a sink that has failed.
pub fn serve<R: Source, W: Sink, V: Watch>(
    alloc: Global,
    schedule: Schedule,
    source: &mut R,
    sink: &mut W,
    watch: &mut V,
) -> Ending
    requires source_works { R.has_failed source.old ≡ false }
    requires sink_works { W.has_failed sink.old ≡ false }
    ensures served { IsServed schedule (R.left source.old) (R.has_failed source.new) (W.has_failed sink.new)
        (W.taken sink.old) (W.taken sink.new) result.status }
    ensures all { result.status ≡ status.Success → IsAtEnd (R.left source.new) }
    ensures quiet { IsQuiet result }
    ensures uncut { result.cut ≡ 0 }
    ensures turns { IsReadWithin (R.turns source.old) (R.turns source.new) }
{
    match run_by(alloc, schedule, source, sink, watch) {
        Ok(()) => Ending::success(),
        Err(why) => Ending {
            status: tell_run(alloc, why, sink),
            why: Some(Why::Run(schedule, why)),
            cut: 0,
        },
    }
}
