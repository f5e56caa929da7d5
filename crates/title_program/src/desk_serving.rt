//! Rows at a desk, answered from the source to the output as they come.

ghost use Rattle.std.specs.{Prelude.{◌≡◌, ◌≢◌, false}, Io.KnownBytes.{IsAtEnd}};
ghost use Rattle.title_counter.specs.declared.fault.CounterFault.TheVariants as fault;
ghost use Rattle.title_program.specs.{DeskServing.{IsDeskServed}, Endings.{IsQuiet}, Faults.{of_desk}, Printing.{TellsFault}};
ghost use Rattle.title_program.specs.declared.status.Status.TheVariants as status;

use crate::ending::{Ending, Why};
use crate::fault::Fault;
use crate::printing::tell;
use crate::status::Status;
use std::alloc::Global;
use title_counter::{CounterFault, attend};
use title_device::{Sink, Source};

// Prints the line of a desk's fault; after a fault of the sink, nothing.
fn tell_desk<W: Sink>(alloc: Global, why: CounterFault, sink: &mut W) -> Status
    ensures cut { why ≡ fault.Write → sink.new ≡ sink.old }
    ensures told { why ≢ fault.Write → TellsFault (of_desk why) (W.taken sink.old) (W.taken sink.new) (W.has_failed sink.new) result }
    ensures status { result ≡ status.Failure }
{
    match why {
        CounterFault::Write => Status::Failure,
        _ => tell(alloc, Fault::from(why), sink),
    }
}

/// Serves rows as they come from the source, and writes the answer to each to the sink before more are waited for, until the source
/// has come to its end. A fault that ends this is told there by its line, but that of a sink that has failed.
pub fn serve_desk<R: Source, W: Sink>(alloc: Global, source: &mut R, sink: &mut W) -> Ending
    requires source_works { R.has_failed source.old ≡ false }
    requires sink_works { W.has_failed sink.old ≡ false }
    ensures served { IsDeskServed (R.left source.old) (R.left source.new) (R.has_failed source.new) (W.has_failed sink.new)
        (W.taken sink.old) (W.taken sink.new) result.status }
    ensures all { result.status ≡ status.Success → IsAtEnd (R.left source.new) }
    ensures quiet { IsQuiet result }
    ensures uncut { result.cut ≡ 0 }
{
    match attend(alloc, source, sink) {
        Ok(()) => Ending::success(),
        Err(why) => Ending {
            status: tell_desk(alloc, why, sink),
            why: Some(Why::Desk(why)),
            cut: 0,
        },
    }
}
