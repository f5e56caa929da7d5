//! Scripts that a plant's file keeps, served from the source to the output.

ghost use Rattle.std.specs.{Prelude.{◌≡◌, ◌≢◌, ◌⊎◌, ◌∷◌, false}, Io.KnownBytes.{IsAtEnd}};
ghost use Rattle.title_script.specs.Runs.{IsReadWithin};
ghost use Rattle.title_lasting.specs.declared.fault.LastingFault.TheVariants as fault;
ghost use Rattle.title_program.specs.{Faults.{fault_line, of_lasting, of_open}, Endings.{IsQuiet}, Keeping.{IsDayServed}};
ghost use Rattle.title_program.specs.{ObeyingOnto.{IsKeptServed}, Printing.{Prints, TellsFault}};
ghost use Rattle.title_disk.specs.Crashes.{Only};
ghost use Rattle.title_program.specs.declared.status.Status.TheVariants as status;

use crate::ending::{Ending, Why};
use crate::fault::Fault;
use crate::printing::{print, tell};
use crate::status::Status;
use std::alloc::Global;
use title_device::{Sink, Source};
use title_disk::{Cabinet, Disk, OpenFault};
use title_lasting::{LastingFault, run_onto};
use title_script::{Schedule, Watch};

/// Prints the line of a file that isn't opened.
pub(crate) fn refuse_file<W: Sink>(alloc: Global, why: OpenFault, sink: &mut W) -> Ending
    ensures told { TellsFault (of_open why) (W.taken sink.old) (W.taken sink.new) (W.has_failed sink.new) result.status }
    ensures status { result.status ≡ status.Failure }
    ensures uncut { result.cut ≡ 0 }
{
    let status = tell(alloc, Fault::from(why), sink);
    Ending::told(status, Some(Why::Unopened(why)))
}

/// Prints the line of a fault; after a fault of the sink, nothing. That a script may count or not is told without memory.
pub(crate) fn tell_kept<W: Sink>(alloc: Global, why: LastingFault, sink: &mut W) -> Status
    ensures cut { why ≡ fault.Write → sink.new ≡ sink.old }
    ensures unsure { why ≡ fault.Unsure → Prints (fault_line (of_lasting fault.Unsure)) status.Failure (W.taken sink.old)
        (W.taken sink.new) (W.has_failed sink.new) result }
    ensures told { why ≢ fault.Write → TellsFault (of_lasting why) (W.taken sink.old) (W.taken sink.new) (W.has_failed sink.new) result }
    ensures status { result ≡ status.Failure }
{
    match why {
        LastingFault::Write => Status::Failure,
        LastingFault::Unsure => print(sink, b"fault,40\n", Status::Failure),
        _ => tell(alloc, Fault::from(why), sink),
    }
}

// Serves the script in the source on top of what stands in a file, all of which is on the disk.
fn serve_day<D: Disk, R: Source, W: Sink, V: Watch>(
    alloc: Global,
    schedule: Schedule,
    after: Option<u64>,
    file: &mut D,
    source: &mut R,
    sink: &mut W,
    watch: &mut V,
) -> Ending
    requires file_works { D.has_failed file.old ≡ false }
    requires durable { Only (D.seen file.old) (D.may_leave file.old) }
    requires source_works { R.has_failed source.old ≡ false }
    requires sink_works { W.has_failed sink.old ≡ false }
    ensures served { IsDayServed D.seen D.may_leave D.moment D.left_since D.has_failed file.old schedule after
        (R.left source.old) (R.left source.new) (R.turns source.old) (R.turns source.new) (W.taken sink.old) (W.taken sink.new)
        (R.has_failed source.new) (W.has_failed sink.new) result.cut result.status }
    ensures all { result.status ≡ status.Success → IsAtEnd (R.left source.new) }
    ensures quiet { IsQuiet result }
    ensures turns { IsReadWithin (R.turns source.old) (R.turns source.new) }
{
    let ended = run_onto(alloc, schedule, after, file, source, sink, watch);
    let cut = ended.cut;
    match ended.outcome {
        Ok(()) => Ending {
            status: Status::Success,
            why: None,
            cut,
        },
        Err(why) => Ending {
            status: tell_kept(alloc, why, sink),
            why: Some(Why::Kept(schedule, why)),
            cut,
        },
    }
}

/// Serves the script in the source by its schedule on top of what stands in the plant's file of this name, puts into the file what the
/// script declares and commits, and then writes its report to the sink. With `after` the last place in the file has to be that one. A
/// fault is told on the sink by its line, but that of a sink that has failed.
pub fn serve_kept<K: Cabinet, R: Source, W: Sink, V: Watch>(
    alloc: Global,
    schedule: Schedule,
    after: Option<u64>,
    plant: &str,
    cabinet: &mut K,
    source: &mut R,
    sink: &mut W,
    watch: &mut V,
) -> Ending
    requires source_works { R.has_failed source.old ≡ false }
    requires sink_works { W.has_failed sink.old ≡ false }
    ensures served { IsKeptServed K.File.seen K.File.may_leave K.File.moment K.File.left_since K.File.has_failed K.name K.refuses
        plant.now schedule after (R.left source.old) (R.left source.new) (R.turns source.old) (R.turns source.new)
        (W.taken sink.old) (W.taken sink.new) (R.has_failed source.new) (W.has_failed sink.new) result.cut result.status }
    ensures asked { K.asked cabinet.new ≡ plant.now ∷ K.asked cabinet.old }
    ensures all { result.status ≡ status.Success → IsAtEnd (R.left source.new) }
    ensures quiet { IsQuiet result }
    ensures turns { IsReadWithin (R.turns source.old) (R.turns source.new) }
{
    let mut file = match cabinet.open(alloc, plant) {
        Ok(file) => file,
        Err(why) => return refuse_file(alloc, why, sink),
    };
    serve_day(alloc, schedule, after, &mut file, source, sink, watch)
}
