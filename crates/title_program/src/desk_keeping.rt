//! Rows at a desk that a plant's file keeps, answered from the source to the output as they come.

ghost use Rattle.std.specs.{Prelude.{◌≡◌, ◌⊎◌, ◌∷◌, false}, Io.KnownBytes.{IsAtEnd}};
ghost use Rattle.title_disk.specs.Crashes.{Only};
ghost use Rattle.title_program.specs.{DeskKeeping.{IsKeptDeskServed, IsSittingServed}, Endings.{IsQuiet}};
ghost use Rattle.title_program.specs.declared.status.Status.TheVariants as status;

use crate::ending::{Ending, Why};
use crate::keeping::{refuse_file, tell_kept};
use crate::status::Status;
use std::alloc::Global;
use title_device::{Sink, Source};
use title_disk::{Cabinet, Disk};
use title_kept_desk::attend_onto;

// Serves rows as they come on top of what stands in a file, all of which is on the disk.
fn serve_sitting<D: Disk, R: Source, W: Sink>(
    alloc: Global,
    file: &mut D,
    source: &mut R,
    sink: &mut W,
) -> Ending
    requires file_works { D.has_failed file.old ≡ false }
    requires durable { Only (D.seen file.old) (D.may_leave file.old) }
    requires source_works { R.has_failed source.old ≡ false }
    requires sink_works { W.has_failed sink.old ≡ false }
    ensures served { IsSittingServed D.seen D.may_leave D.moment D.left_since D.has_failed file.old (R.left source.old)
        (R.left source.new) (W.taken sink.old) (W.taken sink.new) (R.has_failed source.new) (W.has_failed sink.new)
        result.cut result.status }
    ensures all { result.status ≡ status.Success → IsAtEnd (R.left source.new) }
    ensures quiet { IsQuiet result }
{
    let ended = attend_onto(alloc, file, source, sink);
    let cut = ended.cut;
    match ended.outcome {
        Ok(()) => Ending {
            status: Status::Success,
            why: None,
            cut,
        },
        Err(why) => Ending {
            status: tell_kept(alloc, why, sink),
            why: Some(Why::KeptDesk(why)),
            cut,
        },
    }
}

/// Serves rows as they come from the source on top of what stands in the plant's file of this name, puts into the file what they
/// declare and commit, and writes the answer to each to the sink behind that, before more are waited for, until the source has come
/// to its end. A fault that ends this is told there by its line, but that of a sink that has failed.
pub fn serve_kept_desk<K: Cabinet, R: Source, W: Sink>(
    alloc: Global,
    plant: &str,
    cabinet: &mut K,
    source: &mut R,
    sink: &mut W,
) -> Ending
    requires source_works { R.has_failed source.old ≡ false }
    requires sink_works { W.has_failed sink.old ≡ false }
    ensures served { IsKeptDeskServed K.File.seen K.File.may_leave K.File.moment K.File.left_since K.File.has_failed K.name K.refuses
        plant.now (R.left source.old) (R.left source.new) (W.taken sink.old) (W.taken sink.new) (R.has_failed source.new)
        (W.has_failed sink.new) result.cut result.status }
    ensures asked { K.asked cabinet.new ≡ plant.now ∷ K.asked cabinet.old }
    ensures all { result.status ≡ status.Success → IsAtEnd (R.left source.new) }
    ensures quiet { IsQuiet result }
{
    let mut file = match cabinet.open(alloc, plant) {
        Ok(file) => file,
        Err(why) => return refuse_file(alloc, why, sink),
    };
    serve_sitting(alloc, &mut file, source, sink)
}
