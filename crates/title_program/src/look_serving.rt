//! Looks at a plant's file, served from the source to the output: nothing is kept.

ghost use Rattle.std.specs.{Prelude.{◌≡◌, ◌∷◌, false}, Io.KnownBytes.{IsAtEnd}};
ghost use Rattle.title_script.specs.Runs.{IsReadWithin};
ghost use Rattle.title_program.specs.{Endings.{IsQuiet}, LookServing.{IsLookDeskServed, IsLookServed, IsLookTaken, IsLookSat}};
ghost use Rattle.title_program.specs.declared.status.Status.TheVariants as status;

use crate::ending::{Ending, Why};
use crate::keeping::{refuse_file, tell_kept};
use crate::status::Status;
use std::alloc::Global;
use title_device::{Sink, Source};
use title_disk::{Cabinet, Disk};
use title_kept_desk::look_desk_onto;
use title_lasting::look_onto;
use title_script::Watch;

// Serves the script in the source on top of what stands in a file, and keeps nothing.
fn take_look<D: Disk, R: Source, W: Sink, V: Watch>(
    alloc: Global,
    after: Option<u64>,
    file: &mut D,
    source: &mut R,
    sink: &mut W,
    watch: &mut V,
) -> Ending
    requires file_works { D.has_failed file.old ≡ false }
    requires source_works { R.has_failed source.old ≡ false }
    requires sink_works { W.has_failed sink.old ≡ false }
    ensures served { IsLookTaken D.seen D.may_leave D.moment D.left_since D.has_failed file.old after (R.left source.old)
        (R.left source.new) (R.turns source.old) (R.turns source.new) (W.taken sink.old) (W.taken sink.new) (R.has_failed source.new)
        (W.has_failed sink.new) result.cut result.status }
    ensures all { result.status ≡ status.Success → IsAtEnd (R.left source.new) }
    ensures quiet { IsQuiet result }
    ensures turns { IsReadWithin (R.turns source.old) (R.turns source.new) }
{
    let outcome = look_onto(alloc, after, file, source, sink, watch);
    match outcome {
        Ok(()) => Ending {
            status: Status::Success,
            why: None,
            cut: 0,
        },
        Err(why) => Ending {
            status: tell_kept(alloc, why, sink),
            why: Some(Why::Look(why)),
            cut: 0,
        },
    }
}

/// Serves the script in the source on top of what stands in the plant's file of this name, beside others who look at it, and writes its
/// report to the sink. Nothing is kept, and the file isn't changed: a row that doesn't only look is a fault. With `after` the last place
/// in the file has to be that one. A fault is told on the sink by its line, but that of a sink that has failed.
pub fn serve_look<K: Cabinet, R: Source, W: Sink, V: Watch>(
    alloc: Global,
    after: Option<u64>,
    plant: &str,
    cabinet: &mut K,
    source: &mut R,
    sink: &mut W,
    watch: &mut V,
) -> Ending
    requires source_works { R.has_failed source.old ≡ false }
    requires sink_works { W.has_failed sink.old ≡ false }
    ensures served { IsLookServed K.Shared.seen K.Shared.may_leave K.Shared.moment K.Shared.left_since K.Shared.has_failed
        K.shared_name K.refuses plant.now after (R.left source.old) (R.left source.new) (R.turns source.old) (R.turns source.new)
        (W.taken sink.old) (W.taken sink.new) (R.has_failed source.new) (W.has_failed sink.new) result.cut result.status }
    ensures asked { K.asked cabinet.new ≡ plant.now ∷ K.asked cabinet.old }
    ensures all { result.status ≡ status.Success → IsAtEnd (R.left source.new) }
    ensures quiet { IsQuiet result }
    ensures turns { IsReadWithin (R.turns source.old) (R.turns source.new) }
{
    let mut file = match cabinet.share(alloc, plant) {
        Ok(file) => file,
        Err(why) => return refuse_file(alloc, why, sink),
    };
    take_look(alloc, after, &mut file, source, sink, watch)
}

// Answers rows as they come on top of what stands in a file, and keeps nothing.
fn sit_looking<D: Disk, R: Source, W: Sink>(
    alloc: Global,
    file: &mut D,
    source: &mut R,
    sink: &mut W,
) -> Ending
    requires file_works { D.has_failed file.old ≡ false }
    requires source_works { R.has_failed source.old ≡ false }
    requires sink_works { W.has_failed sink.old ≡ false }
    ensures served { IsLookSat D.seen D.may_leave D.moment D.left_since D.has_failed file.old (R.left source.old)
        (R.left source.new) (W.taken sink.old) (W.taken sink.new) (R.has_failed source.new) (W.has_failed sink.new)
        result.cut result.status }
    ensures all { result.status ≡ status.Success → IsAtEnd (R.left source.new) }
    ensures quiet { IsQuiet result }
{
    let outcome = look_desk_onto(alloc, file, source, sink);
    match outcome {
        Ok(()) => Ending {
            status: Status::Success,
            why: None,
            cut: 0,
        },
        Err(why) => Ending {
            status: tell_kept(alloc, why, sink),
            why: Some(Why::LookDesk(why)),
            cut: 0,
        },
    }
}

/// Answers rows as they come from the source on top of what stands in the plant's file of this name, beside others who look at it, and
/// keeps nothing, until the source has come to its end. A fault that ends this is told there by its line, but that of a sink that has
/// failed.
pub fn serve_look_desk<K: Cabinet, R: Source, W: Sink>(
    alloc: Global,
    plant: &str,
    cabinet: &mut K,
    source: &mut R,
    sink: &mut W,
) -> Ending
    requires source_works { R.has_failed source.old ≡ false }
    requires sink_works { W.has_failed sink.old ≡ false }
    ensures served { IsLookDeskServed K.Shared.seen K.Shared.may_leave K.Shared.moment K.Shared.left_since K.Shared.has_failed
        K.shared_name K.refuses plant.now (R.left source.old) (R.left source.new) (W.taken sink.old) (W.taken sink.new)
        (R.has_failed source.new) (W.has_failed sink.new) result.cut result.status }
    ensures asked { K.asked cabinet.new ≡ plant.now ∷ K.asked cabinet.old }
    ensures all { result.status ≡ status.Success → IsAtEnd (R.left source.new) }
    ensures quiet { IsQuiet result }
{
    let mut file = match cabinet.share(alloc, plant) {
        Ok(file) => file,
        Err(why) => return refuse_file(alloc, why, sink),
    };
    sit_looking(alloc, &mut file, source, sink)
}
