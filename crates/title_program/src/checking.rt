//! What stands in a plant's file, told on the output.

ghost use Rattle.std.specs.Prelude.{◌≡◌, ◌≢◌, ◌⊎◌, ◌∷◌, Bool, OnOk, false, true};
ghost use Rattle.title_daybook.specs.{Files.{IsPlant}, Standing.{Standing}};
ghost use Rattle.title_lasting.specs.Tells.{IsScript, Telling, script_text};
ghost use Rattle.title_lasting.specs.declared.checking.TellFault.TheVariants as fault;
ghost use Rattle.title_program.specs.{Checking.{IsSeen, IsUnseen, telling_text}, Endings.{IsQuiet}, Faults.{of_telling}};
ghost use Rattle.title_program.specs.Printing.{TellsFault};
ghost use Rattle.title_program.specs.declared.status.Status.TheVariants as status;

use crate::ending::{Ending, Why};
use crate::fault::Fault;
use crate::keeping::refuse_file;
use crate::looked::Looked;
use crate::printing::tell;
use crate::status::Status;
use std::alloc::Global;
use title_device::Sink;
use title_disk::Cabinet;
use title_lasting::{TellFault, tell_script, tell_standing};

// Prints the line of a fault; after a fault of the sink, nothing.
fn tell_untold<W: Sink>(alloc: Global, why: TellFault, sink: &mut W) -> Status
    ensures cut { why ≡ fault.Write → sink.new ≡ sink.old }
    ensures told { why ≢ fault.Write → TellsFault (of_telling why) (W.taken sink.old) (W.taken sink.new) (W.has_failed sink.new) result }
    ensures status { result ≡ status.Failure }
{
    match why {
        TellFault::Write => Status::Failure,
        _ => tell(alloc, Fault::from(why), sink),
    }
}

// Writes to the sink what stands in a file with these bytes.
fn tell_bytes<W: Sink>(
    alloc: Global,
    bytes: Vec<u8>,
    as_script: bool,
    sink: &mut W,
) -> Result<(), TellFault>
    requires sink_works { W.has_failed sink.old ≡ false }
    ensures told { (disk_failed : Bool) × Telling bytes.items (telling_text as_script bytes.items) (W.taken sink.old) (W.taken sink.new)
        disk_failed (W.has_failed sink.new) result }
    ensures script { as_script ≡ true → OnOk result ((s : Standing) × IsPlant bytes.items s × IsScript (script_text s)) }
{
    let mut disk = Looked::new(bytes);
    if as_script {
        tell_script(alloc, &mut disk, sink)
    } else {
        tell_standing(alloc, &mut disk, sink)
    }
}

/// Writes to the sink what stands in the plant's file of this name, in numbers or as a script. The file isn't changed, and another
/// may have it open. A fault is told there by its line, but that of a sink that has failed.
pub fn check<K: Cabinet, W: Sink>(
    alloc: Global,
    file: &str,
    as_script: bool,
    cabinet: &mut K,
    sink: &mut W,
) -> Ending
    requires sink_works { W.has_failed sink.old ≡ false }
    ensures seen { IsUnseen (K.refuses file.now) (W.taken sink.old) (W.taken sink.new) (W.has_failed sink.new) result.status
        ⊎ IsSeen (K.shows file.now) as_script (W.taken sink.old) (W.taken sink.new) (W.has_failed sink.new) result.status }
    ensures asked { K.asked cabinet.new ≡ file.now ∷ K.asked cabinet.old }
    ensures quiet { IsQuiet result }
    ensures uncut { result.cut ≡ 0 }
{
    let bytes = match cabinet.look(alloc, file) {
        Ok(bytes) => bytes,
        Err(why) => return refuse_file(alloc, why, sink),
    };
    match tell_bytes(alloc, bytes, as_script, sink) {
        Ok(()) => Ending::success(),
        Err(why) => Ending {
            status: tell_untold(alloc, why, sink),
            why: Some(Why::Untold(why)),
            cut: 0,
        },
    }
}
