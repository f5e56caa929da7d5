//! Runs of scripts, from their bytes to the bytes of their reports.

ghost use Rattle.std.specs.Prelude.{◌≡◌, ◌⊎◌, false, Ok, Err, IfErr, IfOk};
ghost use Rattle.title_plan.specs.declared.fault.ScriptFault.TheVariants as script_fault;
ghost use Rattle.title_plan.specs.declared.line.Schedule.TheVariants as schedule;
ghost use Rattle.title_script.specs.{Reports.{report_of}, Runs.{IsRun}, Told.{served_text}};

use crate::fault::RunFault;
use crate::serving::serve_plan;
use crate::told::Served;
use crate::watch::{Unwatched, Watch};
use crate::writing::write_served;
use std::alloc::Global;
use title_device::{Sink, Source, read_all};
use title_lock::NodeLocks;
use title_plan::{Schedule, ScriptFault, read_script};
use title_tree_store::TreeStore;

// A script's steps, served, or its first fault, or Memory. The bytes are let go before the first step is served.
#[tactic(auto, unfolding(crate::specs::Reports::report_of))]
fn serve_script<V: Watch>(
    alloc: Global,
    schedule: Schedule,
    script: Vec<u8>,
    watch: &mut V,
) -> Result<Served, ScriptFault>
    ensures report { IfOk result (λ s. report_of schedule script.items ≡ Ok (served_text s)) }
    ensures why { IfErr result (λ e. (e ≡ script_fault.Memory) ⊎ (report_of schedule script.items ≡ Err e)) }
{
    let plan = read_script(alloc, schedule, script.as_slice())?;
    drop(script);
    let served = serve_plan::<TreeStore, NodeLocks, V>(alloc, plan, watch)?;
    Ok(served)
}

/// Reads a script whole, serves its steps in their order, and writes its report. `Interleaved`: the steps as they stand;
/// `Serial`: a step outside a transaction is a transaction of its own, and a row of another examiner inside a transaction is
/// the fault Order. Faults: Row, Order and Party of the first row at fault; Read, where the source fails or the script has
/// more than 16,777,216 bytes; Write, where the sink fails; Memory. After every fault but Write nothing has been written;
/// after Write a beginning of the report has. Who watches is told how many steps have been served.
pub fn run_by<R: Source, W: Sink, V: Watch>(
    alloc: Global,
    schedule: Schedule,
    source: &mut R,
    sink: &mut W,
    watch: &mut V,
) -> Result<(), RunFault>
    requires source_works { R.has_failed source.old ≡ false }
    requires sink_works { W.has_failed sink.old ≡ false }
    ensures run { IsRun schedule (R.left source.old) (R.left source.new) (R.turns source.old) (R.turns source.new)
        (R.has_failed source.new) (W.taken sink.old) (W.taken sink.new) (W.has_failed sink.new) result }
{
    let script = read_all(alloc, source)?;
    let served = serve_script(alloc, schedule, script, watch)?;
    write_served(alloc, sink, &served)?;
    Ok(())
}

/// `run_by` with transactions that are interleaved.
pub fn run<R: Source, W: Sink>(alloc: Global, source: &mut R, sink: &mut W) -> Result<(), RunFault>
    requires source_works { R.has_failed source.old ≡ false }
    requires sink_works { W.has_failed sink.old ≡ false }
    ensures run { IsRun schedule.Interleaved (R.left source.old) (R.left source.new) (R.turns source.old) (R.turns source.new)
        (R.has_failed source.new) (W.taken sink.old) (W.taken sink.new) (W.has_failed sink.new) result }
{
    run_by(alloc, Schedule::Interleaved, source, sink, &mut Unwatched)
}

/// `run_by` with transactions one after another.
pub fn run_alone<R: Source, W: Sink>(
    alloc: Global,
    source: &mut R,
    sink: &mut W,
) -> Result<(), RunFault>
    requires source_works { R.has_failed source.old ≡ false }
    requires sink_works { W.has_failed sink.old ≡ false }
    ensures run { IsRun schedule.Serial (R.left source.old) (R.left source.new) (R.turns source.old) (R.turns source.new)
        (R.has_failed source.new) (W.taken sink.old) (W.taken sink.new) (W.has_failed sink.new) result }
{
    run_by(alloc, Schedule::Serial, source, sink, &mut Unwatched)
}
