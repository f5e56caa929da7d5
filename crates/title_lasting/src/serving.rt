//! A day is made: its script is read and served on top of what stands, and the block that it adds is put together. All memory that
//! a day wants is taken here; nothing is written.

ghost use Rattle.std.specs.{Prelude.{◌≡◌, ◌≤◌, ◌<◌, ◌^◌, ℕ, List, Ok, false, IfErr, IfOk, OnOk, length}, Io.KnownBytes.{IsAtEnd}};
ghost use Rattle.indexmap.specs.IndexSet.{index_set_len};
ghost use Rattle.title_trace.specs.Trace.{committed};
ghost use Rattle.title_plan.specs.Asked.{asked_in};
ghost use Rattle.title_script.specs.Runs.{IsReadWithin};
ghost use Rattle.title_daybook.specs.{Books.{standing_of}, Files.{standing_in}};
ghost use Rattle.title_lasting.specs.{Made.{IsMade, IsServedAt, IsUnmade, served_at}, Replays.{HasServed}};

use crate::adding::added_block;
use crate::fault::LastingFault;
use crate::footing::{Footing, lay_footing};
use std::alloc::{AllocError, Global};
use title_daybook::laws::{added_reads_back, kept_are_written};
use title_daybook::{Standing, Stood};
use title_desk::Desk;
use title_device::Source;
use title_lock::NodeLocks;
use title_plan::laws::scripts_begin;
use title_plan::{Plan, Schedule};
use title_script::{Served, Watch, serve_onto};
use title_spelling::laws::{descriptions_stay, lands_have_cells};
use title_standing::laws::{kept_records_are_serial, replayed_records_are_committed};
use title_trace::laws::idle_have_no_steps;
use title_tree_store::TreeStore;

/// What a day has made: what came of its steps, and the block that it adds to the file, if it adds anything.
#[derive(Drop)]
pub(crate) struct Made {
    pub served: Served,
    pub block: Option<Vec<u8>>,
}

// Serves a plan at a desk that has served what stood, and puts the block together.
fn serve_at<V: Watch>(
    alloc: Global,
    desk: &mut Desk<TreeStore, NodeLocks>,
    stood: Stood,
    plan: Plan,
    watch: &mut V,
) -> Result<Made, AllocError>
    requires townships { stood.townships ≤ length plan.townships.items }
    requires parties { stood.parties ≤ index_set_len plan.parties }
    requires records { length (committed desk.old.trace) ≡ stood.records }
    ensures served { IfOk result (IsServedAt desk.old stood (asked_in plan)) }
    ensures few { OnOk result (length (committed (served_at desk.old (asked_in plan))) < 2 ^ 64) }
{
    let served = serve_onto(alloc, desk, plan, watch)?;
    let (_, records) = desk.headline();
    let plan = &served.plan;
    let block = added_block(alloc, stood, &plan.townships, &plan.parties, records)?;
    Ok(Made { served, block })
}

// As `serve_at`; lets the desk go.
fn serve<V: Watch>(
    alloc: Global,
    mut desk: Box<Desk<TreeStore, NodeLocks>>,
    stood: Stood,
    plan: Plan,
    watch: &mut V,
) -> Result<Made, AllocError>
    requires townships { stood.townships ≤ length plan.townships.items }
    requires parties { stood.parties ≤ index_set_len plan.parties }
    requires records { length (committed desk.value.trace) ≡ stood.records }
    ensures served { IfOk result (IsServedAt desk.value stood (asked_in plan)) }
    ensures few { OnOk result (length (committed (served_at desk.value (asked_in plan))) < 2 ^ 64) }
{
    serve_at(alloc, &mut desk, stood, plan, watch)
}

/// Makes a day on top of what stands, which a desk has served: reads the source's script, serves it, and puts together what it adds.
pub(crate) fn make<R: Source, V: Watch>(
    alloc: Global,
    schedule: Schedule,
    stands: Standing,
    desk: Box<Desk<TreeStore, NodeLocks>>,
    source: &mut R,
    watch: &mut V,
) -> Result<Made, LastingFault>
    requires works { R.has_failed source.old ≡ false }
    requires stands { (file : List ℕ) × (standing_in file ≡ Ok (standing_of stands)) }
    requires served { HasServed stands.townships.items (standing_of stands).records desk.value }
    ensures made { IfOk result (IsMade schedule (standing_of stands) (R.left source.old)) }
    ensures all { OnOk result (IsAtEnd (R.left source.new)) }
    ensures why { IfErr result (IsUnmade schedule (standing_of stands) (R.left source.old) (R.has_failed source.new)) }
    ensures within { IsReadWithin (R.turns source.old) (R.turns source.new) }
{
    scripts_begin();
    idle_have_no_steps();
    replayed_records_are_committed();
    kept_records_are_serial();
    added_reads_back();
    kept_are_written();
    lands_have_cells();
    descriptions_stay();
    let begun = lay_footing(alloc, schedule, stands, desk, source)?;
    let Footing {
        plan,
        desk: served,
        stood,
    } = begun;
    let made = serve(alloc, served, stood, plan, watch)?;
    Ok(made)
}
