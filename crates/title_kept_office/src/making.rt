//! A day of an office is made: its script is read on top of what stands and run there by threads, and the block that it adds is put
//! together. Nothing is written.

ghost use Rattle.std.specs.{Prelude.{◌≡◌, ◌≤◌, All, ℕ, List, Ok, false, IfErr, IfOk, OnOk, length}, Io.KnownBytes.{IsAtEnd}};
ghost use Rattle.indexmap.specs.IndexSet.{index_set_len};
ghost use Rattle.title_store.specs.Plants.{IsEachOnce};
ghost use Rattle.title_trace.specs.Trace.{committed};
ghost use Rattle.title_office.specs.Offices.{most_seats};
ghost use Rattle.title_plan.specs.Asked.{asked_in};
ghost use Rattle.title_script.specs.Runs.{IsReadWithin};
ghost use Rattle.title_daybook.specs.{Books.{standing_of}, Files.{standing_in}};
ghost use Rattle.title_dealing.specs.Turns.{IsAskedBy};
ghost use Rattle.title_lasting.specs.Replays.{HasServed};
ghost use Rattle.title_kept_office.specs.{Makings.{IsRunOn}, OfficeDays.{IsOfficeMade, IsOfficeUnmade, IsOwnTrouble}};

use crate::fault::KeptOfficeFault;
use std::alloc::Global;
use std::sync::Wait;
use std::thread::Threads;
use title_day::laws::dealt_scripts_fit;
use title_day::{Closing, close_office, run_day_on};
use title_daybook::laws::{added_reads_back, kept_are_written};
use title_daybook::{Standing, Stood};
use title_dealing::laws::offices_keep_turns_onto;
use title_dealing::{OfficeScript, deal_plan};
use title_desk::Desk;
use title_device::Source;
use title_lasting::{Footing, added_block, lay_footing};
use title_lock::NodeLocks;
use title_plan::laws::scripts_begin;
use title_plan::{Plan, Schedule};
use title_spelling::laws::{descriptions_stay, lands_have_cells};
use title_standing::laws::{kept_records_are_serial, replayed_records_are_committed};
use title_tree_store::TreeStore;

/// What a day has made: what its report shows, and the block that it adds to the file, if it adds anything.
#[derive(Drop)]
pub(crate) struct Made {
    pub closing: Closing,
    pub block: Option<Vec<u8>>,
}

// Runs what a plan asks for on a desk that has served what stood, and puts the block together.
fn run_on<T: Threads + Wait + Sync>(
    rt: &T,
    alloc: Global,
    examiners: u32,
    tries: u32,
    plan: Plan,
    desk: Box<Desk<TreeStore, NodeLocks>>,
    stood: Stood,
) -> Result<Made, KeptOfficeFault>
    requires seats { examiners ≤ most_seats }
    requires asked { All (IsAskedBy examiners) plan.lines.items }
    requires once { IsEachOnce plan.townships.items }
    requires plant { desk.value.setting.townships ≡ plan.townships.items }
    requires townships { stood.townships ≤ length plan.townships.items }
    requires parties { stood.parties ≤ index_set_len plan.parties }
    requires records { length (committed desk.value.trace) ≡ stood.records }
    ensures run { IfOk result (IsRunOn examiners (asked_in plan) desk.value stood) }
    ensures why { IfErr result IsOwnTrouble }
{
    dealt_scripts_fit();
    let script = deal_plan(alloc, examiners, plan)?;
    let OfficeScript {
        parties,
        townships,
        scripts,
        steps,
    } = script;
    let listed = townships.as_slice();
    let day = run_day_on(
        rt,
        alloc,
        Box::into_inner(desk),
        listed,
        examiners,
        scripts,
        tries,
    )?;
    let block = added_block(alloc, stood, listed, &parties, day.records.as_slice())?;
    let closing = close_office(
        alloc,
        parties,
        listed,
        steps,
        day.tallies,
        stood.records as usize,
        &day.records,
    )?;
    Ok(Made { closing, block })
}

/// Makes a day of an office of so many examiners on top of what stands, which a desk has served: reads the source's script, runs each
/// examiner's rows by a thread of its own, settles the office, and puts together what it adds.
pub(crate) fn make<T: Threads + Wait + Sync, R: Source>(
    rt: &T,
    alloc: Global,
    examiners: u32,
    tries: u32,
    stands: Standing,
    desk: Box<Desk<TreeStore, NodeLocks>>,
    source: &mut R,
) -> Result<Made, KeptOfficeFault>
    requires seats { examiners ≤ most_seats }
    requires works { R.has_failed source.old ≡ false }
    requires stands { (file : List ℕ) × (standing_in file ≡ Ok (standing_of stands)) }
    requires served { HasServed stands.townships.items (standing_of stands).records desk.value }
    ensures made { IfOk result (IsOfficeMade examiners (standing_of stands) (R.left source.old)) }
    ensures all { OnOk result (IsAtEnd (R.left source.new)) }
    ensures why { IfErr result (IsOfficeUnmade examiners (standing_of stands) (R.left source.old) (R.has_failed source.new)) }
    ensures within { IsReadWithin (R.turns source.old) (R.turns source.new) }
{
    scripts_begin();
    offices_keep_turns_onto();
    replayed_records_are_committed();
    kept_records_are_serial();
    added_reads_back();
    kept_are_written();
    lands_have_cells();
    descriptions_stay();
    let begun = lay_footing(alloc, Schedule::Office(examiners), stands, desk, source)?;
    let Footing {
        plan,
        desk: served,
        stood,
    } = begun;
    let made = run_on(rt, alloc, examiners, tries, plan, served, stood)?;
    Ok(made)
}
