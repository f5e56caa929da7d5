//! What a script goes on from: it is read on top of what stands, and a desk has served that under the script's townships.

ghost use Rattle.std.specs.Prelude.{◌≡◌, ◌<◌, ℕ, List, Ok, false, IfErr, IfOk, OnOk, length, map, reverse, take};
ghost use Rattle.std.specs.Io.KnownBytes.{IsAtEnd};
ghost use Rattle.title_chain.specs.Alone.{most_parties};
ghost use Rattle.title_trace.specs.Due.{MayOpen};
ghost use Rattle.title_plan.specs.{Asked.{asked_in}, Onto.{before_in}};
ghost use Rattle.title_script.specs.Runs.{IsReadWithin};
ghost use Rattle.title_standing.specs.Records.{record_of};
ghost use Rattle.title_daybook.specs.{Books.{standing_of}, Files.{standing_in}};
ghost use Rattle.title_lasting.specs.{Footings.{IsFooting}, Made.{IsAsked, IsUnjoined, IsUnmade, IsUnread}, Replays.{AreShort, HasServed}};

use crate::fault::LastingFault;
use crate::replaying::{Replayed, replay_deeds};
use std::alloc::Global;
use title_daybook::{Standing, Stood};
use title_desk::Desk;
use title_device::{Source, read_all};
use title_land::Township;
use title_lock::NodeLocks;
use title_plan::laws::scripts_begin;
use title_plan::{Declared, Plan, Schedule, read_script_onto};
use title_spelling::laws::lands_have_cells;
use title_standing::Deeds;
use title_tree_store::TreeStore;

/// A script's plan on top of what stood in a plant's file, a desk that has served what stood under the townships of the plan, and how much
/// that was.
#[derive(Drop)]
pub struct Footing {
    pub plan: Plan,
    pub desk: Box<Desk<TreeStore, NodeLocks>>,
    pub stood: Stood,
}

// What a source's script asks for on top of what is declared.
fn read_plan<R: Source>(
    alloc: Global,
    schedule: Schedule,
    declared: Declared,
    source: &mut R,
) -> Result<Plan, LastingFault>
    requires works { R.has_failed source.old ≡ false }
    ensures asked { IfOk result (λ plan. IsAsked schedule (before_in declared) (R.left source.old) (asked_in plan)) }
    ensures opens { IfOk result (λ plan. MayOpen (length plan.parties.keys) plan.townships.items) }
    ensures all { OnOk result (IsAtEnd (R.left source.new)) }
    ensures why { IfErr result (IsUnread schedule (before_in declared) (R.left source.old) (R.has_failed source.new)) }
    ensures within { IsReadWithin (R.turns source.old) (R.turns source.new) }
{
    let script = read_all(alloc, source)?;
    let plan = read_script_onto(alloc, schedule, declared, script.as_slice())?;
    Ok(plan)
}

// The desk of the day: the one that has served what stood, or, where townships join, a new one that has served it under them too. The
// old one is let go first.
fn join(
    alloc: Global,
    desk: Box<Desk<TreeStore, NodeLocks>>,
    stood: usize,
    townships: &[Township],
    deeds: Vec<Deeds>,
) -> Result<Box<Desk<TreeStore, NodeLocks>>, LastingFault>
    requires served { HasServed (take stood townships.now) (reverse (map record_of deeds.items)) desk.value }
    requires opens { MayOpen most_parties townships.now }
    requires short { AreShort (reverse (map record_of deeds.items)) }
    ensures served { IfOk result (λ desk. HasServed townships.now (reverse (map record_of deeds.items)) desk.value) }
    ensures why { IfErr result (IsUnjoined townships.now (reverse (map record_of deeds.items))) }
{
    if townships.len() <= stood {
        return Ok(desk);
    }
    drop(desk);
    match replay_deeds(alloc, townships, &deeds)? {
        Replayed::Stands(joined) => Ok(joined),
        Replayed::Refused(place) => Err(LastingFault::Joins(place)),
    }
}

/// Reads a source's script on top of what stands, which a desk has served. Where the script declares townships, what stands is served
/// again under them too.
pub fn lay_footing<R: Source>(
    alloc: Global,
    schedule: Schedule,
    stands: Standing,
    desk: Box<Desk<TreeStore, NodeLocks>>,
    source: &mut R,
) -> Result<Footing, LastingFault>
    requires works { R.has_failed source.old ≡ false }
    requires stands { (file : List ℕ) × (standing_in file ≡ Ok (standing_of stands)) }
    requires served { HasServed stands.townships.items (standing_of stands).records desk.value }
    ensures footing { IfOk result (IsFooting schedule (standing_of stands) (R.left source.old)) }
    ensures all { OnOk result (IsAtEnd (R.left source.new)) }
    ensures why { IfErr result (IsUnmade schedule (standing_of stands) (R.left source.old) (R.has_failed source.new)) }
    ensures within { IsReadWithin (R.turns source.old) (R.turns source.new) }
{
    scripts_begin();
    lands_have_cells();
    let Standing {
        townships,
        parties,
        deeds,
    } = stands;
    let stood = Stood {
        townships: townships.len(),
        parties: parties.len(),
        records: deeds.len() as u64,
    };
    let declared = Declared { townships, parties };
    let plan = read_plan(alloc, schedule, declared, source)?;
    let desk = join(alloc, desk, stood.townships, &plan.townships, deeds)?;
    Ok(Footing { plan, desk, stood })
}
