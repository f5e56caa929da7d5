//! A look at a plant's file: a script that keeps nothing, on top of what stands there.

ghost use Rattle.std.specs.{Prelude.{◌≡◌, None, false, IfErr, IfOk, OnOk}, Io.KnownBytes.{IsAtEnd}};
ghost use Rattle.title_disk.specs.Crashes.{LeavesOnly};
ghost use Rattle.title_plan.specs.{Asked.{asked_in}, Onto.{before_in}};
ghost use Rattle.title_script.specs.Runs.{IsReadWithin};
ghost use Rattle.title_daybook.specs.Books.{standing_of};
ghost use Rattle.title_lasting.specs.{Days.{declared_in}, LookRows.{other_in}, Replays.{HasServed}};
ghost use Rattle.title_lasting.specs.Looks.{IsLookAsked, IsLookMade, IsLookServed, IsLookUnread, IsOtherText, Looking, LooksAt};

use crate::day::is_unexpected;
use crate::fault::LastingFault;
use crate::look_rows::find_other;
use crate::opening::{Found, find, stand};
use std::alloc::{AllocError, Global};
use title_daybook::Standing;
use title_desk::Desk;
use title_device::{Sink, Source, read_all};
use title_disk::Disk;
use title_lock::NodeLocks;
use title_plan::{Declared, Plan, Schedule, read_script_onto};
use title_script::{Served, Watch, serve_onto, write_served};
use title_standing::laws::replayed_records_are_committed;
use title_tree_store::TreeStore;

// Sees that the rows of a text only look.
fn see_rows(alloc: Global, text: &[u8]) -> Result<(), LastingFault>
    ensures looks { OnOk result (other_in text.now ≡ None) }
    ensures why { IfErr result (IsOtherText text.now) }
{
    match find_other(alloc, text)? {
        None => Ok(()),
        Some(row) => Err(LastingFault::Row(row)),
    }
}

// What a source's script asks for on top of what is declared, where its rows only look.
fn read_looks<R: Source>(
    alloc: Global,
    declared: Declared,
    source: &mut R,
) -> Result<Plan, LastingFault>
    requires works { R.has_failed source.old ≡ false }
    ensures asked { IfOk result (λ plan. IsLookAsked (before_in declared) (R.left source.old) (asked_in plan)) }
    ensures all { OnOk result (IsAtEnd (R.left source.new)) }
    ensures why { IfErr result (IsLookUnread (before_in declared) (R.left source.old) (R.has_failed source.new)) }
    ensures within { IsReadWithin (R.turns source.old) (R.turns source.new) }
{
    let script = read_all(alloc, source)?;
    let text = script.as_slice();
    see_rows(alloc, text)?;
    let plan = read_script_onto(alloc, Schedule::Serial, declared, text)?;
    Ok(plan)
}

// Serves a plan at a desk that has served what stood.
fn serve_looks_at<V: Watch>(
    alloc: Global,
    desk: &mut Desk<TreeStore, NodeLocks>,
    plan: Plan,
    watch: &mut V,
) -> Result<Served, AllocError>
    ensures served { IfOk result (IsLookServed desk.old (asked_in plan)) }
{
    let served = serve_onto(alloc, desk, plan, watch)?;
    let _ = desk.headline();
    Ok(served)
}

// As `serve_looks_at`; lets the desk go.
fn serve_looks<V: Watch>(
    alloc: Global,
    mut desk: Box<Desk<TreeStore, NodeLocks>>,
    plan: Plan,
    watch: &mut V,
) -> Result<Served, AllocError>
    ensures served { IfOk result (IsLookServed desk.value (asked_in plan)) }
{
    serve_looks_at(alloc, &mut desk, plan, watch)
}

// Serves a source's script on top of what stood, which a desk has served.
fn make_look<R: Source, V: Watch>(
    alloc: Global,
    stands: Standing,
    desk: Box<Desk<TreeStore, NodeLocks>>,
    source: &mut R,
    watch: &mut V,
) -> Result<Served, LastingFault>
    requires works { R.has_failed source.old ≡ false }
    requires served { HasServed stands.townships.items (standing_of stands).records desk.value }
    ensures made { IfOk result (IsLookMade (standing_of stands) (R.left source.old)) }
    ensures all { OnOk result (IsAtEnd (R.left source.new)) }
    ensures why { IfErr result (IsLookUnread (declared_in (standing_of stands)) (R.left source.old) (R.has_failed source.new)) }
    ensures within { IsReadWithin (R.turns source.old) (R.turns source.new) }
{
    replayed_records_are_committed();
    let Standing {
        townships,
        parties,
        deeds,
    } = stands;
    drop(deeds);
    let declared = Declared { townships, parties };
    let plan = read_looks(alloc, declared, source)?;
    let served = serve_looks(alloc, desk, plan, watch)?;
    Ok(served)
}

// Looks at what stood, which a desk has served: serves the source's script on top of it, and writes its report.
fn look_at<R: Source, W: Sink, V: Watch>(
    alloc: Global,
    stands: Standing,
    desk: Box<Desk<TreeStore, NodeLocks>>,
    source: &mut R,
    sink: &mut W,
    watch: &mut V,
) -> Result<(), LastingFault>
    requires source_works { R.has_failed source.old ≡ false }
    requires sink_works { W.has_failed sink.old ≡ false }
    requires served { HasServed stands.townships.items (standing_of stands).records desk.value }
    ensures look { LooksAt (standing_of stands) (R.left source.old) (R.left source.new) (R.turns source.old) (R.turns source.new)
        (W.taken sink.old) (W.taken sink.new) (R.has_failed source.new) (W.has_failed sink.new) result }
{
    let served = make_look(alloc, stands, desk, source, watch)?;
    Ok(write_served(alloc, sink, &served)?)
}

/// A look at a plant's file: what stands in it is read and served again, the source's script is read whole and served on top of that, and
/// its report is written, as `run_onto` would write it by `Schedule::Serial`. Nothing is kept: the rows of the script begin, ask for
/// sheets and chains, and abort, and any other is told by `Row`. The file has its bytes at each moment, also those behind its blocks that
/// don't count. With `after` the last place has to be that one before the script is read.
///
/// The faults, in their order: `NotAPlant`; `Disk` at the reading; `After`; `Read`; `Row` of the first row that doesn't only look;
/// `Order` and `Row` of the first row at fault; `Write`; and `Memory`.
pub fn look_onto<D: Disk, R: Source, W: Sink, V: Watch>(
    alloc: Global,
    after: Option<u64>,
    disk: &mut D,
    source: &mut R,
    sink: &mut W,
    watch: &mut V,
) -> Result<(), LastingFault>
    requires disk_works { D.has_failed disk.old ≡ false }
    requires source_works { R.has_failed source.old ≡ false }
    requires sink_works { W.has_failed sink.old ≡ false }
    ensures look { Looking after (D.seen disk.old) (D.seen disk.new) (D.may_leave disk.old) (D.may_leave disk.new)
        (LeavesOnly D.moment D.left_since disk.old disk.new) (R.left source.old) (R.left source.new) (R.turns source.old)
        (R.turns source.new) (W.taken sink.old) (W.taken sink.new) (D.has_failed disk.new) (R.has_failed source.new)
        (W.has_failed sink.new) result }
{
    let found = find(alloc, disk)?;
    let desk = stand(alloc, &found)?;
    let Found { blocks: _, stands } = found;
    let last = stands.deeds.len() as u64;
    if is_unexpected(after, last) {
        return Err(LastingFault::After(last));
    }
    look_at(alloc, stands, desk, source, sink, watch)
}
