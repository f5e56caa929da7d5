//! What rows have declared and committed is put into a plant's file.

ghost use Rattle.std.specs.Prelude.{◌≡◌, ◌≤◌, ◌<◌, ◌^◌, IfOk, length, reverse};
ghost use Rattle.indexmap.specs.IndexSet.{index_set_len};
ghost use Rattle.title_trace.specs.Trace.{committed};
ghost use Rattle.title_disk.specs.Crashes.{LeavesOnly};
ghost use Rattle.title_counter.specs.{Counters.{Counter}, Views.{counter_of}};
ghost use Rattle.title_lasting.specs.{Kept.{text_in}, Made.{HasStood, IsAddedBlock}};
ghost use Rattle.title_kept_desk.specs.Sittings.{ComesTo, IsKeptTo, IsUpTo, stands_at};

use crate::mark::Mark;
use std::alloc::{AllocError, Global};
use title_counter::Clerk;
use title_daybook::Stood;
use title_daybook::laws::{added_reads_back, kept_are_written};
use title_disk::Disk;
use title_journal::Gate;
use title_lasting::{LastingFault, added_block, put_block};
use title_spelling::laws::{descriptions_stay, lands_have_cells};
use title_standing::laws::{kept_records_are_serial, replayed_records_are_committed};
use title_trace::laws::idle_have_no_steps;

// The block that adds to what stood what a clerk's rows have declared and committed since.
fn clerk_block(alloc: Global, clerk: &Clerk, stood: Stood) -> Result<Option<Vec<u8>>, AllocError>
    requires townships { stood.townships ≤ length clerk.now.declared.townships.items }
    requires parties { stood.parties ≤ index_set_len clerk.now.declared.parties }
    requires records { stood.records ≤ length (committed clerk.now.desk.trace) }
    ensures block { let now = counter_of clerk.now in IfOk result (λ block. IsAddedBlock stood now.townships now.names
        (reverse (committed now.trace)) (text_in block)) }
    ensures few { length (committed clerk.now.desk.trace) < 2 ^ 64 }
{
    let declared = &clerk.declared;
    let records = clerk.desk.records();
    added_block(
        alloc,
        stood,
        &declared.townships,
        &declared.parties,
        records,
    )
}

// The mark where all that stands at a clerk's counter stands in the file.
fn mark_at(gate: Gate, clerk: &Clerk) -> Mark
    ensures gate { result.gate ≡ gate }
    ensures stood { HasStood result.stood (stands_at (counter_of clerk.now)) }
{
    Mark {
        gate,
        stood: Stood {
            townships: clerk.declared.townships.len(),
            parties: clerk.declared.parties.len(),
            records: clerk.desk.records().len() as u64,
        },
    }
}

/// Puts into the file what a clerk's rows have declared and committed since it was last put there, as one block with one pair of syncs;
/// where that is nothing, nothing is written. All memory is taken before the first write.
pub(crate) fn keep<D: Disk>(
    alloc: Global,
    clerk: &Clerk,
    disk: &mut D,
    mark: &mut Mark,
) -> Result<(), LastingFault>
    requires came { (c : Counter) × IsUpTo D.seen D.may_leave D.has_failed disk.old mark.old c × ComesTo c (counter_of clerk.now) }
    ensures kept { (c : Counter) → IsUpTo D.seen D.may_leave D.has_failed disk.old mark.old c → ComesTo c (counter_of clerk.now)
        → IsKeptTo D.seen D.may_leave D.has_failed result (LeavesOnly D.moment D.left_since disk.old disk.new) disk.new mark.new c
        (counter_of clerk.now) }
{
    idle_have_no_steps();
    replayed_records_are_committed();
    kept_records_are_serial();
    added_reads_back();
    kept_are_written();
    lands_have_cells();
    descriptions_stay();
    clerk.is_sound();
    let block = clerk_block(alloc, clerk, mark.stood)?;
    let mut gate = mark.gate;
    put_block(disk, &mut gate, &block)?;
    *mark = mark_at(gate, clerk);
    Ok(())
}
