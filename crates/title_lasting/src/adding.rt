//! What is added to a plant's file: the block of it is put together, and is put into the file.

ghost use Rattle.std.specs.Prelude.{◌≡◌, ◌≤◌, None, IfOk, IfSome, OnOk, OnErr, IsErrOf, length, map, true};
ghost use Rattle.std.specs.String.{string_bytes};
ghost use Rattle.indexmap.specs.IndexSet.{index_set_len};
ghost use Rattle.title_disk.specs.Crashes.{LeavesOnly};
ghost use Rattle.title_journal.specs.{Blocks.{IsBlock, blocks_in}, Rest.{IsAtRest, StandsAlike}};
ghost use Rattle.title_lasting.specs.{Kept.{IsWithOrWithout, text_in, with_text}, Made.{IsAddedBlock}};

use indexmap::IndexSet;
use std::alloc::{AllocError, Global};
use title_chain::Record;
use title_daybook::{Stood, block};
use title_disk::Disk;
use title_journal::{Gate, PutFault, put};
use title_land::Township;

/// The block that adds to what stood what is declared and recorded behind it, the oldest record first; none where that is nothing.
pub fn added_block(
    alloc: Global,
    stood: Stood,
    townships: &[Township],
    parties: &IndexSet<String>,
    records: &[Record],
) -> Result<Option<Vec<u8>>, AllocError>
    requires townships { stood.townships ≤ length townships.now }
    requires parties { stood.parties ≤ index_set_len parties.now }
    requires records { stood.records ≤ length records.now }
    ensures block { IfOk result (λ block. IsAddedBlock stood townships.now (map string_bytes parties.now.keys) records.now
        (text_in block)) }
{
    let news = &records[stood.records as usize..];
    if townships.len() == stood.townships && parties.len() == stood.parties && news.is_empty() {
        return Ok(None);
    }
    let text = block(alloc, stood, townships, parties, news)?;
    Ok(Some(text))
}

/// Puts a block into a file at rest, where there is one; the gate moves on.
pub fn put_block<D: Disk>(
    disk: &mut D,
    gate: &mut Gate,
    block: &Option<Vec<u8>>,
) -> Result<(), PutFault>
    requires rest { IsAtRest D.seen D.may_leave D.has_failed disk.old gate.old.offset }
    requires block { IfSome block.now (λ text. IsBlock text.items) }
    ensures rest { OnOk result (IsAtRest D.seen D.may_leave D.has_failed disk.new gate.new.offset) }
    ensures stands { OnOk result (blocks_in (D.seen disk.new) ≡ with_text (text_in block.now) (blocks_in (D.seen disk.old))) }
    ensures any_moment { LeavesOnly D.moment D.left_since disk.old disk.new
        (IsWithOrWithout (text_in block.now) (D.seen disk.old)) }
    ensures before { IsErrOf result PutFault.Before
        → LeavesOnly D.moment D.left_since disk.old disk.new (StandsAlike (D.seen disk.old)) }
    ensures quiet { text_in block.now ≡ None → disk.new ≡ disk.old }
    ensures failed { OnErr result (D.has_failed disk.new ≡ true) }
{
    match block {
        Some(text) => put(disk, gate, text),
        None => Ok(()),
    }
}
