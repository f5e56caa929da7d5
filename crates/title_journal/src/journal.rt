//! Reading, repairing, and putting a block.

ghost use Rattle.std.specs.Prelude.{◌≡◌, ◌≤◌, ◌<◌, ◌^◌, ◌++◌, ◌∷◌, [], ℕ, List, false, true, length, IfOk, IfErr, OnOk, OnErr, IsErrOf};
ghost use Rattle.std.specs.{Prelude.{Err}, Result.{is_err}};
ghost use Rattle.title_disk.specs.Crashes.{Only, Elapses, LeavesOnly};
ghost use Rattle.title_journal.specs.Blocks.{blocks_in, line_feed, closed_gate, IsBlock};
ghost use Rattle.title_journal.specs.Rest.{IsReadFrom, IsAtRest, StandsAlike, IsBeforeOrAfter, with_block};
ghost use Rattle.title_journal.specs.declared.fault.JournalFault.TheVariants as fault;

use crate::blocks::{Blocks, Gate, Tail};
use crate::fault::{JournalFault, PutFault};
use crate::split::split;
use crate::through::{cut_through, write_through};
use std::alloc::Global;
use title_disk::{Disk, DiskFailed};

/// The blocks that stand in a plant's file. Nothing is written.
pub fn read<D: Disk>(alloc: Global, disk: &mut D) -> Result<Blocks, JournalFault>
    requires works { D.has_failed disk.old ≡ false }
    ensures stand { IfOk result (IsReadFrom (D.seen disk.old)) }
    ensures fits { OnOk result (length (D.seen disk.old) < 2 ^ 63) }

    // `NotAPlant` is told of a file that is none, and `Failed` where the disk has failed.
    ensures not_a_plant { IfErr result (λ e. (row : ℕ) → e ≡ fault.NotAPlant row → blocks_in (D.seen disk.old) ≡ Err row) }
    ensures failed { IsErrOf result fault.Failed → D.has_failed disk.new ≡ true }
    ensures works { OnOk result (D.has_failed disk.new ≡ false) }

    // The file stays, and what a crash may leave of it.
    ensures seen { D.seen disk.new ≡ D.seen disk.old }
    ensures crash { (c : List ℕ) → D.may_leave disk.new c → D.may_leave disk.old c }
    ensures time { Elapses (D.moment disk.old) (D.moment disk.new)
        (D.left_since disk.old) (D.left_since disk.new) (D.may_leave disk.new) }
{
    let file = disk.read(alloc)?;
    split(alloc, &file)
}

/// Brings a file to rest whose blocks were read: what lies behind the last of them gives way to a closed gate. At rest it stays as
/// it is. A crash at any moment leaves what stands.
pub fn repair<D: Disk>(disk: &mut D, found: &Blocks) -> Result<(), DiskFailed>
    requires works { D.has_failed disk.old ≡ false }
    requires read { IsReadFrom (D.seen disk.old) found.now }
    requires fits { length (D.seen disk.old) < 2 ^ 63 }
    requires durable { Only (D.seen disk.old) (D.may_leave disk.old) }
    ensures rest { OnOk result (IsAtRest D.seen D.may_leave D.has_failed disk.new found.now.gate.offset) }
    ensures alike { OnOk result (StandsAlike (D.seen disk.old) (D.seen disk.new)) }
    ensures any_moment { LeavesOnly D.moment D.left_since disk.old disk.new (StandsAlike (D.seen disk.old)) }
    ensures untouched { found.now.tail ≡ Tail.Closed → disk.new ≡ disk.old }
    ensures failed { D.has_failed disk.new ≡ is_err result }
{
    match found.tail {
        Tail::Closed => Ok(()),
        Tail::Torn(_) => close(disk, found),
    }
}

// The cut is on the disk before a gate is written where the tail stood: behind a gate that is torn open it would count.
fn close<D: Disk>(disk: &mut D, found: &Blocks) -> Result<(), DiskFailed>
    requires works { D.has_failed disk.old ≡ false }
    requires read { IsReadFrom (D.seen disk.old) found.now }
    requires durable { Only (D.seen disk.old) (D.may_leave disk.old) }
    ensures rest { OnOk result (IsAtRest D.seen D.may_leave D.has_failed disk.new found.now.gate.offset) }
    ensures alike { OnOk result (StandsAlike (D.seen disk.old) (D.seen disk.new)) }
    ensures any_moment { LeavesOnly D.moment D.left_since disk.old disk.new (StandsAlike (D.seen disk.old)) }
    ensures failed { D.has_failed disk.new ≡ is_err result }
{
    let offset = found.gate.offset;
    cut_through(disk, offset)?;
    write_through(disk, offset, b"-")
}

/// Puts a block behind those that stand, in a file at rest with its gate at this offset, which moves on. At `Ok` the block is on the
/// disk. A crash at any moment leaves what stood, with the whole block or without it.
pub fn put<D: Disk>(disk: &mut D, gate: &mut Gate, block: &[u8]) -> Result<(), PutFault>
    requires rest { IsAtRest D.seen D.may_leave D.has_failed disk.old gate.old.offset }
    requires block { IsBlock block.now }
    ensures rest { OnOk result (IsAtRest D.seen D.may_leave D.has_failed disk.new gate.new.offset) }
    ensures stands { OnOk result (blocks_in (D.seen disk.new) ≡ with_block block.now (blocks_in (D.seen disk.old))) }
    ensures any_moment { LeavesOnly D.moment D.left_since disk.old disk.new (IsBeforeOrAfter (D.seen disk.old) block.now) }
    ensures before { IsErrOf result PutFault.Before → LeavesOnly D.moment D.left_since disk.old disk.new (StandsAlike (D.seen disk.old)) }
    ensures failed { D.has_failed disk.new ≡ is_err result }
{
    stage(disk, gate.offset, block).map_err(|_| PutFault::Before)?;
    write_through(disk, gate.offset, b"+").map_err(|_| PutFault::Unsure)?;
    gate.offset += block.len() + 2;
    Ok(())
}

// The block behind the closed gate, and a closed gate behind it, all of it on the disk.
fn stage<D: Disk>(disk: &mut D, offset: usize, block: &[u8]) -> Result<(), DiskFailed>
    requires rest { IsAtRest D.seen D.may_leave D.has_failed disk.old offset }
    ensures staged { OnOk result (D.seen disk.new ≡ D.seen disk.old ++ (line_feed ∷ [] ++ block.now ++ closed_gate ∷ [])) }
    ensures fits { OnOk result (length (D.seen disk.new) < 2 ^ 63) }
    ensures durable { OnOk result (Only (D.seen disk.new) (D.may_leave disk.new)) }
    ensures any_moment { LeavesOnly D.moment D.left_since disk.old disk.new (StandsAlike (D.seen disk.old)) }
    ensures failed { D.has_failed disk.new ≡ is_err result }
{
    disk.write_at(offset + 1, b"\n")?;
    disk.write_at(offset + 2, block)?;
    disk.write_at(offset + 2 + block.len(), b"-")?;
    disk.sync()
}
