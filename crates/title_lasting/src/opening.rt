//! A plant's file is opened: what stands in it is read and served again, and its end is repaired.

ghost use Rattle.std.specs.Prelude.{◌≡◌, ◌<◌, ◌^◌, ℕ, List, false, length, IfErr, IfOk, OnOk};
ghost use Rattle.title_disk.specs.Crashes.{Elapses, LeavesOnly, Only};
ghost use Rattle.title_journal.specs.Rest.{IsAtRest, StandsAlike};
ghost use Rattle.title_daybook.specs.Books.{standing_of};
ghost use Rattle.title_lasting.specs.{Openings.{IsResting, bytes_of}, Opened.{IsFoundIn, IsOpened, IsUnopened, LeavesUnopened}};
ghost use Rattle.title_lasting.specs.Replays.{HasServed};

use crate::fault::LastingFault;
use crate::replaying::{Replayed, replay_deeds};
use std::alloc::Global;
use title_daybook::{Standing, read_standing, row_of};
use title_desk::Desk;
use title_disk::Disk;
use title_journal::{Blocks, Gate, Tail, read, repair};
use title_lock::NodeLocks;
use title_spelling::laws::lands_have_cells;
use title_tree_store::TreeStore;

/// The blocks of a plant's file, and what stands in them.
#[derive(Drop)]
pub struct Found {
    pub blocks: Blocks,
    pub stands: Standing,
}

/// What stands in a plant's file that is at rest; a desk that has served it; the gate behind it; and how many bytes that don't count
/// were cut off there.
#[derive(Drop)]
pub struct Opened {
    pub stands: Standing,
    pub desk: Box<Desk<TreeStore, NodeLocks>>,
    pub gate: Gate,
    pub cut: usize,
}

/// How many bytes of a tail don't count.
pub(crate) fn tail_len(tail: Tail) -> usize
    ensures bytes { result ≡ bytes_of tail }
{
    match tail {
        Tail::Closed => 0,
        Tail::Torn(bytes) => bytes,
    }
}

/// Reads what stands in a plant's file. Nothing is written.
pub fn find<D: Disk>(alloc: Global, disk: &mut D) -> Result<Found, LastingFault>
    requires works { D.has_failed disk.old ≡ false }
    ensures found { IfOk result (IsFoundIn (D.seen disk.old)) }
    ensures fits { OnOk result (length (D.seen disk.old) < 2 ^ 63) }
    ensures works { OnOk result (D.has_failed disk.new ≡ false) }
    ensures why { IfErr result (IsUnopened (D.seen disk.old) (D.has_failed disk.new)) }
    ensures seen { D.seen disk.new ≡ D.seen disk.old }
    ensures crash { (c : List ℕ) → D.may_leave disk.new c → D.may_leave disk.old c }
    ensures time { Elapses (D.moment disk.old) (D.moment disk.new)
        (D.left_since disk.old) (D.left_since disk.new) (D.may_leave disk.new) }
{
    let blocks = read(alloc, disk)?;
    let stands = read_standing(alloc, &blocks)?;
    Ok(Found { blocks, stands })
}

/// Serves what stands at a desk of its own townships.
pub fn stand(alloc: Global, found: &Found) -> Result<Box<Desk<TreeStore, NodeLocks>>, LastingFault>
    requires found { (file : List ℕ) × IsFoundIn file found.now }
    ensures served { IfOk result (λ desk. HasServed found.now.stands.townships.items (standing_of found.now.stands).records desk.value) }
    ensures why { IfErr result (λ e. (file : List ℕ) → IsFoundIn file found.now → IsUnopened file false e) }
{
    lands_have_cells();
    match replay_deeds(alloc, &found.stands.townships, &found.stands.deeds)? {
        Replayed::Stands(desk) => Ok(desk),
        Replayed::Refused(place) => Err(LastingFault::NotAPlant(row_of(&found.blocks, place))),
    }
}

/// Reads what stands in a plant's file, serves it, and brings the file to rest. A file that is no plant stays as it is; else a crash
/// at any moment leaves what stands.
pub fn open<D: Disk>(alloc: Global, disk: &mut D) -> Result<Opened, LastingFault>
    requires works { D.has_failed disk.old ≡ false }
    requires durable { Only (D.seen disk.old) (D.may_leave disk.old) }
    ensures opened { IfOk result (IsOpened (D.seen disk.old)) }
    ensures rest { IfOk result (λ opened. IsAtRest D.seen D.may_leave D.has_failed disk.new opened.gate.offset) }
    ensures alike { OnOk result (StandsAlike (D.seen disk.old) (D.seen disk.new)) }
    ensures resting { OnOk result (IsResting (D.seen disk.old) → D.seen disk.new ≡ D.seen disk.old) }
    ensures why { IfErr result (IsUnopened (D.seen disk.old) (D.has_failed disk.new)) }
    ensures left { IfErr result (LeavesUnopened (D.seen disk.old) (D.seen disk.new) (D.may_leave disk.new)) }
    ensures any_moment { LeavesOnly D.moment D.left_since disk.old disk.new (StandsAlike (D.seen disk.old)) }
{
    let found = find(alloc, disk)?;
    let desk = stand(alloc, &found)?;
    repair(disk, &found.blocks)?;
    let Found { blocks, stands } = found;
    Ok(Opened {
        stands,
        desk,
        gate: blocks.gate,
        cut: tail_len(blocks.tail),
    })
}
