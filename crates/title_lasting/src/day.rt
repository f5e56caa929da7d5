//! A day on a plant's file.

ghost use Rattle.std.specs.Prelude.{◌≡◌, ◌⊎◌, ◌≢◌, ℕ, List, Ok, false, true, IfSome, OnOk};
ghost use Rattle.title_disk.specs.Crashes.{LeavesOnly, Only};
ghost use Rattle.title_journal.specs.Rest.{IsAtRest};
ghost use Rattle.title_daybook.specs.{Books.{standing_of}, Files.{standing_in}};
ghost use Rattle.title_lasting.specs.{Lastings.{Lasting}, Openings.{cut_in}, Replays.{HasServed}};

use crate::adding::put_block;
use crate::fault::LastingFault;
use crate::opening::{Opened, open};
use crate::serving::make;
use std::alloc::Global;
use title_device::{Sink, Source};
use title_disk::Disk;
use title_plan::Schedule;
use title_script::{Watch, write_served};

/// How a day ended.
#[derive(Debug, Drop)]
pub struct Ended {
    /// How many bytes behind the blocks of the file didn't count and were cut off, as a crash leaves some.
    pub cut: usize,
    /// That the report was written, or why it wasn't.
    pub outcome: Result<(), LastingFault>,
}

/// Whether the last place is another than the expected one.
pub fn is_unexpected(after: Option<u64>, last: u64) -> bool
    ensures other { result ≡ true → (place : ℕ) × (after ≡ Some place) × (place ≢ last) }
    ensures expected { result ≡ false → IfSome after (λ place. place ≡ last) }
{
    match after {
        Some(place) => place != last,
        None => false,
    }
}

// The day on a file that was opened: it is made, put into the file, and then its report is written.
fn run_opened<D: Disk, R: Source, W: Sink, V: Watch>(
    alloc: Global,
    schedule: Schedule,
    disk: &mut D,
    opened: Opened,
    source: &mut R,
    sink: &mut W,
    watch: &mut V,
) -> Result<(), LastingFault>
    requires source_works { R.has_failed source.old ≡ false }
    requires sink_works { W.has_failed sink.old ≡ false }
    requires rest { IsAtRest D.seen D.may_leave D.has_failed disk.old opened.gate.offset }
    requires stands { standing_in (D.seen disk.old) ≡ Ok (standing_of opened.stands) }
    requires served { HasServed opened.stands.townships.items (standing_of opened.stands).records opened.desk.value }
    ensures day { Lasting schedule None (D.seen disk.old) (D.seen disk.new) (D.may_leave disk.new)
        (LeavesOnly D.moment D.left_since disk.old disk.new) (R.left source.old) (R.left source.new) (R.turns source.old)
        (R.turns source.new) (W.taken sink.old) (W.taken sink.new) (D.has_failed disk.new) (R.has_failed source.new)
        (W.has_failed sink.new) result }
{
    let Opened {
        stands,
        desk,
        mut gate,
        cut: _,
    } = opened;
    let made = make(alloc, schedule, stands, desk, source, watch)?;
    put_block(disk, &mut gate, &made.block)?;
    Ok(write_served(alloc, sink, &made.served)?)
}

/// A day on a plant's file: what stands in it is read and served again, its end is repaired, the source's script is read whole and
/// served on top of what stands, what it declares and commits is put into the file as one block, and then its report is written.
/// `Schedule` is `Interleaved` or `Serial`. With `after` the last place has to be that one before the script is read, so a script
/// that was sent once counts once. Where the script declares townships, all that stands is served again under them too.
///
/// At each moment a crash leaves what stood before, or what stands after the whole script; nothing of the report is written before
/// the latter is on the disk. The faults, in their order: `NotAPlant`; `Disk` at the reading or the repair; `After`; `Read`; `Row`,
/// `Order` and `Party` of the first row at fault; `Joins`; `Disk` or `Unsure` at the block; `Write`. `Memory` comes before anything of
/// the block is written.
pub fn run_onto<D: Disk, R: Source, W: Sink, V: Watch>(
    alloc: Global,
    schedule: Schedule,
    after: Option<u64>,
    disk: &mut D,
    source: &mut R,
    sink: &mut W,
    watch: &mut V,
) -> Ended
    requires disk_works { D.has_failed disk.old ≡ false }
    requires durable { Only (D.seen disk.old) (D.may_leave disk.old) }
    requires source_works { R.has_failed source.old ≡ false }
    requires sink_works { W.has_failed sink.old ≡ false }
    ensures day { Lasting schedule after (D.seen disk.old) (D.seen disk.new) (D.may_leave disk.new)
        (LeavesOnly D.moment D.left_since disk.old disk.new) (R.left source.old) (R.left source.new) (R.turns source.old)
        (R.turns source.new) (W.taken sink.old) (W.taken sink.new) (D.has_failed disk.new) (R.has_failed source.new)
        (W.has_failed sink.new) result.outcome }
    ensures cut { OnOk result.outcome (result.cut ≡ cut_in (D.seen disk.old)) }
    ensures cut_or_none { (result.cut ≡ cut_in (D.seen disk.old)) ⊎ (result.cut ≡ 0) }
{
    let opened = match open(alloc, disk) {
        Ok(opened) => opened,
        Err(fault) => {
            return Ended {
                cut: 0,
                outcome: Err(fault),
            };
        }
    };
    let cut = opened.cut;
    let last = opened.stands.deeds.len() as u64;
    if is_unexpected(after, last) {
        return Ended {
            cut,
            outcome: Err(LastingFault::After(last)),
        };
    }
    let outcome = run_opened(alloc, schedule, disk, opened, source, sink, watch);
    Ended { cut, outcome }
}
