//! A day of an office on a plant's file.

ghost use Rattle.std.specs.Prelude.{◌≡◌, ◌≤◌, ◌⊎◌, ℕ, Ok, Option, false, OnOk};
ghost use Rattle.title_disk.specs.Crashes.{LeavesOnly, Only};
ghost use Rattle.title_journal.specs.Rest.{IsAtRest};
ghost use Rattle.title_office.specs.Offices.{most_seats};
ghost use Rattle.title_daybook.specs.{Books.{standing_of}, Files.{standing_in}};
ghost use Rattle.title_lasting.specs.{Lastings.{IsExpected}, Openings.{cut_in}, Replays.{HasServed}};
ghost use Rattle.title_kept_office.specs.OfficeLastings.{CameToRest, LastingOffice};

use crate::fault::KeptOfficeFault;
use crate::making::make;
use std::alloc::Global;
use std::sync::Wait;
use std::thread::Threads;
use title_day::write_closing;
use title_device::{Sink, Source};
use title_disk::Disk;
use title_lasting::{LastingFault, Opened, is_unexpected, open, put_block};

/// How a day of an office ended.
#[derive(Debug, Drop)]
pub struct OfficeEnded {
    /// How many bytes behind the blocks of the file didn't count and were cut off, as a crash leaves some.
    pub cut: usize,
    /// That the report was written, or why it wasn't.
    pub outcome: Result<(), KeptOfficeFault>,
}

// The day on a file that was brought to rest: it is made, put into the file, and then its report is written.
fn run_opened<T: Threads + Wait + Sync, D: Disk, R: Source, W: Sink>(
    rt: &T,
    alloc: Global,
    examiners: u32,
    tries: u32,
    disk: &mut D,
    opened: Opened,
    source: &mut R,
    sink: &mut W,
) -> Result<(), KeptOfficeFault>
    requires seats { examiners ≤ most_seats }
    requires source_works { R.has_failed source.old ≡ false }
    requires sink_works { W.has_failed sink.old ≡ false }
    requires rest { IsAtRest D.seen D.may_leave D.has_failed disk.old opened.gate.offset }
    requires stands { standing_in (D.seen disk.old) ≡ Ok (standing_of opened.stands) }
    requires served { HasServed opened.stands.townships.items (standing_of opened.stands).records opened.desk.value }
    ensures day { (old : D) (after : Option ℕ) → CameToRest D.seen D.moment D.left_since old disk.old
        → IsExpected after (standing_of opened.stands)
        → LastingOffice examiners after (D.seen old) (D.seen disk.new) (D.may_leave disk.new)
        (LeavesOnly D.moment D.left_since old disk.new) (R.left source.old) (R.left source.new) (R.turns source.old)
        (R.turns source.new) (W.taken sink.old) (W.taken sink.new) (D.has_failed disk.new) (R.has_failed source.new)
        (W.has_failed sink.new) result }
{
    let Opened {
        stands,
        desk,
        mut gate,
        cut: _,
    } = opened;
    let made = make(rt, alloc, examiners, tries, stands, desk, source)?;
    put_block(disk, &mut gate, &made.block)?;
    Ok(write_closing(sink, &made.closing)?)
}

/// A day of an office on a plant's file: what stands in it is read and served again, its end is repaired, the source's script is read
/// whole, an office of so many examiners is opened on what stands and runs each examiner's rows by a thread of its own, a transaction at
/// most so many times, and is settled; what it declares and commits is put into the file as one block; and then its report is written.
/// With `after` the last place has to be that one before the script is read.
///
/// At each moment a crash leaves what stood before, or what stands after the whole day; nothing of the report is written before the
/// latter is on the disk. The faults, in their order: `NotAPlant`; `Disk` at the reading or the repair; `After`; `Read`; `Row`, `Order` and
/// `Party` of the first row at fault; `Joins`; a worker's, or that the office can't be settled; `Disk` or `Unsure` at the block; `Write`.
/// `Memory` comes before anything of the block is written.
pub fn run_office_onto<T: Threads + Wait + Sync, D: Disk, R: Source, W: Sink>(
    rt: &T,
    alloc: Global,
    examiners: u32,
    tries: u32,
    after: Option<u64>,
    disk: &mut D,
    source: &mut R,
    sink: &mut W,
) -> OfficeEnded
    requires seats { examiners ≤ most_seats }
    requires disk_works { D.has_failed disk.old ≡ false }
    requires durable { Only (D.seen disk.old) (D.may_leave disk.old) }
    requires source_works { R.has_failed source.old ≡ false }
    requires sink_works { W.has_failed sink.old ≡ false }
    ensures day { LastingOffice examiners after (D.seen disk.old) (D.seen disk.new) (D.may_leave disk.new)
        (LeavesOnly D.moment D.left_since disk.old disk.new) (R.left source.old) (R.left source.new) (R.turns source.old)
        (R.turns source.new) (W.taken sink.old) (W.taken sink.new) (D.has_failed disk.new) (R.has_failed source.new)
        (W.has_failed sink.new) result.outcome }
    ensures cut { OnOk result.outcome (result.cut ≡ cut_in (D.seen disk.old)) }
    ensures cut_or_none { (result.cut ≡ cut_in (D.seen disk.old)) ⊎ (result.cut ≡ 0) }
{
    let opened = match open(alloc, disk) {
        Ok(opened) => opened,
        Err(fault) => {
            return OfficeEnded {
                cut: 0,
                outcome: Err(KeptOfficeFault::Kept(fault)),
            };
        }
    };
    let cut = opened.cut;
    let last = opened.stands.deeds.len() as u64;
    if is_unexpected(after, last) {
        return OfficeEnded {
            cut,
            outcome: Err(KeptOfficeFault::Kept(LastingFault::After(last))),
        };
    }
    let outcome = run_opened(rt, alloc, examiners, tries, disk, opened, source, sink);
    OfficeEnded { cut, outcome }
}
