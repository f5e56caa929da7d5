//! A desk whose rows come by and by, on top of what stands in a plant's file.

ghost use Rattle.std.specs.Prelude.{◌≡◌, ◌⊎◌, ◌==◌, ◌<◌, ◌+◌, ◌^◌, Ok, false, not, OnOk};
ghost use Rattle.title_disk.specs.Crashes.{LeavesOnly, Only};
ghost use Rattle.title_journal.specs.Rest.{IsAtRest};
ghost use Rattle.title_daybook.specs.{Books.{standing_of}, Files.{IsPlant, standing_in}, Standing.{Standing as StandingOf}};
ghost use Rattle.title_counter.specs.{Lines.{last_line}, Views.{counter_of}};
ghost use Rattle.title_lasting.specs.{Openings.{cut_in}, Replays.{HasServed}};
ghost use Rattle.title_kept_desk.specs.{Desks.{LastingDesk}, Sittings.{HasCome, IsEnded, IsUpTo, opening_on}};

use crate::mark::Mark;
use crate::sitting::{put_last, sit_batch, sit_rest};
use std::alloc::Global;
use title_counter::{Clerk, GIVEN_LIMIT, LineStart};
use title_daybook::{Standing, Stood};
use title_device::{Sink, Source};
use title_disk::Disk;
use title_lasting::{Ended, LastingFault, Opened, open};
use title_plan::Declared;
use title_spelling::laws::{descriptions_stay, lands_have_cells};
use title_standing::laws::replayed_records_are_committed;

// Ends a desk whose rows have come to their end: serves the last line, aborts what is open, and writes the last row.
fn end_rows<D: Disk, W: Sink>(
    alloc: Global,
    clerk: &mut Clerk,
    line: &mut LineStart,
    disk: &mut D,
    mark: &mut Mark,
    sink: &mut W,
) -> Result<(), LastingFault>
    requires fits { clerk.old.rows + 1 < 2 ^ 64 }
    requires works { W.has_failed sink.old ≡ false }
    requires up_to { IsUpTo D.seen D.may_leave D.has_failed disk.old mark.old (counter_of clerk.old) }
    requires come { HasCome (counter_of clerk.old) }
    ensures ended { IsEnded D.seen D.may_leave D.has_failed result (LeavesOnly D.moment D.left_since disk.old disk.new) disk.new mark.new
        (counter_of clerk.old) (last_line line.old) (W.taken sink.old) (W.taken sink.new) (W.has_failed sink.new) }
{
    sit_rest(alloc, clerk, line, disk, mark, sink)?;
    clerk.close();
    Ok(put_last(sink, clerk.steps)?)
}

// Attends to all rows of a source, at the counter of what stands in a file at rest.
fn attend_rows<D: Disk, R: Source, W: Sink>(
    alloc: Global,
    clerk: &mut Clerk,
    disk: &mut D,
    mark: &mut Mark,
    source: &mut R,
    sink: &mut W,
) -> Result<(), LastingFault>
    requires up_to { IsUpTo D.seen D.may_leave D.has_failed disk.old mark.old (counter_of clerk.old) }
    requires opening { (s : StandingOf) × IsPlant (D.seen disk.old) s × (counter_of clerk.old ≡ opening_on s) }
    requires source_works { R.has_failed source.old ≡ false }
    requires sink_works { W.has_failed sink.old ≡ false }
    ensures desk { LastingDesk (D.seen disk.old) (D.seen disk.new) (D.may_leave disk.new)
        (LeavesOnly D.moment D.left_since disk.old disk.new) (R.left source.old) (R.left source.new) (W.taken sink.old)
        (W.taken sink.new) (D.has_failed disk.new) (R.has_failed source.new) (W.has_failed sink.new) result }
{
    replayed_records_are_committed();
    lands_have_cells();
    descriptions_stay();
    clerk.is_sound();
    let mut line = LineStart::new();
    let mut buf = [0u8; 4096];
    let mut given: u64 = 0;
    'pulls: while given <= GIVEN_LIMIT {
        let count = match source.pull(&mut buf) {
            Ok(count) => count,
            Err(_) => return Err(LastingFault::Read),
        };
        if count == 0 {
            end_rows(alloc, clerk, &mut line, disk, mark, sink)?;
            return Ok(());
        }
        sit_batch(alloc, clerk, &mut line, disk, mark, sink, &buf[..count])?;
        given += count as u64;
    }
    Err(LastingFault::Read)
}

/// Whether anything stands, of so many records.
pub(crate) fn any_stand(records: usize) -> bool
    ensures any { result ≡ not (records == 0) }
{
    records != 0
}

// The desk on a file that was opened.
fn attend_opened<D: Disk, R: Source, W: Sink>(
    alloc: Global,
    disk: &mut D,
    opened: Opened,
    source: &mut R,
    sink: &mut W,
) -> Result<(), LastingFault>
    requires source_works { R.has_failed source.old ≡ false }
    requires sink_works { W.has_failed sink.old ≡ false }
    requires rest { IsAtRest D.seen D.may_leave D.has_failed disk.old opened.gate.offset }
    requires stands { standing_in (D.seen disk.old) ≡ Ok (standing_of opened.stands) }
    requires served { HasServed opened.stands.townships.items (standing_of opened.stands).records opened.desk.value }
    ensures desk { LastingDesk (D.seen disk.old) (D.seen disk.new) (D.may_leave disk.new)
        (LeavesOnly D.moment D.left_since disk.old disk.new) (R.left source.old) (R.left source.new) (W.taken sink.old)
        (W.taken sink.new) (D.has_failed disk.new) (R.has_failed source.new) (W.has_failed sink.new) result }
{
    replayed_records_are_committed();
    lands_have_cells();
    let Opened {
        stands,
        desk,
        gate,
        cut: _,
    } = opened;
    let Standing {
        townships,
        parties,
        deeds,
    } = stands;
    let records = deeds.len();
    drop(deeds);
    let mut mark = Mark {
        gate,
        stood: Stood {
            townships: townships.len(),
            parties: parties.len(),
            records: records as u64,
        },
    };
    let shut = any_stand(records);
    let declared = Declared { townships, parties };
    let mut clerk = Clerk::onto(alloc, declared, Box::into_inner(desk), shut);
    attend_rows(alloc, &mut clerk, disk, &mut mark, source, sink)
}

/// Attends to the rows of a source on top of what stands in a plant's file, until the source has come to its end, and answers each to a
/// sink. What stands is read and served again, and the file's end is repaired; then rows mean what they mean in a script of `run`, and are
/// answered by the rows that its report would have, a declaration by its number, and a row at fault by `fault,NUMBER,ROW`, after which rows
/// go on and nothing has changed. Where transactions stand in the file no township joins by a row, which is out of its place there.
///
/// The whole lines that one pull brings are a batch: they are served, what they declare and commit is put into the file as one block,
/// with one pair of syncs, and then all their answers are written and passed on, before the next pull. So nothing is told that isn't on
/// the disk, and whoever waits is answered. At each moment a crash leaves a file that has what the first so many rows have come to. At
/// the end open transactions are aborted, and `end,K` is written.
///
/// The faults: `NotAPlant`; `Disk` at the reading, the repair or a batch's block, `Unsure` at its mark; `Read`; `Write`. `Memory` comes
/// before the first row, or where the answers of a batch or what it adds can't be held: nothing of that batch was told, or is in the file.
pub fn attend_onto<D: Disk, R: Source, W: Sink>(
    alloc: Global,
    disk: &mut D,
    source: &mut R,
    sink: &mut W,
) -> Ended
    requires disk_works { D.has_failed disk.old ≡ false }
    requires durable { Only (D.seen disk.old) (D.may_leave disk.old) }
    requires source_works { R.has_failed source.old ≡ false }
    requires sink_works { W.has_failed sink.old ≡ false }
    ensures desk { LastingDesk (D.seen disk.old) (D.seen disk.new) (D.may_leave disk.new)
        (LeavesOnly D.moment D.left_since disk.old disk.new) (R.left source.old) (R.left source.new) (W.taken sink.old)
        (W.taken sink.new) (D.has_failed disk.new) (R.has_failed source.new) (W.has_failed sink.new) result.outcome }
    ensures cut { OnOk result.outcome (result.cut ≡ cut_in (D.seen disk.old)) }
    ensures cut_or_none { (result.cut ≡ cut_in (D.seen disk.old)) ⊎ (result.cut ≡ 0) }
{
    replayed_records_are_committed();
    lands_have_cells();
    let opened = match open(alloc, disk) {
        Ok(opened) => opened,
        Err(fault) => {
            return Ended {
                cut: 0,
                outcome: Err(fault),
            };
        }
    };
    let cut = opened.cut;
    let outcome = attend_opened(alloc, disk, opened, source, sink);
    Ended { cut, outcome }
}
