//! A batch at a desk that keeps what it commits.

ghost use Rattle.std.specs.{Prelude.{◌≡◌, ◌≤◌, ◌<◌, ◌+◌, ◌^◌, ◌∷◌, [], true, false, OnErr, OnOk, length}, Io.KnownBytes.{Appends}};
ghost use Rattle.title_disk.specs.Crashes.{LeavesOnly};
ghost use Rattle.title_page.specs.Rows.{rows_text};
ghost use Rattle.title_report.specs.Replies.{end_row};
ghost use Rattle.title_counter.specs.{Lines.{last_line, lines_from}, Sessions.{IsSound}, Views.{counter_of}};
ghost use Rattle.title_lasting.specs.Lastings.{Begins};
ghost use Rattle.title_kept_desk.specs.Sittings.{HasCome, IsBatch, IsUpTo};

use crate::holding::{hold_batch, hold_rest};
use crate::mark::Mark;
use crate::news::keep;
use std::alloc::Global;
use title_counter::{Clerk, LineStart};
use title_device::{Failed, Sink, write_all};
use title_disk::Disk;
use title_lasting::LastingFault;
use title_page::Page;
use title_report::put_end;

/// Serves the whole lines of the bytes of one pull, of which the first has begun; puts what they declare and commit into the file, all of
/// it as one block; and then writes their answers.
pub(crate) fn sit_batch<D: Disk, W: Sink>(
    alloc: Global,
    clerk: &mut Clerk,
    line: &mut LineStart,
    disk: &mut D,
    mark: &mut Mark,
    sink: &mut W,
    bytes: &[u8],
) -> Result<(), LastingFault>
    requires fits { clerk.old.rows + length bytes.now < 2 ^ 64 }
    requires works { W.has_failed sink.old ≡ false }
    requires up_to { IsUpTo D.seen D.may_leave D.has_failed disk.old mark.old (counter_of clerk.old) }
    requires come { HasCome (counter_of clerk.old) }
    ensures batch { IsBatch D.seen D.may_leave D.has_failed result (LeavesOnly D.moment D.left_since disk.old disk.new) disk.new mark.new
        (counter_of clerk.old) (counter_of clerk.new) (lines_from line.old bytes.now).whole (W.taken sink.old) (W.taken sink.new)
        (W.has_failed sink.new) }
    ensures rows { clerk.new.rows ≤ clerk.old.rows + length bytes.now }
    ensures rest { OnOk result (line.new ≡ (lines_from line.old bytes.now).rest) }
    ensures sound { IsSound (counter_of clerk.new) }
{
    let text = hold_batch(alloc, clerk, line, bytes)?;
    keep(alloc, &*clerk, disk, mark)?;
    Ok(write_all(sink, text.as_slice())?)
}

/// Serves the last line, where something of it has come; puts what it declares or commits into the file; and then writes its answer.
pub(crate) fn sit_rest<D: Disk, W: Sink>(
    alloc: Global,
    clerk: &mut Clerk,
    line: &mut LineStart,
    disk: &mut D,
    mark: &mut Mark,
    sink: &mut W,
) -> Result<(), LastingFault>
    requires fits { clerk.old.rows + 1 < 2 ^ 64 }
    requires works { W.has_failed sink.old ≡ false }
    requires up_to { IsUpTo D.seen D.may_leave D.has_failed disk.old mark.old (counter_of clerk.old) }
    requires come { HasCome (counter_of clerk.old) }
    ensures batch { IsBatch D.seen D.may_leave D.has_failed result (LeavesOnly D.moment D.left_since disk.old disk.new) disk.new mark.new
        (counter_of clerk.old) (counter_of clerk.new) (last_line line.old) (W.taken sink.old) (W.taken sink.new)
        (W.has_failed sink.new) }
    ensures sound { IsSound (counter_of clerk.new) }
{
    let text = hold_rest(alloc, clerk, line)?;
    keep(alloc, &*clerk, disk, mark)?;
    Ok(write_all(sink, text.as_slice())?)
}

/// Writes the last row, which tells how many step rows there were.
pub(crate) fn put_last<W: Sink>(sink: &mut W, steps: u64) -> Result<(), Failed>
    requires works { W.has_failed sink.old ≡ false }
    ensures written { OnOk result (Appends (W.taken sink.old) (W.taken sink.new) (rows_text (end_row steps ∷ []))) }
    ensures begun { OnErr result (Begins (W.taken sink.old) (W.taken sink.new) (rows_text (end_row steps ∷ []))) }
    ensures failed { OnErr result (W.has_failed sink.new ≡ true) }
{
    let mut page = Page::new();
    put_end(&mut page, sink, steps as usize)?;
    page.pass(sink)
}
