//! A desk that only looks, on top of what stands in a plant's file.

ghost use Rattle.std.specs.Prelude.{◌≡◌, ◌<◌, ◌≤◌, ◌+◌, ◌^◌, OnErr, OnOk, false, length, map, true};
ghost use Rattle.title_disk.specs.Crashes.{LeavesOnly};
ghost use Rattle.title_daybook.specs.Books.{standing_of};
ghost use Rattle.title_counter.specs.{Lines.{last_line, lines_from, lines_in}, Sessions.{IsSound, LostBatch, PassedBatch}};
ghost use Rattle.title_counter.specs.Views.{counter_of};
ghost use Rattle.title_lasting.specs.Replays.{HasServed};
ghost use Rattle.title_kept_desk.specs.{LookDesks.{IsLookBatch, IsLookEnd, LookingDesk, LooksFrom}, LookLines.{IsStart, as_look}};
ghost use Rattle.title_kept_desk.specs.Sittings.{opening_on};

use crate::attending::any_stand;
use crate::look_lines::{take_lines, take_rest};
use crate::sitting::put_last;
use std::alloc::Global;
use title_counter::{Clerk, GIVEN_LIMIT, LineStart, answer_batch};
use title_daybook::Standing;
use title_desk::Desk;
use title_device::{Failed, Sink, Source};
use title_disk::Disk;
use title_lasting::{Found, LastingFault, find, stand};
use title_lock::NodeLocks;
use title_page::Page;
use title_plan::Declared;
use title_tree_store::TreeStore;

// Answers the whole lines of a text.
fn answer_lines<W: Sink>(clerk: &mut Clerk, sink: &mut W, text: &[u8]) -> Result<(), Failed>
    requires fits { clerk.old.rows + length text.now < 2 ^ 64 }
    requires works { W.has_failed sink.old ≡ false }
    ensures answers { OnOk result (PassedBatch (counter_of clerk.old) (lines_in text.now).whole (counter_of clerk.new)
        (W.taken sink.old) (W.taken sink.new)) }
    ensures lost { OnErr result (LostBatch (counter_of clerk.old) (lines_in text.now).whole (counter_of clerk.new)
        (W.taken sink.old) (W.taken sink.new)) }
    ensures rows { clerk.new.rows ≤ clerk.old.rows + length text.now }
    ensures sound { IsSound (counter_of clerk.new) }
    ensures well { OnOk result (W.has_failed sink.new ≡ false) }
    ensures failed { OnErr result (W.has_failed sink.new ≡ true) }
{
    let mut start = LineStart::new();
    let mut page = Page::new();
    answer_batch(clerk, &mut start, &mut page, sink, text)
}

// Answers the whole lines of the bytes of one pull, of which the first has begun, as what they count as at a look.
fn look_batch<W: Sink>(
    alloc: Global,
    clerk: &mut Clerk,
    line: &mut Vec<u8>,
    sink: &mut W,
    bytes: &[u8],
) -> Result<(), LastingFault>
    requires fits { clerk.old.rows + length line.old.items + length bytes.now < 2 ^ 64 }
    requires start { IsStart line.old.items }
    requires works { W.has_failed sink.old ≡ false }
    ensures batch { IsLookBatch result (counter_of clerk.old) (counter_of clerk.new)
        (map as_look (lines_from line.old.items bytes.now).whole) (W.taken sink.old) (W.taken sink.new) (W.has_failed sink.new) }
    ensures rows { OnOk result (clerk.new.rows + length line.new.items
        ≤ clerk.old.rows + length line.old.items + length bytes.now) }
    ensures rest { OnOk result (line.new.items ≡ (lines_from line.old.items bytes.now).rest) }
{
    let lines = take_lines(alloc, line, bytes)?;
    let looks = lines.as_slice();
    Ok(answer_lines(clerk, sink, looks)?)
}

// Answers the last line, where something of it has come, in the same way.
fn look_rest<W: Sink>(
    alloc: Global,
    clerk: &mut Clerk,
    line: &mut Vec<u8>,
    sink: &mut W,
) -> Result<(), LastingFault>
    requires fits { clerk.old.rows + length line.old.items + 1 < 2 ^ 64 }
    requires start { IsStart line.old.items }
    requires works { W.has_failed sink.old ≡ false }
    ensures batch { IsLookBatch result (counter_of clerk.old) (counter_of clerk.new) (map as_look (last_line line.old.items))
        (W.taken sink.old) (W.taken sink.new) (W.has_failed sink.new) }
{
    let lines = take_rest(alloc, line)?;
    let looks = lines.as_slice();
    Ok(answer_lines(clerk, sink, looks)?)
}

// Ends a desk whose rows have come to their end: answers the last line, aborts what is open, and writes the last row.
fn end_looks<W: Sink>(
    alloc: Global,
    clerk: &mut Clerk,
    line: &mut Vec<u8>,
    sink: &mut W,
) -> Result<(), LastingFault>
    requires fits { clerk.old.rows + length line.old.items + 1 < 2 ^ 64 }
    requires start { IsStart line.old.items }
    requires works { W.has_failed sink.old ≡ false }
    ensures ended { IsLookEnd result (counter_of clerk.old) (map as_look (last_line line.old.items)) (W.taken sink.old)
        (W.taken sink.new) (W.has_failed sink.new) }
{
    look_rest(alloc, clerk, line, sink)?;
    clerk.close();
    Ok(put_last(sink, clerk.steps)?)
}

// Answers all rows of a source as looks.
fn look_rows<R: Source, W: Sink>(
    alloc: Global,
    clerk: &mut Clerk,
    source: &mut R,
    sink: &mut W,
) -> Result<(), LastingFault>
    requires none { clerk.old.rows ≡ 0 }
    requires source_works { R.has_failed source.old ≡ false }
    requires sink_works { W.has_failed sink.old ≡ false }
    ensures looks { LooksFrom (counter_of clerk.old) (R.left source.old) (R.left source.new) (W.taken sink.old) (W.taken sink.new)
        (R.has_failed source.new) (W.has_failed sink.new) result }
{
    clerk.is_sound();
    let mut line = Vec::new(alloc);
    let mut buf = [0u8; 4096];
    let mut given: u64 = 0;
    'pulls: while given <= GIVEN_LIMIT {
        let count = match source.pull(&mut buf) {
            Ok(count) => count,
            Err(_) => return Err(LastingFault::Read),
        };
        if count == 0 {
            end_looks(alloc, clerk, &mut line, sink)?;
            return Ok(());
        }
        look_batch(alloc, clerk, &mut line, sink, &buf[..count])?;
        given += count as u64;
    }
    Err(LastingFault::Read)
}

// The desk at what stood, which was served.
fn look_standing<R: Source, W: Sink>(
    alloc: Global,
    stands: Standing,
    desk: Box<Desk<TreeStore, NodeLocks>>,
    source: &mut R,
    sink: &mut W,
) -> Result<(), LastingFault>
    requires source_works { R.has_failed source.old ≡ false }
    requires sink_works { W.has_failed sink.old ≡ false }
    requires served { HasServed stands.townships.items (standing_of stands).records desk.value }
    ensures looks { LooksFrom (opening_on (standing_of stands)) (R.left source.old) (R.left source.new) (W.taken sink.old)
        (W.taken sink.new) (R.has_failed source.new) (W.has_failed sink.new) result }
{
    let Standing {
        townships,
        parties,
        deeds,
    } = stands;
    let records = deeds.len();
    drop(deeds);
    let shut = any_stand(records);
    let declared = Declared { townships, parties };
    let mut clerk = Clerk::onto(alloc, declared, Box::into_inner(desk), shut);
    look_rows(alloc, &mut clerk, source, sink)
}

/// Attends to the rows of a source on top of what stands in a plant's file, as `attend_onto` does, and keeps nothing: a row begins, asks
/// for a sheet or a chain, or aborts, and any other is answered as a row that isn't understood, `fault,31,ROW`; rows go on, and nothing
/// has changed. What stands is read and served again before the first row. The file has its bytes at each moment, also those behind its
/// blocks that don't count.
///
/// The faults: `NotAPlant`; `Disk` at the reading; `Read`; `Write`. `Memory` comes before the first row, or where the lines of a pull
/// can't be held: of those nothing was told.
pub fn look_desk_onto<D: Disk, R: Source, W: Sink>(
    alloc: Global,
    disk: &mut D,
    source: &mut R,
    sink: &mut W,
) -> Result<(), LastingFault>
    requires disk_works { D.has_failed disk.old ≡ false }
    requires source_works { R.has_failed source.old ≡ false }
    requires sink_works { W.has_failed sink.old ≡ false }
    ensures desk { LookingDesk (D.seen disk.old) (D.seen disk.new) (D.may_leave disk.old) (D.may_leave disk.new)
        (LeavesOnly D.moment D.left_since disk.old disk.new) (R.left source.old) (R.left source.new) (W.taken sink.old)
        (W.taken sink.new) (D.has_failed disk.new) (R.has_failed source.new) (W.has_failed sink.new) result }
{
    let found = find(alloc, disk)?;
    let desk = stand(alloc, &found)?;
    let Found { blocks: _, stands } = found;
    look_standing(alloc, stands, desk, source, sink)
}
