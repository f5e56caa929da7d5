//! A session at the counter.

ghost use Rattle.std.specs.Prelude.{◌≡◌, ◌<◌, ◌≤◌, ◌+◌, ◌^◌, [], false, length, true, OnErr, OnOk};
ghost use Rattle.title_counter.specs.{Counters.{opening}, Lines.{lines_from}, Sessions.{IsAttended, IsSound, LostBatch, PassedBatch}};
ghost use Rattle.title_counter.specs.Views.{counter_of};

use crate::clerk::Clerk;
use crate::fault::CounterFault;
use crate::line_start::LineStart;
use crate::lines::{answer_bytes, end_session};
use std::alloc::Global;
use title_device::{Failed, Sink, Source};
use title_page::Page;

/// The most bytes that are taken of a source: so many never come.
pub const GIVEN_LIMIT: u64 = 18_446_744_073_709_543_423;

/// Answers the whole lines of the bytes of one pull, of which the first has begun, and passes all answers on. `Failed` where the sink
/// fails; the clerk has then taken some of the lines.
pub fn answer_batch<S: Sink>(
    clerk: &mut Clerk,
    line: &mut LineStart,
    page: &mut Page,
    sink: &mut S,
    bytes: &[u8],
) -> Result<(), Failed>
    requires fits { clerk.old.rows + length bytes.now < 2 ^ 64 }
    requires works { S.has_failed sink.old ≡ false }
    requires empty { page.old ≡ [] }
    ensures answers { OnOk result (PassedBatch (counter_of clerk.old) (lines_from line.old bytes.now).whole (counter_of clerk.new)
        (S.taken sink.old) (S.taken sink.new)) }
    ensures lost { OnErr result (LostBatch (counter_of clerk.old) (lines_from line.old bytes.now).whole (counter_of clerk.new)
        (S.taken sink.old) (S.taken sink.new)) }
    ensures rows { clerk.new.rows ≤ clerk.old.rows + length bytes.now }
    ensures rest { OnOk result (line.new ≡ (lines_from line.old bytes.now).rest) }
    ensures passed { OnOk result (page.new ≡ []) }
    ensures sound { IsSound (counter_of clerk.new) }
    ensures well { OnOk result (S.has_failed sink.new ≡ false) }
    ensures failed { OnErr result (S.has_failed sink.new ≡ true) }
{
    let answered = answer_bytes(clerk, line, page, sink, bytes);
    clerk.is_sound();
    answered?;
    page.pass(sink)
}

// Attends to all rows of a source.
fn attend_rows<R: Source, W: Sink>(
    clerk: &mut Clerk,
    source: &mut R,
    sink: &mut W,
) -> Result<(), CounterFault>
    requires opening { counter_of clerk.old ≡ opening }
    requires source_works { R.has_failed source.old ≡ false }
    requires sink_works { W.has_failed sink.old ≡ false }
    ensures attended { IsAttended (R.left source.old) (R.left source.new) (R.has_failed source.new) (W.taken sink.old)
        (W.taken sink.new) (W.has_failed sink.new) result }
{
    clerk.is_sound();
    let mut line = LineStart::new();
    let mut page = Page::new();
    let mut buf = [0u8; 4096];
    let mut given: u64 = 0;
    'pulls: while given <= GIVEN_LIMIT {
        let count = match source.pull(&mut buf) {
            Ok(count) => count,
            Err(_) => return Err(CounterFault::Read),
        };
        if count == 0 {
            end_session(clerk, &mut line, &mut page, sink)?;
            return Ok(());
        }
        answer_batch(clerk, &mut line, &mut page, sink, &buf[..count])?;
        given += count as u64;
    }
    Err(CounterFault::Read)
}

/// Attends to the rows of a source until it has come to its end, and answers each to a sink: what it declares, asks or ends is served as
/// in a script of `run`, and its answer are the rows that a report would have; a declaration is answered by its number, and a row at fault
/// by `fault,NUMBER,ROW`, after which rows go on and nothing has changed. All answers to the bytes of one pull are passed on before the
/// next. At the end open transactions are aborted, and `end,K` is written. `Read` where the source fails; `Write` where the sink
/// does, which has then taken a beginning of the answers; `Memory` where it is wanted before the first row.
pub fn attend<R: Source, W: Sink>(
    alloc: Global,
    source: &mut R,
    sink: &mut W,
) -> Result<(), CounterFault>
    requires source_works { R.has_failed source.old ≡ false }
    requires sink_works { W.has_failed sink.old ≡ false }
    ensures attended { IsAttended (R.left source.old) (R.left source.new) (R.has_failed source.new) (W.taken sink.old)
        (W.taken sink.new) (W.has_failed sink.new) result }
{
    let mut clerk = Clerk::open(alloc)?;
    attend_rows(&mut clerk, source, sink)
}
