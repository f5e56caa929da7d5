//! Lines, answered one after another.

ghost use Rattle.std.specs.Prelude.{◌≡◌, ◌<◌, ◌≤◌, ◌+◌, ◌^◌, ◌∷◌, ℕ, List, [], false, length, true, OnErr, OnOk};
ghost use Rattle.title_counter.specs.{Lines.{last_line, lines_from}, Views.{counter_of}};
ghost use Rattle.title_counter.specs.Sessions.{BrokenOff, Ended, GotAnswers, IsSound, LostAnswers, LostBatch, PassedBatch};

use crate::clerk::Clerk;
use crate::line_start::LineStart;
use title_device::{Failed, Sink};
use title_page::Page;
use title_report::put_end;

/// Answers a line; the next one begins.
pub(crate) fn answer_line<S: Sink>(
    clerk: &mut Clerk,
    line: &mut LineStart,
    page: &mut Page,
    sink: &mut S,
) -> Result<(), Failed>
    requires fits { clerk.old.rows + 1 < 2 ^ 64 }
    requires works { S.has_failed sink.old ≡ false }
    ensures answers { OnOk result (GotAnswers (counter_of clerk.old) (line.old ∷ []) (counter_of clerk.new) (S.taken sink.old) page.old
        (S.taken sink.new) page.new) }
    ensures lost { OnErr result (LostAnswers (counter_of clerk.old) (line.old ∷ []) (counter_of clerk.new) (S.taken sink.old) page.old
        (S.taken sink.new)) }
    ensures rows { clerk.new.rows ≤ clerk.old.rows + 1 }
    ensures next { line.new ≡ [] }
    ensures well { OnOk result (S.has_failed sink.new ≡ false) }
    ensures failed { OnErr result (S.has_failed sink.new ≡ true) }
{
    let answer = clerk.take_line(line);
    line.clear();
    answer.put(page, sink, &clerk.declared.parties)
}

// Takes a byte: one that ends a line has it answered.
#[inline]
fn answer_byte<S: Sink>(
    clerk: &mut Clerk,
    line: &mut LineStart,
    page: &mut Page,
    sink: &mut S,
    byte: u8,
) -> Result<(), Failed>
    requires fits { clerk.old.rows + 1 < 2 ^ 64 }
    requires works { S.has_failed sink.old ≡ false }
    ensures answers { OnOk result (GotAnswers (counter_of clerk.old) (lines_from line.old (byte ∷ [])).whole (counter_of clerk.new)
        (S.taken sink.old) page.old (S.taken sink.new) page.new) }
    ensures lost { OnErr result (LostAnswers (counter_of clerk.old) (lines_from line.old (byte ∷ [])).whole (counter_of clerk.new)
        (S.taken sink.old) page.old (S.taken sink.new)) }
    ensures rows { clerk.new.rows ≤ clerk.old.rows + 1 }
    ensures rest { line.new ≡ (lines_from line.old (byte ∷ [])).rest }
    ensures well { OnOk result (S.has_failed sink.new ≡ false) }
    ensures failed { OnErr result (S.has_failed sink.new ≡ true) }
{
    if byte == b'\n' {
        return answer_line(clerk, line, page, sink);
    }
    line.add(byte);
    Ok(())
}

/// Answers the whole lines of these bytes, of which the first has begun, and takes the beginning of the next.
pub(crate) fn answer_bytes<S: Sink>(
    clerk: &mut Clerk,
    line: &mut LineStart,
    page: &mut Page,
    sink: &mut S,
    bytes: &[u8],
) -> Result<(), Failed>
    requires fits { clerk.old.rows + length bytes.now < 2 ^ 64 }
    requires works { S.has_failed sink.old ≡ false }
    ensures answers { OnOk result (GotAnswers (counter_of clerk.old) (lines_from line.old bytes.now).whole (counter_of clerk.new)
        (S.taken sink.old) page.old (S.taken sink.new) page.new) }
    ensures lost { OnErr result (LostAnswers (counter_of clerk.old) (lines_from line.old bytes.now).whole (counter_of clerk.new)
        (S.taken sink.old) page.old (S.taken sink.new)) }
    ensures rows { clerk.new.rows ≤ clerk.old.rows + length bytes.now }
    ensures rest { OnOk result (line.new ≡ (lines_from line.old bytes.now).rest) }
    ensures well { OnOk result (S.has_failed sink.new ≡ false) }
    ensures failed { OnErr result (S.has_failed sink.new ≡ true) }
{
    for byte in bytes {
        answer_byte(clerk, line, page, sink, *byte)?;
    }
    Ok(())
}

/// Answers the last line, where something of it has come.
fn answer_last<S: Sink>(
    clerk: &mut Clerk,
    line: &mut LineStart,
    page: &mut Page,
    sink: &mut S,
) -> Result<(), Failed>
    requires fits { clerk.old.rows + 1 < 2 ^ 64 }
    requires works { S.has_failed sink.old ≡ false }
    ensures answers { OnOk result (GotAnswers (counter_of clerk.old) (last_line line.old) (counter_of clerk.new) (S.taken sink.old)
        page.old (S.taken sink.new) page.new) }
    ensures lost { OnErr result (LostAnswers (counter_of clerk.old) (last_line line.old) (counter_of clerk.new) (S.taken sink.old)
        page.old (S.taken sink.new)) }
    ensures well { OnOk result (S.has_failed sink.new ≡ false) }
    ensures failed { OnErr result (S.has_failed sink.new ≡ true) }
{
    if line.is_empty() {
        return Ok(());
    }
    answer_line(clerk, line, page, sink)
}

/// Answers the last line, where something of it has come, and passes its answer on. `Failed` where the sink fails.
pub fn answer_rest<S: Sink>(
    clerk: &mut Clerk,
    line: &mut LineStart,
    page: &mut Page,
    sink: &mut S,
) -> Result<(), Failed>
    requires fits { clerk.old.rows + 1 < 2 ^ 64 }
    requires works { S.has_failed sink.old ≡ false }
    requires empty { page.old ≡ [] }
    ensures answers { OnOk result (PassedBatch (counter_of clerk.old) (last_line line.old) (counter_of clerk.new) (S.taken sink.old)
        (S.taken sink.new)) }
    ensures lost { OnErr result (LostBatch (counter_of clerk.old) (last_line line.old) (counter_of clerk.new) (S.taken sink.old)
        (S.taken sink.new)) }
    ensures passed { OnOk result (page.new ≡ []) }
    ensures sound { IsSound (counter_of clerk.new) }
    ensures well { OnOk result (S.has_failed sink.new ≡ false) }
    ensures failed { OnErr result (S.has_failed sink.new ≡ true) }
{
    let last = answer_last(clerk, line, page, sink);
    clerk.is_sound();
    last?;
    page.pass(sink)
}

/// Ends a session: answers the last line, aborts what is open, and writes the last row.
pub(crate) fn end_session<S: Sink>(
    clerk: &mut Clerk,
    line: &mut LineStart,
    page: &mut Page,
    sink: &mut S,
) -> Result<(), Failed>
    requires fits { clerk.old.rows + 1 < 2 ^ 64 }
    requires works { S.has_failed sink.old ≡ false }
    requires empty { page.old ≡ [] }
    ensures ended { OnOk result (Ended (counter_of clerk.old) (last_line line.old) (S.taken sink.old) (S.taken sink.new)) }
    ensures broken { OnErr result (BrokenOff (counter_of clerk.old) (last_line line.old) (S.taken sink.old) (S.taken sink.new)) }
    ensures failed { OnErr result (S.has_failed sink.new ≡ true) }
{
    let answered = answer_last(clerk, line, page, sink);
    clerk.is_sound();
    answered?;
    clerk.close();
    put_end(page, sink, clerk.steps as usize)?;
    page.pass(sink)
}
