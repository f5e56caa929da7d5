//! What came of a script's steps, written as a report.

ghost use Rattle.std.specs.{Prelude.{◌≡◌, ◌++◌, ℕ, true, false, OnOk, OnErr, take}, List.{flat_map}, Io.KnownBytes.{Appends}};
ghost use Rattle.title_page.specs.{Pages.{Stopped, Written}, Rows.{rows_text}};
ghost use Rattle.title_script.specs.Told.{served_text, told_rows};

use crate::told::{Served, Told};
use std::alloc::Global;
use title_chain::Answer;
use title_device::{Failed, Sink};
use title_page::Page;
use title_report::{EntryLines, Roster, put_described, put_end, put_reply_from};
use title_trace::Reply;

// Writes the rows of what came of a step row.
fn put_told<S: Sink>(
    page: &mut Page,
    sink: &mut S,
    lines: &mut EntryLines,
    told: &Told,
) -> Result<(), Failed>
    requires works { S.has_failed sink.old ≡ false }
    ensures names { lines.new ≡ lines.old }
    ensures written { OnOk result (Written (S.taken sink.old) page.old (S.taken sink.new) page.new
        (rows_text (told_rows lines.old told.now))) }
    ensures well { OnOk result (S.has_failed sink.new ≡ false) }
    ensures stopped { OnErr result (Stopped (S.taken sink.old) page.old (S.taken sink.new)
        (rows_text (told_rows lines.old told.now))) }
    ensures failed { OnErr result (S.has_failed sink.new ≡ true) }
{
    match told {
        Told::Replied(examiner, reply) => { put_reply_from(page, sink, lines, *examiner, reply) },
        Told::Described(examiner, why) => put_described(page, sink, *examiner, *why),
    }
}

// Writes the rows of what came of step rows.
fn put_all_told<S: Sink>(
    page: &mut Page,
    sink: &mut S,
    lines: &mut EntryLines,
    told: &[Told],
) -> Result<(), Failed>
    requires works { S.has_failed sink.old ≡ false }
    ensures names { lines.new ≡ lines.old }
    ensures written { OnOk result (Written (S.taken sink.old) page.old (S.taken sink.new) page.new
        (rows_text (flat_map (told_rows lines.old) told.now))) }
    ensures well { OnOk result (S.has_failed sink.new ≡ false) }
    ensures stopped { OnErr result (Stopped (S.taken sink.old) page.old (S.taken sink.new)
        (rows_text (flat_map (told_rows lines.old) told.now))) }
    ensures failed { OnErr result (S.has_failed sink.new ≡ true) }
{
    for one in told {
        put_told(page, sink, lines, one)?;
    }
    Ok(())
}

// How many entries its chains may show: at most one of each step, and none where no chain was told.
fn entries_in(told: &[Told]) -> usize {
    for one in told {
        if let Told::Replied(_, Reply::Answered(Answer::Entries(_))) = one {
            return told.len();
        }
    }
    0
}

/// Writes the report of a script whose steps have been served. It wants no memory: lines for the entries of chains are made
/// before the first byte, and where these are refused the report is written without them. `Failed` where a push fails; the sink
/// has then taken a beginning of the report.
pub fn write_served<S: Sink>(alloc: Global, sink: &mut S, served: &Served) -> Result<(), Failed>
    requires works { S.has_failed sink.old ≡ false }
    ensures bytes { OnOk result (Appends (S.taken sink.old) (S.taken sink.new) (served_text served.now)) }
    ensures well { OnOk result (S.has_failed sink.new ≡ false) }
    ensures write { OnErr result (S.has_failed sink.new ≡ true) }
    ensures part { OnErr result ((n : ℕ) × Appends (S.taken sink.old) (S.taken sink.new) (take n (served_text served.now))) }
{
    let mut page = Page::new();
    let roster = Roster::judged(&served.plan.parties);
    let told = served.told.as_slice();
    let mut lines = EntryLines::new(alloc, roster, entries_in(told));
    put_all_told(&mut page, sink, &mut lines, told)?;
    put_end(&mut page, sink, served.steps)?;
    page.pass(sink)?;
    Ok(())
}
