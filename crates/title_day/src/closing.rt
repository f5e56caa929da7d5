//! The report of an office that is settled.

ghost use Rattle.std.specs.{Prelude.{◌≡◌, ◌++◌, ℕ, true, false, IfOk, OnOk, OnErr, map, reverse, take}, String.{string_bytes}};
ghost use Rattle.std.specs.Io.KnownBytes.{Appends};
ghost use Rattle.title_land.specs.Depth.{depth};
ghost use Rattle.title_chain.specs.Alone.{IsSerial};
ghost use Rattle.title_store.specs.Plants.{IsEachOnce};
ghost use Rattle.title_page.specs.{Pages.{Stopped, Written}, Rows.{rows_text}};
ghost use Rattle.title_day.specs.{Closings.{closed_rows, closed_text}, DaysOn.{closing_text_on}, OfficeReports.{closing_sheet}};

use crate::tally::{Tally, put_settled, put_tallies};
use indexmap::IndexSet;
use std::alloc::{AllocError, Global};
use title_chain::{Answer, Records, sheet_by_chain};
use title_device::{Failed, Sink};
use title_land::{Node, Township, Tract};
use title_page::Page;
use title_report::{put_end, put_reply};
use title_trace::{Denial, Reply};
use title_tree_store::TreeStore;

/// What the report of a settled office shows: the names of the parties, a tally for each examiner, how many records there
/// are, the closing sheet, and the number of step rows.
#[derive(Drop)]
pub struct Closing {
    pub names: IndexSet<String>,
    pub tallies: Vec<Tally>,
    pub records: usize,
    pub sheet: Reply,
    pub steps: usize,
}

// The sheet of the whole plant after all records; a plant without townships has none.
#[tactic(auto, using(crate::proofs::Closes::sheet_closes))]
fn closing_sheet(
    alloc: Global,
    townships: &[Township],
    records: &Records,
) -> Result<Reply, AllocError>
    requires once { IsEachOnce townships.now }
    requires serial { IsSerial depth townships.now (reverse records.now) }
    ensures sheet { IfOk result (λ r. r ≡ closing_sheet townships.now records.now) }
{
    if townships.is_empty() {
        return Ok(Reply::Denied(Denial::NoSuchTownship));
    }
    let everything = Tract::of(Node::Everything);
    let rows = sheet_by_chain::<TreeStore>(alloc, records, townships, &everything)?;
    Ok(Reply::Answered(Answer::Rows(rows)))
}

/// What the report of a settled office shows, on whose desk so many of the records stood before: the others are counted, and the closing
/// sheet is of all. `Err` is Memory.
pub fn close_office(
    alloc: Global,
    names: IndexSet<String>,
    townships: &[Township],
    steps: usize,
    tallies: Vec<Tally>,
    stood: usize,
    records: &Records,
) -> Result<Closing, AllocError>
    requires once { IsEachOnce townships.now }
    requires serial { IsSerial depth townships.now (reverse records.now) }
    ensures text { IfOk result (λ closing. closed_text closing
        ≡ closing_text_on townships.now (map string_bytes names.keys) steps tallies.items stood records.now) }
{
    let sheet = closing_sheet(alloc, townships, records)?;
    Ok(Closing {
        names,
        tallies,
        records: records.as_slice().len().saturating_sub(stood),
        sheet,
        steps,
    })
}

// Writes the rows of a report but for the last.
fn put_closing<S: Sink>(page: &mut Page, sink: &mut S, closing: &Closing) -> Result<(), Failed>
    requires works { S.has_failed sink.old ≡ false }
    ensures written { OnOk result (Written (S.taken sink.old) page.old (S.taken sink.new) page.new
        (rows_text (closed_rows closing.now))) }
    ensures well { OnOk result (S.has_failed sink.new ≡ false) }
    ensures stopped { OnErr result (Stopped (S.taken sink.old) page.old (S.taken sink.new) (rows_text (closed_rows closing.now))) }
    ensures failed { OnErr result (S.has_failed sink.new ≡ true) }
{
    put_tallies(page, sink, closing.tallies.as_slice())?;
    put_settled(page, sink, closing.records)?;
    put_reply(page, sink, &closing.names, 0, &closing.sheet)
}

/// Writes the report of a settled office. It takes no memory. `Failed` where a push fails; the sink has then taken a
/// beginning of the report.
pub fn write_closing<S: Sink>(sink: &mut S, closing: &Closing) -> Result<(), Failed>
    requires works { S.has_failed sink.old ≡ false }
    ensures bytes { OnOk result (Appends (S.taken sink.old) (S.taken sink.new) (closed_text closing.now)) }
    ensures well { OnOk result (S.has_failed sink.new ≡ false) }
    ensures write { OnErr result (S.has_failed sink.new ≡ true) }
    ensures part { OnErr result ((n : ℕ) × Appends (S.taken sink.old) (S.taken sink.new) (take n (closed_text closing.now))) }
{
    let mut page = Page::new();
    put_closing(&mut page, sink, closing)?;
    put_end(&mut page, sink, closing.steps)?;
    page.pass(sink)?;
    Ok(())
}
