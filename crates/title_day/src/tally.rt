//! The rows of an office's report that tell what came of its transactions.

ghost use Rattle.std.specs.Prelude.{◌≡◌, ◌∷◌, [], true, false, OnOk, OnErr, map};
ghost use Rattle.title_page.specs.{Pages.{Stopped, Written}, Rows.{rows_text}};
ghost use Rattle.title_day.specs.Tallies.{settled_row, tally_row};

use title_device::{Failed, Sink};
use title_page::Page;
use title_report::{ReportField, put_row};

/// What came of an examiner's transactions: how many were committed, aborted by their own script, and given up.
#[derive(Clone, Copy, Debug, PartialEq, Eq)]
pub struct Tally {
    pub examiner: u32,
    pub committed: u64,
    pub aborted: u64,
    pub given_up: u64,
}

// Writes the row of a tally.
fn put_tally<S: Sink>(page: &mut Page, sink: &mut S, tally: &Tally) -> Result<(), Failed>
    requires works { S.has_failed sink.old ≡ false }
    ensures written { OnOk result (Written (S.taken sink.old) page.old (S.taken sink.new) page.new (rows_text (tally_row tally.now ∷ []))) }
    ensures well { OnOk result (S.has_failed sink.new ≡ false) }
    ensures stopped { OnErr result (Stopped (S.taken sink.old) page.old (S.taken sink.new) (rows_text (tally_row tally.now ∷ []))) }
    ensures failed { OnErr result (S.has_failed sink.new ≡ true) }
{
    let fields = [
        ReportField::Number(u64::from(tally.examiner)),
        ReportField::Text(b"done"),
        ReportField::Number(tally.committed),
        ReportField::Number(tally.aborted),
        ReportField::Number(tally.given_up),
    ];
    put_row(page, sink, &fields)
}

// Writes the rows of tallies.
pub(crate) fn put_tallies<S: Sink>(
    page: &mut Page,
    sink: &mut S,
    tallies: &[Tally],
) -> Result<(), Failed>
    requires works { S.has_failed sink.old ≡ false }
    ensures written { OnOk result (Written (S.taken sink.old) page.old (S.taken sink.new) page.new
        (rows_text (map tally_row tallies.now))) }
    ensures well { OnOk result (S.has_failed sink.new ≡ false) }
    ensures stopped { OnErr result (Stopped (S.taken sink.old) page.old (S.taken sink.new) (rows_text (map tally_row tallies.now))) }
    ensures failed { OnErr result (S.has_failed sink.new ≡ true) }
{
    for tally in tallies {
        put_tally(page, sink, tally)?;
    }
    Ok(())
}

// Writes the row that counts the committed records.
pub(crate) fn put_settled<S: Sink>(
    page: &mut Page,
    sink: &mut S,
    records: usize,
) -> Result<(), Failed>
    requires works { S.has_failed sink.old ≡ false }
    ensures written { OnOk result (Written (S.taken sink.old) page.old (S.taken sink.new) page.new (rows_text (settled_row records ∷ []))) }
    ensures well { OnOk result (S.has_failed sink.new ≡ false) }
    ensures stopped { OnErr result (Stopped (S.taken sink.old) page.old (S.taken sink.new) (rows_text (settled_row records ∷ []))) }
    ensures failed { OnErr result (S.has_failed sink.new ≡ true) }
{
    let fields = [
        ReportField::Text(b"settled"),
        ReportField::Number(records as u64),
    ];
    put_row(page, sink, &fields)
}
