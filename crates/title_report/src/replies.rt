//! The rows of replies.

ghost use Rattle.std.specs.{Prelude.{◌≡◌, ◌<◌, ◌∷◌, [], true, false, OnOk, OnErr, length, map}, String.{string_bytes}};
ghost use Rattle.title_page.specs.{Pages.{Stopped, Written}, Rows.{rows_text}};
ghost use Rattle.title_report.specs.{EntryTexts.{AreMade}, Fields.{text_of}, Puts.{IsPut}};
ghost use Rattle.title_report.specs.Replies.{denial_row, described_row, end_row, number_row, reply_rows, word_row};

use crate::answers::put_answer;
use crate::entry_lines::{EntryLines, KeptLines};
use crate::field::ReportField;
use crate::roster::Roster;
use indexmap::IndexSet;
use title_aliquot::DescFault;
use title_device::{Failed, Sink};
use title_page::Page;
use title_trace::{Denial, Reply};

// The names of the parties, each at the index that is its number.
pub(crate) type Names = IndexSet<String>;

/// Writes a row of two fields or more. `Failed` where a push fails; the sink then has a beginning of what was written.
pub fn put_row<S: Sink>(
    page: &mut Page,
    sink: &mut S,
    fields: &[ReportField<'_>],
) -> Result<(), Failed>
    requires several { 1 < length fields.now }
    requires works { S.has_failed sink.old ≡ false }
    ensures written { OnOk result (Written (S.taken sink.old) page.old (S.taken sink.new) page.new
        (rows_text (map text_of fields.now ∷ []))) }
    ensures well { OnOk result (S.has_failed sink.new ≡ false) }
    ensures stopped { OnErr result (Stopped (S.taken sink.old) page.old (S.taken sink.new)
        (rows_text (map text_of fields.now ∷ []))) }
    ensures failed { OnErr result (S.has_failed sink.new ≡ true) }
{
    page.row(sink, fields)
}

// Writes a row `E,WORD`.
pub(crate) fn put_word_row<S: Sink>(
    page: &mut Page,
    sink: &mut S,
    examiner: u32,
    word: &[u8],
) -> Result<(), Failed>
    requires works { S.has_failed sink.old ≡ false }
    ensures put { IsPut result (S.taken sink.old) page.old (S.taken sink.new) page.new (S.has_failed sink.new)
        (rows_text (word_row examiner word.now ∷ [])) }
{
    let fields = [
        ReportField::Number(u64::from(examiner)),
        ReportField::Text(word),
    ];
    put_row(page, sink, &fields)
}

// Writes a row `E,WORD,NUMBER`.
pub(crate) fn put_number_row<S: Sink>(
    page: &mut Page,
    sink: &mut S,
    examiner: u32,
    word: &[u8],
    number: u64,
) -> Result<(), Failed>
    requires works { S.has_failed sink.old ≡ false }
    ensures put { IsPut result (S.taken sink.old) page.old (S.taken sink.new) page.new (S.has_failed sink.new)
        (rows_text (number_row examiner word.now number ∷ [])) }
{
    let fields = [
        ReportField::Number(u64::from(examiner)),
        ReportField::Text(word),
        ReportField::Number(number),
    ];
    put_row(page, sink, &fields)
}

// Writes the row that tells why a call is refused.
fn put_denial<S: Sink>(
    page: &mut Page,
    sink: &mut S,
    examiner: u32,
    why: Denial,
) -> Result<(), Failed>
    requires works { S.has_failed sink.old ≡ false }
    ensures put { IsPut result (S.taken sink.old) page.old (S.taken sink.new) page.new (S.has_failed sink.new)
        (rows_text (denial_row examiner why ∷ [])) }
{
    match why {
        Denial::NotOpen => put_word_row(page, sink, examiner, b"notopen"),
        Denial::AlreadyOpen => put_word_row(page, sink, examiner, b"alreadyopen"),
        Denial::NoSuchTownship => put_word_row(page, sink, examiner, b"notownship"),
        Denial::Invalid(cause) => {
            put_number_row(page, sink, examiner, b"invalid", u64::from(cause.number()))
        }
        Denial::TooLong => put_word_row(page, sink, examiner, b"toolong"),
        Denial::Conflict(other) => {
            put_number_row(page, sink, examiner, b"conflict", u64::from(other))
        }
    }
}

// Writes the rows of a reply, those of chains by the lines of their entries.
fn put_reply_by<S: Sink>(
    page: &mut Page,
    sink: &mut S,
    roster: &Roster,
    lines: &mut Option<KeptLines>,
    examiner: u32,
    reply: &Reply,
) -> Result<(), Failed>
    requires lines { AreMade roster.now lines.old }
    requires works { S.has_failed sink.old ≡ false }
    ensures lines { AreMade roster.now lines.new }
    ensures put { IsPut result (S.taken sink.old) page.old (S.taken sink.new) page.new (S.has_failed sink.new)
        (rows_text (reply_rows roster.now examiner reply.now)) }
{
    match reply {
        Reply::Began => put_word_row(page, sink, examiner, b"began"),
        Reply::Answered(answer) => put_answer(page, sink, roster, lines, examiner, answer),
        Reply::Committed(place) => put_number_row(page, sink, examiner, b"committed", *place),
        Reply::Aborted => put_word_row(page, sink, examiner, b"aborted"),
        Reply::Denied(why) => put_denial(page, sink, examiner, *why),
        Reply::Memory => Ok(()),
    }
}

/// Writes the rows of a reply to an examiner, the names having the parties' numbers as indices; a Memory reply has none.
/// `Failed` where a push fails; the sink then has a beginning of what was written.
pub fn put_reply<S: Sink>(
    page: &mut Page,
    sink: &mut S,
    names: &Names,
    examiner: u32,
    reply: &Reply,
) -> Result<(), Failed>
    requires works { S.has_failed sink.old ≡ false }
    ensures written { OnOk result (Written (S.taken sink.old) page.old (S.taken sink.new) page.new
        (rows_text (reply_rows (map string_bytes names.now.keys) examiner reply.now))) }
    ensures well { OnOk result (S.has_failed sink.new ≡ false) }
    ensures stopped { OnErr result (Stopped (S.taken sink.old) page.old (S.taken sink.new)
        (rows_text (reply_rows (map string_bytes names.now.keys) examiner reply.now))) }
    ensures failed { OnErr result (S.has_failed sink.new ≡ true) }
{
    put_reply_with(page, sink, &Roster::new(names), examiner, reply)
}

/// The same with a roster, for many replies. `Failed` as with `put_reply`.
pub fn put_reply_with<S: Sink>(
    page: &mut Page,
    sink: &mut S,
    roster: &Roster,
    examiner: u32,
    reply: &Reply,
) -> Result<(), Failed>
    requires works { S.has_failed sink.old ≡ false }
    ensures written { OnOk result (Written (S.taken sink.old) page.old (S.taken sink.new) page.new
        (rows_text (reply_rows roster.now examiner reply.now))) }
    ensures well { OnOk result (S.has_failed sink.new ≡ false) }
    ensures stopped { OnErr result (Stopped (S.taken sink.old) page.old (S.taken sink.new)
        (rows_text (reply_rows roster.now examiner reply.now))) }
    ensures failed { OnErr result (S.has_failed sink.new ≡ true) }
{
    put_reply_by(page, sink, roster, &mut None, examiner, reply)
}

/// The same with the lines of entries, which spare the making of rows that were shown before. `Failed` as with `put_reply`.
pub fn put_reply_from<S: Sink>(
    page: &mut Page,
    sink: &mut S,
    lines: &mut EntryLines,
    examiner: u32,
    reply: &Reply,
) -> Result<(), Failed>
    requires works { S.has_failed sink.old ≡ false }
    ensures names { lines.new ≡ lines.old }
    ensures written { OnOk result (Written (S.taken sink.old) page.old (S.taken sink.new) page.new
        (rows_text (reply_rows lines.old examiner reply.now))) }
    ensures well { OnOk result (S.has_failed sink.new ≡ false) }
    ensures stopped { OnErr result (Stopped (S.taken sink.old) page.old (S.taken sink.new)
        (rows_text (reply_rows lines.old examiner reply.now))) }
    ensures failed { OnErr result (S.has_failed sink.new ≡ true) }
{
    put_reply_by(page, sink, &lines.roster, &mut lines.lines, examiner, reply)
}

// Writes the row of a description that is none at this byte.
fn put_bad_text<S: Sink>(
    page: &mut Page,
    sink: &mut S,
    examiner: u32,
    byte: usize,
) -> Result<(), Failed>
    requires works { S.has_failed sink.old ≡ false }
    ensures put { IsPut result (S.taken sink.old) page.old (S.taken sink.new) page.new (S.has_failed sink.new)
        (rows_text (described_row examiner (DescFault.BadText byte) ∷ [])) }
{
    let fields = [
        ReportField::Number(u64::from(examiner)),
        ReportField::Text(b"description"),
        ReportField::Text(b"21"),
        ReportField::Number(byte as u64),
    ];
    put_row(page, sink, &fields)
}

/// Writes the row of a description that is none. `Failed` as with `put_reply`.
pub fn put_described<S: Sink>(
    page: &mut Page,
    sink: &mut S,
    examiner: u32,
    why: DescFault,
) -> Result<(), Failed>
    requires works { S.has_failed sink.old ≡ false }
    ensures written { OnOk result (Written (S.taken sink.old) page.old (S.taken sink.new) page.new
        (rows_text (described_row examiner why ∷ []))) }
    ensures well { OnOk result (S.has_failed sink.new ≡ false) }
    ensures stopped { OnErr result (Stopped (S.taken sink.old) page.old (S.taken sink.new)
        (rows_text (described_row examiner why ∷ []))) }
    ensures failed { OnErr result (S.has_failed sink.new ≡ true) }
{
    match why {
        DescFault::BadText(byte) => put_bad_text(page, sink, examiner, byte),
        _ => put_number_row(
            page,
            sink,
            examiner,
            b"description",
            u64::from(why.number()),
        ),
    }
}

/// Writes the last row, with the number of step rows. `Failed` as with `put_reply`.
pub fn put_end<S: Sink>(page: &mut Page, sink: &mut S, steps: usize) -> Result<(), Failed>
    requires works { S.has_failed sink.old ≡ false }
    ensures written { OnOk result (Written (S.taken sink.old) page.old (S.taken sink.new) page.new
        (rows_text (end_row steps ∷ []))) }
    ensures well { OnOk result (S.has_failed sink.new ≡ false) }
    ensures stopped { OnErr result (Stopped (S.taken sink.old) page.old (S.taken sink.new)
        (rows_text (end_row steps ∷ []))) }
    ensures failed { OnErr result (S.has_failed sink.new ≡ true) }
{
    let fields = [ReportField::Text(b"end"), ReportField::Number(steps as u64)];
    put_row(page, sink, &fields)
}
