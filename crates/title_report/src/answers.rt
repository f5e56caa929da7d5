//! The rows of answers.

ghost use Rattle.std.specs.{Prelude.{◌≡◌, ◌<◌, ◌∷◌, [], false, codes, get_or, length, map}, List.{flat_map}};
ghost use Rattle.title_chain.specs.KeptRows.{rows_in};
ghost use Rattle.title_page.specs.Rows.{rows_text};
ghost use Rattle.title_report.specs.{EntryTexts.{entry_text, AreMade, IsMade}, Fronts.{entry_start, IsFront}, Puts.{IsPut}};
ghost use Rattle.title_report.specs.Replies.{answer_rows, entry_row, number_row, refused_row, sheet_row};

use crate::entries::{make_start, put_entry_in_parts};
use crate::entry_line::{EntryKey, EntryLine, key_of};
use crate::entry_lines::KeptLines;
use crate::field::ReportField;
use crate::front::Front;
use crate::nodes::number_is_plain;
use crate::replies::{put_number_row, put_row, put_word_row};
use crate::roster::Roster;
use crate::shares::put_tail;
use title_chain::{Answer, Entry, Lines, Part, Sheet, SheetRows};
use title_device::{Failed, Sink};
use title_instrument::{Estate, Rule};
use title_land::Node;
use title_page::{Line, Page};
use title_store::SheetRow;

// Writes the row of a refused post.
fn put_refused<S: Sink>(
    page: &mut Page,
    sink: &mut S,
    examiner: u32,
    rule: Rule,
    estate: Estate,
    node: Node,
) -> Result<(), Failed>
    requires works { S.has_failed sink.old ≡ false }
    ensures put { IsPut result (S.taken sink.old) page.old (S.taken sink.new) page.new (S.has_failed sink.new)
        (rows_text (refused_row examiner rule estate node ∷ [])) }
{
    let fields = [
        ReportField::Number(u64::from(examiner)),
        ReportField::Text(b"refused"),
        ReportField::Number(u64::from(rule.number())),
        ReportField::Text(estate.letter().as_bytes()),
        ReportField::Node(node),
    ];
    put_row(page, sink, &fields)
}

// Writes a row of a sheet, from the beginning that it shares with the row before where these are one.
fn put_sheet_row<S: Sink>(
    page: &mut Page,
    sink: &mut S,
    roster: &Roster,
    examiner: u32,
    front: &mut Front,
    row: &SheetRow,
) -> Result<(), Failed>
    requires works { S.has_failed sink.old ≡ false }
    requires front { IsFront examiner front.old }
    ensures front { IsFront examiner front.new }
    ensures put { IsPut result (S.taken sink.old) page.old (S.taken sink.new) page.new (S.has_failed sink.new)
        (rows_text (sheet_row roster.now examiner row.now ∷ [])) }
{
    front.text_for(examiner, row);
    page.put(sink, front.text.as_bytes())?;
    roster.write(page, sink, row.party)?;
    put_tail(page, sink, row.units)
}

// The row at an index, however rows are kept.
fn row_at(lines: &Lines, index: usize) -> SheetRow
    requires within { index < length (rows_in lines.now) }
    ensures row { result ≡ get_or (rows_in lines.now) index result }
{
    match lines {
        Lines::Plain(rows) => rows[index],
        Lines::Squares(section, estate, squares) => squares[index].row(*section, *estate),
    }
}

// Writes rows of a sheet, however they are kept: the one loop that takes in how a row is written.
fn put_sheet_lines<S: Sink>(
    page: &mut Page,
    sink: &mut S,
    roster: &Roster,
    examiner: u32,
    front: &mut Front,
    lines: &Lines,
) -> Result<(), Failed>
    requires works { S.has_failed sink.old ≡ false }
    requires front { IsFront examiner front.old }
    ensures front { IsFront examiner front.new }
    ensures put { IsPut result (S.taken sink.old) page.old (S.taken sink.new) page.new (S.has_failed sink.new)
        (rows_text (map (sheet_row roster.now examiner) (rows_in lines.now))) }
{
    for index in 0..lines.len() {
        let row = row_at(lines, index);
        put_sheet_row(page, sink, roster, examiner, front, &row)?;
    }
    Ok(())
}

// Writes the rows of parts of a sheet, one part after another.
fn put_sheet_parts<S: Sink>(
    page: &mut Page,
    sink: &mut S,
    roster: &Roster,
    examiner: u32,
    front: &mut Front,
    parts: &[Part],
) -> Result<(), Failed>
    requires works { S.has_failed sink.old ≡ false }
    requires front { IsFront examiner front.old }
    ensures front { IsFront examiner front.new }
    ensures put { IsPut result (S.taken sink.old) page.old (S.taken sink.new) page.new (S.has_failed sink.new)
        (rows_text (flat_map (λ part. map (sheet_row roster.now examiner) part) parts.now)) }
{
    for part in parts {
        put_sheet_lines(page, sink, roster, examiner, front, part.lines())?;
    }
    Ok(())
}

// Writes a sheet: the row that counts its rows, and these.
fn put_sheet<S: Sink>(
    page: &mut Page,
    sink: &mut S,
    roster: &Roster,
    examiner: u32,
    sheet: &SheetRows,
) -> Result<(), Failed>
    requires works { S.has_failed sink.old ≡ false }
    ensures put { IsPut result (S.taken sink.old) page.old (S.taken sink.new) page.new (S.has_failed sink.new)
        (rows_text (number_row examiner (codes "sheet") (length sheet.now)
        ∷ map (sheet_row roster.now examiner) sheet.now)) }
{
    put_number_row(page, sink, examiner, b"sheet", sheet.len() as u64)?;
    let mut front = Front::new();
    match sheet.sheet() {
        Sheet::Whole(lines) => put_sheet_lines(page, sink, roster, examiner, &mut front, lines),
        Sheet::Parted(parts) => put_sheet_parts(
            page,
            sink,
            roster,
            examiner,
            &mut front,
            parts.as_slice(),
        ),
    }
}

// Writes the text of a key from a line, which keeps it for further rows of the entry; in its parts where the line has no room
// for it.
fn put_kept_entry<S: Sink>(
    page: &mut Page,
    sink: &mut S,
    roster: &Roster,
    kept: &mut EntryLine,
    key: &EntryKey,
) -> Result<(), Failed>
    requires kept { IsMade roster.now kept.old }
    requires works { S.has_failed sink.old ≡ false }
    ensures kept { IsMade roster.now kept.new }
    ensures put { IsPut result (S.taken sink.old) page.old (S.taken sink.new) page.new (S.has_failed sink.new)
        (entry_text roster.now key.now) }
{
    if kept.text_for(roster, key).is_none() {
        return put_entry_in_parts(page, sink, roster, key);
    }
    page.put(sink, kept.text.as_slice())
}

// Writes the text of a key: from the line of its entry, where there is one.
fn put_entry_text<S: Sink>(
    page: &mut Page,
    sink: &mut S,
    roster: &Roster,
    lines: &mut Option<KeptLines>,
    key: &EntryKey,
) -> Result<(), Failed>
    requires lines { AreMade roster.now lines.old }
    requires works { S.has_failed sink.old ≡ false }
    ensures lines { AreMade roster.now lines.new }
    ensures put { IsPut result (S.taken sink.old) page.old (S.taken sink.new) page.new (S.has_failed sink.new)
        (entry_text roster.now key.now) }
{
    if let Some(kept) = lines {
        let number = kept.number_of(key.place);
        if number < kept.lines.len() {
            return put_kept_entry(page, sink, roster, &mut kept.lines[number], key);
        }
    }
    put_entry_in_parts(page, sink, roster, key)
}

// Writes a row of a chain, behind the text with which all its rows begin.
fn put_entry<S: Sink>(
    page: &mut Page,
    sink: &mut S,
    roster: &Roster,
    lines: &mut Option<KeptLines>,
    examiner: u32,
    start: &Line,
    entry: &Entry,
) -> Result<(), Failed>
    requires start { start.now ≡ entry_start examiner }
    requires lines { AreMade roster.now lines.old }
    requires works { S.has_failed sink.old ≡ false }
    ensures lines { AreMade roster.now lines.new }
    ensures put { IsPut result (S.taken sink.old) page.old (S.taken sink.new) page.new (S.has_failed sink.new)
        (rows_text (entry_row roster.now examiner entry.now ∷ [])) }
{
    let key = key_of(entry);
    number_is_plain(key.place);
    number_is_plain(key.doc);
    page.put(sink, start.as_bytes())?;
    put_entry_text(page, sink, roster, lines, &key)
}

// Writes the entries of a chain.
fn put_entries<S: Sink>(
    page: &mut Page,
    sink: &mut S,
    roster: &Roster,
    lines: &mut Option<KeptLines>,
    examiner: u32,
    entries: &[Entry],
) -> Result<(), Failed>
    requires lines { AreMade roster.now lines.old }
    requires works { S.has_failed sink.old ≡ false }
    ensures lines { AreMade roster.now lines.new }
    ensures put { IsPut result (S.taken sink.old) page.old (S.taken sink.new) page.new (S.has_failed sink.new)
        (rows_text (map (entry_row roster.now examiner) entries.now)) }
{
    let start = make_start(examiner);
    for entry in entries {
        put_entry(page, sink, roster, lines, examiner, &start, entry)?;
    }
    Ok(())
}

// Writes a chain: the row that counts its entries, and these.
fn put_chain<S: Sink>(
    page: &mut Page,
    sink: &mut S,
    roster: &Roster,
    lines: &mut Option<KeptLines>,
    examiner: u32,
    entries: &[Entry],
) -> Result<(), Failed>
    requires lines { AreMade roster.now lines.old }
    requires works { S.has_failed sink.old ≡ false }
    ensures lines { AreMade roster.now lines.new }
    ensures put { IsPut result (S.taken sink.old) page.old (S.taken sink.new) page.new (S.has_failed sink.new)
        (rows_text (number_row examiner (codes "chain") (length entries.now)
        ∷ map (entry_row roster.now examiner) entries.now)) }
{
    put_number_row(page, sink, examiner, b"chain", entries.len() as u64)?;
    put_entries(page, sink, roster, lines, examiner, entries)
}

// Writes the rows of an answer.
pub(crate) fn put_answer<S: Sink>(
    page: &mut Page,
    sink: &mut S,
    roster: &Roster,
    lines: &mut Option<KeptLines>,
    examiner: u32,
    answer: &Answer,
) -> Result<(), Failed>
    requires lines { AreMade roster.now lines.old }
    requires works { S.has_failed sink.old ≡ false }
    ensures lines { AreMade roster.now lines.new }
    ensures put { IsPut result (S.taken sink.old) page.old (S.taken sink.new) page.new (S.has_failed sink.new)
        (rows_text (answer_rows roster.now examiner answer.now)) }
{
    match answer {
        Answer::Rows(rows) => put_sheet(page, sink, roster, examiner, rows),
        Answer::Entries(entries) => put_chain(
            page,
            sink,
            roster,
            lines,
            examiner,
            entries.as_slice(),
        ),
        Answer::Posted => put_word_row(page, sink, examiner, b"posted"),
        Answer::Refused(rule, estate, node) => {
            put_refused(page, sink, examiner, *rule, *estate, *node)
        }
    }
}
