//! Rows that only look.

ghost use Rattle.std.specs.Prelude.{◌≡◌, ℕ, List, IfOk};
ghost use Rattle.csv.specs.Records.{fields_of};
ghost use Rattle.title_plan.specs.{Plans.{rows_in}, Rows.{done, row_in, said}};
ghost use Rattle.title_lasting.specs.{LookRows.{is_look, looks_if, only_looks, other_in, says_look}, Readers.{RowsLeft, TookRow}};

use csv::{ByteRecord, Reader, ReaderBuilder, StringRecord};
use std::alloc::{AllocError, Global};
use title_plan::{Act, ROWS, Row, read_row};

// A reader of the records of a text.
fn open_text(alloc: Global, text: &[u8]) -> Reader<&[u8]>
    ensures left { RowsLeft result (rows_in text.now) }
{
    ReaderBuilder::new()
        .has_headers(false)
        .flexible(true)
        .from_reader(alloc, text)
}

// Takes a record; whether there was one.
fn take_record(reader: &mut Reader<&[u8]>, raw: &mut ByteRecord) -> Result<bool, AllocError>
    ensures took { (rows : List (List (List ℕ))) → RowsLeft reader.old rows
        → IfOk result (TookRow rows (fields_of raw.new) reader.new) }
{
    let found = match reader.read_byte_record(raw) {
        Ok(found) => found,
        Err(_) => return Err(AllocError),
    };
    Ok(found)
}

// Whether what an examiner does only looks.
fn only_looks(act: &Act<&str>) -> bool
    ensures looks { result ≡ only_looks (done act.now) }
{
    match *act {
        Act::Begin => true,
        Act::Commit => false,
        Act::Abort => true,
        Act::Sheet(_) => true,
        Act::Chain(_) => true,
        Act::Post(_, _, _) => false,
    }
}

// Whether what a row says only looks.
fn says_look(row: &Row<&str>) -> bool
    ensures looks { result ≡ says_look (said row.now) }
{
    match *row {
        Row::Township(_) => false,
        Row::Party(_) => false,
        Row::Step(_, ref act) => only_looks(act),
    }
}

// Whether a row of text only looks.
fn text_looks(row: &StringRecord) -> bool
    ensures looks { result ≡ looks_if (row_in (fields_of row.now)) }
{
    match read_row(row) {
        Some(said) => says_look(&said),
        None => false,
    }
}

// Whether a row only looks.
fn is_look(raw: ByteRecord) -> bool
    ensures look { result ≡ is_look (fields_of raw) }
{
    let Ok(row) = StringRecord::from_byte_record(raw) else {
        return false;
    };
    text_looks(&row)
}

/// The first row of a text that doesn't only look, numbered from 1. No more rows are looked at than a script may have.
pub fn find_other(alloc: Global, text: &[u8]) -> Result<Option<u64>, AllocError>
    ensures other { IfOk result (λ row. row ≡ other_in text.now) }
{
    let mut reader = open_text(alloc, text);
    for before in 0..ROWS {
        let mut raw = ByteRecord::new(alloc);
        let found = take_record(&mut reader, &mut raw)?;
        if !found {
            return Ok(None);
        }
        let looks = is_look(raw);
        if !looks {
            return Ok(Some(before + 1));
        }
    }
    Ok(None)
}
