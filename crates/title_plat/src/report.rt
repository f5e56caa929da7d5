//! The sheets of a report, from its bytes.

use crate::fault::PlatFault;
use crate::row::Row;
use crate::sheet::{Extent, Sheet, Wanted, sheet_in};
use csv::{ByteRecord, ReaderBuilder, StringRecord};
use std::alloc::Global;
use title_aliquot::{DescFault, Node, read};
use title_instrument::Estate;
use title_share::{Share, number};

// What has been read of a report so far: the rows of its sheets, which of them are those of each sheet, and how many rows of
// the sheet that began last are to come.
#[derive(Drop)]
struct Reading {
    rows: Vec<Row>,
    sheets: Vec<Extent>,
    to_come: u64,
}

// The one node that a text names.
fn node_in(alloc: Global, text: &str) -> Result<Option<Node>, PlatFault> {
    match read(alloc, text) {
        Ok(tract) => match tract.cover() {
            [node] => Ok(Some(*node)),
            _ => Ok(None),
        },
        Err(DescFault::Memory) => Err(PlatFault::Memory),
        Err(_) => Ok(None),
    }
}

// The estate that a letter names.
fn estate_in(text: &str) -> Option<Estate> {
    match text {
        "S" => Some(Estate::S),
        "O" => Some(Estate::O),
        "M" => Some(Estate::M),
        _ => None,
    }
}

fn field(record: &StringRecord, i: usize) -> &str {
    record.get(i).unwrap_or("")
}

// The row of a sheet that a record is.
fn row_in(alloc: Global, record: &StringRecord) -> Result<Row, PlatFault> {
    if record.len() != 6 || field(record, 1) != "row" {
        return Err(PlatFault::NotAReport);
    }
    let Some(node) = node_in(alloc, field(record, 2))? else {
        return Err(PlatFault::NotAReport);
    };
    let Some(estate) = estate_in(field(record, 3)) else {
        return Err(PlatFault::NotAReport);
    };
    let Some(share) = Share::parse(field(record, 5)) else {
        return Err(PlatFault::NotAReport);
    };
    let party = String::from_str(alloc, field(record, 4))?;
    Ok(Row {
        node,
        estate,
        party,
        share,
    })
}

// Whether a word is that of a report's row that isn't in a sheet.
fn is_word(word: &str) -> bool {
    matches!(
        word,
        "began"
            | "chain"
            | "entry"
            | "posted"
            | "refused"
            | "committed"
            | "aborted"
            | "notopen"
            | "alreadyopen"
            | "notownship"
            | "invalid"
            | "toolong"
            | "conflict"
            | "description"
            | "done"
    )
}

// Whether a record is a row of a report that isn't in a sheet.
fn is_passed_over(record: &StringRecord) -> bool {
    let first = field(record, 0);
    first == "end" || first == "settled" || is_word(field(record, 1))
}

// Adds a row to those that are kept.
fn keep(rows: &mut Vec<Row>, row: Row) -> Result<(), PlatFault> {
    match rows.push(row) {
        Ok(()) => Ok(()),
        Err(_) => Err(PlatFault::Memory),
    }
}

impl Reading {
    // Takes a record that stands in no sheet.
    fn take_outside(&mut self, record: &StringRecord) -> Result<(), PlatFault> {
        if field(record, 1) != "sheet" {
            return if is_passed_over(record) {
                Ok(())
            } else {
                Err(PlatFault::NotAReport)
            };
        }
        let Some(count) = number(field(record, 2)) else {
            return Err(PlatFault::NotAReport);
        };
        let first = self.rows.len();
        let Some(end) = first.checked_add(count as usize) else {
            return Err(PlatFault::NotAReport);
        };
        self.to_come = count;
        match self.sheets.push(Extent { first, end }) {
            Ok(()) => Ok(()),
            Err(_) => Err(PlatFault::Memory),
        }
    }

    // Takes a record.
    fn take(&mut self, alloc: Global, raw: ByteRecord) -> Result<(), PlatFault> {
        let Ok(record) = StringRecord::from_byte_record(raw) else {
            return Err(PlatFault::NotAReport);
        };
        if self.to_come == 0 {
            return self.take_outside(&record);
        }
        let row = row_in(alloc, &record)?;
        self.to_come -= 1;
        keep(&mut self.rows, row)
    }

    // The sheet that is wanted.
    fn sheet(self, wanted: Wanted) -> Result<Sheet, PlatFault> {
        if self.to_come > 0 {
            return Err(PlatFault::NotAReport);
        }
        let Some(extent) = sheet_in(self.sheets.as_slice(), wanted) else {
            return Err(PlatFault::NoSheet);
        };
        let sheets = self.sheets.len() as u64;
        let number = match wanted {
            Wanted::Number(number) => number,
            Wanted::Last => sheets,
        };
        Ok(Sheet {
            number,
            sheets,
            rows: self.rows,
            extent,
        })
    }
}

/// The sheet of a report that is wanted. `NotAReport` where a row isn't one of a report, or rows of a sheet are wanting;
/// `NoSheet` where there are too few sheets.
pub fn read_sheet(alloc: Global, report: &[u8], wanted: Wanted) -> Result<Sheet, PlatFault> {
    let rdr = ReaderBuilder::new()
        .has_headers(false)
        .flexible(true)
        .from_reader(alloc, report);
    let mut reading = Reading {
        rows: Vec::new(alloc),
        sheets: Vec::new(alloc),
        to_come: 0,
    };
    for record in rdr.into_byte_records() {
        match record {
            Ok(raw) => reading.take(alloc, raw)?,
            Err(_) => return Err(PlatFault::Memory),
        }
    }
    reading.sheet(wanted)
}
