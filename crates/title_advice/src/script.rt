//! A script, in which the row at fault is looked up.

use crate::order::order_advice;
use crate::party::party_advice;
use crate::row::row_advice;
use csv::{ByteRecord, ByteRecordsIntoIter, ReaderBuilder, StringRecord};
use std::alloc::{AllocError, Global};
use title_plan::{Schedule, ScriptFault};

/// The bytes of a script, how its transactions come, and whether it goes on from what stands in a plant's file.
#[derive(Clone, Copy)]
pub struct Script<'a> {
    pub alloc: Global,
    pub schedule: Schedule,
    pub is_kept: bool,
    pub bytes: &'a [u8],
}

// What rows are looked for: townships, steps, a party of this name, the begins behind the last transaction that ended, or those of
// this examiner.
#[derive(Clone, Copy)]
pub(crate) enum Sought<'a> {
    Township,
    Step,
    Party(&'a str),
    Begin,
    BeginOf(&'a str),
}

// The rows that were looked for: the first and the last of them, and their number.
#[derive(Clone, Copy, Default)]
pub(crate) struct Found {
    pub first: Option<u64>,
    pub last: Option<u64>,
    pub count: u64,
}

// The field of a row, empty where it has fewer.
pub(crate) fn field(row: &StringRecord, index: usize) -> &str {
    row.get(index).unwrap_or("")
}

// Whether a row has this field.
fn has(row: &ByteRecord, index: usize, text: &str) -> bool {
    match row.get(index) {
        Some(field) => field == text.as_bytes(),
        None => false,
    }
}

// Whether a row ends a transaction.
fn is_end(row: &ByteRecord) -> bool {
    has(row, 1, "commit") || has(row, 1, "abort")
}

// Whether a row declares something.
pub(crate) fn is_declaration(row: &ByteRecord) -> bool {
    has(row, 0, "township") || has(row, 0, "party")
}

fn is_sought(sought: Sought<'_>, row: &ByteRecord) -> bool {
    match sought {
        Sought::Township => has(row, 0, "township"),
        Sought::Step => !is_declaration(row),
        Sought::Party(name) => has(row, 0, "party") && has(row, 1, name),
        Sought::Begin => has(row, 1, "begin"),
        Sought::BeginOf(examiner) => has(row, 0, examiner) && has(row, 1, "begin"),
    }
}

// Whether what was found before a row counts no more behind it.
fn is_forgotten(sought: Sought<'_>, row: &ByteRecord) -> bool {
    matches!(sought, Sought::Begin) && is_end(row)
}

impl Found {
    fn add(&mut self, n: u64) {
        if self.first.is_none() {
            self.first = Some(n);
        }
        self.last = Some(n);
        self.count = self.count.saturating_add(1);
    }
}

// The rows of a script, of any lengths.
fn rows_of(alloc: Global, script: &[u8]) -> ByteRecordsIntoIter<&[u8]> {
    let reader = ReaderBuilder::new()
        .has_headers(false)
        .flexible(true)
        .from_reader(alloc, script);
    reader.into_byte_records()
}

impl Script<'_> {
    // The n-th row, from 1.
    pub(crate) fn row(&self, n: u64) -> Result<Option<ByteRecord>, AllocError> {
        let mut at = 0u64;
        for row in rows_of(self.alloc, self.bytes) {
            let Ok(row) = row else {
                return Err(AllocError);
            };
            at = at.saturating_add(1);
            if at == n {
                return Ok(Some(row));
            }
        }
        Ok(None)
    }

    // The rows before the n-th that are looked for.
    pub(crate) fn before(&self, n: u64, sought: Sought<'_>) -> Result<Found, AllocError> {
        let mut found = Found::default();
        let mut at = 1u64;
        for row in rows_of(self.alloc, self.bytes) {
            let Ok(row) = row else {
                return Err(AllocError);
            };
            if at >= n {
                break;
            }
            if is_sought(sought, &row) {
                found.add(at);
            } else if is_forgotten(sought, &row) {
                found = Found::default();
            }
            at = at.saturating_add(1);
        }
        Ok(found)
    }
}

/// What is wrong with a script that has this fault, in a sentence that begins with the row.
pub fn script_advice(script: &Script<'_>, fault: ScriptFault) -> Result<String, AllocError> {
    let (n, said) = match fault {
        ScriptFault::Row(n) => (n, row_advice(script, n)?),
        ScriptFault::Order(n) => (n, order_advice(script, n)?),
        ScriptFault::Party(n) => (n, party_advice(script, n)?),
        ScriptFault::Memory => return String::from_str(script.alloc, "out of memory"),
    };
    format!(in script.alloc; "row {n}: {said}")
}
