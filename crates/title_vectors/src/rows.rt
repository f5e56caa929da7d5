//! The rows of a table.

use anyhow::{Context, Result};
use csv::{Reader, ReaderBuilder, StringRecord};
use std::alloc::Global;

/// The rows of a table in turn, of any lengths.
pub struct Rows<'a> {
    reader: Reader<&'a [u8]>,
    row: StringRecord,
}

// By hand, so that whoever lets one go sees one call.
impl Drop for Rows<'_> {
    fn drop(self) {
        let Rows { reader, row } = self;
        drop(reader);
        drop(row);
    }
}

impl<'a> Rows<'a> {
    /// Before the first row.
    pub fn new(alloc: Global, table: &'a [u8]) -> Rows<'a> {
        Rows {
            reader: ReaderBuilder::new()
                .has_headers(false)
                .flexible(true)
                .from_reader(alloc, table),
            row: StringRecord::new(alloc),
        }
    }

    /// Goes to the next row; whether there is one.
    pub fn advance(&mut self) -> Result<bool> {
        Ok(self.reader.read_record(&mut self.row)?)
    }

    /// The row.
    pub fn row(&self) -> &StringRecord {
        &self.row
    }
}

/// A field that each row has.
pub fn field(row: &StringRecord, index: usize) -> Result<&str> {
    row.get(index).context("a row of a table is too short")
}
