//! The rows of a script, split byte by byte.

use std::alloc::{AllocError, Global};
use std::{mem, str};

/// The fields of a row, as bytes.
#[derive(Drop)]
pub struct Fields {
    fields: Vec<Vec<u8>>,
}

// Where in a row the splitter is.
#[derive(Clone, Copy, PartialEq, Eq)]
enum State {
    RowStart,
    FieldStart,
    Plain,
    Quoted,
    QuoteEnd,
}

// The rows that have ended, the fields of the row at hand that have, and the field at hand.
#[derive(Drop)]
struct Splitter {
    alloc: Global,
    rows: Vec<Fields>,
    fields: Vec<Vec<u8>>,
    field: Vec<u8>,
    state: State,
}

impl Fields {
    /// How many there are.
    pub fn count(&self) -> usize {
        self.fields.len()
    }

    /// Whether each is UTF-8.
    pub fn are_text(&self) -> bool {
        let fields = self.fields.as_slice();
        fields
            .iter()
            .all(|field| str::from_utf8(field.as_slice()).is_ok())
    }

    /// A field as text; the empty text where there is none, or it isn't UTF-8.
    pub fn text(&self, index: usize) -> &str {
        match self.fields.get(index) {
            Some(field) => str::from_utf8(field.as_slice()).unwrap_or(""),
            None => "",
        }
    }
}

impl Splitter {
    fn new(alloc: Global) -> Splitter {
        Splitter {
            alloc,
            rows: Vec::new(alloc),
            fields: Vec::new(alloc),
            field: Vec::new(alloc),
            state: State::RowStart,
        }
    }

    fn end_field(&mut self) -> Result<(), AllocError> {
        let empty = Vec::new(self.alloc);
        let field = mem::replace(&mut self.field, empty);
        self.fields.push(field)?;
        self.state = State::FieldStart;
        Ok(())
    }

    fn end_row(&mut self) -> Result<(), AllocError> {
        self.end_field()?;
        let empty = Vec::new(self.alloc);
        let fields = mem::replace(&mut self.fields, empty);
        self.rows.push(Fields { fields })?;
        self.state = State::RowStart;
        Ok(())
    }

    fn keep(&mut self, byte: u8, state: State) -> Result<(), AllocError> {
        self.field.push(byte)?;
        self.state = state;
        Ok(())
    }

    // A line end where a row would begin is a blank line or the second half of a line end.
    fn read_byte(&mut self, byte: u8) -> Result<(), AllocError> {
        match (self.state, byte) {
            (State::RowStart, b'\r' | b'\n') => Ok(()),
            (State::RowStart | State::FieldStart, b'"') => {
                self.state = State::Quoted;
                Ok(())
            }
            (State::Quoted, b'"') => {
                self.state = State::QuoteEnd;
                Ok(())
            }
            (State::Quoted, _) | (State::QuoteEnd, b'"') => self.keep(byte, State::Quoted),
            (_, b',') => self.end_field(),
            (_, b'\r' | b'\n') => self.end_row(),
            _ => self.keep(byte, State::Plain),
        }
    }

    // A row that the script's end cuts off is a row.
    fn into_rows(mut self) -> Result<Vec<Fields>, AllocError> {
        if self.state != State::RowStart {
            self.end_row()?;
        }
        let Splitter { rows, .. } = self;
        Ok(rows)
    }
}

/// The rows of a script. A byte order mark at its front is passed over.
pub fn rows_of(alloc: Global, script: &[u8]) -> Result<Vec<Fields>, AllocError> {
    let text = script.strip_prefix(b"\xEF\xBB\xBF").unwrap_or(script);
    let mut splitter = Splitter::new(alloc);
    for byte in text {
        splitter.read_byte(*byte)?;
    }
    splitter.into_rows()
}
