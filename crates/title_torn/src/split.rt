//! A row of a plant's file, split byte by byte.

use std::alloc::{AllocError, Global};
use std::mem;

/// The fields of a row.
pub struct Fields {
    fields: Vec<Vec<u8>>,
}

// By hand, so that whoever lets one go sees one call.
impl Drop for Fields {
    fn drop(self) {
        let Fields { fields } = self;
        drop(fields);
    }
}

// Where in a field the splitter is.
#[derive(Clone, Copy, PartialEq, Eq)]
enum State {
    Start,
    Plain,
    Quoted,
    QuoteEnd,
}

// The fields that have ended, and the one at hand.
#[derive(Drop)]
struct Splitter {
    alloc: Global,
    fields: Vec<Vec<u8>>,
    field: Vec<u8>,
    state: State,
}

impl Fields {
    /// How many there are.
    pub fn count(&self) -> usize {
        self.fields.len()
    }

    /// A field; nothing where there is none.
    pub fn get(&self, index: usize) -> &[u8] {
        match self.fields.get(index) {
            Some(field) => field.as_slice(),
            None => b"",
        }
    }
}

impl Splitter {
    fn end_field(&mut self) -> Result<(), AllocError> {
        let empty = Vec::new(self.alloc);
        let field = mem::replace(&mut self.field, empty);
        self.fields.push(field)?;
        self.state = State::Start;
        Ok(())
    }

    fn keep(&mut self, byte: u8, state: State) -> Result<(), AllocError> {
        self.field.push(byte)?;
        self.state = state;
        Ok(())
    }

    fn read_byte(&mut self, byte: u8) -> Result<(), AllocError> {
        match (self.state, byte) {
            (State::Start, b'"') => {
                self.state = State::Quoted;
                Ok(())
            }
            (State::Quoted, b'"') => {
                self.state = State::QuoteEnd;
                Ok(())
            }
            (State::Quoted, _) | (State::QuoteEnd, b'"') => self.keep(byte, State::Quoted),
            (_, b',') => self.end_field(),
            _ => self.keep(byte, State::Plain),
        }
    }
}

/// The fields of a row.
pub fn fields_of(alloc: Global, line: &[u8]) -> Result<Fields, AllocError> {
    let mut splitter = Splitter {
        alloc,
        fields: Vec::new(alloc),
        field: Vec::new(alloc),
        state: State::Start,
    };
    for byte in line {
        splitter.read_byte(*byte)?;
    }
    splitter.end_field()?;
    let Splitter { fields, .. } = splitter;
    Ok(Fields { fields })
}
