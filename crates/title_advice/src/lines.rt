//! Lines at a desk, kept until they are answered.

use std::alloc::{AllocError, Global};
use title_counter::LINE_LIMIT;

/// The whole lines that a desk was given last, and the beginning of the next, of which no more is kept than tells that it is too long.
/// Where memory was refused for them, they are lost from then on.
#[derive(Drop)]
pub(crate) struct Lines {
    alloc: Global,
    bytes: Vec<u8>,
    rows: u64,
    are_lost: bool,
}

// Whether a line is a row: a blank one is none.
fn is_row(line: &[u8]) -> bool {
    if line.len() > LINE_LIMIT {
        return true;
    }
    let text = line.strip_prefix(b"\xEF\xBB\xBF").unwrap_or(line);
    text.iter().any(|byte| *byte != b'\r')
}

// How many rows these lines are.
fn rows_in(lines: &[u8]) -> u64 {
    let rows = lines
        .split(|byte| *byte == b'\n')
        .filter(|line| is_row(*line));
    rows.count() as u64
}

// The beginning of the line behind the whole ones, as far as it is kept.
fn rest_of(lines: &[u8]) -> &[u8] {
    match lines.rsplit(|byte| *byte == b'\n').next() {
        Some(rest) => &rest[..rest.len().min(LINE_LIMIT + 1)],
        None => lines,
    }
}

impl Lines {
    /// No line yet.
    pub(crate) fn new(alloc: Global) -> Lines {
        Lines {
            alloc,
            bytes: Vec::new(alloc),
            rows: 0,
            are_lost: false,
        }
    }

    // The beginning of the next line, and bytes behind it: the whole lines have been answered.
    fn with(&self, rest: &[u8], given: &[u8]) -> Result<Vec<u8>, AllocError> {
        let mut bytes = Vec::from_slice(self.alloc, rest)?;
        bytes.extend_from_slice(given)?;
        Ok(bytes)
    }

    /// Takes bytes more, and lets the lines go that were whole before these came.
    pub(crate) fn take(&mut self, given: &[u8]) {
        let rest = rest_of(self.bytes.as_slice());
        let whole = rows_in(self.bytes.as_slice()).saturating_sub(rows_in(rest));
        match self.with(rest, given) {
            Ok(bytes) => self.bytes = bytes,
            Err(_) => self.are_lost = true,
        }
        self.rows = self.rows.saturating_add(whole);
    }

    /// The line that is the n-th row.
    pub(crate) fn row(&self, n: u64) -> Option<&[u8]> {
        if self.are_lost {
            return None;
        }
        let others = n.checked_sub(self.rows)?.checked_sub(1)?;
        let mut rows = self
            .bytes
            .split(|byte| *byte == b'\n')
            .filter(|line| is_row(*line));
        rows.nth(usize::try_from(others).ok()?)
    }
}
