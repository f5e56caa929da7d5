//! A day on a plant's file, with what it has to come to.

use anyhow::Result;
use std::alloc::{AllocError, Global};
use std::fs;
use std::rt::Files;
use title_lasting::Schedule;

/// A new file.
pub const NEW: &[u8] = b"titleplant plant 1\n-";

/// A script, what has to come into the file, the report, and what stands then: in numbers but for the tail, and as a script.
pub struct Day {
    pub name: &'static str,
    pub schedule: Schedule,
    pub script: Vec<u8>,
    pub block: Vec<u8>,
    pub report: Vec<u8>,
    pub standing: Vec<u8>,
    pub told: Vec<u8>,
}

// By hand, so that whoever lets one go sees one call.
impl Drop for Day {
    fn drop(self) {
        let Day {
            name: _,
            schedule: _,
            script,
            block,
            report,
            standing,
            told,
        } = self;
        drop(script);
        drop(block);
        drop(report);
        drop(standing);
        drop(told);
    }
}

/// A file at rest, and what stands in it, in numbers but for the tail.
pub struct Plant {
    pub file: Vec<u8>,
    pub standing: Vec<u8>,
}

// The same.
impl Drop for Plant {
    fn drop(self) {
        let Plant { file, standing } = self;
        drop(file);
        drop(standing);
    }
}

/// The file of a name and a kind.
pub fn read_file<R: Files + AllocGlobal>(rt: &R, name: &str, kind: &str) -> Result<Vec<u8>> {
    let path = format!(in rt.alloc(); "{name}.{kind}")?;
    Ok(fs::read(rt, path.as_str())?)
}

impl Day {
    /// The day of a name.
    pub fn read<R: Files + AllocGlobal>(
        rt: &R,
        name: &'static str,
        schedule: Schedule,
    ) -> Result<Day> {
        Ok(Day {
            name,
            schedule,
            script: read_file(rt, name, "csv")?,
            block: read_file(rt, name, "block")?,
            report: read_file(rt, name, "report")?,
            standing: read_file(rt, name, "standing")?,
            told: read_file(rt, name, "told")?,
        })
    }
}

// A file with its last byte, a closed gate, opened, and a block behind it.
fn with_block(alloc: Global, file: &[u8], block: &[u8]) -> Result<Vec<u8>, AllocError> {
    let before = file.strip_suffix(b"-").unwrap_or(file);
    let mut after = Vec::from_slice(alloc, before)?;
    after.extend_from_slice(b"+\n")?;
    after.extend_from_slice(block)?;
    after.push(b'-')?;
    Ok(after)
}

impl Plant {
    /// A new file.
    pub fn new(alloc: Global) -> Result<Plant, AllocError> {
        let standing = b"townships,0\nparties,1\ntransactions,0\nposts,0\n";
        Ok(Plant {
            file: Vec::from_slice(alloc, NEW)?,
            standing: Vec::from_slice(alloc, standing)?,
        })
    }

    /// What stands after a day.
    pub fn after(&self, alloc: Global, day: &Day) -> Result<Plant, AllocError> {
        let file = if day.block.is_empty() {
            Vec::from_slice(alloc, self.file.as_slice())?
        } else {
            with_block(alloc, self.file.as_slice(), day.block.as_slice())?
        };
        Ok(Plant {
            file,
            standing: Vec::from_slice(alloc, day.standing.as_slice())?,
        })
    }

    /// The place of the last transaction.
    pub fn last(&self) -> u64 {
        last_of(self.standing.as_slice())
    }

    /// The bytes that stay as they are, down to the gate at the end.
    pub fn fixed(&self) -> &[u8] {
        let file = self.file.as_slice();
        file.strip_suffix(b"-").unwrap_or(file)
    }
}

/// The place of the last transaction by what stands, in numbers: its third row; the greatest of 64 bits where there is none.
pub fn last_of(standing: &[u8]) -> u64 {
    let Some(row) = standing.split(|byte| *byte == b'\n').nth(2) else {
        return u64::MAX;
    };
    let Some(digits) = row.split(|byte| *byte == b',').nth(1) else {
        return u64::MAX;
    };
    let mut number = 0u64;
    for digit in digits {
        let digit = u64::from(digit.saturating_sub(b'0'));
        number = number.saturating_mul(10).saturating_add(digit);
    }
    number
}
