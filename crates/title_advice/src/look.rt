//! Rows that don't only look.

use crate::script::{Script, script_advice};
use csv::StringRecord;
use std::alloc::AllocError;
use title_plan::{ROWS, ScriptFault, read_row};

/// What is wrong with a row that only a command which keeps something takes.
pub(crate) const NOTHING_KEPT: &str =
    "with --look nothing is kept: a row begins, asks for a sheet or a chain, or aborts";

/// Whether the n-th row is one that a script may have.
pub(crate) fn is_understood(script: &Script<'_>, n: u64) -> Result<bool, AllocError> {
    let Some(raw) = script.row(n)? else {
        return Ok(false);
    };
    let Ok(row) = StringRecord::from_byte_record(raw) else {
        return Ok(false);
    };
    Ok(n <= ROWS && read_row(&row).is_some())
}

/// What is wrong with the n-th row of a script that looks at a plant's file, in a sentence that begins with the row.
pub fn look_advice(script: &Script<'_>, n: u64) -> Result<String, AllocError> {
    if is_understood(script, n)? {
        return format!(in script.alloc; "row {n}: {NOTHING_KEPT}");
    }
    script_advice(script, ScriptFault::Row(n))
}
