//! What is wrong with a row at a desk.

use crate::audience::Audience;
use crate::look::{NOTHING_KEPT, is_understood};
use crate::party::party_advice;
use crate::passed_over::PassedOver;
use crate::quoted::Quoted;
use crate::row::row_advice;
use crate::script::{Script, field, is_declaration};
use csv::{ByteRecord, StringRecord};
use std::alloc::{AllocError, Global};
use title_counter::LINE_LIMIT;
use title_plan::{Schedule, ScriptFault};

// Which rows there are.
const ROWS: &str = "the rows at a desk are\n  \
    township,TEXT\n  \
    party,NAME\n  \
    E,begin\n  \
    E,sheet,TEXT\n  \
    E,chain,TEXT\n  \
    E,deed,DOC,GRANTOR,GRANTEE,ESTATES,QUANTUM,RESERVE,TEXT\n  \
    E,warranty,DOC,GRANTOR,GRANTEE,ESTATES,QUANTUM,RESERVE,TEXT\n  \
    E,release,DOC,FROM,TO,ESTATES,TEXT\n  \
    E,commit\n  \
    E,abort";

// Which rows there are where nothing is kept.
const LOOKS: &str = "the rows at a desk with --look are\n  \
    E,begin\n  \
    E,sheet,TEXT\n  \
    E,chain,TEXT\n  \
    E,abort";

// What stands in them, and how a desk is left.
const FIELDS: &str =
    "E is an examiner's number, 1 to 9999, and TEXT is land, as T3N R2W sec 5 NE1/4; \
    titleplant run --help tells of all fields\n\
    the end of the input (Ctrl-D at a terminal) ends the desk";

const UNCLOSED: &str = "a quote isn't closed on its line";

const BROKEN: &str = "a carriage return stands within the row";

const ONE_FIELD: &str =
    "the row has one field; a step has two or more, as 1,begin; type help to see which rows there are";

const LATE: &str = "townships are declared before the first step; \
    where transactions stand in the plant's file a script declares them, by titleplant run --plant";

const NO_MEMORY: &str = "out of memory; the row may be sent again";

// Whether a field goes on over the end of its line.
fn goes_over(raw: &ByteRecord) -> bool {
    for i in 0..raw.len() {
        if let Some(field) = raw.get(i) {
            if field.contains(&b'\n') {
                return true;
            }
        }
    }
    false
}

// Whether a row asks which rows there are.
fn asks_for_help(raw: &ByteRecord) -> bool {
    match raw.get(0) {
        Some(field) => raw.len() == 1 && field == "help".as_bytes(),
        None => false,
    }
}

// What is wrong with a row that isn't understood, or that only a desk which keeps something takes.
fn form_advice(
    script: &Script<'_>,
    audience: Audience,
    raw: &ByteRecord,
) -> Result<String, AllocError> {
    if goes_over(raw) {
        return String::from_str(script.alloc, UNCLOSED);
    }
    if script.row(2)?.is_some() {
        return String::from_str(script.alloc, BROKEN);
    }
    if asks_for_help(raw) {
        let rows = if audience.looks() { LOOKS } else { ROWS };
        return format!(in script.alloc; "{rows}\n{FIELDS}");
    }
    if raw.len() == 1 && !is_declaration(raw) {
        return String::from_str(script.alloc, ONE_FIELD);
    }
    if audience.looks() && is_understood(script, 1)? {
        return String::from_str(script.alloc, NOTHING_KEPT);
    }
    row_advice(script, 1)
}

// What is wrong with a row that declares a party which is there, or names one that isn't.
fn name_advice(script: &Script<'_>, raw: ByteRecord) -> Result<String, AllocError> {
    let Ok(row) = StringRecord::from_byte_record(raw) else {
        return party_advice(script, 1);
    };
    if field(&row, 0) != "party" {
        return party_advice(script, 1);
    }
    let name = Quoted(field(&row, 1));
    format!(in script.alloc; "the party {name} is there already")
}

// What is wrong with a row, which is a script of its own here.
fn advice_of(
    script: &Script<'_>,
    audience: Audience,
    fault: ScriptFault,
) -> Result<String, AllocError> {
    let Some(raw) = script.row(1)? else {
        return String::from_str(script.alloc, "the row isn't understood");
    };
    match fault {
        ScriptFault::Row(_) => form_advice(script, audience, &raw),
        ScriptFault::Party(_) => name_advice(script, raw),
        ScriptFault::Order(_) => String::from_str(script.alloc, LATE),
        ScriptFault::Memory => String::from_str(script.alloc, NO_MEMORY),
    }
}

/// What is wrong with a row at a desk that was passed over, of which this is the line: in a sentence that begins with the row, with its
/// line end. Of a row `help` it tells which rows there are.
pub(crate) fn desk_row_advice(
    alloc: Global,
    audience: Audience,
    passed: PassedOver,
    line: &[u8],
) -> Result<String, AllocError> {
    let n = passed.row;
    if line.len() > LINE_LIMIT {
        return format!(in alloc; "row {n}: a row has at most {LINE_LIMIT} bytes\n");
    }
    let mut bytes = Vec::from_slice(alloc, line)?;
    bytes.push(b'\n')?;
    let script = Script {
        alloc,
        schedule: Schedule::Interleaved,
        is_kept: true,
        bytes: bytes.as_slice(),
    };
    let said = advice_of(&script, audience, passed.fault)?;
    format!(in alloc; "row {n}: {said}\n")
}
