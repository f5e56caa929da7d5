//! Rows that are out of their place.

use crate::quoted::Quoted;
use crate::script::{Script, Sought, field};
use csv::StringRecord;
use std::alloc::AllocError;
use title_plan::Schedule;

// What is wrong with a declaration behind a step.
fn late_advice(script: &Script<'_>, n: u64) -> Result<String, AllocError> {
    let steps = script.before(n, Sought::Step)?;
    match steps.first {
        Some(first) => {
            format!(in script.alloc;
                "townships and parties are declared before the first step, which is row {first}"
            )
        }
        None => String::from_str(
            script.alloc,
            "townships and parties are declared before the first step",
        ),
    }
}

// What is wrong with a step inside the transaction of another examiner.
fn inside_advice(script: &Script<'_>, n: u64) -> Result<String, AllocError> {
    let begins = script.before(n, Sought::Begin)?;
    let Some(begin) = begins.first else {
        return String::from_str(script.alloc, "another examiner's transaction is open");
    };
    let opened = match script.row(begin)? {
        Some(raw) => raw,
        None => return String::from_str(script.alloc, "another examiner's transaction is open"),
    };
    let Ok(opened) = StringRecord::from_byte_record(opened) else {
        return String::from_str(script.alloc, "another examiner's transaction is open");
    };
    let other = Quoted(field(&opened, 0));
    format!(in script.alloc;
        "the transaction that examiner {other} began in row {begin} is still open; \
        commit or abort it first, or use the command run"
    )
}

// What is wrong with a step of an office that is out of its turn.
fn turn_advice(script: &Script<'_>, n: u64, row: &StringRecord) -> Result<String, AllocError> {
    let examiner = field(row, 0);
    if field(row, 1) != "begin" {
        return format!(in script.alloc;
            "examiner {examiner} has no transaction open; \
            in an office each step stands between {examiner},begin and {examiner},commit or {examiner},abort"
        );
    }
    let begins = script.before(n, Sought::BeginOf(examiner))?;
    match begins.last {
        Some(begin) => {
            format!(in script.alloc;
                "the transaction that examiner {examiner} began in row {begin} is still open; \
                commit or abort it first"
            )
        }
        None => format!(in script.alloc; "examiner {examiner} has a transaction open already"),
    }
}

// What is wrong with the n-th row, which is out of its place.
pub(crate) fn order_advice(script: &Script<'_>, n: u64) -> Result<String, AllocError> {
    let Some(raw) = script.row(n)? else {
        return String::from_str(script.alloc, "the row is out of its place");
    };
    let Ok(row) = StringRecord::from_byte_record(raw) else {
        return String::from_str(script.alloc, "the row is out of its place");
    };
    match (field(&row, 0), script.schedule) {
        ("township", _) | ("party", _) => late_advice(script, n),
        (_, Schedule::Office(_)) => turn_advice(script, n, &row),
        _ => inside_advice(script, n),
    }
}
