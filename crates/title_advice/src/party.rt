//! Parties at fault.

use crate::quoted::Quoted;
use crate::script::{Script, Sought, field};
use csv::StringRecord;
use std::alloc::AllocError;
use title_plan::FIRST_PARTY;

// What is wrong with the row of a party that is there already.
fn again_advice(script: &Script<'_>, n: u64, name: &str) -> Result<String, AllocError> {
    let quoted = Quoted(name);
    let rows = script.before(n, Sought::Party(name))?;
    match rows.first {
        Some(first) => format!(in script.alloc;
            "the party {quoted} is declared in row {first} already"
        ),
        None => format!(in script.alloc;
            "the party {quoted} is there from the start and needs no row"
        ),
    }
}

// Whether a party is declared above a row.
fn is_declared(script: &Script<'_>, n: u64, name: &str) -> Result<bool, AllocError> {
    let rows = script.before(n, Sought::Party(name))?;
    Ok(name == FIRST_PARTY || rows.count > 0)
}

// What is wrong with a step that names a party which no row declares.
fn missing_advice(script: &Script<'_>, name: &str) -> Result<String, AllocError> {
    let quoted = Quoted(name);
    if script.is_kept {
        return format!(in script.alloc;
            "no party named {quoted} is declared above or in the plant"
        );
    }
    format!(in script.alloc; "no party named {quoted} is declared above")
}

// What is wrong with a step whose parties no row declares, where the plant may declare one of them.
fn either_advice(script: &Script<'_>, grantor: &str, grantee: &str) -> Result<String, AllocError> {
    let (grantor, grantee) = (Quoted(grantor), Quoted(grantee));
    format!(in script.alloc;
        "a party named {grantor} or one named {grantee} is declared neither above nor in the plant"
    )
}

// What is wrong with the n-th row, which has a party at fault.
pub(crate) fn party_advice(script: &Script<'_>, n: u64) -> Result<String, AllocError> {
    let Some(raw) = script.row(n)? else {
        return String::from_str(script.alloc, "a party is at fault");
    };
    let Ok(row) = StringRecord::from_byte_record(raw) else {
        return String::from_str(script.alloc, "a party is at fault");
    };
    if field(&row, 0) == "party" {
        return again_advice(script, n, field(&row, 1));
    }
    let (grantor, grantee) = (field(&row, 3), field(&row, 4));
    if is_declared(script, n, grantor)? {
        return missing_advice(script, grantee);
    }
    if script.is_kept && !is_declared(script, n, grantee)? {
        return either_advice(script, grantor, grantee);
    }
    missing_advice(script, grantor)
}
