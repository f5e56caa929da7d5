//! Declarations that aren't understood.

use crate::field::Field;
use crate::land::sentence_of;
use crate::quoted::Quoted;
use crate::script::{Script, Sought, field};
use csv::StringRecord;
use std::alloc::AllocError;
use title_land::Land;
use title_plan::read_tract;
use title_trace::{MOST_PARTIES, MOST_TOWNSHIPS};

// What a row with too many fields may lack.
pub(crate) fn comma_hint(is_long: bool) -> &'static str {
    if is_long {
        "; a field with a comma in it stands in double quotes"
    } else {
        ""
    }
}

// What is wrong with a row `township`.
pub(crate) fn township_row_advice(
    script: &Script<'_>,
    n: u64,
    row: &StringRecord,
) -> Result<String, AllocError> {
    let has = row.len();
    if has != 2 {
        let hint = comma_hint(has > 2);
        return format!(in script.alloc;
            "a township has 2 fields, this row has {has}: township,TEXT{hint}"
        );
    }
    let text = field(row, 1);
    let quoted = Quoted(text);
    let tract = match read_tract(script.alloc, text)? {
        Ok(tract) => tract,
        Err(why) => {
            let said = sentence_of(script.alloc, text, why)?;
            return format!(in script.alloc; "TEXT is {quoted}; {said}");
        }
    };
    match tract.land() {
        Land::Township(_) => refused_township(script, n, quoted),
        _ => format!(in script.alloc;
            "TEXT is {quoted}; it must be one whole township, as T3N R2W"
        ),
    }
}

// Why one more township isn't taken.
fn refused_township(script: &Script<'_>, n: u64, quoted: Quoted<'_>) -> Result<String, AllocError> {
    let declared = script.before(n, Sought::Township)?;
    if declared.count >= MOST_TOWNSHIPS as u64 {
        return format!(in script.alloc; "a plant has at most {MOST_TOWNSHIPS} townships");
    }
    if script.is_kept {
        return format!(in script.alloc;
            "the township {quoted} is declared already, \
            or the plant has {MOST_TOWNSHIPS} with those above"
        );
    }
    format!(in script.alloc; "the township {quoted} is declared above already")
}

// What is wrong with a row `party`.
pub(crate) fn party_row_advice(
    script: &Script<'_>,
    row: &StringRecord,
) -> Result<String, AllocError> {
    let has = row.len();
    if has != 2 {
        let hint = comma_hint(has > 2);
        return format!(in script.alloc;
            "a party has 2 fields, this row has {has}: party,NAME{hint}"
        );
    }
    let name = field(row, 1);
    match Field::Name.judge(name) {
        Ok(()) => format!(in script.alloc; "a plant has at most {MOST_PARTIES} parties"),
        Err(wanted) => {
            let quoted = Quoted(name);
            format!(in script.alloc; "NAME is {quoted}; {wanted}")
        }
    }
}
