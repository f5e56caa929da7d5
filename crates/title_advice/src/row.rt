//! Rows that aren't understood.

use crate::declared::{comma_hint, party_row_advice, township_row_advice};
use crate::field::{Field, Wanted};
use crate::land::sentence_of;
use crate::quoted::Quoted;
use crate::script::{Script, field};
use crate::word::Word;
use csv::StringRecord;
use std::alloc::AllocError;
use title_plan::{ROWS, Schedule, read_tract};

// What is wrong with the row of a step: its word is none, it has another number of fields, or this field isn't of its form.
#[derive(Clone, Copy)]
enum StepFault {
    Word,
    Fields(Word),
    Field(usize, Field, Wanted),
}

fn judge_field(row: &StringRecord, index: usize, name: Field) -> Result<(), StepFault> {
    match name.judge(field(row, index)) {
        Ok(()) => Ok(()),
        Err(wanted) => Err(StepFault::Field(index, name, wanted)),
    }
}

fn judge_deed(row: &StringRecord) -> Result<(), StepFault> {
    judge_field(row, 2, Field::Doc)?;
    judge_field(row, 3, Field::Grantor)?;
    judge_field(row, 4, Field::Grantee)?;
    judge_field(row, 5, Field::Estates)?;
    judge_field(row, 6, Field::Quantum)?;
    judge_field(row, 7, Field::Reserve)
}

fn judge_release(row: &StringRecord) -> Result<(), StepFault> {
    judge_field(row, 2, Field::Doc)?;
    judge_field(row, 3, Field::From)?;
    judge_field(row, 4, Field::To)?;
    judge_field(row, 5, Field::Estates)
}

fn judge_step(row: &StringRecord) -> Result<(), StepFault> {
    judge_field(row, 0, Field::Examiner)?;
    let Some(word) = Word::of(field(row, 1)) else {
        return Err(StepFault::Word);
    };
    if row.len() != word.fields() {
        return Err(StepFault::Fields(word));
    }
    match word {
        Word::Deed | Word::Warranty => judge_deed(row),
        Word::Release => judge_release(row),
        Word::Begin | Word::Commit | Word::Abort | Word::Sheet | Word::Chain => Ok(()),
    }
}

fn fields_advice(
    script: &Script<'_>,
    row: &StringRecord,
    word: Word,
) -> Result<String, AllocError> {
    let (wanted, has, form) = (word.fields(), row.len(), word.form());
    let hint = comma_hint(has > wanted);
    format!(in script.alloc; "{word} has {wanted} fields, this row has {has}: {form}{hint}")
}

fn word_advice(script: &Script<'_>, row: &StringRecord) -> Result<String, AllocError> {
    if row.len() < 2 {
        let text = "the row has one field; a step has two or more, as 1,begin";
        return String::from_str(script.alloc, text);
    }
    let word = Quoted(field(row, 1));
    format!(in script.alloc;
        "the second field is {word}; \
        it must be begin, commit, abort, sheet, chain, deed, warranty or release, in lower case"
    )
}

// What is wrong with the description of a step that an office refuses.
fn text_advice(script: &Script<'_>, row: &StringRecord) -> Result<String, AllocError> {
    let text = match row.len() {
        3 => field(row, 2),
        7 => field(row, 6),
        _ => field(row, 8),
    };
    match read_tract(script.alloc, text)? {
        Ok(_) => String::from_str(script.alloc, "the row isn't understood"),
        Err(why) => {
            let quoted = Quoted(text);
            let said = sentence_of(script.alloc, text, why)?;
            format!(in script.alloc; "TEXT is {quoted}; {said}")
        }
    }
}

// What is wrong with the row of a step whose fields are of their forms.
fn office_advice(script: &Script<'_>, row: &StringRecord) -> Result<String, AllocError> {
    if let Schedule::Office(number) = script.schedule {
        if let Ok(examiner) = field(row, 0).parse::<u32>() {
            if examiner > number {
                return format!(in script.alloc;
                    "examiner {examiner} is none of this office, which has {number}; \
                    --examiners says how many, at most 64"
                );
            }
        }
    }
    text_advice(script, row)
}

fn step_advice(script: &Script<'_>, row: &StringRecord) -> Result<String, AllocError> {
    match judge_step(row) {
        Err(StepFault::Word) => word_advice(script, row),
        Err(StepFault::Fields(word)) => fields_advice(script, row, word),
        Err(StepFault::Field(index, name, wanted)) => {
            let text = Quoted(field(row, index));
            format!(in script.alloc; "{name} is {text}; {wanted}")
        }
        Ok(()) => office_advice(script, row),
    }
}

// What is wrong with the n-th row, which isn't understood.
pub(crate) fn row_advice(script: &Script<'_>, n: u64) -> Result<String, AllocError> {
    if n > ROWS {
        return format!(in script.alloc; "a script has at most {ROWS} rows");
    }
    let Some(raw) = script.row(n)? else {
        return String::from_str(script.alloc, "the row isn't understood");
    };
    let Ok(row) = StringRecord::from_byte_record(raw) else {
        let text = "the row isn't text in UTF-8; save the script as UTF-8";
        return String::from_str(script.alloc, text);
    };
    match field(&row, 0) {
        "township" => township_row_advice(script, n, &row),
        "party" => party_row_advice(script, &row),
        _ => step_advice(script, &row),
    }
}
