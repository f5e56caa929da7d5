//! What a row of a step asks for.

use crate::forms::{is_estates, is_name, is_quantum, is_reserve, number};
use crate::land::land_of;
use crate::split::Fields;
use std::alloc::{AllocError, Global};

/// What an examiner does.
#[derive(Clone, Copy, PartialEq, Eq)]
pub enum Act {
    Begin,
    Commit,
    Abort,
    Sheet,
    Chain,
    Post,
}

/// A step: who does what, whether the description in it is one, and whether the examiner's transaction was open before it.
#[derive(Clone, Copy)]
pub struct Step {
    pub examiner: u64,
    pub act: Act,
    pub is_readable: bool,
    pub is_open: bool,
}

fn word(word: &str) -> Option<Act> {
    match word {
        "begin" => Some(Act::Begin),
        "commit" => Some(Act::Commit),
        "abort" => Some(Act::Abort),
        _ => None,
    }
}

fn question(word: &str) -> Option<Act> {
    match word {
        "sheet" => Some(Act::Sheet),
        "chain" => Some(Act::Chain),
        _ => None,
    }
}

// What a deed and a release have alike: a document's number, two names and estates.
fn is_instrument(fields: &Fields) -> bool {
    let is_document = number(fields.text(2), 999_999_999_999).is_some();
    let are_names = is_name(fields.text(3)) && is_name(fields.text(4));
    is_document && are_names && is_estates(fields.text(5))
}

fn release(fields: &Fields) -> Option<Act> {
    if fields.text(1) == "release" && is_instrument(fields) {
        Some(Act::Post)
    } else {
        None
    }
}

fn deed(fields: &Fields) -> Option<Act> {
    let is_deed = matches!(fields.text(1), "deed" | "warranty");
    let is_limited = is_quantum(fields.text(6)) && is_reserve(fields.text(7));
    if is_deed && is_instrument(fields) && is_limited {
        Some(Act::Post)
    } else {
        None
    }
}

fn act_of(fields: &Fields) -> Option<Act> {
    match fields.count() {
        2 => word(fields.text(1)),
        3 => question(fields.text(1)),
        7 => release(fields),
        9 => deed(fields),
        _ => None,
    }
}

// Whether the description of a row is one; the rows of some acts have none.
fn is_readable(alloc: Global, act: Act, fields: &Fields) -> Result<bool, AllocError> {
    match act {
        Act::Begin | Act::Commit | Act::Abort => Ok(true),
        Act::Sheet | Act::Chain | Act::Post => {
            let last = fields.count().saturating_sub(1);
            Ok(land_of(alloc, fields.text(last))?.is_some())
        }
    }
}

/// The step that a row is, if it is one. No transaction is taken to be open.
pub fn step_of(alloc: Global, fields: &Fields) -> Result<Option<Step>, AllocError> {
    let Some(examiner) = number(fields.text(0), 9_999) else {
        return Ok(None);
    };
    let Some(act) = act_of(fields) else {
        return Ok(None);
    };
    Ok(Some(Step {
        examiner,
        act,
        is_readable: is_readable(alloc, act, fields)?,
        is_open: false,
    }))
}
