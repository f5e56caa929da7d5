//! The rows of instruments.

use crate::names::{GOVERNMENT, Names};
use crate::script::Script;
use std::alloc::AllocError;
use title_chance::Chance;

fn estates(chance: &mut Chance) -> &'static str {
    match chance.below(7) {
        0 => "S",
        1 => "O",
        2 => "M",
        3 => "SO",
        4 => "SM",
        5 => "OM",
        _ => "SOM",
    }
}

fn quantum(chance: &mut Chance) -> &'static str {
    match chance.below(5) {
        0 => "I1/2",
        1 => "I1/1",
        2 => "W1/4",
        3 => "W1/64",
        _ => "W1/1024",
    }
}

// What a deed of these estates reserves: mostly nothing.
fn reserve(chance: &mut Chance, estates: &str) -> &'static str {
    if chance.below(10) > 0 {
        return "";
    }
    match estates {
        "S" | "SO" | "SM" | "SOM" => "S1/4096",
        "O" | "OM" => "O1/4096",
        _ => "M1/4096",
    }
}

// Who grants: mostly the government.
fn grantor<'a>(chance: &mut Chance, names: &'a Names) -> &'a str {
    if chance.below(10) < 7 {
        GOVERNMENT
    } else {
        names.any_party(chance)
    }
}

/// Adds the row of an instrument up to its tract: a deed, with warranty one of ten times, or one of ten times a release.
pub fn add_instrument(
    script: &mut Script,
    names: &Names,
    chance: &mut Chance,
    examiner: u32,
    document: u32,
) -> Result<(), AllocError> {
    let (estates, kind) = (estates(chance), chance.below(10));
    let (from, to) = (grantor(chance, names), names.any_party(chance));
    let word = match kind {
        0 => ",release,",
        1 => ",warranty,",
        _ => ",deed,",
    };
    script.add_number("", examiner, word)?;
    script.add_number("", document, ",")?;
    script.add(&[from, ",", to, ","])?;
    script.add(&[estates, ","])?;
    if kind > 0 {
        let (quantum, kept) = (quantum(chance), reserve(chance, estates));
        script.add(&[quantum, ",", kept, ","])?;
    }
    Ok(())
}

/// Adds the row of a deed of so little of the whole that the government can give it thousands of times, up to its tract.
pub fn add_small_deed(
    script: &mut Script,
    names: &Names,
    chance: &mut Chance,
    document: u32,
) -> Result<(), AllocError> {
    script.add_number("1,deed,", document, ",")?;
    script.add(&[GOVERNMENT, ",", names.any_party(chance), ","])?;
    script.add(&[estates(chance), ",W1/1048576,,"])
}
