//! Many examiners at once.

use crate::instrument::add_instrument;
use crate::land::{Place, add_square, add_tract};
use crate::names::Names;
use crate::script::Script;
use std::alloc::{AllocError, Global};
use title_chance::Chance;

// How many rows are left of each examiner's transaction, the last a commit or an abort; none where it isn't open.
fn turns(alloc: Global, examiners: u32) -> Result<Vec<u32>, AllocError> {
    let mut turns = Vec::new(alloc);
    for _ in 0..examiners {
        turns.push(0)?;
    }
    Ok(turns)
}

// Adds a step: three of ten times a sheet, and else an instrument.
fn add_step(
    script: &mut Script,
    names: &Names,
    chance: &mut Chance,
    examiner: u32,
    document: u32,
) -> Result<(), AllocError> {
    if chance.below(10) < 3 {
        script.add_number("", examiner, ",sheet,")?;
    } else {
        add_instrument(script, names, chance, examiner, document)?;
    }
    let place = Place::any(chance, names);
    add_tract(script, names, chance, place)?;
    script.add(&["\n"])
}

// How many rows are left of a transaction after this one: 2 to 21 after a beginning.
fn left_after(chance: &mut Chance, left: u32) -> u32 {
    if left == 0 {
        chance.below(20).saturating_add(2)
    } else {
        left - 1
    }
}

// Adds an examiner's next row, of whose transaction so many are left.
fn add_turn(
    script: &mut Script,
    names: &Names,
    chance: &mut Chance,
    examiner: u32,
    left: u32,
    document: u32,
) -> Result<(), AllocError> {
    match left {
        0 => script.add_number("", examiner, ",begin\n"),
        1 if chance.below(10) == 0 => script.add_number("", examiner, ",abort\n"),
        1 => script.add_number("", examiner, ",commit\n"),
        _ => add_step(script, names, chance, examiner, document),
    }
}

/// Adds so many rows of examiners at work at once, each turn that of an examiner by chance; a transaction has up to 20 steps, and
/// one of ten is aborted.
pub fn add_interleaved(
    alloc: Global,
    script: &mut Script,
    names: &Names,
    chance: &mut Chance,
    examiners: u32,
    count: u32,
) -> Result<(), AllocError> {
    let mut turns = turns(alloc, examiners)?;
    for document in 1..=count {
        let number = chance.below(examiners);
        let Some(left) = turns.get_mut(usize::try_from(number).unwrap_or(0)) else {
            continue;
        };
        let examiner = number.saturating_add(1);
        add_turn(script, names, chance, examiner, *left, document)?;
        *left = left_after(chance, *left);
    }
    Ok(())
}

/// Adds the rows of so many examiners that all begin, then post so many deeds of cells in turn, and at last all commit.
pub fn add_crowd(
    script: &mut Script,
    names: &Names,
    chance: &mut Chance,
    examiners: u32,
    posts: u32,
) -> Result<(), AllocError> {
    for examiner in 1..=examiners {
        script.add_number("", examiner, ",begin\n")?;
    }
    for document in 1..=posts {
        let number = document.checked_rem(examiners).unwrap_or(0);
        add_instrument(script, names, chance, number.saturating_add(1), document)?;
        let place = Place::any(chance, names);
        add_square(script, names, chance, place, 4)?;
        script.add(&["\n"])?;
    }
    for examiner in 1..=examiners {
        script.add_number("", examiner, ",commit\n")?;
    }
    Ok(())
}
