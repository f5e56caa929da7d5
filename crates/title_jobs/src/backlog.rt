//! A backlog of instruments, and bargains with a look at the section after each.

use crate::instrument::add_instrument;
use crate::land::{Place, add_square, add_tract};
use crate::names::Names;
use crate::script::Script;
use std::alloc::AllocError;
use title_chance::Chance;

/// Adds so many deeds and releases of all kinds of tracts, each a transaction of its own.
pub fn add_deeds(
    script: &mut Script,
    names: &Names,
    chance: &mut Chance,
    count: u32,
) -> Result<(), AllocError> {
    for document in 1..=count {
        add_instrument(script, names, chance, 1, document)?;
        let place = Place::any(chance, names);
        add_tract(script, names, chance, place)?;
        script.add(&["\n"])?;
    }
    Ok(())
}

// Adds a transaction: a begin, eight deeds of parts of a section, its sheet, a commit.
fn add_bargain(
    script: &mut Script,
    names: &Names,
    chance: &mut Chance,
    number: u32,
) -> Result<(), AllocError> {
    let place = Place::any(chance, names);
    script.add(&["1,begin\n"])?;
    for turn in 1..=8 {
        let document = number.saturating_mul(8).saturating_add(turn);
        add_instrument(script, names, chance, 1, document)?;
        let count = u32::from(chance.up_to(3));
        add_square(script, names, chance, place, count)?;
        script.add(&["\n"])?;
    }
    script.add(&["1,sheet,"])?;
    place.add(script, names)?;
    script.add(&["\n1,commit\n"])
}

/// Adds so many transactions of eleven rows.
pub fn add_bargains(
    script: &mut Script,
    names: &Names,
    chance: &mut Chance,
    count: u32,
) -> Result<(), AllocError> {
    for number in 0..count {
        add_bargain(script, names, chance, number)?;
    }
    Ok(())
}
