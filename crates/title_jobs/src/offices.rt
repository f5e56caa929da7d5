//! Days of an office.

use crate::instrument::add_instrument;
use crate::land::{Place, add_square};
use crate::names::Names;
use crate::script::Script;
use std::alloc::AllocError;
use title_chance::Chance;

/// The examiners of an office.
pub const EXAMINERS: u32 = 8;

// Adds an examiner's transaction in a township of its own: a sheet of a section, and two deeds of cells there.
fn add_transaction(
    script: &mut Script,
    names: &Names,
    chance: &mut Chance,
    examiner: u32,
    document: u32,
) -> Result<(), AllocError> {
    let place = Place {
        township: examiner.saturating_sub(1),
        section: u32::from(chance.up_to(36)),
    };
    script.add_number("", examiner, ",begin\n")?;
    script.add_number("", examiner, ",sheet,")?;
    place.add(script, names)?;
    script.add(&["\n"])?;
    for turn in 1..=2 {
        add_instrument(
            script,
            names,
            chance,
            examiner,
            document.saturating_add(turn),
        )?;
        add_square(script, names, chance, place, 4)?;
        script.add(&["\n"])?;
    }
    script.add_number("", examiner, ",commit\n")
}

/// Adds so many transactions of each examiner.
pub fn add_day(
    script: &mut Script,
    names: &Names,
    chance: &mut Chance,
    transactions: u32,
) -> Result<(), AllocError> {
    for number in 0..transactions {
        for examiner in 1..=EXAMINERS {
            let turn = number.saturating_mul(EXAMINERS).saturating_add(examiner);
            add_transaction(script, names, chance, examiner, turn.saturating_mul(2))?;
        }
    }
    Ok(())
}
