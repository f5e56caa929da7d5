//! Sheets of sections whose minerals are split among hundreds, while deeds come in.

use crate::instrument::add_instrument;
use crate::land::{Place, add_square};
use crate::names::Names;
use crate::script::Script;
use std::alloc::AllocError;
use title_chance::Chance;

// One of the first eight sections.
fn busy(chance: &mut Chance) -> Place {
    Place {
        township: 0,
        section: u32::from(chance.up_to(8)),
    }
}

// Adds a deed of ten acres or of forty.
fn add_sale(
    script: &mut Script,
    names: &Names,
    chance: &mut Chance,
    document: u32,
) -> Result<(), AllocError> {
    add_instrument(script, names, chance, 1, document)?;
    let place = busy(chance);
    let count = chance.below(2).saturating_add(2);
    add_square(script, names, chance, place, count)?;
    script.add(&["\n"])
}

/// Adds so many deeds of parts of eight sections, and then so many sheets of these, with a deed before each sixteenth.
pub fn add_owners(
    script: &mut Script,
    names: &Names,
    chance: &mut Chance,
    posted: u32,
    sheets: u32,
) -> Result<(), AllocError> {
    for document in 1..=posted {
        add_sale(script, names, chance, document)?;
    }
    for number in 1..=sheets {
        if number % 16 == 0 {
            add_sale(script, names, chance, posted.saturating_add(number))?;
        }
        script.add(&["1,sheet,"])?;
        busy(chance).add(script, names)?;
        script.add(&["\n"])?;
    }
    Ok(())
}
