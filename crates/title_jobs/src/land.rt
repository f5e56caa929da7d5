//! The texts of tracts.

use crate::names::Names;
use crate::script::Script;
use std::alloc::AllocError;
use title_chance::Chance;

/// A section: its township's number from 0, and its own from 1.
#[derive(Clone, Copy)]
pub struct Place {
    pub township: u32,
    pub section: u32,
}

impl Place {
    /// Any section of a plant.
    pub fn any(chance: &mut Chance, names: &Names) -> Place {
        let townships = u32::try_from(names.townships.len()).unwrap_or(1);
        Place {
            township: chance.below(townships),
            section: u32::from(chance.up_to(36)),
        }
    }

    /// Adds its text.
    pub fn add(self, script: &mut Script, names: &Names) -> Result<(), AllocError> {
        script.add(&[names.township(self.township)])?;
        script.add_number(" sec ", self.section, "")
    }
}

/// The text of a quarter of a square, by its number.
pub fn quarter(number: u32) -> &'static str {
    match number % 4 {
        0 => "NE1/4",
        1 => "NW1/4",
        2 => "SW1/4",
        _ => "SE1/4",
    }
}

fn half(number: u32) -> &'static str {
    match number % 4 {
        0 => "N1/2",
        1 => "S1/2",
        2 => "E1/2",
        _ => "W1/2",
    }
}

// A quarter or a half.
fn part(chance: &mut Chance) -> &'static str {
    let number = chance.below(4);
    if chance.flip() {
        quarter(number)
    } else {
        half(number)
    }
}

/// Adds as many quarters as are asked for, each by chance.
pub fn add_quarters(
    script: &mut Script,
    chance: &mut Chance,
    count: u32,
) -> Result<(), AllocError> {
    for _ in 0..count {
        script.add(&[quarter(chance.below(4))])?;
    }
    Ok(())
}

/// Adds a square of a section, by as many quarters as are asked for.
pub fn add_square(
    script: &mut Script,
    names: &Names,
    chance: &mut Chance,
    place: Place,
    count: u32,
) -> Result<(), AllocError> {
    place.add(script, names)?;
    script.add(&[" "])?;
    add_quarters(script, chance, count)
}

// Adds a part of each of a section's first quarters, in quotes for the commas between.
fn add_parts(
    script: &mut Script,
    names: &Names,
    chance: &mut Chance,
    place: Place,
) -> Result<(), AllocError> {
    script.add(&["\""])?;
    place.add(script, names)?;
    script.add(&[" ", part(chance), "NE1/4"])?;
    for number in 1..chance.below(3).saturating_add(2) {
        script.add(&[", ", part(chance), quarter(number)])?;
    }
    script.add(&["\""])
}

/// Adds a tract of a section: all of it, a part or a part of a part, or one of ten times several parts.
pub fn add_tract(
    script: &mut Script,
    names: &Names,
    chance: &mut Chance,
    place: Place,
) -> Result<(), AllocError> {
    let (kind, depth) = (chance.below(10), chance.below(6));
    if kind == 0 {
        return add_parts(script, names, chance, place);
    }
    place.add(script, names)?;
    if depth == 0 {
        return Ok(());
    }
    script.add(&[" ", part(chance)])?;
    add_quarters(script, chance, (depth - 1) / 2)
}
