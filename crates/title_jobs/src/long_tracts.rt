//! Descriptions of up to 1,000 bytes.

use crate::instrument::add_small_deed;
use crate::land::{Place, quarter};
use crate::names::Names;
use crate::script::Script;
use std::alloc::AllocError;
use title_chance::Chance;

// The most bytes of a description, less those of its last part.
const MOST: usize = 960;

// Adds a square by its quarters, from the innermost to the outermost.
fn add_part(
    script: &mut Script,
    cell: u32,
    inner: u32,
    middle: u32,
    outer: u32,
) -> Result<(), AllocError> {
    script.add(&[
        quarter(cell),
        quarter(inner),
        quarter(middle),
        quarter(outer),
    ])
}

// Adds the cells of a square of ten acres that chance picks, at most two of them, each behind a comma but the first of all.
fn add_cells(
    script: &mut Script,
    chance: &mut Chance,
    start: usize,
    square: u32,
) -> Result<(), AllocError> {
    let (inner, middle, outer) = (square % 4, square / 4 % 4, square / 16);
    for number in 0..4u32 {
        let is_in = chance.below(4) == 0;
        let length = script.bytes().len().saturating_sub(start);
        if is_in && length < MOST {
            script.add(&[","])?;
            add_part(script, number, inner, middle, outer)?;
        }
    }
    Ok(())
}

// Adds a tract of a section's cells, as many as the length allows: the first cell, and of the others those that chance picks.
fn add_cells_of(script: &mut Script, names: &Names, chance: &mut Chance) -> Result<(), AllocError> {
    script.add(&["\""])?;
    let start = script.bytes().len();
    let place = Place {
        township: chance.below(2),
        section: u32::from(chance.up_to(36)),
    };
    place.add(script, names)?;
    script.add(&[" "])?;
    add_part(script, 0, 0, 0, 0)?;
    for square in 1..64u32 {
        add_cells(script, chance, start, square)?;
    }
    script.add(&["\"\n"])
}

/// Adds so many sheets of such tracts, and as many deeds.
pub fn add_long(
    script: &mut Script,
    names: &Names,
    chance: &mut Chance,
    count: u32,
) -> Result<(), AllocError> {
    for document in 1..=count {
        script.add(&["1,sheet,"])?;
        add_cells_of(script, names, chance)?;
        add_small_deed(script, names, chance, document)?;
        add_cells_of(script, names, chance)?;
    }
    Ok(())
}
