//! Chains of title.

use crate::instrument::add_instrument;
use crate::land::{Place, add_quarters, add_square};
use crate::names::Names;
use crate::script::Script;
use std::alloc::{AllocError, Global};
use title_chance::Chance;

// The sections in which instruments are posted and of which chains are run.
const PLACES: u32 = 64;

// Sections, as many as `PLACES`.
fn places(alloc: Global, names: &Names, chance: &mut Chance) -> Result<Vec<Place>, AllocError> {
    let mut places = Vec::new(alloc);
    for _ in 0..PLACES {
        places.push(Place::any(chance, names))?;
    }
    Ok(places)
}

// One of the places.
fn one(places: &[Place], chance: &mut Chance) -> Place {
    let first = Place {
        township: 0,
        section: 1,
    };
    match usize::try_from(chance.below(PLACES)) {
        Ok(number) => places.get(number).copied().unwrap_or(first),
        Err(_) => first,
    }
}

/// Adds so many instruments of parts of 64 sections, and then so many chains of these, with an instrument before each sixteenth.
pub fn add_histories(
    alloc: Global,
    script: &mut Script,
    names: &Names,
    chance: &mut Chance,
    posted: u32,
    chains: u32,
) -> Result<(), AllocError> {
    let places = places(alloc, names, chance)?;
    for document in 1..=posted {
        add_posting(script, names, chance, &places, document)?;
    }
    for number in 1..=chains {
        if number % 16 == 0 {
            let document = posted.saturating_add(number);
            add_posting(script, names, chance, &places, document)?;
        }
        script.add(&["1,chain,"])?;
        one(&places, chance).add(script, names)?;
        script.add(&["\n"])?;
    }
    Ok(())
}

// Adds an instrument of a quarter of one of the places, or of a quarter of a quarter.
fn add_posting(
    script: &mut Script,
    names: &Names,
    chance: &mut Chance,
    places: &[Place],
    document: u32,
) -> Result<(), AllocError> {
    add_instrument(script, names, chance, 1, document)?;
    let place = one(places, chance);
    let count = u32::from(chance.up_to(2));
    add_square(script, names, chance, place, count)?;
    script.add(&["\n"])
}

/// Adds so many instruments of quarters of quarters of eight sections, and after each the chain of a cell there.
pub fn add_parts(
    script: &mut Script,
    names: &Names,
    chance: &mut Chance,
    count: u32,
) -> Result<(), AllocError> {
    for document in 1..=count {
        add_instrument(script, names, chance, 1, document)?;
        let section = u32::from(chance.up_to(8));
        let place = Place {
            township: 0,
            section,
        };
        add_square(script, names, chance, place, 2)?;
        script.add(&["\n1,chain,"])?;
        place.add(script, names)?;
        script.add(&[" "])?;
        add_quarters(script, chance, 4)?;
        script.add(&["\n"])?;
    }
    Ok(())
}
