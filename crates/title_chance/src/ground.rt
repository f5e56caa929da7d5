//! The land of the trials, and tracts of it.

use crate::chance::Chance;
use std::alloc::{AllocError, Global};
use title_land::{Grid, Land, Node, Quarter, Section, Township, Tract, Within};

/// The townships of the land: T1N and T2N of range 2 west.
pub const TOWNSHIPS: u8 = 2;

// The sections of each that tracts lie in, from section 1 on.
const SECTIONS: u8 = 3;

/// How much of the land tracts lie in: one section, or a few, the townships and the whole plant.
#[derive(Clone, Copy)]
pub enum Reach {
    Section,
    Plant,
}

/// Tracts of one section and the section itself, or of a few sections, the townships and the whole plant, made once.
#[derive(Drop)]
pub struct Ground {
    whole: Tract,
    tracts: Vec<Tract>,
}

/// One of the townships, by its number from 1.
pub fn township(number: u8) -> Option<Township> {
    Township::new(number, true, 2, false)
}

fn first_section() -> Option<Section> {
    Section::new(township(1)?, 1)
}

fn section(chance: &mut Chance, reach: Reach) -> Option<Section> {
    match reach {
        Reach::Section => first_section(),
        Reach::Plant => {
            let township = township(chance.up_to(TOWNSHIPS))?;
            Section::new(township, chance.up_to(SECTIONS))
        }
    }
}

// All of the land.
fn whole(reach: Reach) -> Tract {
    match (reach, first_section()) {
        (Reach::Section, Some(section)) => Tract::of(Node::Part(section, Within::section())),
        _ => Tract::of(Node::Everything),
    }
}

fn quarter(chance: &mut Chance) -> Quarter {
    match chance.below(4) {
        0 => Quarter::Northeast,
        1 => Quarter::Northwest,
        2 => Quarter::Southwest,
        _ => Quarter::Southeast,
    }
}

// A square of any size, from the section to a cell.
fn square(chance: &mut Chance) -> Within {
    let mut square = Within::section();
    for _ in 0..chance.below(5) {
        if !square.is_cell() {
            square = square.quarter(quarter(chance));
        }
    }
    square
}

// Two squares of a section, which may be one.
fn two_squares(alloc: Global, chance: &mut Chance, section: Section) -> Result<Tract, AllocError> {
    let first = Grid::of(square(chance).square());
    let grid = first.with(square(chance).square());
    Tract::new(alloc, Land::Part(section, grid))
}

// Adds a tract of a section.
fn add_tract(
    alloc: Global,
    chance: &mut Chance,
    tracts: &mut Vec<Tract>,
    reach: Reach,
) -> Result<(), AllocError> {
    let Some(section) = section(chance, reach) else {
        return Ok(());
    };
    let tract = if chance.below(4) == 0 {
        two_squares(alloc, chance, section)?
    } else {
        Tract::of(Node::Part(section, square(chance)))
    };
    tracts.push(tract)?;
    Ok(())
}

// Adds the tract of each township.
fn add_townships(tracts: &mut Vec<Tract>) -> Result<(), AllocError> {
    for number in 1..=TOWNSHIPS {
        if let Some(township) = township(number) {
            tracts.push(Tract::of(Node::Township(township)))?;
        }
    }
    Ok(())
}

impl Ground {
    /// The land of a reach with so many tracts of sections.
    pub fn new(
        alloc: Global,
        chance: &mut Chance,
        count: u32,
        reach: Reach,
    ) -> Result<Ground, AllocError> {
        let mut tracts = Vec::new(alloc);
        for _ in 0..count {
            add_tract(alloc, chance, &mut tracts, reach)?;
        }
        if let Reach::Plant = reach {
            add_townships(&mut tracts)?;
        }
        let whole = whole(reach);
        Ok(Ground { whole, tracts })
    }

    /// The same, made once more and counted as wanting memory where a growth was refused.
    pub fn again(
        alloc: Global,
        chance: &mut Chance,
        count: u32,
        reach: Reach,
        wanted: &mut u32,
    ) -> Result<Ground, AllocError> {
        let before = *chance;
        if let Ok(ground) = Ground::new(alloc, chance, count, reach) {
            return Ok(ground);
        }
        *wanted = wanted.saturating_add(1);
        *chance = before;
        Ground::new(alloc, chance, count, reach)
    }

    /// All tracts but the whole.
    pub fn tracts(&self) -> &[Tract] {
        self.tracts.as_slice()
    }

    /// The tract of an index; the whole past the last.
    pub fn at(&self, index: u32) -> &Tract {
        self.tracts.get(index as usize).unwrap_or(&self.whole)
    }

    /// Any index, or the one past the last.
    pub fn any_index(&self, chance: &mut Chance) -> u32 {
        let count = u32::try_from(self.tracts.len()).unwrap_or(0);
        chance.below(count.saturating_add(1))
    }

    /// Any of the tracts.
    pub fn any(&self, chance: &mut Chance) -> &Tract {
        self.at(self.any_index(chance))
    }
}
