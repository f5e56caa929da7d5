//! The townships and parties of a plant.

use crate::script::Script;
use std::alloc::{AllocError, Global};
use title_chance::Chance;

const GIVEN: [&str; 8] = [
    "JOHN", "MARY", "WILLIAM", "ELLEN", "JAMES", "RUTH", "OTTO", "JOSÉ",
];

const SURNAMES: [&str; 8] = [
    "ADAMS",
    "BAKER",
    "CORDOVA",
    "DURÁN",
    "ENGSTROM",
    "FITZGERALD",
    "GALLEGOS",
    "HOLM",
];

/// The government, which owns all at first.
pub const GOVERNMENT: &str = "UNITED STATES";

/// The texts of the townships, and the names of the parties as they stand in a row: in quotes where they have a comma or quotes.
#[derive(Drop)]
pub struct Names {
    pub townships: Vec<String>,
    pub parties: Vec<String>,
}

// One of eight words.
fn word(words: &[&'static str; 8], number: u32) -> &'static str {
    match usize::try_from(number) {
        Ok(number) => words.get(number % 8).copied().unwrap_or(""),
        Err(_) => "",
    }
}

// A party's name: of a person with the surname first or last, or with a name in quotes, or of a company.
fn name(alloc: Global, number: u32) -> Result<String, AllocError> {
    let (given, surname) = (word(&GIVEN, number / 3), word(&SURNAMES, number / 5));
    match number % 8 {
        0 => format!(in alloc; "\"{surname}, {given} {number}\""),
        1 => format!(in alloc; "{surname} MINERALS {number} LLC"),
        2 if number % 16 == 2 => format!(in alloc; "\"{given} \"\"{number}\"\" {surname}\""),
        _ => format!(in alloc; "{given} {surname} {number}"),
    }
}

impl Names {
    /// So many townships, eight to a tier, and so many parties.
    pub fn new(alloc: Global, townships: u32, parties: u32) -> Result<Names, AllocError> {
        let mut names = Names {
            townships: Vec::new(alloc),
            parties: Vec::new(alloc),
        };
        for number in 0..townships {
            let (tier, range) = (number / 8, number % 8);
            let (tier, range) = (tier.saturating_add(1), range.saturating_add(1));
            names
                .townships
                .push(format!(in alloc; "T{tier}N R{range}W")?)?;
        }
        for number in 1..=parties {
            names.parties.push(name(alloc, number)?)?;
        }
        Ok(names)
    }

    /// A script that declares them all.
    pub fn declared(&self, alloc: Global) -> Result<Script, AllocError> {
        let mut script = Script::new(alloc);
        for township in &self.townships {
            script.add(&["township,", township.as_str(), "\n"])?;
        }
        for party in &self.parties {
            script.add(&["party,", party.as_str(), "\n"])?;
        }
        Ok(script)
    }

    /// The township of this number from 0.
    pub fn township(&self, number: u32) -> &str {
        match usize::try_from(number) {
            Ok(number) => self.townships.get(number).map_or("", |name| name.as_str()),
            Err(_) => "",
        }
    }

    /// Any township.
    pub fn any_township(&self, chance: &mut Chance) -> &str {
        self.township(chance.below(count(&self.townships)))
    }

    /// Any party but the government.
    pub fn any_party(&self, chance: &mut Chance) -> &str {
        match usize::try_from(chance.below(count(&self.parties))) {
            Ok(number) => self.parties.get(number).map_or("", |name| name.as_str()),
            Err(_) => "",
        }
    }
}

fn count(names: &[String]) -> u32 {
    u32::try_from(names.len()).unwrap_or(0)
}
