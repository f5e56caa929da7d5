//! A cell with more than 4,096 owners, by a script.

use crate::case::{Case, GOVERNMENT, MINERALS, Tried};
use crate::parcel::Parcel;
use crate::portion::Portion;
use anyhow::Result;
use std::alloc::Global;
use std::fmt;
use title_script::Schedule;

// The owners beside UNITED STATES, each of one unit. This has what is left: 2^32 - 4,096 units.
const OWNERS: u32 = 4_096;

const UNIT: Portion = Portion(1, 4_294_967_296);

const LEFT: Portion = Portion(1_048_575, 1_048_576);

// An owner by its number; in text its name, as a row has it: one of eight has a comma, and is in quotes.
#[derive(Clone, Copy)]
struct Owner(u32);

impl fmt::Display for Owner {
    fn fmt<W: fmt::Write>(&self, f: &mut fmt::Formatter<W>) -> fmt::Result {
        let number = self.0;
        if number % 8 == 0 {
            write!(f, "\"OWNER, {number}\"")
        } else {
            write!(f, "OWNER {number}")
        }
    }
}

fn declare_owners(case: &mut Case) {
    for number in 1..=OWNERS {
        let owner = Owner(number);
        case.declare(format_args!("party,{owner}"));
    }
}

// Each is given one unit by one deed.
fn add_deeds(case: &mut Case) {
    let cell = Parcel::cell(0);
    for number in 1..=OWNERS {
        let owner = Owner(number);
        let deed = format_args!("deed,1,UNITED STATES,{owner},S,W1/4294967296,,{cell}");
        case.step(1, deed, "posted");
    }
}

// The sheet of the cell: a row for each owner, in the order of their numbers, and two.
fn add_sheet(case: &mut Case) {
    let cell = Parcel::cell(0);
    case.sheet(1, cell, OWNERS + 3);
    case.want_owner(1, cell, "S", GOVERNMENT, LEFT);
    for number in 1..=OWNERS {
        case.want_owner(1, cell, "S", Owner(number), UNIT);
    }
    case.want_unsold(1, cell, &MINERALS);
}

// Deeds that pass nothing, or are refused: of all that is left less all of it, of the whole, of half of a unit.
static MORE: [(&str, &str); 3] = [
    (
        "1,deed,2,UNITED STATES,OWNER 2,S,W1/2,S1/2,T1N R1W sec 1 NE1/4NE1/4NE1/4NE1/4",
        "1,posted",
    ),
    (
        "1,deed,3,UNITED STATES,OWNER 2,S,W1/1,,T1N R1W sec 1 NE1/4NE1/4NE1/4NE1/4",
        "1,refused,11,S,T1N R1W sec 1 NE1/4NE1/4NE1/4NE1/4",
    ),
    (
        "1,deed,4,OWNER 2,UNITED STATES,S,I1/2,,T1N R1W sec 1 NE1/4NE1/4NE1/4NE1/4",
        "1,refused,12,S,T1N R1W sec 1 NE1/4NE1/4NE1/4NE1/4",
    ),
];

fn by_script(alloc: Global) -> Result<Tried> {
    let mut case = Case::new(alloc);
    case.declare_townships(1);
    declare_owners(&mut case);
    add_deeds(&mut case);
    add_sheet(&mut case);
    case.steps(&MORE);
    add_sheet(&mut case);
    case.run(Schedule::Serial)
}

/// The sheet of the cell, before and after deeds that pass nothing.
pub fn count(alloc: Global) -> Result<String> {
    let (tried, owners) = (by_script(alloc)?, OWNERS + 1);
    Ok(format!(in alloc; "{owners}, {tried}")?)
}
