//! As many parties as there may be, each in a chain and a thousand of them in a sheet; and long names that are all quotes.

use crate::case::{Case, GOVERNMENT, MINERALS, Tried};
use crate::parcel::{CELLS, Parcel, Square};
use crate::portion::{ALL, Portion};
use anyhow::Result;
use std::alloc::Global;
use std::fmt::{self, Display};
use title_script::Schedule;

// The parties beside UNITED STATES.
const PARTIES: u32 = 65_535;

// The last of them get a cell each: four sections' cells but one, so that the others are pairs.
const SOLD: u32 = 1_023;

// Parties whose names are as long as may be, and all quotes but for their numbers.
const QUOTED: u32 = 2_000;

const LONGEST: u32 = 60;

// A party by its number; in text its name, as a row has it: one of three has a comma, and is in quotes.
#[derive(Clone, Copy)]
struct Party(u32);

impl fmt::Display for Party {
    fn fmt<W: fmt::Write>(&self, f: &mut fmt::Formatter<W>) -> fmt::Result {
        let number = self.0;
        if number % 3 == 0 {
            write!(f, "\"PARTY, {number}\"")
        } else {
            write!(f, "PARTY {number}")
        }
    }
}

fn declare_parties(case: &mut Case) {
    for number in 1..=PARTIES {
        let party = Party(number);
        case.declare(format_args!("party,{party}"));
    }
}

// The party that gets the cell with this number, from 0.
fn buyer(cell: u32) -> Party {
    Party((PARTIES - SOLD).saturating_add(1).saturating_add(cell))
}

// The pairs of the other parties.
const PAIRS: u32 = (PARTIES - SOLD) / 2;

// The two of a pair, by its number from 0.
fn pair(number: u32) -> (Party, Party) {
    let first = number.saturating_mul(2).saturating_add(1);
    (Party(first), Party(first.saturating_add(1)))
}

// The cell with a number: those of section 1, then those of the next, and so on.
fn cell(number: u32) -> Parcel {
    Parcel::Part {
        township: 0,
        section: (number / CELLS).saturating_add(1),
        square: Square::cell(number % CELLS),
    }
}

// Each of the last parties gets the surface of a cell.
fn add_deeds(case: &mut Case) {
    for number in 0..SOLD {
        let (name, cell) = (buyer(number), cell(number));
        let deed = format_args!("deed,1,UNITED STATES,{name},S,W1/1,,{cell}");
        case.step(1, deed, "posted");
    }
}

// The first of each pair of the others releases to the second; it has nothing.
fn add_releases(case: &mut Case) {
    for number in 0..PAIRS {
        let (from, to) = pair(number);
        let release = format_args!("release,2,{from},{to},OM,everything");
        case.step(1, release, "posted");
    }
}

// The sheet of the township: a row for each cell that was sold, one for the last cell of section 4, for each other section, and
// two for the other estates.
fn add_sheet(case: &mut Case) {
    let township = Parcel::Township(0);
    case.sheet(1, township, SOLD + 1 + 32 + 2);
    for number in 0..SOLD {
        case.want_owner(1, cell(number), "S", buyer(number), ALL);
    }
    case.want_owner(1, cell(SOLD), "S", GOVERNMENT, ALL);
    for section in 5..=36u32 {
        case.want_owner(1, Parcel::section(section), "S", GOVERNMENT, ALL);
    }
    case.want_unsold(1, township, &MINERALS);
}

// Wants the row of a deed in a chain, which stands in a record of its own.
fn want_deed(case: &mut Case, record: u32, name: impl Display + Drop) {
    case.want(format_args!("1,entry,{record},1,deed,UNITED STATES,{name},S"));
}

// Wants the rows of the releases in a chain, behind the deeds.
fn want_releases(case: &mut Case) {
    for number in 0..PAIRS {
        let (from, to) = pair(number);
        let record = SOLD.saturating_add(number).saturating_add(1);
        case.want(format_args!("1,entry,{record},2,release,{from},{to},OM"));
    }
}

// The chain of everything: the deeds, and as many releases as the other parties are pairs.
fn add_chain(case: &mut Case) {
    case.chain(1, Parcel::Everything, SOLD + PAIRS);
    for number in 0..SOLD {
        want_deed(case, number + 1, buyer(number));
    }
    want_releases(case);
}

fn try_many(alloc: Global) -> Result<Tried> {
    let mut case = Case::new(alloc);
    case.declare_townships(1);
    declare_parties(&mut case);
    add_deeds(&mut case);
    add_releases(&mut case);
    add_sheet(&mut case);
    add_chain(&mut case);
    case.run(Schedule::Serial)
}

// A party by its number whose name is the number, but not the first's, and quotes; as a row has it, each quote twice, and in quotes.
#[derive(Clone, Copy)]
struct Quoted(u32);

// The digits of a number up to that of the last such party; none are written of the first.
fn digits(number: u32) -> u32 {
    match number {
        0..=1 => 0,
        2..=9 => 1,
        10..=99 => 2,
        100..=999 => 3,
        _ => 4,
    }
}

impl fmt::Display for Quoted {
    fn fmt<W: fmt::Write>(&self, f: &mut fmt::Formatter<W>) -> fmt::Result {
        let number = self.0;
        write!(f, "\"")?;
        if number > 1 {
            write!(f, "{number}")?;
        }
        for _ in digits(number)..LONGEST {
            write!(f, "\"\"")?;
        }
        write!(f, "\"")
    }
}

fn declare_quoted(case: &mut Case) {
    for number in 1..=QUOTED {
        let party = Quoted(number);
        case.declare(format_args!("party,{party}"));
    }
}

// Each of these gets 1/4096 of the surface of a cell, and UNITED STATES has what is left.
const LEFT: Portion = Portion(2_096, 4_096);

fn add_small_deeds(case: &mut Case) {
    let cell = Parcel::cell(0);
    for number in 1..=QUOTED {
        let name = Quoted(number);
        let deed = format_args!("deed,1,UNITED STATES,{name},S,W1/4096,,{cell}");
        case.step(1, deed, "posted");
    }
}

// The sheet of the cell, a row for each of them and three.
fn add_quoted_sheet(case: &mut Case) {
    let cell = Parcel::cell(0);
    case.sheet(1, cell, QUOTED + 3);
    case.want_owner(1, cell, "S", GOVERNMENT, LEFT);
    for number in 1..=QUOTED {
        case.want_owner(1, cell, "S", Quoted(number), Portion(1, 4_096));
    }
    case.want_unsold(1, cell, &MINERALS);
}

fn add_quoted_chain(case: &mut Case) {
    case.chain(1, Parcel::Everything, QUOTED);
    for number in 1..=QUOTED {
        want_deed(case, number, Quoted(number));
    }
}

fn try_quotes(alloc: Global) -> Result<Tried> {
    let mut case = Case::new(alloc);
    case.declare_townships(1);
    declare_quoted(&mut case);
    add_small_deeds(&mut case);
    add_quoted_sheet(&mut case);
    add_quoted_chain(&mut case);
    case.run(Schedule::Serial)
}

/// Deeds, releases, sheets and chains of them.
pub fn count(alloc: Global) -> Result<String> {
    let tried = try_many(alloc)?.and(try_quotes(alloc)?);
    Ok(format!(in alloc; "{PARTIES}, and {QUOTED} of quotes, {tried}")?)
}
