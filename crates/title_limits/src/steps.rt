//! Steps that are transactions of their own, of each kind and with each reply; more sheets of one section than are kept, which is
//! 16, and sheets of other sections.

use crate::case::{Case, Tried};
use crate::clerk::{Clerk, ESTATES, Rows, SURFACE, Sale, Wish};
use crate::parcel::{Parcel, Square};
use crate::portion::WHOLE;
use anyhow::Result;
use std::alloc::Global;
use title_instrument::{Estates, Release};
use title_script::Schedule;

// Squares of a section, and sections, whose sheets are asked for in turn, and how often.
const SQUARES: u32 = 17;

const SHEETS: u32 = 34;

const TURNS: u32 = 3;

// The parcels whose sheets are asked for: squares of ten acres of section 2, and then the sections behind it.
fn parcel(number: u32) -> Parcel {
    if number < SQUARES {
        return Parcel::Part {
            township: 0,
            section: 2,
            square: Square { level: 3, number },
        };
    }
    Parcel::section((number - SQUARES).saturating_add(3))
}

// Steps of a script that post, and are refused, each alone.
const POSTS: [(&str, &str); 5] = [
    (
        "1,deed,1,UNITED STATES,ADAMS,SM,W1/2,,T1N R1W sec 1 NE1/4",
        "1,posted",
    ),
    (
        "1,deed,2,UNITED STATES,ADAMS,SO,W3/4,,T1N R1W sec 1 NE1/4",
        "1,refused,11,S,T1N R1W sec 1 NE1/4",
    ),
    (
        "1,deed,3,ADAMS,BELL,M,I1/4294967296,,T1N R1W sec 1 NE1/4",
        "1,refused,12,M,T1N R1W sec 1 NE1/4",
    ),
    (
        "1,deed,4,UNITED STATES,BELL,O,W1/8,O1/4,T1N R1W sec 1 NE1/4",
        "1,refused,13,O,T1N R1W sec 1 NE1/4",
    ),
    (
        "1,warranty,5,ADAMS,BELL,S,W1/1,S1/2,T1N R1W sec 1 NE1/4",
        "1,posted",
    ),
];

// Steps that are refused before the plant is asked, or aren't asked at all.
const REFUSED: [(&str, &str); 7] = [
    (
        "1,deed,6,ADAMS,ADAMS,S,W1/2,,T1N R1W sec 1 NE1/4",
        "1,invalid,2",
    ),
    (
        "1,deed,7,ADAMS,BELL,S,W1/2,M1/2,T1N R1W sec 1 NE1/4",
        "1,invalid,4",
    ),
    ("1,sheet,T1N R2W", "1,notownship"),
    ("1,chain,T1N R2W", "1,notownship"),
    ("1,release,8,ADAMS,BELL,S,T1N R2W", "1,notownship"),
    ("1,sheet,T1N R1W sec 37", "1,description,22"),
    ("1,sheet,T1N R1W sec 1 N", "1,description,21,15"),
];

// The sheet of the quarter after them: BELL has ADAMS' half of the surface.
const SHEET: [&str; 5] = [
    "1,row,T1N R1W sec 1 NE1/4,S,UNITED STATES,1/2",
    "1,row,T1N R1W sec 1 NE1/4,S,BELL,1/2",
    "1,row,T1N R1W sec 1 NE1/4,O,UNITED STATES,1/1",
    "1,row,T1N R1W sec 1 NE1/4,M,UNITED STATES,1/2",
    "1,row,T1N R1W sec 1 NE1/4,M,ADAMS,1/2",
];

// The chain of the quarter: the first and the fifth step were posted.
const CHAIN: [&str; 2] = [
    "1,entry,2,1,deed,UNITED STATES,ADAMS,SM",
    "1,entry,6,5,warranty,ADAMS,BELL,S",
];

// Sheets of these parcels in turn.
fn add_sheets(case: &mut Case) {
    for _ in 0..TURNS {
        for number in 0..SHEETS {
            case.sheet_unsold(1, parcel(number));
        }
    }
}

fn by_script(alloc: Global) -> Result<Tried> {
    let (mut case, quarter) = (Case::new(alloc), Parcel::square(1, 0));
    case.declare_plant(1);
    case.sheet_unsold(1, Parcel::section(1));
    case.steps(&POSTS);
    case.steps(&REFUSED);
    case.sheet(1, quarter, 5);
    case.want_all(&SHEET);
    case.chain(1, quarter, 2);
    case.want_all(&CHAIN);
    add_sheets(&mut case);
    case.run(Schedule::Serial)
}

const NONE: Estates = Estates {
    s: false,
    o: false,
    m: false,
};

fn sells(grantor: u32, grantee: u32, units: u64) -> Wish {
    Wish::Sell(Sale {
        document: 1,
        grantor,
        grantee,
        units,
    })
}

fn releases(estates: Estates) -> Wish {
    let (from, to) = (1, 2);
    Wish::Release(Release { from, to, estates })
}

// Steps alone with their replies.
fn try_all(clerk: &mut Clerk, steps: &[(Wish, Parcel, &'static str)]) -> Result<()> {
    for (wish, parcel, reply) in steps {
        clerk.alone_at(*wish, *parcel, *reply)?;
    }
    Ok(())
}

// A sheet, a chain, posts, and posts that a cause or the plant refuses.
fn try_each(clerk: &mut Clerk) -> Result<()> {
    let (here, elsewhere) = (Parcel::section(1), Parcel::Township(1));
    let steps = [
        (Wish::Sheet, here, "sheet,3"),
        (Wish::Chain, here, "chain,0"),
        (sells(0, 1, WHOLE), here, "posted"),
        (sells(0, 2, 1), here, "refused,11,S,T1N R1W sec 1"),
        (releases(SURFACE), here, "posted"),
        (sells(3, 1, 1), here, "invalid,1"),
        (sells(1, 1, 1), here, "invalid,2"),
        (releases(NONE), here, "invalid,3"),
        (Wish::Sheet, elsewhere, "notownship"),
        (Wish::Chain, here, "chain,2"),
    ];
    try_all(clerk, &steps)
}

fn unsold(alloc: Global, parcel: Parcel) -> Rows {
    let mut rows = Rows::new(alloc);
    rows.add_unsold(parcel, &ESTATES);
    rows
}

// The sheets of these parcels in turn.
fn try_sheets(alloc: Global, clerk: &mut Clerk) -> Result<()> {
    for _ in 0..TURNS {
        for number in 0..SHEETS {
            let parcel = parcel(number);
            clerk.shows_at(parcel, &unsold(alloc, parcel))?;
        }
    }
    Ok(())
}

// How many transactions are committed.
fn try_desk(alloc: Global, clerk: &mut Clerk) -> Result<usize> {
    try_each(clerk)?;
    try_sheets(alloc, clerk)?;
    Ok(clerk.committed())
}

fn at_desk(alloc: Global) -> Result<usize> {
    try_desk(alloc, &mut Clerk::open(alloc, 3, 1)?)
}

/// Each kind of step, by a script and at a desk.
pub fn count(alloc: Global) -> Result<String> {
    let (tried, committed) = (by_script(alloc)?, at_desk(alloc)?);
    Ok(format!(in alloc; "{SHEETS} sheets in turn, {tried}, {committed} transactions")?)
}
