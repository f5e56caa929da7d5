//! The tract of most squares that a description can name.
//!
//! A square of a tract is a cell here where no four cells that make up a larger square lie in the tract. Of the 64 squares of ten
//! acres each then has three cells in it at most. A column of cells takes 12 letters and is the cheapest that has any: so there are
//! eight columns, one in each pair, and then cells of the others, of 16 letters, as many as 1,000 bytes have room for.

use crate::case::{Case, GOVERNMENT, MINERALS, Tried};
use crate::parcel::Parcel;
use crate::portion::{ALL, Portion};
use anyhow::{Result, bail};
use std::alloc::{AllocError, Global};
use title_script::Schedule;

// The squares of ten acres of which three cells lie in the tract; of the others two do.
const WITH_THREE: u32 = 52;

// The squares of the tract: 64 times 2, and 52.
const SQUARES: u32 = 180;

// The bytes of its description, and of one part more: a comma and a cell.
const BYTES: usize = 997;

const PART_BYTES: usize = 17;

const MOST_BYTES: usize = 1_000;

// The deeds that are posted in it, each of 1/128.
const DEEDS: u32 = 32;

// The western columns of the pairs, from the west.
const COLUMNS: &str =
    "w/2w/2w/2w/2,w/2e/2w/2w/2,w/2w/2e/2w/2,w/2e/2e/2w/2,w/2w/2w/2e/2,w/2e/2w/2e/2,w/2w/2e/2e/2,w/2e/2e/2e/2";

fn quarter(number: u32) -> &'static str {
    match number % 4 {
        0 => "ne/4",
        1 => "nw/4",
        2 => "sw/4",
        _ => "se/4",
    }
}

// Adds the northeast cell of a square of ten acres.
fn add_cell(text: &mut String, square: u32) -> Result<(), AllocError> {
    let (one, two, three) = (quarter(square), quarter(square / 4), quarter(square / 16));
    write!(text, ",ne/4{one}{two}{three}")
}

// The description.
fn description(alloc: Global) -> Result<String, AllocError> {
    let mut text = String::from_str(alloc, "t1nr1wsec1")?;
    text.push_str(COLUMNS)?;
    for square in 0..WITH_THREE {
        add_cell(&mut text, square)?;
    }
    Ok(text)
}

// Whether a cell lies in the tract.
fn is_in(cell: u32) -> bool {
    match cell % 4 {
        0 => cell / 4 < WITH_THREE,
        1 | 2 => true,
        _ => false,
    }
}

// Wants the rows of an estate in the tract, which is one owner's.
fn want_owned(case: &mut Case, examiner: u32, estate: &str, name: &str) {
    for cell in 0..256u32 {
        if is_in(cell) {
            case.want_owner(examiner, Parcel::cell(cell), estate, name, ALL);
        }
    }
}

// Wants the rows of the surface of a cell after the deeds: a quarter of what lies in the tract is ADAMS'.
fn want_sold(case: &mut Case, cell: u32) {
    let parcel = Parcel::cell(cell);
    if is_in(cell) {
        case.want_owner(1, parcel, "S", GOVERNMENT, Portion(3, 4));
        case.want_owner(1, parcel, "S", "ADAMS", Portion(1, 4));
    } else {
        case.want_owner(1, parcel, "S", GOVERNMENT, ALL);
    }
}

// The sheet of the tract while the surface is one owner's, as all else.
fn add_sheet(case: &mut Case, examiner: u32, text: &str, owner: &str) {
    let rows = SQUARES * 3;
    let sheet = format_args!("sheet,\"{text}\"");
    case.step(examiner, sheet, format_args!("sheet,{rows}"));
    want_owned(case, examiner, "S", owner);
    want_owned(case, examiner, "O", GOVERNMENT);
    want_owned(case, examiner, "M", GOVERNMENT);
}

fn add_deeds(case: &mut Case, text: &str) {
    for document in 1..=DEEDS {
        let deed = format_args!("deed,{document},UNITED STATES,ADAMS,S,W1/128,,\"{text}\"");
        case.step(1, deed, "posted");
    }
    let (deed, first) = (
        format_args!("deed,99,BELL,ADAMS,S,W1/1,,\"{text}\""),
        Parcel::cell(0),
    );
    case.step(1, deed, format_args!("refused,11,S,{first}"));
}

// The sheet of the tract after the deeds.
fn add_sheet_after(case: &mut Case, text: &str) {
    let rows = SQUARES * 4;
    let sheet = format_args!("sheet,\"{text}\"");
    case.step(1, sheet, format_args!("sheet,{rows}"));
    for cell in 0..256u32 {
        if is_in(cell) {
            want_sold(case, cell);
        }
    }
    want_owned(case, 1, "O", GOVERNMENT);
    want_owned(case, 1, "M", GOVERNMENT);
}

// The sheet of its section after the deeds: no four cells of the surface are alike, and all else is.
fn add_section_after(case: &mut Case) {
    let section = Parcel::section(1);
    case.sheet(1, section, 256 + SQUARES + 2);
    for cell in 0..256u32 {
        want_sold(case, cell);
    }
    case.want_unsold(1, section, &MINERALS);
}

// The chain of the tract: the first of its deeds is in the second record, behind a sheet.
fn add_chain(case: &mut Case, text: &str) {
    let chain = format_args!("chain,\"{text}\"");
    case.step(1, chain, format_args!("chain,{DEEDS}"));
    for document in 1..=DEEDS {
        let place = document + 1;
        case.want(format_args!("1,entry,{place},{document},deed,UNITED STATES,ADAMS,S"));
    }
}

// Each step a transaction of its own.
fn alone(alloc: Global, text: &str) -> Result<Tried> {
    let mut case = Case::new(alloc);
    case.declare_plant(1);
    add_sheet(&mut case, 1, text, GOVERNMENT);
    add_deeds(&mut case, text);
    add_sheet_after(&mut case, text);
    add_section_after(&mut case);
    add_chain(&mut case, text);
    case.run(Schedule::Serial)
}

static BEGIN: [(&str, &str); 2] = [("1,begin", "1,began"), ("2,begin", "2,began")];

// Examiner 1 posts in the tract, and reads it; it is in the way there, and not beside the tract.
fn add_post(case: &mut Case, text: &str) {
    case.steps(&BEGIN);
    let deed = format_args!("deed,1,UNITED STATES,ADAMS,S,W1/1,,\"{text}\"");
    case.step(1, deed, "posted");
    case.step(2, format_args!("sheet,\"{text}\""), "conflict,1");
    case.sheet_unsold(2, Parcel::cell(255));
    add_sheet(case, 1, text, "ADAMS");
}

// It aborts, and leaves nothing; examiner 2 reads the tract, and is in the way of a post in its second cell, and not in the fourth
// one, which lies beside the tract.
static POSTS: [(&str, &str); 5] = [
    ("1,begin", "1,began"),
    (
        "1,deed,2,UNITED STATES,BELL,S,W1/1,,T1N R1W sec 1 NW1/4NE1/4NE1/4NE1/4",
        "1,conflict,2",
    ),
    (
        "1,deed,3,UNITED STATES,BELL,S,W1/1,,T1N R1W sec 1 SE1/4NE1/4NE1/4NE1/4",
        "1,posted",
    ),
    ("2,commit", "2,committed,1"),
    ("1,commit", "1,committed,2"),
];

fn add_abort(case: &mut Case, text: &str) {
    case.step(1, "abort", "aborted");
    add_sheet(case, 2, text, GOVERNMENT);
    case.steps(&POSTS);
}

// The same tract by two examiners.
fn interleaved(alloc: Global, text: &str) -> Result<Tried> {
    let mut case = Case::new(alloc);
    case.declare_plant(1);
    add_post(&mut case, text);
    add_abort(&mut case, text);
    case.run(Schedule::Interleaved)
}

// The tract by its description, which has to have as many bytes.
fn tried(alloc: Global, text: &str) -> Result<Tried> {
    let bytes = text.len();
    if bytes != BYTES || bytes.saturating_add(PART_BYTES) <= MOST_BYTES {
        bail!("the description has {bytes} bytes");
    }
    Ok(alone(alloc, text)?.and(interleaved(alloc, text)?))
}

/// Its sheets, its deeds, its chain and its locks.
pub fn count(alloc: Global) -> Result<String> {
    let text = description(alloc)?;
    let tried = tried(alloc, text.as_str())?;
    Ok(format!(in alloc; "{SQUARES} squares in {BYTES} bytes, {tried}")?)
}
