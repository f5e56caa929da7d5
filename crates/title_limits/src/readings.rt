//! More descriptions than are kept when they have been read, which is 4,096 of them: many that come once, and a few more than are
//! kept that come again and again.

use crate::case::{Case, Tried};
use crate::parcel::{Parcel, Square};
use anyhow::Result;
use std::alloc::Global;
use title_script::Schedule;

// Descriptions that come once.
const ONCE: u32 = 36_000;

// Descriptions that come in turn, and how often each comes.
const IN_TURN: u32 = 4_097;

const TURNS: u32 = 4;

// The townships of the plant.
const TOWNSHIPS: u32 = 4;

// The squares of three sizes of a section: 256 cells, 64 squares of ten acres and 16 of forty. There are 37 sections, one too
// many, in each of the townships.
const SQUARES: u32 = 336;

const SECTIONS: u32 = 37;

fn square(number: u32) -> Square {
    match number {
        0..=255 => Square::cell(number),
        256..=319 => Square {
            level: 3,
            number: number.saturating_sub(256),
        },
        _ => Square {
            level: 2,
            number: number.saturating_sub(320),
        },
    }
}

// The parcel with a number; the same parcel comes again after all others.
fn parcel(number: u32) -> Parcel {
    let (square, rest) = (square(number % SQUARES), number / SQUARES);
    Parcel::Part {
        township: rest / SECTIONS % TOWNSHIPS,
        section: (rest % SECTIONS).saturating_add(1),
        square,
    }
}

// The sheet of a parcel, where it has no fault.
fn add_sheet(case: &mut Case, parcel: Parcel) {
    match parcel {
        Parcel::Part {
            section: SECTIONS,
            ..
        } => { case.step(1, format_args!("sheet,{parcel}"), "description,22") }
        _ => case.sheet_unsold(1, parcel),
    }
}

// The descriptions that come once: 336 of each of 37 sections in three townships are 37,296.
fn once(alloc: Global) -> Result<Tried> {
    let mut case = Case::new(alloc);
    case.declare_townships(TOWNSHIPS);
    for number in 0..ONCE {
        add_sheet(&mut case, parcel(number));
    }
    case.run(Schedule::Serial)
}

fn in_turn(alloc: Global) -> Result<Tried> {
    let mut case = Case::new(alloc);
    case.declare_townships(TOWNSHIPS);
    for _ in 0..TURNS {
        for number in 0..IN_TURN {
            add_sheet(&mut case, parcel(number));
        }
    }
    case.run(Schedule::Serial)
}

/// The sheets of all.
pub fn count(alloc: Global) -> Result<String> {
    let tried = once(alloc)?.and(in_turn(alloc)?);
    Ok(format!(in alloc; "{ONCE} once and {IN_TURN} in turn, {tried}")?)
}
