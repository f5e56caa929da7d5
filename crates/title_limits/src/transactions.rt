//! Transactions of as many steps as there may be: one of 10,000 posts, which is committed, and one of posts and sheets, which is
//! aborted.

use crate::case::{Case, GOVERNMENT, MINERALS, Tried};
use crate::parcel::{CELLS, Parcel};
use crate::portion::Portion;
use anyhow::Result;
use std::alloc::Global;
use title_script::Schedule;

const STEPS: u32 = 10_000;

// The first transaction gives ADAMS 1/64 of a cell after another: 39 of each, and one more of the first 16 cells, which are the
// northeast quarter of the northeast quarter. The second one gives BELL 1/1024 of each cell, 39 times, reads the section after each
// of the first 15 times, and its chain at last: 9,984 posts and 16 more.
const TIMES: u32 = 39;

const READ_TIMES: u32 = 15;

const POSTS: u32 = TIMES * CELLS;

// The largest squares of the cells that got one more, and of those that didn't, by their levels and numbers.
const ONE_MORE: (u32, u32) = (2, 0);

const OTHERS: [(u32, u32); 6] = [(2, 1), (2, 2), (2, 3), (1, 1), (1, 2), (1, 3)];

fn add_deed(case: &mut Case, document: u32, reply: &str) {
    let cell = Parcel::cell(document.saturating_sub(1) % CELLS);
    let deed = format_args!("deed,{document},UNITED STATES,ADAMS,S,W1/64,,{cell}");
    case.step(1, deed, reply);
}

// Examiner 1 posts 10,000 deeds, and can do no more; it is in the way of examiner 2 there, and not elsewhere.
fn add_posts(case: &mut Case) {
    let section = Parcel::section(1);
    case.step(1, "begin", "began");
    for document in 1..=STEPS {
        add_deed(case, document, "posted");
    }
    add_deed(case, STEPS + 1, "toolong");
    case.step(1, format_args!("sheet,{section}"), "toolong");
    case.step(2, "begin", "began");
    case.step(2, format_args!("sheet,{section}"), "conflict,1");
    case.sheet_unsold(2, Parcel::section(2));
    case.step(1, "commit", "committed,1");
}

// Wants the rows of the surface of a square of which ADAMS and BELL have so many of 1,024 parts, and UNITED STATES the others.
fn want_owners(case: &mut Case, examiner: u32, square: (u32, u32), adams: u64, bell: u64) {
    let parcel = Parcel::square(square.0, square.1);
    let left = 1_024u64.saturating_sub(adams).saturating_sub(bell);
    case.want_owner(examiner, parcel, "S", GOVERNMENT, Portion(left, 1_024));
    case.want_owner(examiner, parcel, "S", "ADAMS", Portion(adams, 1_024));
    if bell > 0 {
        case.want_owner(examiner, parcel, "S", "BELL", Portion(bell, 1_024));
    }
}

// The sheet of the section when BELL got its part so often.
fn add_sheet(case: &mut Case, examiner: u32, bell: u64) {
    let section = Parcel::section(1);
    let rows = if bell > 0 { 7 * 3 + 2 } else { 7 * 2 + 2 };
    case.sheet(examiner, section, rows);
    want_owners(case, examiner, ONE_MORE, 640, bell);
    for square in OTHERS {
        want_owners(case, examiner, square, 624, bell);
    }
    case.want_unsold(examiner, section, &MINERALS);
}

// Wants the rows of the first transaction in a chain: all its deeds stand in record 1.
fn want_posts(case: &mut Case, examiner: u32) {
    for document in 1..=STEPS {
        case.want(format_args!("{examiner},entry,1,{document},deed,UNITED STATES,ADAMS,S"));
    }
}

// The chain of the section after the first transaction.
fn add_chain(case: &mut Case, examiner: u32) {
    case.chain(examiner, Parcel::section(1), STEPS);
    want_posts(case, examiner);
}

// The same within the second one, whose own deeds have place 0.
fn add_own_chain(case: &mut Case) {
    case.chain(3, Parcel::section(1), STEPS + POSTS);
    want_posts(case, 3);
    for _ in 0..POSTS {
        case.want(format_args!("3,entry,0,7,deed,UNITED STATES,BELL,S"));
    }
}

// Examiner 3 gives BELL its part of each cell.
fn add_round(case: &mut Case) {
    for cell in 0..CELLS {
        let cell = Parcel::cell(cell);
        let deed = format_args!("deed,7,UNITED STATES,BELL,S,W1/1024,,{cell}");
        case.step(3, deed, "posted");
    }
}

// Examiner 3 posts and reads in turn, and undoes all.
fn add_undone(case: &mut Case) {
    let section = Parcel::section(1);
    case.step(3, "begin", "began");
    for time in 1..=TIMES {
        add_round(case);
        if time <= READ_TIMES {
            add_sheet(case, 3, u64::from(time));
        }
    }
    add_own_chain(case);
    case.step(3, format_args!("sheet,{section}"), "toolong");
    case.step(3, "abort", "aborted");
}

fn interleaved(alloc: Global) -> Result<Tried> {
    let mut case = Case::new(alloc);
    case.declare_plant(1);
    add_posts(&mut case);
    add_sheet(&mut case, 2, 0);
    add_chain(&mut case, 2);
    case.step(2, "commit", "committed,2");
    add_undone(&mut case);
    case.step(2, "begin", "began");
    add_sheet(&mut case, 2, 0);
    case.run(Schedule::Interleaved)
}

/// The transactions, with a sheet and a chain after each.
pub fn count(alloc: Global) -> Result<String> {
    let tried = interleaved(alloc)?;
    Ok(format!(in alloc; "{STEPS} steps twice, {tried}")?)
}
