//! The tract of most squares that there can be: of each square of ten acres three cells.

use crate::clerk::{Clerk, Rows, Sale, Wish};
use crate::held::{asks, asks_in, is_mode};
use crate::parcel::{CELLS, Parcel, Square, section};
use crate::portion::WHOLE;
use anyhow::{Result, bail};
use std::alloc::Global;
use title_instrument::Estate;
use title_land::{Grid, Land, Node, Tract};
use title_lock::{Access, Guards, LockFault, Mode, NodeLocks, RowLocks};
use title_trace::Request;

// The squares of the tract: 64 times 3.
const SQUARES: u32 = 192;

// Their acres, in half acres: 5 for each.
const HALF_ACRES: u32 = 960;

// The deeds that are posted in it, each of 1/16.
const DEEDS: u64 = 4;

// Whether a cell lies in the tract.
fn is_in(cell: u32) -> bool {
    cell % 4 != 3
}

fn grid() -> Option<Grid> {
    let mut grid = Grid::empty();
    for cell in 0..CELLS {
        if is_in(cell) {
            grid = grid.with(Square::cell(cell).within()?.square());
        }
    }
    Some(grid)
}

fn tract(alloc: Global) -> Result<Tract> {
    let (Some(section), Some(grid)) = (section(0, 1), grid()) else {
        bail!("there is no such tract");
    };
    Ok(Tract::new(alloc, Land::Part(section, grid))?)
}

// Adds the cells of the tract, in order.
fn add_cells(nodes: &mut Vec<Node>) -> Result<()> {
    for cell in 0..CELLS {
        if is_in(cell) {
            nodes.push(Parcel::cell(cell).node()?)?;
        }
    }
    Ok(())
}

// The tract lists its cells in order, and has as many acres.
fn is_covered(alloc: Global, tract: &Tract) -> Result<()> {
    let mut nodes = Vec::new(alloc);
    add_cells(&mut nodes)?;
    if tract.cover() != nodes.as_slice() || tract.half_acres() != Some(HALF_ACRES) {
        bail!("the tract has another cover");
    }
    Ok(())
}

// Adds the rows of an estate in the tract that party 0 owns.
fn add_unsold(rows: &mut Rows, estate: Estate) {
    for cell in 0..CELLS {
        if is_in(cell) {
            rows.add(Parcel::cell(cell), estate, 0, WHOLE);
        }
    }
}

// Adds the rows of the surface of the tract after the deeds.
fn add_sold(rows: &mut Rows) {
    for cell in 0..CELLS {
        if is_in(cell) {
            rows.add(Parcel::cell(cell), Estate::S, 0, WHOLE / 4 * 3);
            rows.add(Parcel::cell(cell), Estate::S, 1, WHOLE / 4);
        }
    }
}

// The rows of the sheet before the deeds, or after them.
fn rows(alloc: Global, is_sold: bool) -> Rows {
    let mut rows = Rows::new(alloc);
    if is_sold {
        add_sold(&mut rows);
    } else {
        add_unsold(&mut rows, Estate::S);
    }
    add_unsold(&mut rows, Estate::O);
    add_unsold(&mut rows, Estate::M);
    rows
}

// A deed of party 0 alone.
fn sale(document: u64) -> Wish {
    Wish::Sell(Sale {
        document,
        grantor: 0,
        grantee: 1,
        units: WHOLE / 16,
    })
}

// A deed of party 2, which has nothing.
const STRANGE: Sale = Sale {
    document: 9,
    grantor: 2,
    grantee: 1,
    units: WHOLE,
};

// Posts the deeds of party 0, and the one of party 2.
fn sell(clerk: &mut Clerk, tract: &Tract) -> Result<()> {
    for document in 1..=DEEDS {
        clerk.alone(sale(document), tract, "posted")?;
    }
    let refused = "refused,11,S,T1N R1W sec 1 NE1/4NE1/4NE1/4NE1/4";
    clerk.alone(Wish::Sell(STRANGE), tract, refused)
}

// Sheets, deeds and a chain, each a transaction of its own.
fn try_alone(alloc: Global, clerk: &mut Clerk, tract: &Tract) -> Result<()> {
    clerk.shows(tract, &rows(alloc, false))?;
    sell(clerk, tract)?;
    clerk.shows(tract, &rows(alloc, true))?;
    clerk.alone(Wish::Chain, tract, "chain,4")
}

// A deed of half of the surface.
const HALF: Sale = Sale {
    document: 10,
    grantor: 0,
    grantee: 2,
    units: WHOLE / 2,
};

// Examiner 1 posts in the tract, and is in the way of examiner 2 there until it aborts.
fn try_together(clerk: &mut Clerk, tract: &Tract) -> Result<()> {
    clerk.serve(Request::Begin(1), "began")?;
    clerk.serve(Request::Begin(2), "began")?;
    clerk.step(1, Wish::Sell(HALF), tract, "posted")?;
    clerk.step(2, Wish::Sheet, tract, "conflict,1")?;
    clerk.serve(Request::Abort(1), "aborted")?;
    clerk.step(2, Wish::Sheet, tract, "sheet,768")?;
    clerk.serve(Request::Commit(2), "committed,9")
}

// By a desk; how many transactions are committed.
fn try_desk(alloc: Global, clerk: &mut Clerk, tract: &Tract) -> Result<usize> {
    try_alone(alloc, clerk, tract)?;
    try_together(clerk, tract)?;
    Ok(clerk.committed())
}

fn committed(alloc: Global, tract: &Tract) -> Result<usize> {
    try_desk(alloc, &mut Clerk::open(alloc, 3, 1)?, tract)
}

// A post of examiner 1 in the tract, and reads of examiner 2 there and beside it.
fn try_accesses<G: Guards>(locks: &mut G, tract: &Tract) -> Result<()> {
    asks_in(locks, 1, tract, Access::Post, Ok(()))?;
    let conflict = Err(LockFault::Conflict(1));
    asks_in(locks, 2, tract, Access::Read, conflict)?;
    asks(locks, 2, Parcel::cell(3), Access::Read, Ok(()))
}

// The same, and a read there again when examiner 1 is gone.
fn try_table<G: Guards>(locks: &mut G, tract: &Tract) -> Result<()> {
    try_accesses(locks, tract)?;
    is_mode(locks, 1, Parcel::section(1), Mode::Ix)?;
    is_mode(locks, 1, Parcel::cell(254), Mode::X)?;
    is_mode(locks, 2, Parcel::section(1), Mode::Is)?;
    locks.give_back(1);
    asks_in(locks, 2, tract, Access::Read, Ok(()))?;
    is_mode(locks, 2, Parcel::cell(254), Mode::S)
}

// By both tables of locks.
fn try_locks(alloc: Global, tract: &Tract) -> Result<()> {
    try_table(&mut NodeLocks::new(alloc), tract)?;
    try_table(&mut RowLocks::new(alloc), tract)
}

// The tract's cover and its locks, and how many transactions a desk has committed.
fn tried(alloc: Global, tract: &Tract) -> Result<usize> {
    is_covered(alloc, tract)?;
    try_locks(alloc, tract)?;
    committed(alloc, tract)
}

/// Its cover, its sheets, its deeds, its chain and its locks.
pub fn count(alloc: Global) -> Result<String> {
    let committed = tried(alloc, &tract(alloc)?)?;
    Ok(format!(in alloc; "{SQUARES} squares, {committed} transactions")?)
}
