//! A cell that as many parties own as there may be, and one less, at a desk.

use crate::clerk::{Clerk, MINERALS, Rows, SURFACE, Sale, Wish};
use crate::parcel::Parcel;
use crate::portion::WHOLE;
use anyhow::Result;
use std::alloc::Global;
use title_instrument::{Estate, Release};

// As many as a plant may have, party 0 among them.
const PARTIES: u32 = 65_536;

// What each of them gets of the surface, and party 0 keeps.
const UNITS: u64 = WHOLE / 65_536;

fn sell(clerk: &mut Clerk, cell: Parcel) -> Result<()> {
    for grantee in 1..PARTIES {
        let sale = Sale {
            document: u64::from(grantee),
            grantor: 0,
            grantee,
            units: UNITS,
        };
        clerk.alone_at(Wish::Sell(sale), cell, "posted")?;
    }
    Ok(())
}

// The rows of the cell's sheet when a party has so much of the surface, and each one behind it its part.
fn rows(alloc: Global, cell: Parcel, first: u32, units: u64) -> Rows {
    let mut rows = Rows::new(alloc);
    rows.add(cell, Estate::S, first, units);
    for party in first.saturating_add(1)..PARTIES {
        rows.add(cell, Estate::S, party, UNITS);
    }
    rows.add_unsold(cell, &MINERALS);
    rows
}

// The sheet of the cell has to be this when a party has so much of the surface, and each one behind it its part.
fn is_shown(alloc: Global, clerk: &mut Clerk, cell: Parcel, first: u32, units: u64) -> Result<()> {
    clerk.shows_at(cell, &rows(alloc, cell, first, units))
}

// Party 0 releases its part to the next.
const RELEASE: Release = Release {
    from: 0,
    to: 1,
    estates: SURFACE,
};

// How many transactions are committed.
fn try_all(alloc: Global, clerk: &mut Clerk) -> Result<usize> {
    let cell = Parcel::cell(0);
    sell(clerk, cell)?;
    is_shown(alloc, clerk, cell, 0, UNITS)?;
    clerk.alone_at(Wish::Release(RELEASE), cell, "posted")?;
    is_shown(alloc, clerk, cell, 1, UNITS * 2)?;
    Ok(clerk.committed())
}

fn committed(alloc: Global) -> Result<usize> {
    try_all(alloc, &mut Clerk::open(alloc, PARTIES, 1)?)
}

/// The sheet of the cell when all own the same, and when party 0 has released its part to the next.
pub fn count(alloc: Global) -> Result<String> {
    let committed = committed(alloc)?;
    Ok(format!(in alloc; "{PARTIES} owners, {committed} transactions")?)
}
