//! As many deeds as a script has rows, each a transaction of its own or many in one.

use crate::clerk::{Clerk, MINERALS, Rows, Sale, Wish};
use crate::parcel::{CELLS, Parcel};
use crate::portion::WHOLE;
use anyhow::{Result, bail};
use std::alloc::Global;
use title_chain::Entry;
use title_instrument::Estate;
use title_trace::Request;

const DEEDS: u32 = 100_000;

// Transactions of many deeds, and the deeds of each.
const TRANSACTIONS: u32 = 10;

const IN_ONE: u32 = 10_000;

// Trees are looked at each time when so many deeds were posted alone.
const LOOK: u32 = 1_000;

// What a deed passes of a cell, the cells of a section in turn: each gets 390 of them, and the first 160 cells one more.
const UNITS: u64 = WHOLE / 512;

// The largest squares of the first 160 cells: two quarters of 64 cells, and two quarters of quarters of 16. And those of the rest.
const ONE_MORE: [(u32, u32); 4] = [(1, 0), (1, 1), (2, 8), (2, 9)];

const OTHERS: [(u32, u32); 3] = [(2, 10), (2, 11), (1, 3)];

fn sale(document: u32) -> Wish {
    Wish::Sell(Sale {
        document: u64::from(document),
        grantor: 0,
        grantee: 1,
        units: UNITS,
    })
}

fn cell(document: u32) -> Parcel {
    Parcel::cell(document.saturating_sub(1) % CELLS)
}

fn is_tidy(clerk: &Clerk, document: u32) -> Result<()> {
    if !clerk.is_tidy() {
        bail!("trees have a node too many after deed {document}");
    }
    Ok(())
}

// Adds the rows of squares in which so many deeds were posted.
fn add_rows(rows: &mut Rows, squares: &[(u32, u32)], deeds: u64) {
    let sold = UNITS.saturating_mul(deeds);
    for (level, number) in squares {
        let parcel = Parcel::square(*level, *number);
        rows.add(parcel, Estate::S, 0, WHOLE.saturating_sub(sold));
        rows.add(parcel, Estate::S, 1, sold);
    }
}

// The closing sheet of a section.
fn closing_rows(alloc: Global, section: Parcel) -> Rows {
    let mut rows = Rows::new(alloc);
    add_rows(&mut rows, &ONE_MORE, 391);
    add_rows(&mut rows, &OTHERS, 390);
    rows.add_unsold(section, &MINERALS);
    rows
}

// The closing sheet has to be this, and the trees tidy.
fn is_closed(alloc: Global, clerk: &mut Clerk) -> Result<()> {
    let section = Parcel::section(1);
    clerk.shows_at(section, &closing_rows(alloc, section))?;
    is_tidy(clerk, DEEDS)
}

fn is_entry(entry: Option<&Entry>, place: u32, document: u32) -> Result<()> {
    let came = entry.map(|entry| (entry.place, entry.posting.terms().doc));
    if came != Some((u64::from(place), u64::from(document))) {
        bail!("the chain has {came:?} for deed {document} of record {place}");
    }
    Ok(())
}

// A chain has all deeds, so many of them in each record.
fn is_chain(chain: &[Entry], in_one: u32) -> Result<()> {
    let mut entries = chain.iter();
    for deed in 0..DEEDS {
        let record = deed.checked_div(in_one).unwrap_or(0);
        is_entry(entries.next(), record.saturating_add(1), deed + 1)?;
    }
    if entries.next().is_some() {
        bail!("the chain has more than {DEEDS} entries");
    }
    Ok(())
}

// The chain of the section has all deeds, so many of them in each record.
fn is_chained(clerk: &mut Clerk, in_one: u32) -> Result<()> {
    let chain = clerk.chain_at(Parcel::section(1))?;
    is_chain(chain.as_slice(), in_one)
}

// The sheet, the trees and the chain after all; how many transactions are committed.
fn is_done(alloc: Global, clerk: &mut Clerk, in_one: u32) -> Result<usize> {
    is_closed(alloc, clerk)?;
    is_chained(clerk, in_one)?;
    Ok(clerk.committed())
}

// Posts a deed as a transaction of its own, and looks at the trees from time to time.
fn post_one(clerk: &mut Clerk, document: u32) -> Result<()> {
    clerk.alone_at(sale(document), cell(document), "posted")?;
    if document % LOOK == 0 {
        return is_tidy(clerk, document);
    }
    Ok(())
}

// Each deed a transaction of its own; how many transactions are committed.
fn post_each(alloc: Global, clerk: &mut Clerk) -> Result<usize> {
    for document in 1..=DEEDS {
        post_one(clerk, document)?;
    }
    is_done(alloc, clerk, 1)
}

fn alone(alloc: Global) -> Result<usize> {
    post_each(alloc, &mut Clerk::open(alloc, 2, 1)?)
}

// Posts so many deeds in a transaction, behind those posted before.
fn post_some(clerk: &mut Clerk, before: u32) -> Result<()> {
    for deed in 1..=IN_ONE {
        let document = before.saturating_add(deed);
        clerk.step_at(1, sale(document), cell(document), "posted")?;
    }
    Ok(())
}

fn commit(alloc: Global, clerk: &mut Clerk, place: u32) -> Result<()> {
    let committed = format!(in alloc; "committed,{place}")?;
    clerk.serve(Request::Commit(1), committed.as_str())
}

// A transaction of many deeds, behind so many others.
fn commit_some(alloc: Global, clerk: &mut Clerk, before: u32) -> Result<()> {
    clerk.serve(Request::Begin(1), "began")?;
    post_some(clerk, before.saturating_mul(IN_ONE))?;
    commit(alloc, clerk, before.saturating_add(1))
}

// The same deeds by ten transactions.
fn commit_each(alloc: Global, clerk: &mut Clerk) -> Result<usize> {
    for before in 0..TRANSACTIONS {
        commit_some(alloc, clerk, before)?;
    }
    is_done(alloc, clerk, IN_ONE)
}

fn together(alloc: Global) -> Result<usize> {
    commit_each(alloc, &mut Clerk::open(alloc, 2, 1)?)
}

/// The sheet, the chain and the trees after all.
pub fn count(alloc: Global) -> Result<String> {
    let (alone, together) = (alone(alloc)?, together(alloc)?);
    Ok(format!(in alloc; "{DEEDS}, {alone} transactions alone, {together} together")?)
}
