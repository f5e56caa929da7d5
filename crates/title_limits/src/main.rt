//! Sizes that lie between those that tests reach and the greatest that may be. What is told there is held against what the rules
//! give for it, and that memory isn't wanted, which no contract says. Words name parts; without a word all are tried.
//!
//! - `description`: the tract of most squares that a description can name, 180 of them.
//! - `tract`: the tract of most squares that there can be, 192.
//! - `townships`: instruments of everything in a plant of 64 townships, which has 192 trees of an estate.
//! - `owners`: a cell with 4,097 owners, by a script.
//! - `crowd`: a cell with 65,536 owners, at a desk.
//! - `nodes`: locks on all 341 nodes of a section.
//! - `holders`: 9,999 examiners at one node.
//! - `readings`: more descriptions than are kept when they have been read, and a few more again and again.
//! - `parties`: 65,535 parties, and long names that are all quotes.
//! - `transactions`: transactions of 10,000 steps.
//! - `deeds`: 100,000 deeds, each a transaction of its own or many in one; and that the trees have no node too many then.
//! - `steps`: transactions of one step of each kind, and more sheets than are kept.
#![tactic(auto)]

mod case;
mod clerk;
mod crowd;
mod deeds;
mod description;
mod held;
mod holders;
mod nodes;
mod owners;
mod parcel;
mod parties;
mod portion;
mod readings;
mod steps;
mod townships;
mod tract;
mod transactions;

use anyhow::{Result, bail};
use std::alloc::Global;
use std::env;

// A part, named for what is large.
#[derive(Clone, Copy)]
enum Part {
    Description,
    Tract,
    Townships,
    Owners,
    Crowd,
    Nodes,
    Holders,
    Readings,
    Parties,
    Transactions,
    Deeds,
    Steps,
}

impl Part {
    const ALL: [Part; 12] = [
        Part::Description,
        Part::Tract,
        Part::Townships,
        Part::Owners,
        Part::Crowd,
        Part::Nodes,
        Part::Holders,
        Part::Readings,
        Part::Parties,
        Part::Transactions,
        Part::Deeds,
        Part::Steps,
    ];

    fn word(self) -> &'static str {
        match self {
            Part::Description => "description",
            Part::Tract => "tract",
            Part::Townships => "townships",
            Part::Owners => "owners",
            Part::Crowd => "crowd",
            Part::Nodes => "nodes",
            Part::Holders => "holders",
            Part::Readings => "readings",
            Part::Parties => "parties",
            Part::Transactions => "transactions",
            Part::Deeds => "deeds",
            Part::Steps => "steps",
        }
    }

    fn named(word: &str) -> Option<Part> {
        Part::ALL.into_iter().find(|part| part.word() == word)
    }

    // Tries it; what was counted. An error says what isn't as it has to be.
    fn count(self, alloc: Global) -> Result<String> {
        match self {
            Part::Description => description::count(alloc),
            Part::Tract => tract::count(alloc),
            Part::Townships => townships::count(alloc),
            Part::Owners => owners::count(alloc),
            Part::Crowd => crowd::count(alloc),
            Part::Nodes => nodes::count(alloc),
            Part::Holders => holders::count(alloc),
            Part::Readings => readings::count(alloc),
            Part::Parties => parties::count(alloc),
            Part::Transactions => transactions::count(alloc),
            Part::Deeds => deeds::count(alloc),
            Part::Steps => steps::count(alloc),
        }
    }
}

// The parts that words name, or all.
fn parts(alloc: Global, words: &[String]) -> Result<Vec<Part>> {
    if words.is_empty() {
        return Ok(Vec::from_slice(alloc, &Part::ALL)?);
    }
    let mut parts = Vec::new(alloc);
    for word in words {
        match Part::named(word.as_str()) {
            Some(part) => parts.push(part)?,
            None => bail!("there is no part {word}"),
        }
    }
    Ok(parts)
}

// Tries a part, and tells what was counted there or what differs; whether nothing does.
fn is_met<R: Print + AllocGlobal>(rt: &R, part: Part) -> Result<bool> {
    let word = part.word();
    match part.count(rt.alloc()) {
        Ok(counted) => {
            println!(rt; "{word}: {counted}")?;
            Ok(true)
        }
        Err(why) => {
            println!(rt; "{word} differs: {why}")?;
            Ok(false)
        }
    }
}

// Tries parts; how many differ.
fn count_differing<R: Print + AllocGlobal>(rt: &R, parts: &[Part]) -> Result<u32> {
    let mut differ = 0u32;
    for part in parts {
        if !is_met(rt, *part)? {
            differ = differ.saturating_add(1);
        }
    }
    Ok(differ)
}

fn main(rt: HostRuntime) -> Result<()> {
    let words = env::args(&rt)?.skip(1).collect::<Vec<String>>(rt.alloc())?;
    let differ = count_differing(&rt, &parts(rt.alloc(), &words)?)?;
    if differ > 0 {
        bail!("{differ} parts differ");
    }
    Ok(())
}
