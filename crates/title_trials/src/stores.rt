//! The two stores, each behind a desk, asked alike.

ghost use Rattle.title_trace.specs.Due.{MayOpen};

use crate::replies::{Tally, are_one};
use crate::turns::Turn;
use std::alloc::{AllocError, Global};
use title_cell_store::CellStore;
use title_chain::Record;
use title_chance::{Chance, Ground, PARTIES, Reach, StepWish, TOWNSHIPS, Wish, township};
use title_desk::{Desk, may_open};
use title_land::Township;
use title_lock::NodeLocks;
use title_store::Store;
use title_tree_store::TreeStore;

/// How many lists are made, how many requests each has and how many asks alone follow them, by how many examiners, and in how many
/// tracts of sections of what land.
#[derive(Clone, Copy)]
pub struct Extent {
    pub lists: u32,
    pub requests: u64,
    pub alone: u64,
    pub examiners: u32,
    pub tracts: u32,
    pub reach: Reach,
}

/// How many lists differ, what was replied to requests, and what to asks alone.
#[derive(Clone, Copy)]
pub struct Compared {
    pub differ: u32,
    pub tally: Tally,
    pub alone: Tally,
}

// A store behind a desk.
struct Plant<S: Store + Drop> {
    desk: Desk<S, NodeLocks>,
}

// By hand, so that whoever lets one go sees one call.
impl<S: Store + Drop> Drop for Plant<S> {
    fn drop(self) {
        let Plant { desk } = self;
        drop(desk);
    }
}

struct Desks {
    alloc: Global,
    cells: Plant<CellStore>,
    trees: Plant<TreeStore>,
}

// The same of both.
impl Drop for Desks {
    fn drop(self) {
        let Desks {
            alloc: _,
            cells,
            trees,
        } = self;
        drop(cells);
        drop(trees);
    }
}

fn open_desk<S: Store + Drop>(
    alloc: Global,
    parties: u32,
    townships: &[Township],
) -> Result<Plant<S>, AllocError>
    requires may_open { MayOpen parties townships.now }
{
    let desk = Desk::open(alloc, parties, townships)?;
    Ok(Plant { desk })
}

fn open(alloc: Global, townships: &[Township]) -> Result<Option<Desks>, AllocError> {
    if !may_open(PARTIES, townships) {
        return Ok(None);
    }
    Ok(Some(Desks {
        alloc,
        cells: open_desk(alloc, PARTIES, townships)?,
        trees: open_desk(alloc, PARTIES, townships)?,
    }))
}

// Opens them, once more where a growth was refused.
fn open_again(
    alloc: Global,
    townships: &[Township],
    tally: &mut Tally,
) -> Result<Option<Desks>, AllocError> {
    match open(alloc, townships) {
        Err(_) => {
            tally.want();
            open(alloc, townships)
        }
        desks => desks,
    }
}

// Whether two lists have the same records, in order.
fn same_records(records: &[Record], others: &[Record]) -> bool {
    let mut are_same = records.len() == others.len();
    for (record, other) in records.iter().zip(others) {
        are_same &= record.same(other);
    }
    are_same
}

impl Desks {
    // Whether both serve an examiner alike.
    fn are_one(&mut self, ground: &Ground, turn: Turn, tally: &mut Tally) -> bool {
        let reply = turn.serve(&mut self.cells.desk, ground, tally);
        tally.count(&reply);
        are_one(reply, turn.serve(&mut self.trees.desk, ground, tally))
    }

    fn turn(&self, examiner: u32, wish: Wish, doc: u64) -> Turn {
        Turn::new(self.alloc, examiner, wish, doc)
    }

    // The same for any examiner's wish.
    fn any_turn(&self, chance: &mut Chance, ground: &Ground, examiners: u32, doc: u64) -> Turn {
        let examiner = chance.below(examiners).saturating_add(1);
        let is_open = self.cells.desk.is_open(examiner);
        self.turn(examiner, Wish::any(chance, ground, is_open), doc)
    }

    // Whether both have the same records.
    fn are_records_one(&self) -> bool {
        same_records(self.cells.desk.records(), self.trees.desk.records())
    }

    fn are_trees_tidy(&self) -> bool {
        self.trees.desk.store().is_tidy()
    }

    // Commits all, after which the trees have no node too many.
    fn are_commits_one(&mut self, ground: &Ground, examiners: u32, tally: &mut Tally) -> bool {
        let mut is_one = true;
        for examiner in 1..=examiners {
            is_one &= self.are_one(ground, self.turn(examiner, Wish::Commit, 0), tally);
        }
        is_one & self.are_trees_tidy()
    }

    // Makes the asks alone of a list, from a copy of the generator: the lists that follow stay what they are. After each the trees
    // have no node too many.
    fn are_alone_one(
        &mut self,
        mut chance: Chance,
        ground: &Ground,
        extent: Extent,
        tally: &mut Tally,
    ) -> bool {
        let mut is_one = true;
        for doc in 0..extent.alone {
            let turn = Turn::any_alone(self.alloc, &mut chance, ground, extent.examiners, doc);
            is_one &= self.are_one(ground, turn, tally);
            is_one &= self.are_trees_tidy();
        }
        is_one
    }

    // Reads the whole land.
    fn are_ends_one(&mut self, ground: &Ground, tally: &mut Tally) -> bool {
        let sheet = Wish::Step(StepWish::Sheet(u32::MAX));
        let mut is_one = self.are_one(ground, self.turn(1, Wish::Begin, 0), tally);
        is_one &= self.are_one(ground, self.turn(1, sheet, 0), tally);
        is_one & self.are_records_one()
    }

    // Whether all requests of a list are served alike, then all asks alone, and what they leave is one.
    fn is_list_one(
        &mut self,
        chance: &mut Chance,
        ground: &Ground,
        extent: Extent,
        tally: &mut Tally,
        alone: &mut Tally,
    ) -> bool {
        let mut is_one = true;
        for doc in 0..extent.requests {
            let turn = self.any_turn(chance, ground, extent.examiners, doc);
            is_one &= self.are_one(ground, turn, tally);
        }
        is_one &= self.are_commits_one(ground, extent.examiners, tally);
        is_one &= self.are_alone_one(*chance, ground, extent, alone);
        is_one & self.are_ends_one(ground, tally)
    }
}

fn townships(alloc: Global) -> Result<Vec<Township>, AllocError> {
    let mut townships = Vec::new(alloc);
    for number in 1..=TOWNSHIPS {
        if let Some(township) = township(number) {
            townships.push(township)?;
        }
    }
    Ok(townships)
}

// The townships, listed once more where a growth was refused.
fn townships_again(alloc: Global, tally: &mut Tally) -> Result<Vec<Township>, AllocError> {
    if let Ok(townships) = townships(alloc) {
        return Ok(townships);
    }
    tally.want();
    townships(alloc)
}

// Whether a list is one at new desks; false where none opens.
fn is_new_list_one(
    desks: Option<Desks>,
    chance: &mut Chance,
    ground: &Ground,
    extent: Extent,
    tally: &mut Tally,
    alone: &mut Tally,
) -> bool {
    match desks {
        Some(mut desks) => desks.is_list_one(chance, ground, extent, tally, alone),
        None => false,
    }
}

// How many of a number of lists differ, each at new desks. One for which no desk opens counts with them.
fn count_lists(
    alloc: Global,
    townships: &[Township],
    ground: &Ground,
    chance: &mut Chance,
    extent: Extent,
    tally: &mut Tally,
    alone: &mut Tally,
) -> Result<u32, AllocError> {
    let mut differ = 0u32;
    for _ in 0..extent.lists {
        let desks = open_again(alloc, townships, tally)?;
        if !is_new_list_one(desks, chance, ground, extent, tally, alone) {
            differ = differ.saturating_add(1);
        }
    }
    Ok(differ)
}

// The same on new ground.
fn count_differing(
    alloc: Global,
    townships: &[Township],
    chance: &mut Chance,
    extent: Extent,
    tally: &mut Tally,
    alone: &mut Tally,
) -> Result<u32, AllocError> {
    let (tracts, reach) = (extent.tracts, extent.reach);
    let ground = Ground::again(alloc, chance, tracts, reach, &mut tally.wanted)?;
    count_lists(alloc, townships, &ground, chance, extent, tally, alone)
}

// Both extents, the first one first; how many lists differ.
fn count_both(
    alloc: Global,
    townships: &[Township],
    extents: [Extent; 2],
    tally: &mut Tally,
    alone: &mut Tally,
) -> Result<u32, AllocError> {
    let (mut chance, mut differ) = (Chance::new(3), 0u32);
    for extent in extents {
        let more = count_differing(alloc, townships, &mut chance, extent, tally, alone)?;
        differ = differ.saturating_add(more);
    }
    Ok(differ)
}

/// Asks two desks alike, by lists of two extents. A list differs also where its trees stay untidy.
pub fn compare(alloc: Global, first: Extent, second: Extent) -> Result<Compared, AllocError> {
    let (mut tally, mut alone) = (Tally::new(), Tally::new());
    let townships = townships_again(alloc, &mut tally)?;
    let extents = [first, second];
    let differ = count_both(alloc, townships.as_slice(), extents, &mut tally, &mut alone)?;
    Ok(Compared {
        differ,
        tally,
        alone,
    })
}
