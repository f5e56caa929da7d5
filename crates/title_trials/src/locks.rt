//! The two tables of locks, asked alike.

use crate::calls::{Call, Tally};
use crate::spread::spread;
use anyhow::Result;
use std::alloc::Global;
use title_chance::{Chance, Ground, Reach};
use title_land::Node;
use title_lock::{Guards, NodeLocks, RowLocks};

// At how many tracts the modes are compared after a list.
const COMPARED: u32 = 12;

/// How many lists are made, how many calls each has, and in how many tracts of sections.
#[derive(Clone, Copy)]
pub struct Extent {
    pub lists: u32,
    pub calls: u32,
    pub tracts: u32,
}

/// How many lists differ, and what came of the calls.
#[derive(Clone, Copy)]
pub struct Compared {
    pub differ: u32,
    pub tally: Tally,
}

struct Tables {
    nodes: NodeLocks,
    rows: RowLocks,
}

// By hand, so that whoever lets them go sees one call.
impl Drop for Tables {
    fn drop(self) {
        let Tables { nodes, rows } = self;
        drop(nodes);
        drop(rows);
    }
}

impl Tables {
    fn new(alloc: Global, nodes: NodeLocks) -> Tables {
        Tables {
            nodes,
            rows: RowLocks::new(alloc),
        }
    }

    // Makes so many calls of both; whether all answers are one.
    fn are_answers_one(
        &mut self,
        chance: &mut Chance,
        ground: &Ground,
        calls: u32,
        examiners: u32,
        tally: &mut Tally,
    ) -> bool {
        let mut are_one = true;
        for _ in 0..calls {
            let call = Call::any(chance, ground, examiners);
            let answer = call.make(&mut self.nodes, tally);
            tally.count(answer);
            are_one &= answer == call.make(&mut self.rows, tally);
        }
        are_one
    }

    fn is_mode_one(&self, examiner: u32, node: &Node) -> bool {
        self.nodes.mode(examiner, node) == self.rows.mode(examiner, node)
    }

    // At a node and above it.
    fn are_modes_one(&self, examiner: u32, node: Node) -> bool {
        let mut are_one = self.is_mode_one(examiner, &node);
        for above in node.ancestors() {
            are_one &= self.is_mode_one(examiner, &above);
        }
        are_one
    }

    // At the nodes of a cover and above them, for each of so many examiners.
    fn are_modes_one_in(&self, examiners: u32, cover: &[Node]) -> bool {
        let mut are_one = true;
        for node in cover {
            for examiner in 1..=examiners {
                are_one &= self.are_modes_one(examiner, *node);
            }
        }
        are_one
    }
}

// A list of calls by 2 to 40 examiners; whether all answers are one, and after it the modes of all at some tracts.
fn is_list_one(
    mut tables: Tables,
    chance: &mut Chance,
    ground: &Ground,
    calls: u32,
    tally: &mut Tally,
) -> bool {
    let examiners = chance.below(39).saturating_add(2);
    let mut are_one = tables.are_answers_one(chance, ground, calls, examiners, tally);
    for _ in 0..COMPARED {
        are_one &= tables.are_modes_one_in(examiners, ground.any(chance).cover());
    }
    are_one
}

/// Asks both tables alike, by lists of 2 to 40 examiners; in each other list `NodeLocks` has its locks by node from the start.
pub fn compare(alloc: Global, extent: Extent) -> Result<Compared> {
    let mut chance = Chance::new(1);
    let mut tally = Tally::new();
    let tracts = extent.tracts;
    let ground = Ground::again(alloc, &mut chance, tracts, Reach::Plant, &mut tally.wanted)?;
    let mut differ = 0u32;
    for number in 0..extent.lists {
        let nodes = if number % 2 == 1 {
            spread(alloc, &mut tally)?
        } else {
            NodeLocks::new(alloc)
        };
        let tables = Tables::new(alloc, nodes);
        if !is_list_one(tables, &mut chance, &ground, extent.calls, &mut tally) {
            differ = differ.saturating_add(1);
        }
    }
    Ok(Compared { differ, tally })
}
