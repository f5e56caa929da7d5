//! Many calls of one table of locks, which stand by node.

use crate::calls::{Call, Tally};
use crate::spread::spread;
use anyhow::Result;
use std::alloc::Global;
use title_chance::{Chance, Ground, Reach};
use title_land::Node;
use title_lock::{Guards, NodeLocks};

pub const CALLS: u32 = 1_000_000;

const EXAMINERS: u32 = 64;

/// What came of the calls, and how many holders were counted at all nodes before and after everyone gave back.
#[derive(Clone, Copy)]
pub struct Soaked {
    pub tally: Tally,
    pub before: u64,
    pub after: u64,
}

fn make_all(chance: &mut Chance, ground: &Ground, locks: &mut NodeLocks) -> Tally {
    let mut tally = Tally::new();
    for _ in 0..CALLS {
        let call = Call::any(chance, ground, EXAMINERS);
        let answer = call.make(locks, &mut tally);
        tally.count(answer);
    }
    tally
}

fn give_all_back(locks: &mut NodeLocks) {
    for examiner in 0..=EXAMINERS {
        locks.give_back(examiner);
    }
}

// The holders at a node.
fn holders_at(locks: &NodeLocks, node: &Node) -> u64 {
    let mut holders = 0u64;
    for count in locks.counts(node) {
        holders = holders.saturating_add(count);
    }
    holders
}

// The holders at a node and at all above it.
fn holders_from(locks: &NodeLocks, node: Node) -> u64 {
    let mut holders = holders_at(locks, &node);
    for above in node.ancestors() {
        holders = holders.saturating_add(holders_at(locks, &above));
    }
    holders
}

// The holders at the nodes of all tracts and above them.
fn holders(locks: &NodeLocks, ground: &Ground) -> u64 {
    let mut holders = 0u64;
    for tract in ground.tracts() {
        for node in tract.cover() {
            holders = holders.saturating_add(holders_from(locks, *node));
        }
    }
    holders
}

/// Makes the calls; then everyone gives back.
pub fn soak(alloc: Global) -> Result<Soaked> {
    let mut chance = Chance::new(2);
    let ground = Ground::new(alloc, &mut chance, 500, Reach::Plant)?;
    let mut locks = spread(alloc, &mut Tally::new())?;
    let tally = make_all(&mut chance, &ground, &mut locks);
    let before = holders(&locks, &ground);
    give_all_back(&mut locks);
    let after = holders(&locks, &ground);
    Ok(Soaked {
        tally,
        before,
        after,
    })
}
