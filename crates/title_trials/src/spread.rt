//! A table of locks that has so many accesses that they stand by node.

use crate::calls::{Call, Tally};
use anyhow::Result;
use std::alloc::{AllocError, Global};
use title_chance::township;
use title_land::{Grid, Land, Section, Tract};
use title_lock::{Guards, NodeLocks};

// So many accesses of several examiners a table doesn't list.
const MANY: u32 = 512;

// A tract without a cell.
fn nowhere(alloc: Global) -> Result<Tract, AllocError> {
    let land = match township(1) {
        Some(township) => match Section::new(township, 1) {
            Some(section) => Land::Part(section, Grid::empty()),
            None => Land::Township(township),
        },
        None => Land::Everything,
    };
    Tract::new(alloc, land)
}

/// A table in which examiner 0 has read no cell so often that what others ask stands by node; it is in nobody's way. A call that
/// wants memory is made again.
pub fn spread(alloc: Global, tally: &mut Tally) -> Result<NodeLocks> {
    let tract = match nowhere(alloc) {
        Ok(tract) => tract,
        Err(_) => {
            tally.want();
            nowhere(alloc)?
        }
    };
    let mut locks = NodeLocks::new(alloc);
    for _ in 0..MANY {
        Call::read(0, &tract).make(&mut locks, tally)?;
    }
    Ok(locks)
}
