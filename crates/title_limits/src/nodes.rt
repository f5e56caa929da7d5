//! Locks on all nodes of a section at once: the section, its squares of 160, 40 and 10 acres, and its cells.

use crate::case::{Case, Tried};
use crate::held::{asks, is_counted};
use crate::parcel::{CELLS, Parcel, Square};
use anyhow::{Result, bail};
use std::alloc::Global;
use title_lock::{Access, Guards, LockFault, NodeLocks, RowLocks};
use title_script::Schedule;

// All nodes of a section: 1, 4, 16, 64 and 256.
const NODES: u32 = 341;

// The node with a number: the section, then its squares, level by level; and how many nodes of the section lie below it.
fn node(number: u32) -> (Parcel, u64) {
    let (level, first, below) = match number {
        0 => (0, 0, 340),
        1..=4 => (1, 1, 84),
        5..=20 => (2, 5, 20),
        21..=84 => (3, 21, 4),
        _ => (4, 85, 0),
    };
    (Parcel::square(level, number.saturating_sub(first)), below)
}

// Each examiner asks for the node before its number.
fn ask_all<G: Guards>(locks: &mut G, access: Access) -> Result<()> {
    for number in 0..NODES {
        asks(locks, number + 1, node(number).0, access, Ok(()))?;
    }
    Ok(())
}

// The least examiner in the way of a post in a parcel by one who has asked for nothing.
fn is_in_the_way<G: Guards>(locks: &G, parcel: Parcel, wanted: Option<u32>) -> Result<()> {
    let other = locks.would(NODES + 1, &parcel.tract()?, Access::Post);
    if other != wanted {
        bail!("{other:?} is in the way in {parcel}, and not {wanted:?}");
    }
    Ok(())
}

// In the way in the last cell are the readers of all that it lies in, of whom one after another gives back: those of the section,
// of its southeast quarter, of the southeast quarter of that and so on, and of the cell.
fn are_in_the_way<G: Guards>(locks: &mut G) -> Result<()> {
    let last = Parcel::cell(255);
    for examiner in [1, 5, 21, 85, 341] {
        is_in_the_way(locks, last, Some(examiner))?;
        locks.give_back(examiner);
    }
    is_in_the_way(locks, last, None)?;
    is_in_the_way(locks, Parcel::section(1), Some(2))
}

// All read.
fn try_readers<G: Guards + Drop>(mut locks: G) -> Result<()> {
    ask_all(&mut locks, Access::Read)?;
    are_in_the_way(&mut locks)
}

// All read: at each node one has S, and those who read below it have IS.
fn are_counted(locks: &NodeLocks) -> Result<()> {
    for number in 0..NODES {
        let (parcel, below) = node(number);
        is_counted(locks, parcel, [below, 0, 1, 0, 0])?;
    }
    is_counted(locks, Parcel::Township(0), [341, 0, 0, 0, 0])?;
    is_counted(locks, Parcel::Everything, [341, 0, 0, 0, 0])
}

fn try_counts(mut locks: NodeLocks) -> Result<()> {
    ask_all(&mut locks, Access::Read)?;
    are_counted(&locks)?;
    for examiner in 1..=NODES {
        locks.give_back(examiner);
    }
    is_counted(&locks, Parcel::section(1), [0; 5])
}

// An examiner posts in each cell.
fn post_all<G: Guards>(locks: &mut G) -> Result<()> {
    for cell in 0..256u32 {
        asks(locks, cell + 1, Parcel::cell(cell), Access::Post, Ok(()))?;
    }
    Ok(())
}

// All post, and the last reads the section as soon as it is alone.
fn try_posts<G: Guards + Drop>(mut locks: G) -> Result<()> {
    let (section, conflict) = (Parcel::section(1), Err(LockFault::Conflict(1)));
    post_all(&mut locks)?;
    asks(&mut locks, 256, section, Access::Read, conflict)?;
    for examiner in 1..256u32 {
        locks.give_back(examiner);
    }
    asks(&mut locks, 256, section, Access::Read, Ok(()))
}

// Each examiner of a script reads a node.
fn add_readers(case: &mut Case) {
    for number in 0..NODES {
        let (parcel, examiner) = (node(number).0, number + 1);
        case.step(examiner, "begin", "began");
        case.sheet_unsold(examiner, parcel);
    }
}

// Examiner 1 posts in the section as soon as the others are done; until then the least of them is in the way.
fn add_ends(case: &mut Case) {
    let deed = "deed,1,UNITED STATES,ADAMS,S,W1/1,,T1N R1W sec 1";
    for place in 1..NODES {
        let examiner = place + 1;
        case.step(1, deed, format_args!("conflict,{examiner}"));
        case.step(examiner, "commit", format_args!("committed,{place}"));
    }
    case.step(1, deed, "posted");
    case.step(1, "commit", format_args!("committed,{NODES}"));
}

fn interleaved(alloc: Global) -> Result<Tried> {
    let mut case = Case::new(alloc);
    case.declare_plant(1);
    add_readers(&mut case);
    add_ends(&mut case);
    case.run(Schedule::Interleaved)
}

// One more reads each cell of a section elsewhere.
fn read_cells(locks: &mut NodeLocks, section: u32) -> Result<()> {
    for number in 0..CELLS {
        let parcel = Parcel::Part {
            township: 0,
            section,
            square: Square::cell(number),
        };
        asks(locks, NODES + 2, parcel, Access::Read, Ok(()))?;
    }
    Ok(())
}

// Locks of which there are more than are listed for several examiners.
fn crowded(alloc: Global) -> Result<NodeLocks> {
    let mut locks = NodeLocks::new(alloc);
    read_cells(&mut locks, 2)?;
    read_cells(&mut locks, 3)?;
    Ok(locks)
}

// Nodes' locks, listed and by node, and rows'.
fn try_nodes(alloc: Global) -> Result<()> {
    try_readers(NodeLocks::new(alloc))?;
    try_readers(crowded(alloc)?)?;
    try_counts(NodeLocks::new(alloc))?;
    try_posts(NodeLocks::new(alloc))?;
    try_posts(crowded(alloc)?)
}

fn try_rows(alloc: Global) -> Result<()> {
    try_readers(RowLocks::new(alloc))?;
    try_posts(RowLocks::new(alloc))
}

fn tried(alloc: Global) -> Result<Tried> {
    try_nodes(alloc)?;
    try_rows(alloc)?;
    interleaved(alloc)
}

/// Readers of all nodes and posts in all cells, by both tables of locks and by a script.
pub fn count(alloc: Global) -> Result<String> {
    let tried = tried(alloc)?;
    Ok(format!(in alloc; "{NODES}, {tried}")?)
}
