//! What is asked of a desk or an office.

use crate::chance::Chance;
use crate::ground::Ground;
use std::alloc::{AllocError, Global};
use title_chain::{Ask, Posting, Terms};
use title_instrument::{Deed, Estates, Instrument, Quantum, Release};
use title_land::Tract;
use title_share::Share;
use title_trace::Request;

/// The parties of the plant.
pub const PARTIES: u32 = 4;

/// What an examiner wishes for in a transaction: a tract is named by its index in the ground, an instrument by the seed that
/// makes it.
#[derive(Clone, Copy)]
pub enum StepWish {
    Sheet(u32),
    Chain(u32),
    Post(u32, u32),
}

/// What an examiner wishes for.
#[derive(Clone, Copy)]
pub enum Wish {
    Begin,
    Commit,
    Abort,
    Step(StepWish),
}

// Mostly party 0, which owns all at first.
fn any_party(chance: &mut Chance) -> u32 {
    if chance.flip() {
        0
    } else {
        chance.below(PARTIES)
    }
}

// Half of the whole, a quarter of it and so on.
fn any_share(chance: &mut Chance) -> Option<Share> {
    let units = match chance.below(4) {
        0 => 2_147_483_648,
        1 => 1_073_741_824,
        2 => 536_870_912,
        _ => 4_294_967_296,
    };
    Share::new(units)
}

fn any_estates(chance: &mut Chance) -> Estates {
    Estates {
        s: chance.flip(),
        o: chance.flip(),
        m: chance.flip(),
    }
}

// A deed of a share of the whole, or of what the grantor holds.
fn deed(chance: &mut Chance, estates: Estates, share: Share) -> Instrument {
    let quantum = if chance.flip() {
        Quantum::Whole(share)
    } else {
        Quantum::Interest(share)
    };
    Instrument::Deed(Deed {
        grantor: any_party(chance),
        grantee: chance.below(PARTIES),
        estates,
        warranty: chance.flip(),
        quantum,
        reserve: [None, None, None],
    })
}

fn release(chance: &mut Chance, estates: Estates) -> Instrument {
    Instrument::Release(Release {
        from: any_party(chance),
        to: chance.below(PARTIES),
        estates,
    })
}

// The instrument of a seed.
fn instrument(seed: u32) -> Instrument {
    let mut chance = Chance::new(u64::from(seed));
    let estates = any_estates(&mut chance);
    match any_share(&mut chance) {
        Some(share) if chance.below(4) > 0 => deed(&mut chance, estates, share),
        _ => release(&mut chance, estates),
    }
}

fn post(alloc: Global, tract: &Tract, seed: u32, doc: u64) -> Result<Ask, AllocError> {
    let terms = Terms {
        doc,
        tract: tract.copy(alloc)?,
        instrument: instrument(seed),
    };
    Ok(Ask::Post(Posting::new(alloc, terms)?))
}

impl StepWish {
    /// A chain in one of eight, a sheet in three, and else a post.
    pub fn any(chance: &mut Chance, ground: &Ground) -> StepWish {
        let index = ground.any_index(chance);
        match chance.below(8) {
            0 => StepWish::Chain(index),
            1..=3 => StepWish::Sheet(index),
            _ => StepWish::Post(index, chance.below(u32::MAX)),
        }
    }

    /// The ask for it; a post makes a document with this number.
    pub fn ask(self, alloc: Global, ground: &Ground, doc: u64) -> Result<Ask, AllocError> {
        Ok(match self {
            StepWish::Sheet(index) => Ask::Sheet(ground.at(index).copy(alloc)?),
            StepWish::Chain(index) => Ask::Chain(ground.at(index).copy(alloc)?),
            StepWish::Post(index, seed) => post(alloc, ground.at(index), seed, doc)?,
        })
    }
}

impl Wish {
    /// To begin, where the examiner hasn't begun, or else a sheet or a post, now and then the end.
    pub fn any(chance: &mut Chance, ground: &Ground, is_open: bool) -> Wish {
        if !is_open {
            return Wish::Begin;
        }
        let index = ground.any_index(chance);
        match chance.below(16) {
            0 => Wish::Commit,
            1 | 2 => Wish::Abort,
            3..=5 => Wish::Step(StepWish::Sheet(index)),
            _ => Wish::Step(StepWish::Post(index, chance.below(u32::MAX))),
        }
    }

    /// The request for it.
    pub fn request(
        self,
        alloc: Global,
        ground: &Ground,
        examiner: u32,
        doc: u64,
    ) -> Result<Request, AllocError> {
        Ok(match self {
            Wish::Begin => Request::Begin(examiner),
            Wish::Commit => Request::Commit(examiner),
            Wish::Abort => Request::Abort(examiner),
            Wish::Step(step) => Request::Step(examiner, step.ask(alloc, ground, doc)?),
        })
    }
}
