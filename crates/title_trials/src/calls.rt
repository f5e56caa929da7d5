//! Calls of a table of locks.

use title_chance::{Chance, Ground};
use title_land::Tract;
use title_lock::{Access, Guards, LockFault};

#[derive(Clone, Copy)]
enum Kind {
    Would,
    Ask,
    /// Room is made, and nothing is granted in it.
    Prepare,
    GiveBack,
}

/// A call by an examiner for a tract.
#[derive(Clone, Copy)]
pub struct Call<'a> {
    kind: Kind,
    examiner: u32,
    tract: &'a Tract,
    access: Access,
}

/// How many calls found nobody in the way, how many found somebody, and how many wanted memory and were made again.
#[derive(Clone, Copy)]
pub struct Tally {
    pub free: u32,
    pub in_the_way: u32,
    pub wanted: u32,
}

fn any_kind(chance: &mut Chance) -> Kind {
    match chance.below(16) {
        0 | 1 => Kind::Would,
        2 | 3 => Kind::Prepare,
        4 | 5 => Kind::GiveBack,
        _ => Kind::Ask,
    }
}

fn any_access(chance: &mut Chance) -> Access {
    if chance.flip() {
        Access::Read
    } else {
        Access::Post
    }
}

// Makes a call once.
fn answer<G: Guards>(locks: &mut G, call: &Call) -> Result<(), LockFault> {
    match call.kind {
        Kind::Would => match locks.would(call.examiner, call.tract, call.access) {
            None => Ok(()),
            Some(other) => Err(LockFault::Conflict(other)),
        },
        Kind::Ask => locks.ask(call.examiner, call.tract, call.access),
        Kind::Prepare => locks.prepare(call.examiner, call.tract, call.access),
        Kind::GiveBack => {
            locks.give_back(call.examiner);
            Ok(())
        }
    }
}

impl Call<'_> {
    /// A call by one of so many examiners, numbered from 1.
    pub fn any<'a>(chance: &mut Chance, ground: &'a Ground, examiners: u32) -> Call<'a> {
        Call {
            kind: any_kind(chance),
            examiner: chance.below(examiners).saturating_add(1),
            tract: ground.any(chance),
            access: any_access(chance),
        }
    }

    /// An examiner reads a tract.
    pub fn read(examiner: u32, tract: &Tract) -> Call<'_> {
        Call {
            kind: Kind::Ask,
            examiner,
            tract,
            access: Access::Read,
        }
    }

    /// Makes the call, and once more where a growth was refused.
    pub fn make<G: Guards>(&self, locks: &mut G, tally: &mut Tally) -> Result<(), LockFault> {
        match answer(locks, self) {
            Err(LockFault::Memory) => {
                tally.want();
                answer(locks, self)
            }
            answer => answer,
        }
    }
}

impl Tally {
    /// No call.
    pub fn new() -> Tally {
        Tally {
            free: 0,
            in_the_way: 0,
            wanted: 0,
        }
    }

    /// Counts a call that wanted memory.
    pub fn want(&mut self) {
        self.wanted = self.wanted.saturating_add(1);
    }

    /// Counts a call.
    pub fn count(&mut self, answer: Result<(), LockFault>) {
        let number = match answer {
            Ok(()) => &mut self.free,
            Err(_) => &mut self.in_the_way,
        };
        *number = number.saturating_add(1);
    }
}
