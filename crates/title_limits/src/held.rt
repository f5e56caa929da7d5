//! Answers of tables of locks, each held against the one that it has to be.

use crate::parcel::Parcel;
use anyhow::{Result, bail};
use title_land::Tract;
use title_lock::{Access, Guards, LockFault, Mode, NodeLocks};

// What is answered to an access.
fn is_answer(answer: Result<(), LockFault>, wanted: Result<(), LockFault>) -> Result<()> {
    if answer != wanted {
        bail!("an access is answered {answer:?}, and not {wanted:?}");
    }
    Ok(())
}

/// An examiner asks for an access in a tract, to which this has to be the answer.
pub fn asks_in<G: Guards>(
    locks: &mut G,
    examiner: u32,
    tract: &Tract,
    access: Access,
    wanted: Result<(), LockFault>,
) -> Result<()> {
    is_answer(locks.ask(examiner, tract, access), wanted)
}

/// The same in a parcel.
pub fn asks<G: Guards>(
    locks: &mut G,
    examiner: u32,
    parcel: Parcel,
    access: Access,
    wanted: Result<(), LockFault>,
) -> Result<()> {
    asks_in(locks, examiner, &parcel.tract()?, access, wanted)
}

/// The mode of an examiner in a parcel.
pub fn is_mode<G: Guards>(locks: &G, examiner: u32, parcel: Parcel, wanted: Mode) -> Result<()> {
    let mode = locks.mode(examiner, &parcel.node()?);
    if mode != Some(wanted) {
        bail!("examiner {examiner} has {mode:?} in {parcel}, and not {wanted:?}");
    }
    Ok(())
}

/// How many examiners have each mode in a parcel: IS, IX, S, SIX and X.
pub fn is_counted(locks: &NodeLocks, parcel: Parcel, wanted: [u64; 5]) -> Result<()> {
    let counts = locks.counts(&parcel.node()?);
    if counts != wanted {
        bail!("{counts:?} hold {parcel}, and not {wanted:?}");
    }
    Ok(())
}
