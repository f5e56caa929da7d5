//! The parts of an ask, and the step and the lock that are made of it.

ghost use Rattle.std.specs.Prelude.{◌≡◌, ◌∷◌, IfOk, Some};
ghost use Rattle.title_lock.specs.Overlaps.{is_post as is_post_access};
ghost use Rattle.title_desk.specs.Told.{access_of, entry_of};
ghost use Rattle.title_chain.specs.Asks.{tract_of, is_post, cause_of};

use std::alloc::{AllocError, Global};
use title_chain::{Answer, Ask, Step};
use title_instrument::Cause;
use title_land::Tract;
use title_lock::{Access, Guards};

/// The tract of an ask.
pub(crate) fn tract_in(ask: &Ask) -> &Tract
    ensures tract { result.now ≡ tract_of ask.now }
{
    match ask {
        Ask::Sheet(tract) | Ask::Chain(tract) => tract,
        Ask::Post(posting) => &posting.terms().tract,
    }
}

/// What an ask wants of its tract.
pub(crate) fn access_in(ask: &Ask) -> Access
    ensures access { is_post_access result ≡ is_post ask.now }
    ensures is { result ≡ access_of ask.now }
{
    match ask {
        Ask::Sheet(_) | Ask::Chain(_) => Access::Read,
        Ask::Post(_) => Access::Post,
    }
}

/// Why an ask can't stand among so many parties, if it can't.
pub(crate) fn cause_in(ask: &Ask, parties: u32) -> Option<Cause>
    ensures cause { result ≡ cause_of parties ask.now }
{
    match ask {
        Ask::Sheet(_) | Ask::Chain(_) => None,
        Ask::Post(posting) => posting.terms().instrument.check(parties).err(),
    }
}

/// An answered step to keep, whose ask and answer are copies.
pub(crate) fn step_of(alloc: Global, ask: &Ask, answer: &Answer) -> Result<Step, AllocError>
    ensures step { IfOk result (λ step. step ≡ record { ask = ask.now; answer = answer.now }) }
{
    let answer = answer.copy()?;
    let ask = ask.copy(alloc)?;
    Ok(Step { ask, answer })
}

/// Grants an examiner the lock of its step, which is prepared.
pub(crate) fn lock<G: Guards>(guards: &mut G, examiner: u32, ask: &Ask)
    requires prepared { G.prepared guards.old ≡ Some (entry_of examiner ask.now) }
    ensures locked { G.entries guards.new ≡ entry_of examiner ask.now ∷ G.entries guards.old }
{
    let access = access_in(ask);
    guards.grant(examiner, tract_in(ask), access);
}
