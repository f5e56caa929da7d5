//! What stands before a script.

ghost use Rattle.std.specs.Prelude.{◌≡◌, ◌≤◌, IfOk, length, true};
ghost use Rattle.indexmap.specs.IndexSet.{index_set_len};
ghost use Rattle.title_chain.specs.Alone.{most_parties};
ghost use Rattle.title_trace.specs.Due.{most_townships};
ghost use Rattle.title_plan.specs.Townships.{each_once};

use crate::declaring::FIRST_PARTY;
use indexmap::IndexSet;
use std::alloc::{AllocError, Global};
use title_land::Township;

/// What stands before a script: townships, each once, and parties, who have their numbers as indices. Party 0 is UNITED STATES:
/// the one that no script may declare.
#[derive(Drop)]
pub struct Declared {
    pub townships: Vec<Township>,
    pub parties: IndexSet<String>,
    ghost some: { 1 ≤ index_set_len parties },
    ghost few: { index_set_len parties ≤ most_parties },
    ghost few_townships: { length townships.items ≤ most_townships },
    ghost once: { each_once townships.items ≡ true },
}

impl Declared {
    ghost use Rattle.title_plan.specs.Onto.{before_in, nothing_before};

    /// UNITED STATES alone, and no township.
    pub fn nothing(alloc: Global) -> Result<Declared, AllocError>
        ensures nothing { IfOk result (λ declared. before_in declared ≡ nothing_before) }
    {
        let mut parties = IndexSet::new(alloc);
        let name = String::from_str(alloc, FIRST_PARTY)?;
        parties.insert(name)?;
        Ok(Declared {
            townships: Vec::new(alloc),
            parties,
        })
    }
}

/// How many of a plan's townships and parties, its first ones, stood before its script.
#[derive(Clone, Copy, Debug)]
pub(crate) struct Stood {
    pub townships: usize,
    pub parties: usize,
}

impl Stood {
    /// None that a row could declare again.
    pub(crate) const NONE: Stood = Stood {
        townships: 0,
        parties: 0,
    };

    /// All that is declared.
    pub(crate) fn all(declared: &Declared) -> Stood
        ensures townships { result.townships ≡ length declared.now.townships.items }
        ensures parties { result.parties ≡ index_set_len declared.now.parties }
    {
        Stood {
            townships: declared.townships.len(),
            parties: declared.parties.len(),
        }
    }
}
