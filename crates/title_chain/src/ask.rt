//! Asks and answers.

ghost use Rattle.std.specs.Prelude.{◌≡◌, IfOk};

use crate::lists::{Entries, SheetRows};
use std::alloc::{AllocError, Global};
use std::marker::Model;
use std::sync::Arc;
use title_instrument::{Estate, Instrument, Rule};
use title_land::{Node, Tract};

/// The terms of a posting: its document number, its tract and what it does.
#[derive(Debug, Drop)]
pub struct Terms {
    pub doc: u64,
    pub tract: Tract,
    pub instrument: Instrument,
}

/// An instrument as it is posted. A contract sees it as its terms. Copies share them.
#[derive(Debug)]
pub struct Posting {
    shared: Arc<Terms>,
}

// By hand, so that whoever lets one go sees one call.
impl Drop for Posting {
    fn drop(self) {
        let Posting { shared } = self;
        drop(shared);
    }
}

impl Model for Posting {
    ghost use Rattle.std.specs.Arc.{arc_value};
    ghost use Rattle.title_chain.specs.declared.ask.Terms.{Terms};

    ghost Value = { Terms };

    ghost view = { λ p. arc_value p.shared };
}

/// One step of a transaction: the sheet of a tract, the chain of a tract, or a post.
#[derive(Debug, Drop)]
pub enum Ask {
    Sheet(Tract),
    Chain(Tract),
    Post(Posting),
}

/// One row of a chain: a posted instrument with the place of its record, from 1; 0 for the transaction's own.
#[derive(Debug, Drop)]
pub struct Entry {
    pub place: u64,
    pub posting: Posting,
}

/// What an ask is answered: rows of a sheet, entries of a chain, or what came of a post. A refused post names the rule,
/// the estate and the node of the tract's cover in which the first failing cell lies.
#[derive(Debug, Drop)]
pub enum Answer {
    Rows(SheetRows),
    Entries(Entries),
    Posted,
    Refused(Rule, Estate, Node),
}

/// An ask with its answer.
#[derive(Debug, Drop)]
pub struct Step {
    pub ask: Ask,
    pub answer: Answer,
}

impl Posting {
    /// The posting with these terms.
    pub fn new(alloc: Global, terms: Terms) -> Result<Posting, AllocError>
        ensures new { IfOk result (λ posting. posting ≡ terms) }
    {
        let shared = Arc::new(alloc, terms)?;
        Ok(Posting { shared })
    }

    /// Its terms.
    pub fn terms(&self) -> &Terms
        ensures terms { result.now ≡ self.now }
    {
        &self.shared
    }

    /// An equal posting, which shares its terms. Takes no memory; refused only where 2^63 - 1 copies live.
    pub fn copy(&self, _alloc: Global) -> Result<Posting, AllocError>
        ensures copy { IfOk result (λ posting. posting ≡ self.now) }
    {
        let shared = self.shared.clone()?;
        Ok(Posting { shared })
    }
}

impl Ask {
    /// An equal ask.
    pub fn copy(&self, alloc: Global) -> Result<Ask, AllocError>
        ensures copy { IfOk result (λ ask. ask ≡ self.now) }
    {
        Ok(match self {
            Ask::Sheet(tract) => Ask::Sheet(tract.copy(alloc)?),
            Ask::Chain(tract) => Ask::Chain(tract.copy(alloc)?),
            Ask::Post(posting) => Ask::Post(posting.copy(alloc)?),
        })
    }
}

impl Entry {
    /// An equal entry.
    pub fn copy(&self, alloc: Global) -> Result<Entry, AllocError>
        ensures copy { IfOk result (λ entry. entry ≡ self.now) }
    {
        Ok(Entry {
            place: self.place,
            posting: self.posting.copy(alloc)?,
        })
    }
}

impl Answer {
    /// An equal answer, which shares its list. Takes no memory; refused only where 2^63 - 1 copies live.
    pub fn copy(&self) -> Result<Answer, AllocError>
        ensures copy { IfOk result (λ answer. answer ≡ self.now) }
    {
        Ok(match self {
            Answer::Rows(rows) => Answer::Rows(rows.copy()?),
            Answer::Entries(entries) => Answer::Entries(entries.copy()?),
            Answer::Posted => Answer::Posted,
            Answer::Refused(rule, estate, node) => Answer::Refused(*rule, *estate, *node),
        })
    }
}

impl Step {
    /// An equal step.
    pub fn copy(&self, alloc: Global) -> Result<Step, AllocError>
        ensures copy { IfOk result (λ step. step ≡ self.now) }
    {
        Ok(Step {
            ask: self.ask.copy(alloc)?,
            answer: self.answer.copy()?,
        })
    }
}
