//! The steps of an open transaction.

ghost use Rattle.std.specs.Prelude.{◌≡◌, ◌∷◌, ◌++◌, [], OnOk, length, reverse, true};
ghost use Rattle.title_land.specs.Depth.{depth};
ghost use Rattle.title_chain.specs.StepEntries.{step_entries};

use crate::ask::{Entry, Step};
use crate::filing::Filing;
use crate::lists::Steps;
use std::alloc::{AllocError, Global};
use std::marker::Model;
use title_land::Tract;

/// The steps of an open transaction, the oldest first, with an index of its posts by the nodes of their tracts' covers,
/// which is brought up to date when a chain is asked for.
#[derive(Debug)]
pub struct OwnSteps {
    steps: Vec<Step>,
    filing: Filing,
}

// By hand, so that whoever lets one go sees one call.
impl Drop for OwnSteps {
    fn drop(self) {
        let OwnSteps { steps, filing } = self;
        drop(steps);
        drop(filing);
    }
}

impl Model for OwnSteps {
    ghost use Rattle.title_land.specs.Depth.{depth};
    ghost use Rattle.std.specs.Prelude.{nat_lt, vec_len, vec_capacity};
    ghost use Rattle.title_chain.specs.TractIndexes.{Owned, AreReadFrom};

    ghost Value = { Owned };

    ghost view = { λ t. record { steps = t.steps.items; has_room = nat_lt (vec_len t.steps) (vec_capacity t.steps) } };

    ghost invariant = { λ t. AreReadFrom depth t.filing t.steps.items };
}

impl OwnSteps {
    /// No step yet; takes no memory.
    pub fn new(alloc: Global) -> OwnSteps
        ensures new { result.steps ≡ [] }
    {
        OwnSteps {
            steps: Vec::new(alloc),
            filing: Filing::new(alloc),
        }
    }

    /// Makes room so that the next step takes no memory. An error changes no step.
    pub fn reserve(&mut self) -> Result<(), AllocError>
        ensures steps { self.new.steps ≡ self.old.steps }
        ensures room { OnOk result (self.new.has_room ≡ true) }
    {
        self.steps.reserve(1)
    }

    /// Adds a step, for which there is room.
    pub fn push_reserved(&mut self, step: Step)
        requires room { self.old.has_room ≡ true }
        ensures steps { self.new.steps ≡ self.old.steps ++ step ∷ [] }
    {
        self.steps.push_reserved(step);
    }

    /// How many steps there are.
    pub fn len(&self) -> usize
        ensures len { result ≡ length self.now.steps }
    {
        self.steps.len()
    }

    /// The steps, in order.
    pub fn as_slice(&self) -> &[Step]
        ensures slice { result.now ≡ self.now.steps }
    {
        self.steps.as_slice()
    }

    /// The steps as those of a record, without spare room; takes no memory.
    pub fn into_steps(self) -> Steps
        ensures steps { result ≡ self.steps }
    {
        let OwnSteps {
            mut steps,
            filing: _,
        } = self;
        steps.shrink_to_fit();
        Steps::new(steps)
    }

    /// Adds the entries of these steps, each with place 0, to the chain of a tract.
    pub(crate) fn add_entries(
        &mut self,
        alloc: Global,
        entries: &mut Vec<Entry>,
        tract: &Tract,
    ) -> Result<(), AllocError>
        ensures own { self.new ≡ self.old }
        ensures added { OnOk result (entries.new.items ≡ entries.old.items ++ step_entries 0 tract.now (reverse self.old.steps)) }
    {
        if self.steps.is_empty() {
            return Ok(());
        }
        self.filing.read_on_own(alloc, &self.steps)?;
        self.filing
            .add_own_entries(alloc, entries, &self.steps, tract)
    }
}
