//! The open transactions.

ghost use Rattle.std.specs.Prelude.{◌≡◌, ℕ, IfErr, IfOk, OnErr, OnOk, Some, None, is_some, [], reverse, true};
ghost use Rattle.title_chain.specs.Chains.{chain_of};
ghost use Rattle.title_desk.specs.Opened.{IsFirst, found, held, nothing, set, with_post, with_step};

use std::alloc::{AllocError, Global};
use std::collections::BTreeMap;
use std::marker::Model;
use title_chain::{Entries, OwnSteps, Step, TractIndex};
use title_land::Tract;
use title_store::Store;

/// What an examiner has open: its steps and the before-images of its posts, each the oldest first.
#[derive(Drop)]
pub struct Transaction<S: Store> {
    pub steps: OwnSteps,
    pub images: Vec<S::Image>,
}

impl<S: Store> Model for Transaction<S> {
    ghost use Rattle.std.specs.Prelude.{map, reverse};
    ghost use Rattle.title_desk.specs.Opened.{Opened};

    ghost Value = { Opened };

    ghost view = { λ t. record { steps = reverse t.steps.steps; images = map S.number (reverse t.images.items) } };
}

impl<S: Store> Transaction<S> {
    // Adds a step that posted nothing; an error changes nothing.
    #[tactic(auto, using(crate::proofs::Found::newest))]
    fn add_step(&mut self, step: Step) -> Result<(), AllocError>
        ensures added { OnOk result (self.new ≡ with_step step self.old) }
        ensures err { OnErr result (self.new ≡ self.old) }
    {
        self.steps.reserve()?;
        self.steps.push_reserved(step);
        Ok(())
    }

    // Adds a post that was done; or gives its image back and changes nothing.
    #[tactic(auto, using(crate::proofs::Found::newest, crate::proofs::Found::newest_number))]
    fn add_post(&mut self, step: Step, image: S::Image) -> Result<(), S::Image>
        ensures added { OnOk result (self.new ≡ with_post step (S.number image) self.old) }
        ensures err { OnErr result (self.new ≡ self.old) }
        ensures back { IfErr result (λ back. back ≡ image) }
    {
        if self.images.reserve(1).is_err() {
            return Err(image);
        }
        if self.steps.reserve().is_err() {
            return Err(image);
        }
        self.steps.push_reserved(step);
        self.images.push_reserved(image);
        Ok(())
    }
}

/// The transactions that are open. A contract sees what each examiner has open.
#[derive(Drop)]
pub struct OpenTransactions<S: Store> {
    alloc: Global,
    by_examiner: BTreeMap<u32, Transaction<S>>,
}

impl<S: Store> Model for OpenTransactions<S> {
    ghost use Rattle.std.specs.Prelude.{List, ℕ};
    ghost use Rattle.title_desk.specs.Opened.{Opened};

    ghost Value = { List (ℕ × Opened) };

    ghost view = { λ t. t.by_examiner.entries };
}

impl<S: Store> OpenTransactions<S> {
    /// None is open; takes no memory.
    pub(crate) fn new(alloc: Global) -> OpenTransactions<S>
        ensures new { result ≡ [] }
    {
        OpenTransactions {
            alloc,
            by_examiner: BTreeMap::new(alloc),
        }
    }

    /// Whether none is open.
    pub(crate) fn is_empty(&self) -> bool
        ensures empty { result ≡ true → self.now ≡ [] }
        ensures some { self.now ≡ [] → result ≡ true }
    {
        self.by_examiner.is_empty()
    }

    /// Whether an examiner has one open.
    pub(crate) fn contains(&self, examiner: u32) -> bool
        ensures found { result ≡ is_some (found self.now examiner) }
    {
        self.by_examiner.contains_key(&examiner)
    }

    /// The least examiner that has one open.
    pub(crate) fn first(&self) -> Option<u32>
        ensures first { IsFirst (λ e. is_some (found self.now e)) result }
    {
        let (examiner, _) = self.by_examiner.first_key_value()?;
        Some(*examiner)
    }

    /// The steps that an examiner has, the oldest first; none where it has none open.
    pub(crate) fn steps(&self, examiner: u32) -> &[Step]
        ensures steps { reverse result.now ≡ (held (found self.now examiner)).steps }
    {
        match self.by_examiner.get(&examiner) {
            Some(transaction) => transaction.steps.as_slice(),
            None => &[],
        }
    }

    /// Opens one, with nothing in it.
    pub(crate) fn begin(&mut self, examiner: u32) -> Result<(), AllocError>
        ensures begun { OnOk result (found self.new ≡ set examiner (Some nothing) (found self.old)) }
        ensures err { OnErr result (self.new ≡ self.old) }
    {
        let transaction = Transaction {
            steps: OwnSteps::new(self.alloc),
            images: Vec::new(self.alloc),
        };
        self.by_examiner.insert(examiner, transaction)?;
        Ok(())
    }

    /// Takes an examiner's out.
    pub(crate) fn take(&mut self, examiner: u32) -> Transaction<S>
        requires opened { is_some (found self.old examiner) ≡ true }
        ensures taken { result ≡ held (found self.old examiner) }
        ensures left { found self.new ≡ set examiner None (found self.old) }
    {
        let Some(transaction) = self.by_examiner.remove(&examiner) else {
            unreachable!()
        };
        transaction
    }

    /// Adds a step that posted nothing to an examiner's; an error changes nothing.
    pub(crate) fn add_step(&mut self, examiner: u32, step: Step) -> Result<(), AllocError>
        requires opened { is_some (found self.old examiner) ≡ true }
        ensures added { OnOk result (found self.new
            ≡ set examiner (Some (with_step step (held (found self.old examiner)))) (found self.old)) }
        ensures err { OnErr result (found self.new ≡ found self.old) }
    {
        let Some(transaction) = self.by_examiner.get_mut(&examiner) else {
            unreachable!()
        };
        transaction.add_step(step)
    }

    /// Adds a post that was done to an examiner's; or gives its image back and changes nothing.
    pub(crate) fn add_post(
        &mut self,
        examiner: u32,
        step: Step,
        image: S::Image,
    ) -> Result<(), S::Image>
        requires opened { is_some (found self.old examiner) ≡ true }
        ensures added { OnOk result (found self.new
            ≡ set examiner (Some (with_post step (S.number image) (held (found self.old examiner)))) (found self.old)) }
        ensures err { OnErr result (found self.new ≡ found self.old) }
        ensures back { IfErr result (λ back. back ≡ image) }
    {
        let Some(transaction) = self.by_examiner.get_mut(&examiner) else {
            unreachable!()
        };
        transaction.add_post(step, image)
    }

    /// The chain of a tract for an examiner: the entries of these records, then those of its own steps, of which it has none
    /// where it has none open.
    pub(crate) fn chain(
        &mut self,
        records: &mut TractIndex,
        examiner: u32,
        tract: &Tract,
    ) -> Result<Entries, AllocError>
        ensures records { records.new.records ≡ records.old.records }
        ensures room { records.new.has_room ≡ records.old.has_room }
        ensures same { found self.new ≡ found self.old }
        ensures chain { IfOk result (λ entries. entries
            ≡ chain_of (reverse records.old.records) (held (found self.old examiner)).steps tract.now) }
    {
        let Some(transaction) = self.by_examiner.get_mut(&examiner) else {
            let mut none = OwnSteps::new(self.alloc);
            return records.chain(&mut none, tract);
        };
        records.chain(&mut transaction.steps, tract)
    }
}
