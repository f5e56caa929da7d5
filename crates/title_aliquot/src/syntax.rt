//! What a text says.

ghost use Rattle.std.specs.Prelude.{◌≡◌, ◌<◌, List, [], ◌∷◌, ◌++◌, length, IfOk};
ghost use Rattle.title_aliquot.specs.{Entries.{leading, parts_in, with_step}, Grammar.{whole_section}};
ghost use Rattle.title_land.specs.declared.rectangle.Step.{Step};

use smallvec::SmallVec;
use std::alloc::{AllocError, Global};
use std::marker::Model;
use title_land::Step;

/// An entry of a list of parts.
#[derive(Clone, Copy, Debug, Default, PartialEq, Eq)]
pub enum Entry {
    /// A part begins.
    #[default]
    Part,
    /// The next step of the part that began last.
    Step(Step),
}

/// Parts, each by its steps; a part without steps is the whole section. One list has them all, each part's steps behind
/// the entry that begins it. A list that a text of 28 bytes has room in stands in the value itself.
#[derive(Drop)]
pub struct Parts {
    entries: SmallVec<Entry, 16>,
}

impl Model for Parts {
    ghost Value = { List (List Step) };

    ghost view = { λ p. parts_in p.entries.items };

    ghost invariant = { λ p. leading p.entries.items ≡ [] };
}

impl Parts {
    /// No parts, and room for those of a text of this many bytes: a step has three at least, and each part behind the first
    /// has a comma before it.
    pub fn with_room(alloc: Global, bytes: usize) -> Result<Parts, AllocError>
        ensures none { IfOk result (λ p. p ≡ []) }
    {
        Ok(Parts {
            entries: SmallVec::with_capacity(alloc, bytes / 2 + 2)?,
        })
    }

    /// The one part that is the whole section.
    pub fn whole_section(alloc: Global) -> Result<Parts, AllocError>
        ensures whole { IfOk result (λ p. p ≡ whole_section) }
    {
        let mut parts = Parts::with_room(alloc, 0)?;
        parts.begin()?;
        Ok(parts)
    }

    /// Begins a part.
    #[tactic(auto, using(crate::proofs::Entries::parts_begun, crate::proofs::Entries::leading_begun))]
    pub fn begin(&mut self) -> Result<(), AllocError>
        ensures begun { IfOk result (λ u. self.new ≡ self.old ++ [] ∷ []) }
    {
        self.entries.push(Entry::Part)?;
        Ok(())
    }

    /// Adds a step to the part that began last.
    #[tactic(auto, using(crate::proofs::Entries::parts_pushed, crate::proofs::Entries::leading_pushed))]
    pub fn push(&mut self, step: Step) -> Result<(), AllocError>
        requires begun { 0 < length self.old }
        ensures pushed { IfOk result (λ u. self.new ≡ with_step self.old step) }
    {
        self.entries.push(Entry::Step(step))?;
        Ok(())
    }

    /// The entries of the list.
    pub fn entries(&self) -> &[Entry]
        ensures parts { parts_in result.now ≡ self.now }
        ensures begun { leading result.now ≡ [] }
    {
        self.entries.as_slice()
    }
}

/// A section's number and its parts.
#[derive(Drop)]
pub struct SectionWords {
    pub number: u8,
    pub parts: Parts,
}

/// A township's numbers, and a section of it where one is named. A number of 100 stands for that or any above.
#[derive(Drop)]
pub struct LandWords {
    pub township: u8,
    pub north: bool,
    pub range: u8,
    pub east: bool,
    pub section: Option<SectionWords>,
}

/// What a text says.
#[derive(Drop)]
pub enum Words {
    Everything,
    Land(LandWords),
}
