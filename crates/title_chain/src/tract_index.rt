//! The tract index.

ghost use Rattle.std.specs.Prelude.{◌≡◌, ◌∷◌, ◌++◌, [], IfOk, OnOk, IsOk, length, reverse, true};
ghost use Rattle.title_land.specs.Depth.{depth};
ghost use Rattle.title_chain.specs.Chains.{chain_of};

use crate::filing::Filing;
use crate::lists::Entries;
use crate::own_steps::OwnSteps;
use crate::record::Record;
use std::alloc::{AllocError, Global};
use std::marker::Model;
use title_land::Tract;

/// Committed transactions in the order of their commits, with an index of their posts by the nodes of their tracts' covers,
/// which is brought up to date when a chain is asked for. The place of a record is its number in the list, from 1.
#[derive(Debug)]
pub struct TractIndex {
    alloc: Global,
    records: Vec<Record>,
    filing: Filing,
}

// By hand, so that whoever lets one go sees one call.
impl Drop for TractIndex {
    fn drop(self) {
        let TractIndex {
            alloc: _,
            records,
            filing,
        } = self;
        drop(records);
        drop(filing);
    }
}

impl Model for TractIndex {
    ghost use Rattle.title_land.specs.Depth.{depth};
    ghost use Rattle.std.specs.Prelude.{nat_lt, vec_len, vec_capacity};
    ghost use Rattle.title_chain.specs.TractIndexes.{Recorded, IsReadFrom};

    ghost Value = { Recorded };

    ghost view = { λ t. record { records = t.records.items; has_room = nat_lt (vec_len t.records) (vec_capacity t.records) } };

    ghost invariant = { λ t. IsReadFrom depth t.filing t.records.items };
}

impl TractIndex {
    /// No record yet; takes no memory.
    pub fn new(alloc: Global) -> TractIndex
        ensures new { result.records ≡ [] }
    {
        TractIndex {
            alloc,
            records: Vec::new(alloc),
            filing: Filing::new(alloc),
        }
    }

    /// Makes room so that the next record takes no memory. An error changes nothing, and there is none where there was room.
    pub fn reserve(&mut self) -> Result<(), AllocError>
        ensures records { self.new.records ≡ self.old.records }
        ensures room { OnOk result (self.new.has_room ≡ true) }
        ensures had_room { self.old.has_room ≡ true → IsOk result }
    {
        self.records.reserve(1)
    }

    /// Adds a record, for which there is room.
    pub fn push_reserved(&mut self, committed: Record)
        requires room { self.old.has_room ≡ true }
        ensures records { self.new.records ≡ self.old.records ++ committed ∷ [] }
    {
        self.records.push_reserved(committed);
    }

    /// How many records there are.
    pub fn len(&self) -> usize
        ensures len { result ≡ length self.now.records }
    {
        self.records.len()
    }

    /// The records, in order.
    pub fn as_slice(&self) -> &[Record]
        ensures slice { result.now ≡ self.now.records }
    {
        self.records.as_slice()
    }

    /// The chain of a tract, as `chain` gives it: the entries of these records, then those of a transaction's own steps. It
    /// looks at the posts that share a cell with the tract and at no others.
    pub fn chain(&mut self, own: &mut OwnSteps, tract: &Tract) -> Result<Entries, AllocError>
        ensures records { self.new.records ≡ self.old.records }
        ensures room { self.new.has_room ≡ self.old.has_room }
        ensures own { own.new ≡ own.old }
        ensures chain { IfOk result (λ entries. entries ≡ chain_of (reverse self.old.records) (reverse own.old.steps) tract.now) }
    {
        self.filing.read_on(self.alloc, &self.records)?;
        let mut entries = Vec::new(self.alloc);
        // The spots are let go last, so that the chain's own memory isn't taken from theirs, which then serves the next chain's.
        let _spots = self
            .filing
            .add_entries(self.alloc, &mut entries, &self.records, tract)?;
        own.add_entries(self.alloc, &mut entries, tract)?;
        Entries::new(entries)
    }
}
