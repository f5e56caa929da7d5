//! The townships of a plant, found by their numbers.

ghost use Rattle.std.specs.{Prelude.{◌≡◌, ◌≤◌, ◌<◌, ◌+◌, length, get_or, IfOk}, List.{list_any}};
ghost use Rattle.title_land.specs.{declared.survey.Township.{Township}, Survey.{same_township}};
ghost use Rattle.title_tree_store.specs.{Spots.{index_of}, TownshipTable.{number_of, AreIndexed}};

use std::alloc::{AllocError, Global};
use std::marker::Model;
use title_land::Township;

/// The townships of a plant in their order, with a table of their indices. A contract sees the list.
#[derive(Drop)]
pub(crate) struct Townships {
    list: Vec<Township>,
    // The index of each township by its number; how many there are where it isn't one of them.
    indices: Vec<u16>,
}

impl Model for Townships {
    ghost use Rattle.std.specs.Prelude.{List};
    ghost use Rattle.title_land.specs.declared.survey.Township.{Township};
    ghost use Rattle.title_tree_store.specs.TownshipTable.{AreIndexed};

    ghost Value = { List Township };

    ghost view = { λ t. t.list.items };

    ghost invariant = { λ t. AreIndexed t.indices.items t.list.items };
}

// The number of a township among all that there can be.
fn number_of(township: Township) -> usize
    ensures number { result ≡ number_of township }
    ensures below { result < 40000 }
{
    let side = if township.north { 100 } else { 0 };
    let hand = if township.east { 100 } else { 0 };
    (side + usize::from(township.number)) * 200 + hand + usize::from(township.range)
}

// How many numbers there are.
fn count() -> usize
    ensures enough { 40000 ≤ result }
{
    40_000
}

// Gives townships the indices from one on, in a table that has the index after the last for each.
fn fill(indices: &mut Vec<u16>, from: usize, townships: &[Township])
    requires long { 40000 ≤ length indices.old.items }
    requires fits { from + length townships.now < 65536 }
    requires none { (t : Township) → get_or indices.old.items (number_of t) 0 ≡ from + length townships.now }
    ensures long { length indices.new.items ≡ length indices.old.items }
    ensures indexed { (t : Township) → get_or indices.new.items (number_of t) 0 ≡ from + index_of townships.now t }
{
    if let Some((first, rest)) = townships.split_first() {
        fill(indices, from + 1, rest);
        indices[number_of(*first)] = from as u16;
    }
}

// The table of some townships.
fn table(alloc: Global, townships: &[Township]) -> Result<Vec<u16>, AllocError>
    ensures indexed { IfOk result (λ indices. AreIndexed indices.items townships.now) }
{
    if townships.len() > 65_535 {
        return Err(AllocError);
    }
    let mut indices = vec![in alloc; townships.len() as u16; count()]?;
    fill(&mut indices, 0, townships);
    Ok(indices)
}

impl Townships {
    /// These townships.
    pub(crate) fn new(alloc: Global, townships: &[Township]) -> Result<Townships, AllocError>
        ensures list { IfOk result (λ t. t ≡ townships.now) }
    {
        let list = Vec::from_slice(alloc, townships)?;
        let indices = table(alloc, townships)?;
        Ok(Townships { list, indices })
    }

    /// All of them in their order.
    pub(crate) fn list(&self) -> &[Township]
        ensures list { result.now ≡ self.now }
    {
        &self.list
    }

    /// The index of a township; how many there are where it isn't one of them. Found by its number.
    pub(crate) fn index_of(&self, township: Township) -> u16
        ensures index { result ≡ index_of self.now township }
    {
        self.indices[number_of(township)]
    }

    /// Whether a township is one of them. Found by its number.
    #[tactic(auto, using(crate::proofs::CellPaths::index_told))]
    pub(crate) fn holds(&self, township: Township) -> bool
        ensures holds { result ≡ list_any (same_township township) self.now }
    {
        (self.index_of(township) as usize) < self.list.len()
    }
}
