//! What stands in a plant's file.

ghost use Rattle.std.specs.Prelude.{◌≡◌, ◌≤◌, IfErr, IfOk, OnOk, Some, length, true};
ghost use Rattle.indexmap.specs.IndexSet.{index_set_len};
ghost use Rattle.title_chain.specs.Alone.{most_parties};
ghost use Rattle.title_plan.specs.Townships.{each_once};
ghost use Rattle.title_trace.specs.Due.{most_townships};

use crate::fault::PlantFault;
use indexmap::IndexSet;
use std::alloc::{AllocError, Global};
use title_land::Township;
use title_plan::{Declared, add_party, add_township, is_full, is_refused};
use title_standing::Deeds;

/// What stands in a plant's file: its townships, each once; its parties, who have their numbers as indices, UNITED STATES being 0;
/// and the deeds of its transactions, the oldest first.
#[derive(Drop)]
pub struct Standing {
    pub townships: Vec<Township>,
    pub parties: IndexSet<String>,
    pub deeds: Vec<Deeds>,
    ghost some: { 1 ≤ index_set_len parties },
    ghost few: { index_set_len parties ≤ most_parties },
    ghost few_townships: { length townships.items ≤ most_townships },
    ghost once: { each_once townships.items ≡ true },
}

impl Standing {
    ghost use Rattle.title_daybook.specs.{Books.{standing_of, IsFaultAt}, KeptRows.{after_party, between, with_record, with_township}};
    ghost use Rattle.title_daybook.specs.Standing.{nothing_standing};
    ghost use Rattle.title_standing.specs.Records.{record_of};

    /// UNITED STATES as party 0, and nothing else: what stands in a new file.
    pub fn nothing(alloc: Global) -> Result<Standing, AllocError>
        ensures nothing { IfOk result (λ s. standing_of s ≡ nothing_standing) }
    {
        let Declared { townships, parties } = Declared::nothing(alloc)?;
        Ok(Standing {
            townships,
            parties,
            deeds: Vec::new(alloc),
        })
    }

    // The n-th row declares a township.
    pub(crate) fn add_township(&mut self, n: usize, township: Township) -> Result<(), PlantFault>
        ensures ok { OnOk result (with_township (standing_of self.old) township ≡ Some (between (standing_of self.new))) }
        ensures err { IfErr result (IsFaultAt n (with_township (standing_of self.old) township)) }
    {
        if is_refused(self.townships.as_slice(), township) {
            return Err(PlantFault::Row(n));
        }
        Ok(add_township(&mut self.townships, township)?)
    }

    // The n-th row declares a party.
    pub(crate) fn add_party(
        &mut self,
        alloc: Global,
        n: usize,
        name: &str,
    ) -> Result<(), PlantFault>
        ensures ok { OnOk result (after_party (standing_of self.old) name.now ≡ Some (between (standing_of self.new))) }
        ensures err { IfErr result (IsFaultAt n (after_party (standing_of self.old) name.now)) }
    {
        if is_full(&self.parties) {
            return Err(PlantFault::Row(n));
        }
        if !add_party(alloc, &mut self.parties, name)? {
            return Err(PlantFault::Row(n));
        }
        Ok(())
    }

    // A transaction has ended with these deeds.
    pub(crate) fn add_record(&mut self, deeds: Deeds) -> Result<(), AllocError>
        ensures added { OnOk result (with_record (standing_of self.old) (record_of deeds) ≡ between (standing_of self.new)) }
    {
        Ok(self.deeds.push(deeds)?)
    }
}
