//! Rows that declare.

ghost use Rattle.std.specs.{Prelude.{◌≡◌, ◌≤◌, ◌==◌, ◌⊎◌, ◌&&◌, Ok, Err, IfErr, OnOk, drop, length, take}, List.{list_any}};
ghost use Rattle.std.specs.Str.{bytes_eq};
ghost use Rattle.title_land.specs.Survey.{same_township};
ghost use Rattle.title_plan.specs.declared.fault.ScriptFault.TheVariants as fault;
ghost use Rattle.title_plan.specs.{Asked.{asked_in}, Lands.{land_in}, Onto.{first_of, party_onto, township_onto}};
ghost use Rattle.title_plan.specs.Plans.{with_party, with_township};

use crate::declaring::{add_party, add_township, is_declared, is_full, is_refused};
use crate::fault::ScriptFault;
use crate::lands::{read_tract, said_township};
use crate::onto::Stood;
use crate::plan::Plan;
use title_land::Township;

impl Plan {
    // Declares a township.
    fn declare(&mut self, n: u64, township: Township) -> Result<(), ScriptFault>
        ensures ok { OnOk result (with_township n (asked_in self.old) township ≡ Ok (asked_in self.new)) }
        ensures err { IfErr result (λ e. (e ≡ fault.Memory) ⊎ (with_township n (asked_in self.old) township ≡ Err e)) }
    {
        if is_refused(self.townships.as_slice(), township) {
            return Err(ScriptFault::Row(n));
        }
        if !self.lines.is_empty() {
            return Err(ScriptFault::Order(n));
        }
        Ok(add_township(&mut self.townships, township)?)
    }

    // Whether no step has come yet and a township stood before the script.
    fn is_again(&self, stood: Stood, township: Township) -> bool
        requires stands { stood.townships ≤ length self.now.townships.items }
        ensures again { result ≡ (length (asked_in self.now).lines == 0
            && list_any (λ other. same_township other township) (take stood.townships self.now.townships.items)) }
    {
        self.lines.is_empty()
            && is_declared(&self.townships.as_slice()[..stood.townships], township)
    }

    // Takes a declaration of a township; nothing is done where it declares one that stood before the script.
    pub(super) fn take_township(
        &mut self,
        stood: Stood,
        n: u64,
        text: &str,
    ) -> Result<(), ScriptFault>
        requires stands { stood.townships ≤ length self.old.townships.items }
        ensures ok { OnOk result (township_onto (first_of stood (asked_in self.old)) n (asked_in self.old) (land_in text.now)
            ≡ Ok (asked_in self.new)) }
        ensures err { IfErr result (λ e. (e ≡ fault.Memory)
            ⊎ (township_onto (first_of stood (asked_in self.old)) n (asked_in self.old) (land_in text.now) ≡ Err e)) }
    {
        let Some(township) = said_township(read_tract(self.alloc, text)?) else {
            return Err(ScriptFault::Row(n));
        };
        if self.is_again(stood, township) {
            return Ok(());
        }
        self.declare(n, township)
    }

    // Declares a party.
    fn add_party(&mut self, n: u64, name: &str) -> Result<(), ScriptFault>
        ensures ok { OnOk result (with_party n (asked_in self.old) name.now ≡ Ok (asked_in self.new)) }
        ensures err { IfErr result (λ e. (e ≡ fault.Memory) ⊎ (with_party n (asked_in self.old) name.now ≡ Err e)) }
    {
        if is_full(&self.parties) {
            return Err(ScriptFault::Row(n));
        }
        if !self.lines.is_empty() {
            return Err(ScriptFault::Order(n));
        }
        if !add_party(self.alloc, &mut self.parties, name)? {
            return Err(ScriptFault::Party(n));
        }
        Ok(())
    }

    // Whether a name is that of a party that stood before the script, behind the first.
    fn is_party_of(&self, stood: Stood, name: &str) -> bool
        ensures again { result ≡ list_any (bytes_eq name.now) (drop 1 (take stood.parties (asked_in self.now).names)) }
    {
        if stood.parties <= 1 {
            return false;
        }
        // No name stands twice, which a set says with its length.
        let _parties = self.parties.len();
        match self.parties.get_index_of(name) {
            Some(index) => 0 < index && index < stood.parties,
            None => false,
        }
    }

    // Takes a declaration of a party; nothing is done where it declares one that stood before the script, behind the first.
    pub(super) fn take_party(&mut self, stood: Stood, n: u64, name: &str) -> Result<(), ScriptFault>
        ensures ok { OnOk result (party_onto (first_of stood (asked_in self.old)) n (asked_in self.old) name.now
            ≡ Ok (asked_in self.new)) }
        ensures err { IfErr result (λ e. (e ≡ fault.Memory)
            ⊎ (party_onto (first_of stood (asked_in self.old)) n (asked_in self.old) name.now ≡ Err e)) }
    {
        if self.lines.is_empty() && self.is_party_of(stood, name) {
            return Ok(());
        }
        self.add_party(n, name)
    }
}
