//! What the rows of a script declare and ask for.

ghost use Rattle.std.specs.Prelude.{◌≡◌, ◌≤◌, ◌⊎◌, Ok, Err, IfErr, IfOk, OnOk, length, true};
ghost use Rattle.csv.specs.Records.{fields_of};
ghost use Rattle.indexmap.specs.IndexSet.{index_set_len};
ghost use Rattle.title_plan.specs.declared.fault.ScriptFault.TheVariants as fault;
ghost use Rattle.title_chain.specs.Alone.{most_parties};
ghost use Rattle.title_trace.specs.Due.{most_townships};
ghost use Rattle.title_plan.specs.{Limits.{most_rows}, Rows.{done, said}, Townships.{each_once}};

use crate::fault::ScriptFault;
use crate::line::{Line, Schedule};
use crate::onto::{Declared, Stood};
use crate::readings::Readings;
use crate::row::{Act, Row, read_row};
use csv::{ByteRecord, StringRecord};
use indexmap::IndexSet;
use std::alloc::{AllocError, Global};
use std::collections::VecDeque;
use title_land::Township;

mod declarations;
mod steps;
mod turns;

use turns::is_beyond;

/// The most rows of a script.
pub const ROWS: u64 = 100_000;

/// What the rows of a script declare and ask for. The parties have their numbers as indices, UNITED STATES being 0; the
/// steps stand in order; `inside` are the examiners whose transactions are open, none where these are interleaved.
#[derive(Drop)]
pub struct Plan {
    alloc: Global,
    pub parties: IndexSet<String>,
    pub townships: Vec<Township>,
    pub lines: VecDeque<Line>,
    pub inside: Vec<u32>,
    ghost some: { 1 ≤ index_set_len parties },
    ghost few: { index_set_len parties ≤ most_parties },
    ghost few_townships: { length townships.items ≤ most_townships },
    ghost once: { each_once townships.items ≡ true },
}

impl Plan {
    ghost use Rattle.title_plan.specs.{Asked.{asked_in, nothing_asked}, Plans.{after_row, after_step_row}};
    ghost use Rattle.title_plan.specs.Onto.{after_row_onto, after_said_onto, asked_on, before_in, first_of};

    /// What is declared, and no step. Takes no memory.
    pub(crate) fn onto(alloc: Global, declared: Declared) -> Plan
        ensures asked { asked_in result ≡ asked_on (before_in declared) }
    {
        let Declared { townships, parties } = declared;
        Plan {
            alloc,
            parties,
            townships,
            lines: VecDeque::new(alloc),
            inside: Vec::new(alloc),
        }
    }

    /// Nothing but UNITED STATES as party 0.
    pub fn new(alloc: Global) -> Result<Plan, AllocError>
        ensures nothing { IfOk result (λ plan. asked_in plan ≡ nothing_asked) }
    {
        Ok(Plan::onto(alloc, Declared::nothing(alloc)?))
    }

    // Takes a step of an examiner in the n-th row, where the office has that examiner and the step is in its turn.
    fn take_step(
        &mut self,
        readings: &mut Readings,
        schedule: Schedule,
        n: u64,
        examiner: u32,
        act: &Act<&str>,
    ) -> Result<(), ScriptFault>
        ensures ok { OnOk result (after_step_row schedule n (asked_in self.old) examiner (done act.now) ≡ Ok (asked_in self.new)) }
        ensures err { IfErr result (λ e. (e ≡ fault.Memory)
            ⊎ (after_step_row schedule n (asked_in self.old) examiner (done act.now) ≡ Err e)) }
    {
        if is_beyond(schedule, examiner) {
            return Err(ScriptFault::Row(n));
        }
        if self.is_out_of_turn(schedule, examiner, act) {
            return Err(ScriptFault::Order(n));
        }
        self.take_act(readings, schedule, n, examiner, act)
    }

    // Takes what the n-th row says, on top of what stood before the script.
    fn take_said(
        &mut self,
        stood: Stood,
        readings: &mut Readings,
        schedule: Schedule,
        n: u64,
        row: &Row<&str>,
    ) -> Result<(), ScriptFault>
        requires stands { stood.townships ≤ length self.old.townships.items }
        ensures ok { OnOk result (after_said_onto schedule (first_of stood (asked_in self.old)) n (asked_in self.old) (said row.now)
            ≡ Ok (asked_in self.new)) }
        ensures err { IfErr result (λ e. (e ≡ fault.Memory)
            ⊎ (after_said_onto schedule (first_of stood (asked_in self.old)) n (asked_in self.old) (said row.now) ≡ Err e)) }
    {
        match *row {
            Row::Township(text) => self.take_township(stood, n, text),
            Row::Party(name) => self.take_party(stood, n, name),
            Row::Step(examiner, ref act) => self.take_step(readings, schedule, n, examiner, act),
        }
    }

    // Takes the n-th row, as `take_row` does, on top of what stood before the script and with the descriptions that were read
    // before the row. Gives the record back.
    pub(crate) fn take_record(
        &mut self,
        stood: Stood,
        readings: &mut Readings,
        schedule: Schedule,
        n: u64,
        raw: ByteRecord,
    ) -> Result<ByteRecord, ScriptFault>
        requires stands { stood.townships ≤ length self.old.townships.items }
        ensures ok { OnOk result (after_row_onto schedule (first_of stood (asked_in self.old)) n (asked_in self.old) (fields_of raw)
            ≡ Ok (asked_in self.new)) }
        ensures within { OnOk result (n ≤ most_rows) }
        ensures err { IfErr result (λ e. (e ≡ fault.Memory)
            ⊎ (after_row_onto schedule (first_of stood (asked_in self.old)) n (asked_in self.old) (fields_of raw) ≡ Err e)) }
    {
        if n > ROWS {
            return Err(ScriptFault::Row(n));
        }
        let Ok(row) = StringRecord::from_byte_record(raw) else {
            return Err(ScriptFault::Row(n));
        };
        let Some(said) = read_row(&row) else {
            return Err(ScriptFault::Row(n));
        };
        self.take_said(stood, readings, schedule, n, &said)?;
        Ok(row.into_byte_record())
    }

    /// Takes the n-th row. Faults in their order: Row(n) where it isn't understood or the office has no such examiner, Order(n)
    /// where it declares something after the first step or is out of its turn, Party(n) for a name that is there already or
    /// isn't declared, Row(n) for an office's description that is none; Memory.
    pub fn take_row(
        &mut self,
        schedule: Schedule,
        n: u64,
        raw: ByteRecord,
    ) -> Result<(), ScriptFault>
        ensures ok { OnOk result (after_row schedule n (asked_in self.old) (fields_of raw) ≡ Ok (asked_in self.new)) }
        ensures within { OnOk result (n ≤ most_rows) }
        ensures err { IfErr result (λ e. (e ≡ fault.Memory) ⊎ (after_row schedule n (asked_in self.old) (fields_of raw) ≡ Err e)) }
    {
        let mut readings = Readings::none(self.alloc);
        self.take_record(Stood::NONE, &mut readings, schedule, n, raw)?;
        Ok(())
    }
}
