//! A script, from its bytes.

ghost use Rattle.std.specs.Prelude.{◌≡◌, ◌≤◌, ◌⊎◌, Ok, Err, IfErr, IfOk, OnOk, length};
ghost use Rattle.title_trace.specs.Due.{MayOpen};
ghost use Rattle.title_plan.specs.{Asked.{asked_in}, Faults.{IsWant}, Limits.{most_rows}, Plans.{script_of}, Readers.{IsAtFirst, left_of}};
ghost use Rattle.title_plan.specs.Onto.{StandIn, after_row_onto, after_rows_onto, asked_on, before_in, first_of, script_onto};
ghost use Rattle.csv.specs.{Reading.{default_config, error_kind, records, strip_bom}, Records.{fields_of}};
ghost use Rattle.title_plan.specs.declared.fault.ScriptFault.TheVariants as fault;

use crate::fault::ScriptFault;
use crate::laws::onto_nothing;
use crate::line::Schedule;
use crate::onto::{Declared, Stood};
use crate::plan::Plan;
use crate::readings::Readings;
use csv::{ByteRecord, Error, ErrorKind, Reader, ReaderBuilder};
use std::alloc::Global;
use std::mem::replace;

// Splitting a text in memory into rows ends early for want of memory only: rows may have any lengths, and their bytes are
// not looked at.
fn fault_of(error: Error) -> ScriptFault
    requires want { IsWant (error_kind error) }
    ensures memory { result ≡ fault.Memory }
{
    match error.into_kind() {
        ErrorKind::OutOfMemory | ErrorKind::Io(_) => ScriptFault::Memory,
        ErrorKind::Utf8 { .. } => unreachable!(),
        ErrorKind::UnequalLengths { .. } => unreachable!(),
        ErrorKind::Serialize(_) => unreachable!(),
        ErrorKind::Deserialize { .. } => unreachable!(),
    }
}

// A script of which rows were taken: its plan, what stood before it, the descriptions that were read, and a row's record.
#[derive(Drop)]
struct Taken {
    alloc: Global,
    plan: Plan,
    stood: Stood,
    readings: Readings,
    raw: ByteRecord,
}

impl Taken {
    // No row yet, on top of what is declared.
    fn none(alloc: Global, declared: Declared) -> Taken
        ensures asked { asked_in result.plan ≡ asked_on (before_in declared) }
        ensures before { first_of result.stood (asked_in result.plan) ≡ before_in declared }
        ensures stands { StandIn result.stood (asked_in result.plan) }
    {
        let stood = Stood::all(&declared);
        Taken {
            alloc,
            plan: Plan::onto(alloc, declared),
            stood,
            readings: Readings::new(alloc),
            raw: ByteRecord::new(alloc),
        }
    }

    // Takes the n-th row, which is in the record.
    fn row(&mut self, schedule: Schedule, n: u64) -> Result<(), ScriptFault>
        requires stands { StandIn self.old.stood (asked_in self.old.plan) }
        ensures ok { OnOk result (after_row_onto schedule (first_of self.old.stood (asked_in self.old.plan)) n (asked_in self.old.plan)
            (fields_of self.old.raw) ≡ Ok (asked_in self.new.plan)) }
        ensures before { OnOk result (first_of self.new.stood (asked_in self.new.plan)
            ≡ first_of self.old.stood (asked_in self.old.plan)) }
        ensures stands { OnOk result (StandIn self.new.stood (asked_in self.new.plan)) }
        ensures within { OnOk result (n ≤ most_rows) }
        ensures err { IfErr result (λ e. (e ≡ fault.Memory) ⊎ (after_row_onto schedule
            (first_of self.old.stood (asked_in self.old.plan)) n (asked_in self.old.plan) (fields_of self.old.raw) ≡ Err e)) }
    {
        let raw = replace(&mut self.raw, ByteRecord::new(self.alloc));
        self.raw = self
            .plan
            .take_record(self.stood, &mut self.readings, schedule, n, raw)?;
        Ok(())
    }
}

// A reader of a script's rows, at the first.
fn open_rows(alloc: Global, text: &[u8]) -> Reader<&[u8]>
    ensures first { IsAtFirst (strip_bom text.now) result }
{
    ReaderBuilder::new()
        .has_headers(false)
        .flexible(true)
        .from_reader(alloc, text)
}

// Takes all rows of a reader. All that it takes them with is another's, so no way out lets anything go.
fn take_rows(
    reader: &mut Reader<&[u8]>,
    schedule: Schedule,
    taken: &mut Taken,
) -> Result<(), ScriptFault>
    requires first { IsAtFirst (left_of reader.old) reader.old }
    requires stands { StandIn taken.old.stood (asked_in taken.old.plan) }
    ensures script { OnOk result (after_rows_onto schedule (first_of taken.old.stood (asked_in taken.old.plan)) 1
        (asked_in taken.old.plan) (records default_config (left_of reader.old)) ≡ Ok (asked_in taken.new.plan)) }
    ensures why { IfErr result (λ e. (e ≡ fault.Memory) ⊎ (after_rows_onto schedule
        (first_of taken.old.stood (asked_in taken.old.plan)) 1 (asked_in taken.old.plan)
        (records default_config (left_of reader.old)) ≡ Err e)) }
{
    let mut n = 0;
    'rows: loop {
        let found = match reader.read_byte_record(&mut taken.raw) {
            Ok(found) => found,
            Err(error) => return Err(fault_of(error)),
        };
        if !found {
            return Ok(());
        }
        n += 1;
        taken.row(schedule, n)?;
    }
}

/// What a script declares and asks for on top of what is declared, or the fault of its first row at fault, as `read_script`
/// gives it. Before the first step a row that declares a township which stands there, or a party which stands there behind
/// UNITED STATES, is passed over.
pub fn read_script_onto(
    alloc: Global,
    schedule: Schedule,
    declared: Declared,
    text: &[u8],
) -> Result<Plan, ScriptFault>
    ensures script { IfOk result (λ plan. script_onto schedule (before_in declared) text.now ≡ Ok (asked_in plan)) }
    ensures opens { IfOk result (λ plan. MayOpen (length plan.parties.keys) plan.townships.items) }
    ensures why { IfErr result (λ e. (e ≡ fault.Memory) ⊎ (script_onto schedule (before_in declared) text.now ≡ Err e)) }
{
    let mut reader = open_rows(alloc, text);
    let mut taken = Taken::none(alloc, declared);
    take_rows(&mut reader, schedule, &mut taken)?;
    Ok(taken.plan)
}

/// What a script declares and asks for, or the fault of its first row at fault: Row, Order or Party with the row's number
/// from 1; or Memory. With what it declares a plant can be opened.
pub fn read_script(alloc: Global, schedule: Schedule, text: &[u8]) -> Result<Plan, ScriptFault>
    ensures script { IfOk result (λ plan. script_of schedule text.now ≡ Ok (asked_in plan)) }
    ensures opens { IfOk result (λ plan. MayOpen (length plan.parties.keys) plan.townships.items) }
    ensures why { IfErr result (λ e. (e ≡ fault.Memory) ⊎ (script_of schedule text.now ≡ Err e)) }
{
    onto_nothing();
    let declared = Declared::nothing(alloc)?;
    read_script_onto(alloc, schedule, declared, text)
}
