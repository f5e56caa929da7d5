//! The script of an office.

ghost use Rattle.std.specs.Prelude.{◌≡◌, ◌⊎◌, All, Err, IfErr, IfOk, length};
ghost use Rattle.title_trace.specs.Due.{MayOpen};
ghost use Rattle.title_plan.specs.declared.fault.ScriptFault.TheVariants as fault;
ghost use Rattle.title_plan.specs.declared.line.Schedule.TheVariants as schedule;
ghost use Rattle.title_plan.specs.{Asked.{asked_in}, Plans.{script_of}};
ghost use Rattle.title_dealing.specs.{OfficeScripts.{IsDealtOf, IsOfficeScript}, Turns.{IsAskedBy}};

use crate::dealing::deal;
use crate::laws::offices_keep_turns;
use indexmap::IndexSet;
use std::alloc::{AllocError, Global};
use title_land::Township;
use title_plan::{Plan, Schedule, ScriptFault, read_script};
use title_turns::Script;

/// What the script of an office asks for: the parties' names, which have their numbers as indices, the townships, what each examiner
/// from 1 on is to do, and how many step rows there are.
#[derive(Drop)]
pub struct OfficeScript {
    pub parties: IndexSet<String>,
    pub townships: Vec<Township>,
    pub scripts: Vec<Script>,
    pub steps: usize,
}

/// What the bytes of the script of an office of so many examiners ask for, or the fault of the first row at fault, or Memory. With
/// what it declares an office can be opened.
pub fn read_office(alloc: Global, examiners: u32, bytes: &[u8]) -> Result<OfficeScript, ScriptFault>
    ensures script { IfOk result (λ script. IsOfficeScript examiners bytes.now script) }
    ensures opens { IfOk result (λ script. MayOpen (length script.parties.keys) script.townships.items) }
    ensures why { IfErr result (λ e. (e ≡ fault.Memory) ⊎ (script_of (schedule.Office examiners) bytes.now ≡ Err e)) }
{
    offices_keep_turns();
    let plan = read_script(alloc, Schedule::Office(examiners), bytes)?;
    Ok(deal_plan(alloc, examiners, plan)?)
}

/// What a plan asks for, dealt to so many examiners, each step being one of theirs. `Err` is Memory.
pub fn deal_plan(alloc: Global, examiners: u32, plan: Plan) -> Result<OfficeScript, AllocError>
    requires asked { All (IsAskedBy examiners) plan.lines.items }
    ensures script { IfOk result (IsDealtOf examiners (asked_in plan)) }
{
    let Plan {
        parties,
        townships,
        mut lines,
        ..
    } = plan;
    let steps = lines.len();
    let scripts = deal(alloc, examiners, &mut lines)?;
    Ok(OfficeScript {
        parties,
        townships,
        scripts,
        steps,
    })
}
