//! The steps of a script, served one after another.

ghost use Rattle.std.specs.Prelude.{◌≡◌, ◌++◌, ◌∷◌, [], IfOk, OnOk, length};
ghost use Rattle.title_trace.specs.declared.call.Request.TheVariants as request;
ghost use Rattle.title_trace.specs.Due.{MayOpen};
ghost use Rattle.title_plan.specs.Asked.{asked_in};
ghost use Rattle.title_script.specs.{Served.{after_alone, after_call, after_line, reply_to}, ReportLaws.{after_lines}};
ghost use Rattle.title_script.specs.{Reports.{report_on, report_onto, setting_of}, Told.{all_due_told, due_told, served_text}};

use crate::told::{Served, Told};
use crate::watch::Watch;
use std::alloc::{AllocError, Global};
use std::collections::VecDeque;
use title_chain::Ask;
use title_desk::Desk;
use title_lock::Guards;
use title_plan::{Line, Plan};
use title_store::Store;
use title_trace::{Reply, Request};

// Asks the desk; want of memory ends the run.
fn ask<S: Store + Drop, G: Guards + Drop>(
    desk: &mut Desk<S, G>,
    request: Request,
) -> Result<Reply, AllocError>
    ensures setting { desk.new.setting ≡ desk.old.setting }
    ensures trace { OnOk result (desk.new.trace ≡ after_call desk.old.setting desk.old.trace request) }
    ensures reply { IfOk result (λ r. r ≡ reply_to desk.old.setting desk.old.trace request) }
{
    match desk.serve(request) {
        Reply::Memory => Err(AllocError),
        reply => Ok(reply),
    }
}

// Asks for a transaction of this one step; the step's reply. Want of memory ends the run.
fn ask_alone<S: Store + Drop, G: Guards + Drop>(
    desk: &mut Desk<S, G>,
    examiner: u32,
    step: Ask,
) -> Result<Reply, AllocError>
    ensures setting { desk.new.setting ≡ desk.old.setting }
    ensures trace { OnOk result (desk.new.trace ≡ after_alone desk.old.setting desk.old.trace examiner step) }
    ensures reply { IfOk result (λ r. r ≡ reply_to desk.old.setting
        (after_call desk.old.setting desk.old.trace (request.Begin examiner)) (request.Step examiner step)) }
{
    match desk.serve_alone(examiner, step) {
        Reply::Memory => Err(AllocError),
        reply => Ok(reply),
    }
}

// Serves a step row.
fn serve_line<S: Store + Drop, G: Guards + Drop>(
    desk: &mut Desk<S, G>,
    line: Line,
) -> Result<Told, AllocError>
    ensures setting { desk.new.setting ≡ desk.old.setting }
    ensures trace { OnOk result (desk.new.trace ≡ after_line desk.old.setting desk.old.trace line) }
    ensures told { IfOk result (λ told. told ≡ due_told desk.old.setting desk.old.trace line) }
{
    match line {
        Line::Asks(request) => {
            let examiner = request.examiner();
            let reply = ask(desk, request)?;
            Ok(Told::Replied(examiner, reply))
        }
        Line::Alone(examiner, step) => {
            let reply = ask_alone(desk, examiner, step)?;
            Ok(Told::Replied(examiner, reply))
        }
        Line::Described(examiner, why) => Ok(Told::Described(examiner, why)),
    }
}

// Adds what came of a step row to that of those before.
fn add_told(all: &mut Vec<Told>, told: Told) -> Result<(), AllocError>
    ensures added { OnOk result (all.new.items ≡ all.old.items ++ told ∷ []) }
{
    all.push(told)?;
    Ok(())
}

// Takes step rows from the front and serves them at a desk. Who watches is told after each.
#[tactic(auto, using(crate::proofs::ServedLaws::rest_served))]
fn serve_lines<S: Store + Drop, G: Guards + Drop, V: Watch>(
    alloc: Global,
    desk: &mut Desk<S, G>,
    lines: &mut VecDeque<Line>,
    watch: &mut V,
) -> Result<Vec<Told>, AllocError>
    ensures setting { desk.new.setting ≡ desk.old.setting }
    ensures trace { OnOk result (desk.new.trace ≡ after_lines desk.old.setting desk.old.trace lines.old.items) }
    ensures told { IfOk result (λ v. v.items ≡ all_due_told desk.old.setting desk.old.trace lines.old.items) }
{
    let steps = lines.len();
    let mut all = Vec::new(alloc);
    all.reserve(steps)?;
    while let Some(line) = lines.pop_front() {
        let told = serve_line(desk, line)?;
        add_told(&mut all, told)?;
        watch.served(steps.saturating_sub(lines.len()), steps);
    }
    Ok(all)
}

// A desk for what a plan declares.
fn open_desk<S: Store + Drop, G: Guards + Drop>(
    alloc: Global,
    plan: &Plan,
) -> Result<Desk<S, G>, AllocError>
    requires opens { MayOpen (length plan.now.parties.keys) plan.now.townships.items }
    ensures setting { IfOk result (λ d. d.setting ≡ setting_of (asked_in plan.now)) }
    ensures trace { IfOk result (λ d. d.trace ≡ []) }
{
    let parties = plan.parties.len() as u32;
    Desk::open(alloc, parties, plan.townships.as_slice())
}

/// Serves what a plan asks for at a desk, on top of what stands there; the plan's parties have the numbers that they have there.
/// Who watches is told after each step. `Err` is Memory, and then only some are served.
pub fn serve_onto<S: Store + Drop, G: Guards + Drop, V: Watch>(
    alloc: Global,
    desk: &mut Desk<S, G>,
    mut plan: Plan,
    watch: &mut V,
) -> Result<Served, AllocError>
    ensures setting { desk.new.setting ≡ desk.old.setting }
    ensures trace { OnOk result (desk.new.trace ≡ after_lines desk.old.setting desk.old.trace plan.lines.items) }
    ensures report { IfOk result (λ s. served_text s ≡ report_onto desk.old.setting desk.old.trace (asked_in plan)) }
    ensures declared { IfOk result (λ s. (s.plan.parties ≡ plan.parties) × (s.plan.townships ≡ plan.townships)) }
{
    let steps = plan.lines.len();
    let told = serve_lines(alloc, desk, &mut plan.lines, watch)?;
    Ok(Served { plan, told, steps })
}

/// Serves what a plan asks for, over a store and guards of any kinds.
pub(crate) fn serve_plan<S: Store + Drop, G: Guards + Drop, V: Watch>(
    alloc: Global,
    plan: Plan,
    watch: &mut V,
) -> Result<Served, AllocError>
    requires opens { MayOpen (length plan.parties.keys) plan.townships.items }
    ensures report { IfOk result (λ s. served_text s ≡ report_on (asked_in plan)) }
{
    let mut desk = open_desk::<S, G>(alloc, &plan)?;
    serve_onto(alloc, &mut desk, plan, watch)
}
