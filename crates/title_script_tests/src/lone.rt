//! Steps alone at a desk where somebody is open: no script brings one, and `serve_onto` has each served by its three requests.

ghost use Rattle.std.specs.Prelude.{length};
ghost use Rattle.title_trace.specs.Due.{MayOpen};

use crate::checks::must;
use crate::fake::FakeSink;
use std::alloc::Global;
use std::process::Abort;
use title_desk::Desk;
use title_lock::{Guards, NodeLocks};
use title_plan::{Plan, Schedule, read_script};
use title_script::{Served, Unwatched, serve_onto, write_served};
use title_tree_store::TreeStore;

/// Examiner 2 has read section 5, and stays open.
const OPEN: &str = "township,T3N R2W\nparty,ADAMS\n2,begin\n2,sheet,T3N R2W sec 5\n";

/// Examiner 1 posts there, and in the section beside it.
const ALONE: &str = "township,T3N R2W\nparty,ADAMS\n\
    1,deed,1,UNITED STATES,ADAMS,S,W1/2,,T3N R2W sec 5 NE1/4\n\
    1,deed,2,UNITED STATES,ADAMS,S,W1/2,,T3N R2W sec 6\n";

/// The first post has 2 in its way, and is a transaction that was aborted; the second is committed.
const REPORT: &str = "1,conflict,2\n1,posted\nend,2\n";

fn plan_of(rt: &impl Abort, alloc: Global, schedule: Schedule, script: &str) -> Plan
    ensures opens { MayOpen (length result.parties.keys) result.townships.items }
{
    read_script(alloc, schedule, script.as_bytes()).expect(rt, "a script")
}

/// A desk for what a plan declares.
fn desk_for(rt: &impl Abort, alloc: Global, plan: &Plan) -> Desk<TreeStore, NodeLocks>
    requires opens { MayOpen (length plan.now.parties.keys) plan.now.townships.items }
{
    let parties = plan.parties.len() as u32;
    let desk = Desk::open(alloc, parties, plan.townships.as_slice());
    desk.expect(rt, "there is memory")
}

/// What a plan's steps come to at a desk. By its type parameter its proof lays out no desk, nor do those below.
fn serve<G: Guards + Drop>(
    rt: &impl Abort,
    alloc: Global,
    desk: &mut Desk<TreeStore, G>,
    plan: Plan,
) -> Served {
    serve_onto(alloc, desk, plan, &mut Unwatched).expect(rt, "there is memory")
}

fn report_of(rt: &impl Abort, alloc: Global, served: &Served) -> Vec<u8> {
    let mut sink = FakeSink {
        taken: Vec::new(alloc),
        piece: usize::MAX,
        room: usize::MAX,
        has_failed: false,
    };
    let written = write_served(alloc, &mut sink, served);
    must(rt, written.is_ok(), "a sink that takes all");
    sink.taken
}

/// The report of what a plan's steps come to.
fn report_at<G: Guards + Drop>(
    rt: &impl Abort,
    alloc: Global,
    desk: &mut Desk<TreeStore, G>,
    plan: Plan,
) -> Vec<u8> {
    report_of(rt, alloc, &serve(rt, alloc, desk, plan))
}

fn assert_report<G: Guards + Drop>(rt: &impl Abort, alloc: Global, desk: &mut Desk<TreeStore, G>) {
    let plan = plan_of(rt, alloc, Schedule::Serial, ALONE);
    let report = report_at(rt, alloc, desk, plan);
    must(rt, report.as_slice() == REPORT.as_bytes(), "their report");
}

/// Examiner 2's script is served, and then the steps alone.
fn assert_alone<G: Guards + Drop>(
    rt: &impl Abort,
    alloc: Global,
    desk: &mut Desk<TreeStore, G>,
    open: Plan,
) {
    drop(serve(rt, alloc, desk, open));
    assert_report(rt, alloc, desk);
    let (committed, open) = (desk.records().len(), desk.first_open());
    must(rt, committed == 1, "one is committed");
    must(rt, open == Some(2), "2 is open still");
}

/// The only function that owns a desk.
fn try_alone(rt: &impl Abort, alloc: Global) {
    let open = plan_of(rt, alloc, Schedule::Interleaved, OPEN);
    let mut desk = desk_for(rt, alloc, &open);
    assert_alone(rt, alloc, &mut desk, open);
}

#[test]
fn steps_alone_beside_an_open_transaction(rt: HostRuntime) {
    try_alone(&rt, rt.alloc());
}
