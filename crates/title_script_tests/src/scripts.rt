ghost use Rattle.std.specs.Prelude.{◌≡◌, false};

use crate::checks::must;
use crate::fake::{FakeSink, FakeSource};
use std::alloc::Global;
use std::process::Abort;
use title_program::Fault;
use title_script::{Device, RunFault, run};

mod cuts;
mod limits;

use cuts::{CUTS, Cut, REPORT, SCRIPT};

// A source of a script that fails after `good_pulls` pulls of `piece` bytes.
fn source_of(script: &[u8], piece: usize, good_pulls: u64) -> FakeSource<'_>
    ensures works { result.has_failed ≡ false }
{
    FakeSource {
        left: script,
        piece,
        good_pulls,
        pulls: 0,
        has_failed: false,
    }
}

// A sink that takes `piece` bytes a push, and fails after `room` bytes.
fn sink_of(alloc: Global, piece: usize, room: usize) -> FakeSink
    ensures works { result.has_failed ≡ false }
{
    FakeSink {
        taken: Vec::new(alloc),
        piece,
        room,
        has_failed: false,
    }
}

// The report of a script.
fn report_of(alloc: Global, script: &[u8]) -> Result<Vec<u8>, RunFault> {
    let mut source = source_of(script, 4096, u64::MAX);
    let mut sink = sink_of(alloc, usize::MAX, usize::MAX);
    run(alloc, &mut source, &mut sink)?;
    Ok(sink.taken)
}

fn line_of(rt: &impl Abort, alloc: Global, fault: RunFault) -> String {
    format!(in alloc; "{}", Fault::from(fault)).expect(rt, "there is memory")
}

// Whether a fault is told by a line.
fn is_told(rt: &impl Abort, alloc: Global, fault: RunFault, line: &str) -> bool {
    line_of(rt, alloc, fault).as_str() == line
}

static LINES: [(RunFault, &str); 6] = [
    (RunFault::Row(4), "fault,31,4"),
    (RunFault::Read, "fault,32"),
    (RunFault::Write, "fault,33"),
    (RunFault::Party(100_000), "fault,34,100000"),
    (RunFault::Order(5), "fault,35,5"),
    (RunFault::Memory, "fault,6"),
];

fn assert_told(rt: &impl Abort, alloc: Global, lines: &[(RunFault, &str)]) {
    for (fault, line) in lines {
        must(rt, is_told(rt, alloc, *fault, line), line);
    }
}

#[test]
fn each_fault_has_its_line(rt: HostRuntime) {
    assert_told(&rt, rt.alloc(), &LINES);
}

#[test]
fn each_side_of_a_limit(rt: HostRuntime) {
    limits::assert_all_kept(&rt, rt.alloc(), &limits::LIMITS);
}

// Whether bytes are the first `kept` of a report and then more.
fn is_joined(found: &[u8], report: &[u8], kept: usize, more: &[u8]) -> bool {
    found.get(..kept) == report.get(..kept) && found.get(kept..) == Some(more)
}

// Whether a beginning of a script gives what a cut says.
fn cut_gives(rt: &impl Abort, alloc: Global, script: &[u8], report: &[u8], cut: &Cut) -> bool {
    match (report_of(alloc, script), cut.given) {
        (Ok(found), Ok((kept, more))) => {
            is_joined(found.as_slice(), report, kept, more.as_bytes())
        }
        (Err(fault), Err(wanted)) => is_told(rt, alloc, fault, wanted),
        _ => false,
    }
}

// Each beginning of the script between a cut's bounds gives what the cut says.
fn cut_is_given(rt: &impl Abort, alloc: Global, script: &[u8], report: &[u8], cut: &Cut) {
    for bytes in cut.from..cut.to {
        let part = script.get(..bytes).unwrap_or(&[]);
        must(rt, cut_gives(rt, alloc, part, report, cut), "a beginning");
    }
}

fn cuts_are_given(rt: &impl Abort, alloc: Global, script: &[u8], report: &[u8], cuts: &[Cut]) {
    for cut in cuts {
        cut_is_given(rt, alloc, script, report, cut);
    }
}

// Each beginning of a script gives its report, or the fault of its last row.
#[test]
fn beginnings_of_a_script(rt: HostRuntime) {
    cuts_are_given(&rt, rt.alloc(), SCRIPT, REPORT, &CUTS);
}

// A script ends with this fault, and has written the first bytes of the report.
fn assert_written(
    rt: &impl Abort,
    fault: Option<RunFault>,
    wanted: Option<RunFault>,
    written: &[u8],
    bytes: usize,
) {
    must(rt, fault == wanted, "the fault");
    must(rt, Some(written) == REPORT.get(..bytes), "what is written");
}

fn assert_pulls(rt: &impl Abort, alloc: Global, good_pulls: u64, are_all: bool) {
    let mut source = source_of(SCRIPT, 16, good_pulls);
    let mut sink = sink_of(alloc, usize::MAX, usize::MAX);
    let fault = run(alloc, &mut source, &mut sink).err();
    let written = sink.taken.as_slice();
    if are_all {
        assert_written(rt, fault, None, written, REPORT.len());
    } else {
        assert_written(rt, fault, Some(RunFault::Read), written, 0);
    }
}

// A source that gives 16 bytes a pull is pulled once for each piece of the script, and once more for its end. One that fails
// at any of these pulls is the fault Read, and nothing is written; one that would fail at the next gives the whole report.
#[test]
fn sources_that_fail(rt: HostRuntime) {
    let pulls = SCRIPT.len().div_ceil(16) as u64 + 1;
    for good_pulls in 0..pulls + 1 {
        assert_pulls(&rt, rt.alloc(), good_pulls, good_pulls == pulls);
    }
}

// The fault Write where there isn't room for the whole report.
fn fault_in(room: usize) -> Option<RunFault> {
    (room < REPORT.len()).then_some(RunFault::Write)
}

fn assert_room(rt: &impl Abort, alloc: Global, room: usize) {
    let mut source = source_of(SCRIPT, 4096, u64::MAX);
    let mut sink = sink_of(alloc, 1, room);
    let fault = run(alloc, &mut source, &mut sink).err();
    let kept = room.min(REPORT.len());
    assert_written(rt, fault, fault_in(room), sink.taken.as_slice(), kept);
}

// A sink that takes one byte a push, and fails once it has `room` bytes, is the fault Write and has just these bytes of the
// report; where it has room for the whole report, it gets that and nothing more.
#[test]
fn sinks_that_fail(rt: HostRuntime) {
    for room in 0..REPORT.len() + 2 {
        assert_room(&rt, rt.alloc(), room);
    }
}

// The fault of a script that is written to this space, and how much of it isn't taken.
fn write_into(alloc: Global, space: &mut [u8]) -> (Option<RunFault>, usize) {
    let mut source = source_of(SCRIPT, 4096, u64::MAX);
    let mut sink = Device::new(space);
    let fault = run(alloc, &mut source, &mut sink).err();
    (fault, sink.into_inner().len())
}

fn space_of(rt: &impl Abort, alloc: Global, room: usize) -> Vec<u8> {
    let space = vec![in alloc; 0u8; room];
    space.expect(rt, "there is memory")
}

fn assert_space(rt: &impl Abort, alloc: Global, room: usize) {
    let mut space = space_of(rt, alloc, room);
    let (fault, left) = write_into(alloc, space.as_mut_slice());
    must(rt, left == 0, "all room is taken");
    assert_written(rt, fault, fault_in(room), space.as_slice(), room);
}

// A writer over `room` bytes takes nothing once they are full, at its first write where there are none. It is the fault
// Write, and has just these bytes of the report; one with room for the whole report gets that.
#[test]
fn writers_that_take_nothing(rt: HostRuntime) {
    for room in 0..REPORT.len() + 1 {
        assert_space(&rt, rt.alloc(), room);
    }
}
