//! Rows at a desk whose source or sink fails.

use crate::checks::must;
use crate::fake::{FakeSink, FakeSource};
use std::alloc::Global;
use std::process::Abort;
use title_device::Device;
use title_program::serve_desk;

static ROWS: &[u8] = b"party,ADAMS\n\nparty,ADAMS\n1,begin\n";

static ANSWERS: &[u8] = b"party,1\nfault,34,2\n1,began\nend,1\n";

// What is written where a source that gives a byte a pull fails after so many.
fn written(alloc: Global, good_pulls: u64) -> Vec<u8> {
    let mut source = FakeSource {
        left: ROWS,
        piece: 1,
        good_pulls,
        pulls: 0,
        has_failed: false,
    };
    let mut sink = Device::new(Vec::new(alloc));
    serve_desk(alloc, &mut source, &mut sink);
    sink.into_inner()
}

fn assert_answered(rt: &impl Abort, alloc: Global, good_pulls: u64, wanted: &str) {
    let came = written(alloc, good_pulls);
    must(rt, came.as_slice() == wanted.as_bytes(), wanted);
}

fn assert_each(rt: &impl Abort, alloc: Global, cases: &[(u64, &str)]) {
    for (good_pulls, wanted) in cases {
        assert_answered(rt, alloc, *good_pulls, *wanted);
    }
}

// Each answer is there once its line feed has come, and what ends the rows is told behind the answers.
#[test]
fn no_answer_waits_for_the_next_byte(rt: HostRuntime) {
    let cases = [
        (0, "fault,32\n"),
        (11, "fault,32\n"),
        (12, "party,1\nfault,32\n"),
        (24, "party,1\nfault,32\n"),
        (25, "party,1\nfault,34,2\nfault,32\n"),
        (33, "party,1\nfault,34,2\n1,began\nfault,32\n"),
        (34, "party,1\nfault,34,2\n1,began\nend,1\n"),
    ];
    assert_each(&rt, rt.alloc(), &cases);
}

// A sink that has room for so many bytes gets the first of the answers, and nothing is told behind them.
fn assert_cut(rt: &impl Abort, alloc: Global, room: usize) {
    let mut sink = FakeSink {
        taken: Vec::new(alloc),
        piece: 5,
        room,
        has_failed: false,
    };
    let ending = serve_desk(alloc, &mut Device::new(ROWS), &mut sink);
    must(rt, ending.status.code() == 1, "the status");
    let taken = Some(sink.taken.as_slice());
    must(rt, taken == ANSWERS.get(..room), "what is taken");
}

#[test]
fn a_failed_push_ends_the_answers(rt: HostRuntime) {
    for room in 0..ANSWERS.len() {
        assert_cut(&rt, rt.alloc(), room);
    }
}
