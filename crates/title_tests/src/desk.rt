//! The desk over a store of trees and a table of locks: its calls, books and limits. Replies in their order, and a sheet of three
//! thousand rows, stand with the vectors.

ghost use Rattle.std.specs.Prelude.{◌≡◌};

use crate::checks::{assert_opening, must};
use crate::survey::{square, township};
use std::alloc::Global;
use std::process::Abort;
use title_chain::{Answer, Ask, Posting, Record, Terms};
use title_desk::{Desk, may_open};
use title_instrument::{Estates, Instrument, Release};
use title_land::{Land, Node, Quarter, Township, Tract};
use title_lock::{Guards, NodeLocks};
use title_store::Store;
use title_trace::{Denial, Reply, Request};
use title_tree_store::TreeStore;

/// A desk over trees. What has one with guards of any kind lays out no desk in its proof, which costs much.
type TestDesk<G> = Desk<TreeStore, G>;

/// What an examiner asks of the northeast quarter of section 5. A post releases the surface from party 0 to party 1.
#[derive(Clone, Copy)]
enum Step {
    Sheet,
    Chain,
    Post(u64),
}

#[derive(Clone, Copy)]
enum Act {
    Begin,
    Step(Step),
}

/// A desk of three parties over these townships.
fn open(rt: &impl Abort, alloc: Global, townships: &[Township]) -> TestDesk<NodeLocks>
    ensures setting { result.setting ≡ record { parties = 3; townships = townships.now } }
{
    assert!(rt; may_open(3, townships));
    Desk::open(alloc, 3, townships).expect(rt, "there is memory")
}

fn surface_release() -> Instrument {
    let estates = Estates {
        s: true,
        o: false,
        m: false,
    };
    Instrument::Release(Release {
        from: 0,
        to: 1,
        estates,
    })
}

fn posting(rt: &impl Abort, alloc: Global, doc: u64, tract: Tract) -> Posting {
    let terms = Terms {
        doc,
        tract,
        instrument: surface_release(),
    };
    Posting::new(alloc, terms).expect(rt, "there is memory")
}

fn tract(rt: &impl Abort, alloc: Global) -> Tract {
    let land = Land::of(square(rt, 5, &[Quarter::Northeast]));
    Tract::new(alloc, land).expect(rt, "there is memory")
}

fn ask(rt: &impl Abort, alloc: Global, step: Step) -> Ask {
    match step {
        Step::Sheet => Ask::Sheet(tract(rt, alloc)),
        Step::Chain => Ask::Chain(tract(rt, alloc)),
        Step::Post(doc) => Ask::Post(posting(rt, alloc, doc, tract(rt, alloc))),
    }
}

fn request(rt: &impl Abort, alloc: Global, examiner: u32, act: Act) -> Request {
    match act {
        Act::Begin => Request::Begin(examiner),
        Act::Step(step) => Request::Step(examiner, ask(rt, alloc, step)),
    }
}

/// A reply in a word.
fn word(reply: &Reply) -> &'static str {
    match reply {
        Reply::Began => "began",
        Reply::Answered(Answer::Rows(_)) => "rows",
        Reply::Answered(Answer::Entries(_)) => "entries",
        Reply::Answered(Answer::Posted) => "posted",
        Reply::Committed(_) => "committed",
        Reply::Aborted => "aborted",
        Reply::Denied(Denial::NotOpen) => "not open",
        Reply::Denied(Denial::AlreadyOpen) => "already open",
        Reply::Denied(Denial::Conflict(_)) => "conflict",
        Reply::Memory => "memory",
        _ => "another",
    }
}

/// The reply to an examiner's act, in a word.
fn replied<G: Guards + Drop>(
    rt: &impl Abort,
    alloc: Global,
    desk: &mut TestDesk<G>,
    examiner: u32,
    act: Act,
) -> &'static str {
    word(&desk.serve(request(rt, alloc, examiner, act)))
}

/// Each examiner's act is replied to by this word.
fn assert_replies<G: Guards + Drop>(
    rt: &impl Abort,
    alloc: Global,
    desk: &mut TestDesk<G>,
    lines: &[(u32, Act, &str)],
) {
    for (examiner, act, wanted) in lines {
        let word = replied(rt, alloc, desk, *examiner, *act);
        must(rt, word == *wanted, wanted);
    }
}

/// The one record is examiner 1's, of one step.
fn assert_record(rt: &impl Abort, records: &[Record]) {
    let [record] = records else {
        panic!(rt; "one record");
    };
    let steps = record.steps.as_slice().len();
    must(rt, record.examiner == 1 && steps == 1, "the one record");
}

/// The books after a commit and a sweep: one record of one step.
fn assert_books<G: Guards + Drop>(rt: &impl Abort, desk: &TestDesk<G>) {
    must(rt, !desk.is_open(1) && !desk.is_open(2), "nobody is open");
    assert_record(rt, desk.records());
}

fn is_committed(reply: &Reply, place: u64) -> bool {
    matches!(reply, Reply::Committed(number) if *number == place)
}

fn assert_committed<G: Guards + Drop>(rt: &impl Abort, desk: &mut TestDesk<G>, place: u64) {
    let is_so = is_committed(&desk.serve(Request::Commit(1)), place);
    must(rt, is_so, "committed at its place");
}

const OPEN: [(u32, Act, &str); 3] = [
    (1, Act::Begin, "began"),
    (2, Act::Begin, "began"),
    (1, Act::Step(Step::Post(1)), "posted"),
];

/// Examiner 1 commits a post in the room that was made for it, and examiner 2 is swept away.
fn fill_books<G: Guards + Drop>(rt: &impl Abort, alloc: Global, desk: &mut TestDesk<G>) {
    assert_replies(rt, alloc, desk, &OPEN);
    must(rt, desk.is_open(1) && desk.is_open(2), "both are open");
    desk.make_room(1).expect(rt, "there is memory");
    assert_committed(rt, desk, 1);
    must(rt, word(&desk.sweep(2)) == "aborted", "swept");
}

fn assert_filled<G: Guards + Drop>(rt: &impl Abort, alloc: Global, desk: &mut TestDesk<G>) {
    fill_books(rt, alloc, desk);
    assert_books(rt, desk);
    desk.is_serial();
}

/// Everything is the United States': a sheet of a row for each estate.
fn assert_new<G: Guards + Drop>(
    rt: &impl Abort,
    alloc: Global,
    desk: &TestDesk<G>,
    townships: &[Township],
)
    requires setting { desk.now.setting ≡ record { parties = 3; townships = townships.now } }
{
    let plant = Tract::of(Node::Everything);
    assert!(rt; plant.is_in(townships));
    let rows = desk.store().sheet(alloc, &plant);
    assert_opening(rt, rows.expect(rt, "there is memory").as_slice());
}

/// The townships of ranges 2 west from 1 north to so many north.
fn townships_to(rt: &impl Abort, alloc: Global, last: u8) -> Vec<Township> {
    let mut townships = Vec::new(alloc);
    for number in 1..=last {
        townships
            .push(township(rt, number))
            .expect(rt, "there is memory");
    }
    townships
}

/// A desk has 1 to 65,536 parties and at most 64 townships, none of them twice.
fn assert_limits(rt: &impl Abort, most: &[Township], too_many: &[Township], twice: &[Township]) {
    must(rt, may_open(1, &[]), "a party, no township");
    must(rt, may_open(65_536, most), "the most of both");
    must(rt, !may_open(0, &[]), "no party");
    must(rt, !may_open(65_537, &[]), "a party too many");
    must(rt, !may_open(1, too_many), "a township too many");
    must(rt, !may_open(1, twice), "a township twice");
}

#[test]
fn a_desk_opens_within_its_limits(rt: HostRuntime) {
    let most = townships_to(&rt, rt.alloc(), 64);
    let too_many = townships_to(&rt, rt.alloc(), 65);
    let twice = [township(&rt, 3), township(&rt, 4), township(&rt, 3)];
    assert_limits(&rt, most.as_slice(), too_many.as_slice(), &twice);
}

/// Each of a hundred thousand transactions is committed.
fn commit_a_hundred_thousand<G: Guards + Drop>(rt: &impl Abort, desk: &mut TestDesk<G>) {
    for place in 1..100_001 {
        must(rt, word(&desk.serve(Request::Begin(1))) == "began", "began");
        assert_committed(rt, desk, place);
    }
}

fn assert_a_hundred_thousand<G: Guards + Drop>(rt: &impl Abort, desk: &mut TestDesk<G>) {
    commit_a_hundred_thousand(rt, desk);
    must(rt, desk.records().len() == 100_000, "all records");
}

/// Such a step is replied to by this word.
fn assert_alone<G: Guards + Drop>(
    rt: &impl Abort,
    alloc: Global,
    desk: &mut TestDesk<G>,
    step: Step,
    wanted: &str,
) {
    let replied = word(&desk.serve_alone(1, ask(rt, alloc, step)));
    must(rt, replied == wanted, wanted);
}

/// Transactions of one step in one call are committed, each in its place.
fn assert_committed_alone<G: Guards + Drop>(
    rt: &impl Abort,
    alloc: Global,
    desk: &mut TestDesk<G>,
) {
    must(rt, desk.store().holds(&tract(rt, alloc)), "in the plant");
    assert_alone(rt, alloc, desk, Step::Sheet, "rows");
    assert_alone(rt, alloc, desk, Step::Post(7), "posted");
    assert_alone(rt, alloc, desk, Step::Chain, "entries");
    must(rt, desk.records().len() == 3, "three records");
}

/// One whose township isn't declared is aborted.
fn assert_aborted_alone<G: Guards + Drop>(rt: &impl Abort, alloc: Global, desk: &mut TestDesk<G>) {
    must(
        rt,
        !desk.store().holds(&tract(rt, alloc)),
        "outside the plant",
    );
    assert_alone(rt, alloc, desk, Step::Post(7), "another");
    must(rt, desk.records().is_empty(), "no record");
}

const READS_ON: [(u32, Act, &str); 2] = [
    (2, Act::Begin, "began"),
    (2, Act::Step(Step::Sheet), "rows"),
];

/// Beside an examiner who has read, a post alone is in its way and is aborted, and a chain alone is committed.
fn assert_alone_beside<G: Guards + Drop>(rt: &impl Abort, alloc: Global, desk: &mut TestDesk<G>) {
    assert_replies(rt, alloc, desk, &READS_ON);
    assert_alone(rt, alloc, desk, Step::Post(7), "conflict");
    assert_alone(rt, alloc, desk, Step::Chain, "entries");
    must(rt, desk.is_open(2) && !desk.is_open(1), "who reads is open");
    assert_record(rt, desk.records());
}

/// Who has a transaction open already commits it with its step alone.
fn assert_alone_within<G: Guards + Drop>(rt: &impl Abort, alloc: Global, desk: &mut TestDesk<G>) {
    assert_replies(rt, alloc, desk, &[(1, Act::Begin, "began")]);
    assert_alone(rt, alloc, desk, Step::Post(7), "posted");
    must(rt, !desk.is_open(1), "nobody is open");
    assert_record(rt, desk.records());
}

/// What is tried of a desk.
#[derive(Clone, Copy)]
enum Trial {
    Books,
    New,
    AHundredThousand,
    CommittedAlone,
    AbortedAlone,
    AloneBeside,
    AloneWithin,
}

fn try_all<G: Guards + Drop>(
    rt: &impl Abort,
    alloc: Global,
    desk: &mut TestDesk<G>,
    townships: &[Township],
    trial: Trial,
)
    requires setting { desk.old.setting ≡ record { parties = 3; townships = townships.now } }
{
    match trial {
        Trial::Books => assert_filled(rt, alloc, desk),
        Trial::New => assert_new(rt, alloc, desk, townships),
        Trial::AHundredThousand => assert_a_hundred_thousand(rt, desk),
        Trial::CommittedAlone => assert_committed_alone(rt, alloc, desk),
        Trial::AbortedAlone => assert_aborted_alone(rt, alloc, desk),
        Trial::AloneBeside => assert_alone_beside(rt, alloc, desk),
        Trial::AloneWithin => assert_alone_within(rt, alloc, desk),
    }
}

/// The only function that owns a desk: each step of such a function costs its proof much.
fn try_desk(rt: &impl Abort, alloc: Global, number: u8, trial: Trial) {
    let townships = [township(rt, number)];
    let mut desk = open(rt, alloc, &townships);
    try_all(rt, alloc, &mut desk, &townships, trial);
}

#[test]
fn a_desk_shows_its_books(rt: HostRuntime) {
    try_desk(&rt, rt.alloc(), 3, Trial::Books);
}

#[test]
fn a_new_desk_has_an_opening_plant(rt: HostRuntime) {
    try_desk(&rt, rt.alloc(), 3, Trial::New);
}

#[test]
fn a_hundred_thousand_records(rt: HostRuntime) {
    try_desk(&rt, rt.alloc(), 3, Trial::AHundredThousand);
}

#[test]
fn a_step_alone_is_begun_and_committed(rt: HostRuntime) {
    try_desk(&rt, rt.alloc(), 3, Trial::CommittedAlone);
}

#[test]
fn a_step_alone_is_begun_and_aborted(rt: HostRuntime) {
    try_desk(&rt, rt.alloc(), 4, Trial::AbortedAlone);
}

#[test]
fn a_step_alone_beside_a_reader(rt: HostRuntime) {
    try_desk(&rt, rt.alloc(), 3, Trial::AloneBeside);
}

#[test]
fn a_step_alone_ends_what_its_examiner_has_open(rt: HostRuntime) {
    try_desk(&rt, rt.alloc(), 3, Trial::AloneWithin);
}
