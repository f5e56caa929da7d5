//! Chains of records and of open steps, and their copies.

use crate::checks::must;
use crate::survey::{square, township};
use std::alloc::Global;
use std::process::Abort;
use title_chain::{
    Answer, Ask, Entries, Entry, OwnSteps, Posting, Record, Records, SheetRows, Step, Steps, Terms,
    TractIndex, chain, sheet_by_chain,
};
use title_instrument::{Estate, Estates, Instrument, Release, Rule};
use title_land::{Node, Quarter, Tract};
use title_share::WHOLE;
use title_store::SheetRow;
use title_tree_store::TreeStore;

const UNITED_STATES: u32 = 0;

const ADAMS: u32 = 1;

const BELL: u32 = 2;

const SURFACE: Estates = Estates {
    s: true,
    o: false,
    m: false,
};

// A release of the surface.
fn release(from: u32, to: u32) -> Instrument {
    Instrument::Release(Release {
        from,
        to,
        estates: SURFACE,
    })
}

fn record(examiner: u32, steps: Vec<Step>) -> Record {
    Record {
        examiner,
        steps: Steps::new(steps),
    }
}

fn posting(
    rt: &impl Abort,
    alloc: Global,
    doc: u64,
    node: Node,
    instrument: Instrument,
) -> Posting {
    let terms = Terms {
        doc,
        tract: Tract::of(node),
        instrument,
    };
    Posting::new(alloc, terms).expect(rt, "there is memory")
}

fn posted(
    rt: &impl Abort,
    alloc: Global,
    doc: u64,
    node: Node,
    instrument: Instrument,
    answer: Answer,
) -> Step {
    Step {
        ask: Ask::Post(posting(rt, alloc, doc, node, instrument)),
        answer,
    }
}

/// The entries have these places and document numbers.
fn assert_entries(rt: &impl Abort, entries: &Entries, wanted: &[(u64, u64)]) {
    let mut left = entries.as_slice();
    for (place, doc) in wanted {
        let Some((entry, rest)) = left.split_first() else {
            panic!(rt; "an entry at {place}");
        };
        let is_wanted = entry.place == *place && entry.posting.terms().doc == *doc;
        must(rt, is_wanted, "an entry's place and document");
        left = rest;
    }
    must(rt, left.is_empty(), "no other entry");
}

fn one_row(rt: &impl Abort, alloc: Global) -> SheetRows {
    let mut rows = Vec::new(alloc);
    let row = SheetRow {
        node: Node::Everything,
        estate: Estate::S,
        party: UNITED_STATES,
        units: WHOLE,
    };
    rows.push(row).expect(rt, "there is memory");
    SheetRows::new(rows).expect(rt, "there is memory")
}

fn entry(rt: &impl Abort, alloc: Global) -> Entry {
    Entry {
        place: 1,
        posting: posting(rt, alloc, 7, Node::Everything, release(ADAMS, BELL)),
    }
}

fn copy_of_entry(rt: &impl Abort, alloc: Global, entry: &Entry) -> Entry {
    entry.copy(alloc).expect(rt, "there is memory")
}

fn entries_of(rt: &impl Abort, alloc: Global, entry: Entry) -> Entries {
    let mut entries = Vec::new(alloc);
    entries.push(entry).expect(rt, "there is memory");
    Entries::new(entries).expect(rt, "there is memory")
}

// A copy of an entry alone.
fn entries(rt: &impl Abort, alloc: Global) -> Entries {
    let copy = copy_of_entry(rt, alloc, &entry(rt, alloc));
    entries_of(rt, alloc, copy)
}

// A read of everything that was told one row.
fn sheet_step(rt: &impl Abort, alloc: Global) -> Step {
    Step {
        ask: Ask::Sheet(Tract::of(Node::Everything)),
        answer: Answer::Rows(one_row(rt, alloc)),
    }
}

// A chain of everything that had one entry.
fn chain_step(rt: &impl Abort, alloc: Global) -> Step {
    Step {
        ask: Ask::Chain(Tract::of(Node::Everything)),
        answer: Answer::Entries(entries(rt, alloc)),
    }
}

// A post of everything with this answer.
fn post_step(rt: &impl Abort, alloc: Global, doc: u64, answer: Answer) -> Step {
    let instrument = release(BELL, ADAMS);
    posted(rt, alloc, doc, Node::Everything, instrument, answer)
}

fn add(rt: &impl Abort, steps: &mut Vec<Step>, step: Step) {
    steps.push(step).expect(rt, "there is memory");
}

fn refused() -> Answer {
    Answer::Refused(Rule::ShortTitle, Estate::S, Node::Everything)
}

// A record with a step of each kind; the last is posted, the one before it is refused.
fn add_each(rt: &impl Abort, alloc: Global, steps: &mut Vec<Step>) {
    add(rt, steps, sheet_step(rt, alloc));
    add(rt, steps, chain_step(rt, alloc));
    add(rt, steps, post_step(rt, alloc, 8, refused()));
    add(rt, steps, post_step(rt, alloc, 9, Answer::Posted));
}

fn record_of_each(rt: &impl Abort, alloc: Global) -> Record {
    let mut steps = Vec::new(alloc);
    add_each(rt, alloc, &mut steps);
    record(1, steps)
}

fn records_of(rt: &impl Abort, alloc: Global, record: Record) -> Records {
    let mut records = Vec::new(alloc);
    records.push(record).expect(rt, "there is memory");
    Records::new(records)
}

fn copy_of(rt: &impl Abort, alloc: Global, records: &Records) -> Records {
    records.copy(alloc).expect(rt, "there is memory")
}

fn text_of(rt: &impl Abort, alloc: Global, records: &Records) -> String {
    format!(in alloc; "{records:?}").expect(rt, "there is memory")
}

fn has_text(rt: &impl Abort, alloc: Global, records: &Records, text: &str) -> bool {
    text_of(rt, alloc, records).as_str() == text
}

fn have_one_text(rt: &impl Abort, alloc: Global, a: &Records, b: &Records) -> bool {
    has_text(rt, alloc, a, text_of(rt, alloc, b).as_str())
}

fn last_of(rt: &impl Abort, records: Records) -> Record {
    records.into_vec().pop().expect(rt, "one record")
}

fn vec_of(rt: &impl Abort, alloc: Global, steps: Steps) -> Vec<Step> {
    let Ok(steps) = steps.into_vec(alloc) else {
        panic!(rt; "there is memory");
    };
    steps
}

// The steps of the one record.
fn steps_of(rt: &impl Abort, alloc: Global, records: Records) -> Vec<Step> {
    let Record { steps, .. } = last_of(rt, records);
    vec_of(rt, alloc, steps)
}

// The chain of everything.
fn chain_after(rt: &impl Abort, alloc: Global, records: &Records, own: &[Step]) -> Entries {
    let entries = chain(alloc, records, own, &Tract::of(Node::Everything));
    entries.expect(rt, "there is memory")
}

// A refused post gives no entry, nor does a read of the same tract; own posts come last.
fn assert_chain(rt: &impl Abort, alloc: Global, records: &Records, own: &[Step]) {
    let entries = chain_after(rt, alloc, records, own);
    assert_entries(rt, &entries, &[(1, 9), (0, 9)]);
}

// A copy has the same text; its steps are the own ones.
fn assert_copied(rt: &impl Abort, alloc: Global, records: &Records, copy: Records) {
    let is_same = have_one_text(rt, alloc, records, &copy);
    must(rt, is_same, "the same text");
    assert_chain(rt, alloc, records, steps_of(rt, alloc, copy).as_slice());
}

#[test]
fn a_copy_has_the_same_steps(rt: HostRuntime) {
    let records = records_of(&rt, rt.alloc(), record_of_each(&rt, rt.alloc()));
    let copy = copy_of(&rt, rt.alloc(), &records);
    assert_copied(&rt, rt.alloc(), &records, copy);
}

/// The sheet that no record has changed.
#[test]
fn a_sheet_by_the_chain_of_no_records(rt: HostRuntime) {
    let townships = [township(&rt, 3)];
    let tract = Tract::of(Node::Everything);
    assert!(rt; tract.is_in(&townships));
    let records = Records::new(Vec::new(rt.alloc()));
    let rows = sheet_by_chain::<TreeStore>(rt.alloc(), &records, &townships, &tract);
    let rows = rows.expect(&rt, "there is memory");
    must(&rt, rows.len() == 3, "three rows");
}

// A step that releases this node.
fn release_step(rt: &impl Abort, alloc: Global, doc: u64, node: Node) -> Step {
    posted(rt, alloc, doc, node, release(ADAMS, BELL), Answer::Posted)
}

fn own_steps(rt: &impl Abort, alloc: Global, step: Step) -> OwnSteps {
    let mut own = OwnSteps::new(alloc);
    own.reserve().expect(rt, "there is memory");
    own.push_reserved(step);
    own
}

// The steps of an open transaction: a release of this node.
fn own_post(rt: &impl Abort, alloc: Global, doc: u64, node: Node) -> OwnSteps {
    own_steps(rt, alloc, release_step(rt, alloc, doc, node))
}

// One record more: a release of this node.
fn commit(rt: &impl Abort, alloc: Global, index: &mut TractIndex, doc: u64, node: Node) {
    let own = own_post(rt, alloc, doc, node);
    index.reserve().expect(rt, "there is memory");
    index.push_reserved(record(1, vec_of(rt, alloc, own.into_steps())));
}

// A chain, asked again where memory is refused once.
fn chain_of(rt: &impl Abort, index: &mut TractIndex, own: &mut OwnSteps, tract: &Tract) -> Entries {
    match index.chain(own, tract) {
        Ok(entries) => entries,
        Err(_) => index.chain(own, tract).expect(rt, "there is memory"),
    }
}

/// A release of each node is committed, and then the chain of the tract has these places and document numbers.
fn commit_all(
    rt: &impl Abort,
    alloc: Global,
    index: &mut TractIndex,
    own: &mut OwnSteps,
    tract: &Tract,
    posts: &[(u64, Node, &[(u64, u64)])],
) {
    for (doc, node, wanted) in posts {
        commit(rt, alloc, index, *doc, *node);
        assert_entries(rt, &chain_of(rt, index, own, tract), wanted);
    }
}

// The index has four records, and the open transaction one step.
fn assert_lengths(rt: &impl Abort, index: &TractIndex, own: &OwnSteps) {
    let (records, steps) = (index.as_slice().len(), own.as_slice().len());
    must(rt, index.len() == 4 && records == 4, "four records");
    must(rt, own.len() == 1 && steps == 1, "one own step");
}

// A record that is pushed after a chain was asked stands in the next one, where it shares a cell with the tract.
fn assert_listed(
    rt: &impl Abort,
    alloc: Global,
    quarter: &Node,
    posts: &[(u64, Node, &[(u64, u64)])],
) {
    let mut index = TractIndex::new(alloc);
    let mut own = own_post(rt, alloc, 28, *quarter);
    commit_all(rt, alloc, &mut index, &mut own, &Tract::of(*quarter), posts);
    assert_lengths(rt, &index, &own);
}

#[test]
fn an_index_lists_what_was_posted_since(rt: HostRuntime) {
    let quarter = square(&rt, 5, &[Quarter::Northeast]);
    let beside = square(&rt, 5, &[Quarter::Northwest]);
    let posts: [(u64, Node, &[(u64, u64)]); 4] = [
        (21, square(&rt, 5, &[]), &[(1, 21), (0, 28)]),
        (22, beside, &[(1, 21), (0, 28)]),
        (
            23,
            Node::Township(township(&rt, 3)),
            &[(1, 21), (3, 23), (0, 28)],
        ),
        (24, Node::Everything, &[(1, 21), (3, 23), (4, 24), (0, 28)]),
    ];
    assert_listed(&rt, rt.alloc(), &quarter, &posts);
}
