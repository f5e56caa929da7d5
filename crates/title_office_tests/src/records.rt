//! Records that are no commit's, at settling, and the order of those of a settled office.

ghost use Rattle.std.specs.Prelude.{◌≡◌};

use crate::asked::Asked;
use crate::checks::must;
use crate::days::{Commits, commit_two, open, township, two_of};
use std::alloc::Global;
use std::marker::Brand;
use std::process::Abort;
use std::sync::Wait;
use title_chain::Record;
use title_land::Township;
use title_office::{Ledger, Opened, Outcome, Room, Unsettled};

// A record with this examiner and the steps of this outcome's record.
fn mixed(rt: &impl Abort, alloc: Global, examiner: u32, steps_of: &Outcome) -> Record {
    let steps = steps_of.rec.steps.copy(alloc).expect(rt, "there is memory");
    Record { examiner, steps }
}

fn add(rt: &impl Abort, outcomes: &mut Vec<Outcome>, place: u64, rec: Record) {
    let added = outcomes.push(Outcome { place, rec });
    added.expect(rt, "there is memory");
}

// The second outcome, and before or behind it a record at the first place.
fn outcomes(
    rt: &impl Abort,
    alloc: Global,
    rec: Record,
    second: &Outcome,
    is_first: bool,
) -> Vec<Outcome> {
    let mut outcomes = Vec::new(alloc);
    add(rt, &mut outcomes, 1, rec);
    add(
        rt,
        &mut outcomes,
        2,
        mixed(rt, alloc, second.rec.examiner, second),
    );
    if !is_first {
        outcomes.as_mut_slice().reverse();
    }
    outcomes
}

// The office can't be settled with a record at the first place that has this examiner and these steps.
fn assert_different<O: Asked, R: Wait + Abort>(
    rt: &R,
    alloc: Global,
    office: O,
    commits: &Commits,
    examiner: u32,
    steps_of: &Outcome,
) -> O {
    let rec = mixed(rt, alloc, examiner, steps_of);
    let outcomes = outcomes(rt, alloc, rec, &commits.second, true);
    let (office, _, why) = office.unsettled(rt, outcomes);
    must(rt, why == Unsettled::Different(1), "different");
    office
}

// These are the records of the first examiner and of the second.
fn assert_examiners(rt: &impl Abort, records: &[Record]) {
    let [first, second] = records else {
        panic!(rt; "two records");
    };
    must(rt, first.examiner == 1, "the first record");
    must(rt, second.examiner == 2, "the second record");
}

// The records of the settled office stand in the order of their commits, whatever the order of the outcomes.
fn assert_in_order<O: Asked, R: Wait + Abort>(rt: &R, alloc: Global, office: O, commits: &Commits) {
    let rec = mixed(rt, alloc, 1, &commits.first);
    let settled = office.settled(rt, outcomes(rt, alloc, rec, &commits.second, false));
    assert_examiners(rt, O::records(settled, rt).as_slice());
}

// First with the second one's steps, then with the second examiner, then as it is.
fn settle_at_last<O: Asked, R: Wait + Abort>(rt: &R, alloc: Global, office: O, commits: &Commits) {
    let office = assert_different(rt, alloc, office, commits, 1, &commits.second);
    let office = assert_different(rt, alloc, office, commits, 2, &commits.first);
    assert_in_order(rt, alloc, office, commits);
}

fn commit_and_settle<O: Asked, R: Wait + Abort>(
    rt: &R,
    alloc: Global,
    office: O,
    first: O::Seat,
    second: O::Seat,
) {
    let (commits, _) = commit_two(rt, alloc, &office, first, second);
    settle_at_last(rt, alloc, office, &commits);
}

fn records_day<B: Room, R: Wait + Abort>(
    rt: &R,
    alloc: Global,
    ledger: Ledger,
    townships: &[Township],
)
    requires book { ledger ≡ B.book }
    requires setting { B.setting ≡ record { parties = 2; townships = townships.now } }
{
    let Opened {
        office,
        seats,
        viewers: _,
    } = open::<B, R>(rt, alloc, ledger, townships, 2, 0);
    let (first, second) = two_of(rt, seats);
    commit_and_settle(rt, alloc, office, first, second);
}

#[test]
fn another_record_is_different(rt: HostRuntime) {
    let townships = [township(&rt)];
    records_day::<Brand, _>(&rt, rt.alloc(), Ledger::new(), &townships);
}
