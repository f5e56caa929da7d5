//! The settling of an office: each reason why it can't be settled, and then its records.

ghost use Rattle.std.specs.Prelude.{◌≡◌};

use crate::asked::Asked;
use crate::checks::must;
use crate::days::{Commits, WHOLE, begin_with_deed, commit_two, open, township, two_of};
use crate::slips::abort;
use std::alloc::Global;
use std::marker::Brand;
use std::process::Abort;
use std::sync::Wait;
use title_land::Township;
use title_office::{Ledger, Opened, Outcome, Room, Unsettled};

// An equal outcome with this place.
fn placed(rt: &impl Abort, alloc: Global, outcome: &Outcome, place: u64) -> Outcome {
    let rec = outcome.rec.copy(alloc).expect(rt, "there is memory");
    Outcome { place, rec }
}

fn add(rt: &impl Abort, outcomes: &mut Vec<Outcome>, outcome: Outcome) {
    outcomes.push(outcome).expect(rt, "there is memory");
}

fn commit_of(commits: &Commits, is_first: bool) -> &Outcome {
    if is_first {
        &commits.first
    } else {
        &commits.second
    }
}

// The outcomes with these places, each the first or the second commit's.
fn outcomes(
    rt: &impl Abort,
    alloc: Global,
    commits: &Commits,
    wanted: &[(bool, u64)],
) -> Vec<Outcome> {
    let mut outcomes = Vec::new(alloc);
    for (is_first, place) in wanted {
        let outcome = placed(rt, alloc, commit_of(commits, *is_first), *place);
        add(rt, &mut outcomes, outcome);
    }
    outcomes
}

// The office can't be settled with these outcomes, for this reason, and comes back.
fn assert_unsettled<O: Asked, R: Wait + Abort>(
    rt: &R,
    alloc: Global,
    office: O,
    commits: &Commits,
    wanted: &[(bool, u64)],
    reason: Unsettled,
) -> O {
    let (office, back, why) = office.unsettled(rt, outcomes(rt, alloc, commits, wanted));
    must(rt, why == reason, "the reason");
    must(rt, back == wanted.len(), "the outcomes come back");
    office
}

// The office is settled with these outcomes.
fn assert_settled<O: Asked, R: Wait + Abort>(
    rt: &R,
    alloc: Global,
    office: O,
    commits: &Commits,
    wanted: &[(bool, u64)],
) {
    let settled = office.settled(rt, outcomes(rt, alloc, commits, wanted));
    let records = O::records(settled, rt);
    must(rt, records.as_slice().len() == 2, "two records");
}

const FIRST_ALONE: [(bool, u64); 1] = [(true, 1)];

const FIRST_TWICE: [(bool, u64); 3] = [(true, 1), (true, 1), (false, 2)];

const FIRST_AT_THREE: [(bool, u64); 2] = [(true, 3), (false, 2)];

const AT_NOUGHT: [(bool, u64); 3] = [(true, 1), (false, 2), (true, 0)];

const SWAPPED: [(bool, u64); 2] = [(true, 2), (false, 1)];

static AS_THEY_ARE: [(bool, u64); 2] = [(false, 2), (true, 1)];

// The least place at fault is told, whichever fault it is.
const DOUBLED_BEFORE_MISSING: [(bool, u64); 2] = [(true, 1), (true, 1)];

const MISSING_BEFORE_DOUBLED: [(bool, u64); 2] = [(false, 2), (false, 2)];

const DIFFERENT_BEFORE_MISSING: [(bool, u64); 1] = [(false, 1)];

// A place that there isn't is told before all of these, and of two the lesser.
const UNKNOWN_BEFORE_MISSING: [(bool, u64); 1] = [(true, 3)];

const TWO_UNKNOWN: [(bool, u64); 3] = [(true, 4), (false, 3), (true, 1)];

static REASONS: [(&[(bool, u64)], Unsettled); 10] = [
    (&DOUBLED_BEFORE_MISSING, Unsettled::Doubled(1)),
    (&MISSING_BEFORE_DOUBLED, Unsettled::Missing(1)),
    (&DIFFERENT_BEFORE_MISSING, Unsettled::Different(1)),
    (&UNKNOWN_BEFORE_MISSING, Unsettled::Unknown(3)),
    (&TWO_UNKNOWN, Unsettled::Unknown(3)),
    (&FIRST_ALONE, Unsettled::Missing(2)),
    (&FIRST_TWICE, Unsettled::Doubled(1)),
    (&FIRST_AT_THREE, Unsettled::Unknown(3)),
    (&AT_NOUGHT, Unsettled::Unknown(0)),
    (&SWAPPED, Unsettled::Different(1)),
];

// Each wrong list of outcomes.
fn assert_reasons<O: Asked, R: Wait + Abort>(
    rt: &R,
    alloc: Global,
    office: O,
    commits: &Commits,
    reasons: &[(&[(bool, u64)], Unsettled)],
) -> O {
    let mut office = office;
    for (wanted, reason) in reasons {
        office = assert_unsettled(rt, alloc, office, commits, wanted, *reason);
    }
    office
}

// Each wrong list of outcomes, and then the right one, in another order.
fn settle_with_each<O: Asked, R: Wait + Abort>(
    rt: &R,
    alloc: Global,
    office: O,
    commits: &Commits,
) {
    let office = assert_reasons(rt, alloc, office, commits, &REASONS);
    assert_settled(rt, alloc, office, commits, &AS_THEY_ARE);
}

// The office isn't settled until the open slip is given up, and then only with the right outcomes.
fn settle_at_last<O: Asked, R: Wait + Abort>(
    rt: &R,
    alloc: Global,
    office: O,
    commits: &Commits,
    slip: O::Slip,
) {
    let open = Unsettled::Open(2);
    let office = assert_unsettled(rt, alloc, office, commits, &AS_THEY_ARE, open);
    abort(rt, &office, slip, true);
    settle_with_each(rt, alloc, office, commits);
}

// The second examiner begins again after the two commits.
fn commit_and_settle<O: Asked, R: Wait + Abort>(
    rt: &R,
    alloc: Global,
    office: O,
    first: O::Seat,
    second: O::Seat,
) {
    let (commits, seat) = commit_two(rt, alloc, &office, first, second);
    let slip = begin_with_deed(rt, alloc, &office, seat, 7, WHOLE);
    settle_at_last(rt, alloc, office, &commits, slip);
}

// An office of two examiners.
fn settle_day<B: Room, R: Wait + Abort>(
    rt: &R,
    alloc: Global,
    ledger: Ledger,
    townships: &[Township],
)
    requires book { ledger ≡ B.book }
    requires setting { B.setting ≡ record { parties = 2; townships = townships.now } }
{
    let Opened {
        office,
        seats,
        viewers: _,
    } = open::<B, R>(rt, alloc, ledger, townships, 2, 0);
    let (first, second) = two_of(rt, seats);
    commit_and_settle(rt, alloc, office, first, second);
}

#[test]
fn each_reason_comes(rt: HostRuntime) {
    let townships = [township(&rt)];
    settle_day::<Brand, _>(&rt, rt.alloc(), Ledger::new(), &townships);
}
