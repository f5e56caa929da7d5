//! An examiner who is gone is in the way of others until it is swept.

ghost use Rattle.std.specs.Prelude.{◌≡◌};

use crate::asked::Asked;
use crate::checks::must;
use crate::days::{WHOLE, assert_swept, begin_with_deed, commit_at, open, post, township, two_of};
use std::alloc::Global;
use std::marker::Brand;
use std::process::Abort;
use std::sync::Wait;
use title_chain::Answer;
use title_land::Township;
use title_office::{Fault, Ledger, Opened, Room};
use title_trace::Denial;

// The first examiner is in the way of a deed of section 5.
fn assert_in_the_way<O: Asked, R: Wait + Abort>(
    rt: &R,
    alloc: Global,
    office: &O,
    slip: &mut O::Slip,
) {
    let posted = post(rt, alloc, office, slip, 5, WHOLE);
    let is_refused = matches!(posted, Err(Fault::Denied(Denial::Conflict(1))));
    must(rt, is_refused, "the first examiner is in the way");
}

// Nobody is in the way of a deed of section 5.
fn assert_posted<O: Asked, R: Wait + Abort>(rt: &R, alloc: Global, office: &O, slip: &mut O::Slip) {
    let posted = post(rt, alloc, office, slip, 5, WHOLE);
    posted.expect(rt, "the post is answered");
    let is_posted = matches!(O::answer(slip), Some(Answer::Posted));
    must(rt, is_posted, "posted");
}

// The first examiner's deed is in the way of the second's, until the first is swept.
fn assert_swept_away<O: Asked, R: Wait + Abort>(
    rt: &R,
    alloc: Global,
    office: &O,
    slip: &mut O::Slip,
) {
    assert_swept(rt, office, &[(9, false)]);
    assert_in_the_way(rt, alloc, office, slip);
    assert_swept(rt, office, &[(1, true), (1, false), (9, false)]);
    assert_posted(rt, alloc, office, slip);
}

// The first examiner's slip is dropped; only a sweep of that examiner takes its deed out of the way.
fn sweep_the_first<O: Asked, R: Wait + Abort>(
    rt: &R,
    alloc: Global,
    office: &O,
    first: O::Seat,
    second: O::Seat,
) {
    drop(begin_with_deed(rt, alloc, office, first, 5, WHOLE));
    let mut slip = office.begun(rt, second);
    assert_swept_away(rt, alloc, office, &mut slip);
    commit_at(rt, office, slip, 1);
}

fn gone_day<B: Room, R: Wait + Abort>(rt: &R, alloc: Global, ledger: Ledger, townships: &[Township])
    requires book { ledger ≡ B.book }
    requires setting { B.setting ≡ record { parties = 2; townships = townships.now } }
{
    let Opened {
        office,
        seats,
        viewers: _,
    } = open::<B, R>(rt, alloc, ledger, townships, 2, 0);
    let (first, second) = two_of(rt, seats);
    sweep_the_first(rt, alloc, &office, first, second);
    office.close(rt);
}

#[test]
fn the_gone_are_swept(rt: HostRuntime) {
    let townships = [township(&rt)];
    gone_day::<Brand, _>(&rt, rt.alloc(), Ledger::new(), &townships);
}
