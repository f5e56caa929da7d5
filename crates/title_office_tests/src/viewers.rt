//! What viewers show once a record is committed, and when they show nothing.

ghost use Rattle.std.specs.Prelude.{◌≡◌};

use crate::asked::{Asked, Shows};
use crate::checks::must;
use crate::days::{
    WHOLE, assert_closed, assert_place, assert_sold, begin_with_deed, one_of, open, section,
    township, two_of,
};
use std::alloc::Global;
use std::marker::Brand;
use std::process::Abort;
use std::sync::Wait;
use title_chain::Record;
use title_land::{Node, Township, Tract};
use title_office::{Ledger, Opened, Outcome, Room, Seen, Unseen};

fn sheet_of<V: Shows>(rt: &impl Abort, tract: &Tract, viewer: &mut V) -> Seen {
    viewer
        .sheet_of(tract)
        .expect(rt, "the viewer shows the sheet")
}

fn assert_seen_sold(rt: &impl Abort, seen: &Seen) {
    must(rt, seen.front == 1, "behind one record");
    assert_sold(rt, &seen.rows);
}

// A viewer shows the surface of a section of which party 1 has all, behind one record.
fn assert_shows_sold<V: Shows>(rt: &impl Abort, tract: &Tract, viewer: &mut V) {
    assert_seen_sold(rt, &sheet_of(rt, tract, viewer));
}

// The examiner of a record, and how many steps it has.
fn told(record: &Option<Record>) -> Option<(u32, usize)> {
    match record {
        Some(record) => Some((record.examiner, record.steps.as_slice().len())),
        None => None,
    }
}

// The same of the record that a viewer shows with this place.
fn record_of<V: Shows>(rt: &impl Abort, viewer: &mut V, place: u64) -> Option<(u32, usize)> {
    let found = viewer.record_at(place);
    told(&found.expect(rt, "the viewer looks for it"))
}

// A viewer shows the one record, and no record that isn't there.
fn assert_shows_record<V: Shows>(rt: &impl Abort, viewer: &mut V) {
    must(rt, record_of(rt, viewer, 0).is_none(), "no record");
    must(rt, record_of(rt, viewer, 2).is_none(), "no record");
    must(rt, record_of(rt, viewer, 1) == Some((1, 1)), "one record");
}

// A viewer that hasn't learnt of the one record shows a sheet, with it or without.
fn assert_either_front<V: Shows>(rt: &impl Abort, tract: &Tract, viewer: &mut V) {
    let seen = sheet_of(rt, tract, viewer);
    must(rt, seen.front <= 1, "one record or none");
}

fn is_not_declared<V: Shows>(tract: &Tract, viewer: &mut V) -> bool {
    matches!(viewer.sheet_of(tract), Err(Unseen::NoSuchTownship))
}

// A township that isn't declared is refused.
fn assert_not_declared<V: Shows>(rt: &impl Abort, viewer: &mut V) {
    let other = Township::new(4, true, 2, false).expect(rt, "the numbers are in range");
    let tract = Tract::of(Node::Township(other));
    must(rt, is_not_declared(&tract, viewer), "not declared");
}

// The one outcome of a commit.
fn outcomes_of<O: Asked, R: Abort>(rt: &R, alloc: Global, done: O::Done) -> Vec<Outcome> {
    let (outcome, _) = O::outcome(done);
    let mut outcomes = Vec::new(alloc);
    outcomes.push(outcome).expect(rt, "there is memory");
    outcomes
}

// One examiner sells section 5, from a slip that has seen no record.
fn sell<O: Asked, R: Wait + Abort>(rt: &R, alloc: Global, office: &O, seat: O::Seat) -> O::Done {
    let slip = begin_with_deed(rt, alloc, office, seat, 5, WHOLE);
    must(rt, O::seen(&slip) == 0, "no record is seen");
    office.committed(rt, slip)
}

// A viewer that has learnt of a commit, the first, shows what it has done, and the record.
fn assert_shown<O: Asked, R: Abort>(rt: &R, tract: &Tract, viewer: &mut O::Viewer, done: &O::Done) {
    assert_place::<O, R>(rt, done, 1);
    let learnt = O::learnt(viewer, done);
    learnt.expect(rt, "the viewer learns of the record");
    assert_shows_sold(rt, tract, viewer);
    assert_shows_record(rt, viewer);
}

// A viewer that hasn't learnt of it may show either front.
fn assert_beside<V: Shows>(rt: &impl Abort, tract: &Tract, viewer: &mut V) {
    assert_either_front(rt, tract, viewer);
    assert_not_declared(rt, viewer);
}

// A settled office is shown until it is closed.
fn assert_closed_at_last<O: Asked, R: Wait + Abort>(
    rt: &R,
    tract: &Tract,
    settled: O::Settled,
    viewer: &mut O::Viewer,
) {
    assert_shows_sold(rt, tract, viewer);
    let records = O::records(settled, rt);
    must(rt, records.as_slice().len() == 1, "one record");
    assert_closed(rt, tract, viewer);
}

// One examiner sells section 5: the viewer learns of it, the other doesn't. Then the office is settled with the one outcome, and the
// viewer shows it until the end.
fn read_to_the_end<O: Asked, R: Wait + Abort>(
    rt: &R,
    alloc: Global,
    office: O,
    seat: O::Seat,
    mut viewer: O::Viewer,
    mut other: O::Viewer,
) {
    let tract = section(rt, alloc, 5);
    let done = sell(rt, alloc, &office, seat);
    assert_shown::<O, R>(rt, &tract, &mut viewer, &done);
    assert_beside(rt, &tract, &mut other);
    let settled = office.settled(rt, outcomes_of::<O, R>(rt, alloc, done));
    assert_closed_at_last::<O, R>(rt, &tract, settled, &mut viewer);
}

// An office of one examiner and two viewers.
fn viewers_day<B: Room, R: Wait + Abort>(
    rt: &R,
    alloc: Global,
    ledger: Ledger,
    townships: &[Township],
)
    requires book { ledger ≡ B.book }
    requires setting { B.setting ≡ record { parties = 2; townships = townships.now } }
{
    let Opened {
        office,
        seats,
        viewers,
    } = open::<B, R>(rt, alloc, ledger, townships, 1, 2);
    let (other, viewer) = two_of(rt, viewers);
    read_to_the_end(rt, alloc, office, one_of(rt, seats), viewer, other);
}

#[test]
fn a_write_is_read_back(rt: HostRuntime) {
    let townships = [township(&rt)];
    viewers_day::<Brand, _>(&rt, rt.alloc(), Ledger::new(), &townships);
}
