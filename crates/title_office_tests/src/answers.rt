//! The answers to a slip's sheets and chains: after its own steps, and after those of a committed transaction.

ghost use Rattle.std.specs.Prelude.{◌≡◌};

use crate::asked::Asked;
use crate::checks::must;
use crate::days::{WHOLE, assert_sold, begin_with_deed, one_of, open, section, township};
use std::alloc::Global;
use std::marker::Brand;
use std::process::Abort;
use std::sync::Wait;
use title_chain::{Answer, Entry};
use title_land::Township;
use title_office::{Ledger, Opened, Outcome, Room};

// These entries are one deed, with the place of its record.
fn assert_chain(rt: &impl Abort, entries: &[Entry], place: u64) {
    let [entry] = entries else {
        panic!(rt; "one entry");
    };
    let doc = entry.posting.terms().doc;
    must(rt, entry.place == place && doc == 101, "the deed");
}

// This answer is the sheet of the sold section.
fn assert_is_sheet(rt: &impl Abort, answer: Option<&Answer>) {
    match answer {
        Some(Answer::Rows(rows)) => assert_sold(rt, rows),
        _ => panic!(rt; "the last answer is a sheet"),
    }
}

// This answer is the chain of the sold section: the deed, with the place of its record.
fn assert_is_chain(rt: &impl Abort, answer: Option<&Answer>, place: u64) {
    match answer {
        Some(Answer::Entries(entries)) => assert_chain(rt, entries.as_slice(), place),
        _ => panic!(rt; "the last answer is a chain"),
    }
}

fn ask_sheet<O: Asked, R: Wait + Abort>(rt: &R, alloc: Global, office: &O, slip: &mut O::Slip) {
    let asked = office.asked_sheet(rt, slip, section(rt, alloc, 5));
    asked.expect(rt, "the sheet is answered");
    assert_is_sheet(rt, O::answer(slip));
}

fn ask_chain<O: Asked, R: Wait + Abort>(
    rt: &R,
    alloc: Global,
    office: &O,
    slip: &mut O::Slip,
    place: u64,
) {
    let asked = office.asked_chain(rt, slip, section(rt, alloc, 5));
    asked.expect(rt, "the chain is answered");
    assert_is_chain(rt, O::answer(slip), place);
}

// The last answers are the sheet and the chain of the sold section.
fn ask_both<O: Asked, R: Wait + Abort>(
    rt: &R,
    alloc: Global,
    office: &O,
    slip: &mut O::Slip,
    place: u64,
) {
    ask_sheet(rt, alloc, office, slip);
    ask_chain(rt, alloc, office, slip, place);
}

fn assert_steps(rt: &impl Abort, outcome: &Outcome, place: u64, steps: usize) {
    let len = outcome.rec.steps.as_slice().len();
    must(rt, outcome.place == place && len == steps, "the record");
}

// A slip is committed as the record with this place, of so many steps; its seat.
fn commit_steps<O: Asked, R: Wait + Abort>(
    rt: &R,
    office: &O,
    slip: O::Slip,
    place: u64,
    steps: usize,
) -> O::Seat {
    let (outcome, seat) = O::outcome(office.committed(rt, slip));
    assert_steps(rt, &outcome, place, steps);
    seat
}

// A deed is shown by its own transaction.
fn ask_own<O: Asked, R: Wait + Abort>(rt: &R, alloc: Global, office: &O, seat: O::Seat) -> O::Seat {
    let mut slip = begin_with_deed(rt, alloc, office, seat, 5, WHOLE);
    ask_both(rt, alloc, office, &mut slip, 0);
    commit_steps(rt, office, slip, 1, 3)
}

// And by the next one once it is committed.
fn ask_next<O: Asked, R: Wait + Abort>(rt: &R, alloc: Global, office: &O, seat: O::Seat) {
    let mut slip = office.begun(rt, seat);
    ask_both(rt, alloc, office, &mut slip, 1);
    commit_steps(rt, office, slip, 2, 2);
}

fn ask_twice<O: Asked, R: Wait + Abort>(rt: &R, alloc: Global, office: &O, seat: O::Seat) {
    let seat = ask_own(rt, alloc, office, seat);
    ask_next(rt, alloc, office, seat);
}

fn answers_day<B: Room, R: Wait + Abort>(
    rt: &R,
    alloc: Global,
    ledger: Ledger,
    townships: &[Township],
)
    requires book { ledger ≡ B.book }
    requires setting { B.setting ≡ record { parties = 2; townships = townships.now } }
{
    let Opened {
        office,
        seats,
        viewers: _,
    } = open::<B, R>(rt, alloc, ledger, townships, 1, 0);
    ask_twice(rt, alloc, &office, one_of(rt, seats));
    office.close(rt);
}

#[test]
fn sheets_and_chains_are_answered(rt: HostRuntime) {
    let townships = [township(&rt)];
    answers_day::<Brand, _>(&rt, rt.alloc(), Ledger::new(), &townships);
}
