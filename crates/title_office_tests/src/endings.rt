//! The end of an office in which nothing was committed.

ghost use Rattle.std.specs.Prelude.{◌≡◌};

use crate::asked::{Asked, Shows};
use crate::checks::must;
use crate::days::{WHOLE, assert_closed, begin_with_deed, one_of, open, section, township};
use crate::slips::abort;
use std::alloc::Global;
use std::marker::Brand;
use std::process::Abort;
use std::sync::Wait;
use title_land::{Township, Tract};
use title_office::{Ledger, Opened, Room};

// A seat posts and aborts, begins again and aborts.
fn abort_twice<O: Asked, R: Wait + Abort>(rt: &R, alloc: Global, office: &O, seat: O::Seat) {
    let slip = begin_with_deed(rt, alloc, office, seat, 5, WHOLE);
    let seat = abort(rt, office, slip, true);
    let slip = office.begun(rt, seat);
    abort(rt, office, slip, true);
}

// The office is settled with no outcome, and has no record.
fn assert_nothing<O: Asked, R: Wait + Abort>(rt: &R, alloc: Global, office: O) {
    let settled = office.settled(rt, Vec::new(alloc));
    let records = O::records(settled, rt);
    must(rt, records.as_slice().is_empty(), "no record");
}

// A viewer shows a sheet, until the office is closed.
fn close_shown<O: Asked, R: Wait + Abort>(rt: &R, tract: &Tract, office: O, mut viewer: O::Viewer) {
    must(rt, viewer.sheet_of(tract).is_ok(), "a sheet");
    office.closed(rt);
    assert_closed(rt, tract, &mut viewer);
}

// An office of one examiner, which is settled.
fn settled_day<B: Room, R: Wait + Abort>(
    rt: &R,
    alloc: Global,
    ledger: Ledger,
    townships: &[Township],
)
    requires book { ledger ≡ B.book }
    requires setting { B.setting ≡ record { parties = 2; townships = townships.now } }
{
    let Opened {
        office,
        seats,
        viewers: _,
    } = open::<B, R>(rt, alloc, ledger, townships, 1, 0);
    abort_twice(rt, alloc, &office, one_of(rt, seats));
    assert_nothing(rt, alloc, office);
}

// An office of one viewer, which is closed and was never settled.
fn closed_day<B: Room, R: Wait + Abort>(
    rt: &R,
    alloc: Global,
    ledger: Ledger,
    townships: &[Township],
)
    requires book { ledger ≡ B.book }
    requires setting { B.setting ≡ record { parties = 2; townships = townships.now } }
{
    let Opened {
        office,
        seats: _,
        viewers,
    } = open::<B, R>(rt, alloc, ledger, townships, 1, 1);
    close_shown(rt, &section(rt, alloc, 5), office, one_of(rt, viewers));
}

#[test]
fn nothing_is_settled(rt: HostRuntime) {
    let townships = [township(&rt)];
    settled_day::<Brand, _>(&rt, rt.alloc(), Ledger::new(), &townships);
}

#[test]
fn a_closed_office_shows_nothing(rt: HostRuntime) {
    let townships = [township(&rt)];
    closed_day::<Brand, _>(&rt, rt.alloc(), Ledger::new(), &townships);
}
