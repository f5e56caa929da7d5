//! Slips that are aborted or swept.

ghost use Rattle.std.specs.Prelude.{◌≡◌};

use crate::asked::Asked;
use crate::checks::must;
use crate::days::{WHOLE, assert_swept, begin_with_deed, commit_at, one_of, open, township};
use std::alloc::Global;
use std::marker::Brand;
use std::process::Abort;
use std::sync::Wait;
use title_land::Township;
use title_office::{Fault, Ledger, Opened, Room};
use title_trace::Denial;

/// Aborts a slip, which is open or isn't, as it should be; its seat.
pub fn abort<O: Asked, R: Wait + Abort>(
    rt: &R,
    office: &O,
    slip: O::Slip,
    is_open: bool,
) -> O::Seat {
    let (seat, was_open) = office.aborted(rt, slip);
    must(rt, was_open == is_open, "whether it was open");
    seat
}

// A slip that isn't taken comes back with this fault's text.
fn assert_refused<O: Asked, R: Wait + Abort>(
    rt: &R,
    office: &O,
    slip: O::Slip,
    wanted: &str,
) -> O::Slip {
    let (slip, why) = office.refused(rt, slip);
    must(rt, word(&why) == wanted, wanted);
    slip
}

// A fault in a word.
fn word(why: &Fault) -> &'static str {
    match why {
        Fault::Denied(Denial::NotOpen) => "not open",
        Fault::Stranger => "stranger",
        _ => "another",
    }
}

// A slip that is swept isn't committed, and gives the seat back.
fn sweep_and_abort<O: Asked, R: Wait + Abort>(rt: &R, office: &O, slip: O::Slip) -> O::Seat {
    assert_swept(rt, office, &[(1, true), (1, false)]);
    let slip = assert_refused(rt, office, slip, "not open");
    abort(rt, office, slip, false)
}

// A slip is aborted, and its seat begins again; the next slip is swept, isn't committed, and gives the seat back.
fn abort_and_sweep<O: Asked, R: Wait + Abort>(rt: &R, alloc: Global, office: &O, seat: O::Seat) {
    let slip = begin_with_deed(rt, alloc, office, seat, 5, WHOLE);
    let seat = abort(rt, office, slip, true);
    let slip = begin_with_deed(rt, alloc, office, seat, 5, WHOLE);
    let seat = sweep_and_abort(rt, office, slip);
    let slip = begin_with_deed(rt, alloc, office, seat, 5, WHOLE);
    commit_at(rt, office, slip, 1);
}

fn abort_day<B: Room, R: Wait + Abort>(
    rt: &R,
    alloc: Global,
    ledger: Ledger,
    townships: &[Township],
)
    requires book { ledger ≡ B.book }
    requires setting { B.setting ≡ record { parties = 2; townships = townships.now } }
{
    let Opened {
        office,
        seats,
        viewers: _,
    } = open::<B, R>(rt, alloc, ledger, townships, 1, 0);
    abort_and_sweep(rt, alloc, &office, one_of(rt, seats));
    office.close(rt);
}

#[test]
fn abort_and_sweep_give_the_seat_back(rt: HostRuntime) {
    let townships = [township(&rt)];
    abort_day::<Brand, _>(&rt, rt.alloc(), Ledger::new(), &townships);
}
