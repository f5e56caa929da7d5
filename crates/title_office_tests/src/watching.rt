//! One thread commits a hundred deeds, while another asks a viewer a thousand times.

ghost use Rattle.std.specs.Prelude.{◌≡◌};

use crate::asked::{Asked, Shows};
use crate::checks::must;
use crate::days::{WHOLE, begin_with_deed, one_of, open, section, township, two_of};
use std::alloc::Global;
use std::marker::Brand;
use std::process::Abort;
use std::sync::Wait;
use std::thread::{Threads, join};
use title_chain::SheetRows;
use title_instrument::Estate;
use title_land::{Township, Tract};
use title_office::{Ledger, Office, Opened, Room, Seat, Seen, Viewer};

/// How many deeds are committed.
const DEEDS: u64 = 100;

/// How often the viewer is asked.
const VIEWS: u64 = 1000;

/// What each deed passes, in units: 1/1024 of the whole.
const UNITS: u64 = 4_194_304;

// A deed is committed.
fn sell<O: Asked, R: Wait + Abort>(rt: &R, alloc: Global, office: &O, seat: O::Seat) -> O::Done {
    let slip = begin_with_deed(rt, alloc, office, seat, 5, UNITS);
    office.committed(rt, slip)
}

fn seat_of<O: Asked>(done: O::Done) -> O::Seat {
    let (_, seat) = O::outcome(done);
    seat
}

// All deeds are committed: the last commit.
fn sell_all<O: Asked, R: Wait + Abort>(
    rt: &R,
    alloc: Global,
    office: &O,
    seat: O::Seat,
) -> O::Done {
    let mut done = sell(rt, alloc, office, seat);
    for _ in 1..DEEDS {
        done = sell(rt, alloc, office, seat_of::<O>(done));
    }
    done
}

// What party 0 has left of the surface after so many deeds.
fn units_left(deeds: u64) -> u64 {
    WHOLE.saturating_sub(UNITS.saturating_mul(deeds))
}

// Whether a sheet is that after as many deeds as it tells.
fn is_right(seen: &Seen) -> bool {
    let Some(first) = seen.rows.row(0) else {
        return false;
    };
    first.estate == Estate::S && first.party == 0 && first.units == units_left(seen.front)
}

// How many records a sheet tells, where it's right and none older than the one before.
fn front_after(seen: &Seen, front: u64) -> Option<u64> {
    if seen.front < front || !is_right(seen) {
        None
    } else {
        Some(seen.front)
    }
}

// The same of the next sheet that the viewer shows.
fn next_front<V: Shows>(tract: &Tract, viewer: &mut V, front: u64) -> Option<u64> {
    match viewer.sheet_of(tract) {
        Ok(seen) => front_after(&seen, front),
        Err(_) => None,
    }
}

// Asks the viewer over and over: whether each sheet is right, and none older than the one before.
fn watch_all<V: Shows>(tract: &Tract, viewer: &mut V) -> bool {
    let mut front = 0;
    for _ in 0..VIEWS {
        let Some(next) = next_front(tract, viewer, front) else {
            return false;
        };
        front = next;
    }
    true
}

fn watch<V: Shows + Drop>(tract: &Tract, mut viewer: V) -> bool {
    watch_all(tract, &mut viewer)
}

// A party owns so many units by a row of a sheet.
fn owns(sheet: &SheetRows, index: usize, party: u32, units: u64) -> bool {
    match sheet.row(index) {
        Some(row) => row.party == party && row.units == units,
        None => false,
    }
}

// These rows are the sheet of a section after all deeds: what each of the two parties has of the surface, and two rows more.
fn assert_all_sold(rt: &impl Abort, sheet: &SheetRows) {
    must(rt, sheet.len() == 4, "four rows");
    must(rt, owns(sheet, 0, 0, 3_875_536_896), "what is left");
    must(rt, owns(sheet, 1, 1, 419_430_400), "what is sold");
}

fn assert_all_seen(rt: &impl Abort, seen: &Seen) {
    must(rt, seen.front == 100, "all records");
    assert_all_sold(rt, &seen.rows);
}

// Once it has learnt of the last deed a viewer shows all of them.
fn assert_all_shown<O: Asked, R: Abort>(
    rt: &R,
    tract: &Tract,
    viewer: &mut O::Viewer,
    done: &O::Done,
) {
    let learnt = O::learnt(viewer, done);
    learnt.expect(rt, "the viewer learns of the last deed");
    let seen = viewer.sheet_of(tract);
    assert_all_seen(rt, &seen.expect(rt, "the viewer shows the last sheet"));
}

// One thread sells, the other watches by one viewer; then another viewer learns of the last deed.
fn sell_and_watch<B: Room + Send + Sync, R: Threads + Wait + Abort + Sync>(
    rt: &R,
    alloc: Global,
    land: &Tract,
    office: &Office<B>,
    seat: Seat<B>,
    watching: Viewer<B>,
    learning: &mut Viewer<B>,
) {
    let (is_right, done) = join(
        rt,
        || watch(land, watching),
        || sell_all(rt, alloc, office, seat),
    );
    must(rt, is_right, "each sheet is right, none older");
    assert_all_shown::<Office<B>, R>(rt, land, learning, &done);
}

// An office of one examiner and two viewers.
fn watching_day<B: Room + Send + Sync, R: Threads + Wait + Abort + Sync>(
    rt: &R,
    alloc: Global,
    ledger: Ledger,
    townships: &[Township],
)
    requires book { ledger ≡ B.book }
    requires setting { B.setting ≡ record { parties = 2; townships = townships.now } }
{
    let Opened {
        office,
        seats,
        viewers,
    } = open::<B, R>(rt, alloc, ledger, townships, 1, 2);
    let (watching, mut learning) = two_of(rt, viewers);
    let land = section(rt, alloc, 5);
    let seat = one_of(rt, seats);
    sell_and_watch(rt, alloc, &land, &office, seat, watching, &mut learning);
    office.close(rt);
}

#[test]
fn viewers_watch_a_hundred_deeds(rt: HostRuntime) {
    let townships = [township(&rt)];
    watching_day::<Brand, _>(&rt, rt.alloc(), Ledger::new(), &townships);
}
