//! What the tests ask of an office: deeds of the surface of sections of T3N R2W.

ghost use Rattle.std.specs.Prelude.{◌≡◌, ◌≤◌};
ghost use Rattle.title_office.specs.Offices.{most_seats, opening_seats};
ghost use Rattle.title_views.specs.Views.{most_viewers};

use crate::asked::{Asked, Shows};
use crate::checks::must;
use std::alloc::Global;
use std::process::Abort;
use std::sync::Wait;
use title_chain::{Posting, SheetRows, Terms};
use title_desk::may_open;
use title_instrument::{Deed, Estate, Estates, Instrument, Quantum};
use title_land::{Land, Node, Section, Township, Tract, Within};
use title_office::{Fault, Ledger, Office, Opened, Outcome, Room, Unseen};
use title_share::Share;

/// All of an estate in a cell, in units.
pub const WHOLE: u64 = 4_294_967_296;

/// T3N R2W.
pub fn township(rt: &impl Abort) -> Township {
    Township::new(3, true, 2, false).expect(rt, "the numbers are in range")
}

/// The section of T3N R2W with this number.
pub fn section(rt: &impl Abort, alloc: Global, number: u8) -> Tract {
    let section = Section::new(township(rt), number).expect(rt, "the number is in range");
    let land = Land::of(Node::Part(section, Within::section()));
    Tract::new(alloc, land).expect(rt, "there is memory")
}

fn surface_deed(share: Share) -> Instrument {
    let estates = Estates {
        s: true,
        o: false,
        m: false,
    };
    Instrument::Deed(Deed {
        grantor: 0,
        grantee: 1,
        estates,
        warranty: false,
        quantum: Quantum::Whole(share),
        reserve: [None, None, None],
    })
}

/// A deed of so many units of the surface from party 0 to party 1.
pub fn deed(rt: &impl Abort, alloc: Global, tract: Tract, units: u64) -> Posting {
    let share = Share::new(units).expect(rt, "the units are in range");
    let terms = Terms {
        doc: 101,
        tract,
        instrument: surface_deed(share),
    };
    Posting::new(alloc, terms).expect(rt, "there is memory")
}

/// Office 7, of two parties.
pub fn open<B: Room, R: Wait + Abort>(
    rt: &R,
    alloc: Global,
    ledger: Ledger,
    townships: &[Township],
    examiners: u32,
    viewers: u32,
) -> Opened<B>
    requires book { ledger ≡ B.book }
    requires setting { B.setting ≡ record { parties = 2; townships = townships.now } }
    requires seats { examiners ≤ most_seats }
    requires viewers { viewers ≤ most_viewers }
    ensures seats { result.seats.items ≡ opening_seats 7 examiners }
{
    assert!(rt; may_open(2, townships));
    let opened = Office::<B>::open(rt, alloc, ledger, 7, 2, townships, examiners, viewers);
    opened.expect(rt, "the office opens")
}

/// The last of these, which is taken out.
pub fn last_of<T>(rt: &impl Abort, items: &mut Vec<T>) -> T {
    items.pop().expect(rt, "one more")
}

/// The last of these.
pub fn one_of<T: Drop>(rt: &impl Abort, mut items: Vec<T>) -> T {
    last_of(rt, &mut items)
}

/// The last two of these, in order.
pub fn two_of<T: Drop>(rt: &impl Abort, mut items: Vec<T>) -> (T, T) {
    let second = last_of(rt, &mut items);
    let first = last_of(rt, &mut items);
    (first, second)
}

/// Posts a deed of so many units in this section.
pub fn post<O: Asked, R: Wait + Abort>(
    rt: &R,
    alloc: Global,
    office: &O,
    slip: &mut O::Slip,
    number: u8,
    units: u64,
) -> Result<(), Fault> {
    let posting = deed(rt, alloc, section(rt, alloc, number), units);
    office.posted(rt, slip, posting)
}

/// A transaction with one deed of so many units in this section.
pub fn begin_with_deed<O: Asked, R: Wait + Abort>(
    rt: &R,
    alloc: Global,
    office: &O,
    seat: O::Seat,
    number: u8,
    units: u64,
) -> O::Slip {
    let mut slip = office.begun(rt, seat);
    let posted = post(rt, alloc, office, &mut slip, number, units);
    posted.expect(rt, "the post is answered");
    slip
}

/// A commit has this place, and its receipt tells it.
pub fn assert_place<O: Asked, R: Abort>(rt: &R, done: &O::Done, place: u64) {
    must(rt, O::place(done) == place, "the place");
    must(rt, O::receipt_place(done) == place, "the receipt's place");
}

/// A slip is committed at this place.
pub fn commit_at<O: Asked, R: Wait + Abort>(rt: &R, office: &O, slip: O::Slip, place: u64) {
    let done = office.committed(rt, slip);
    assert_place::<O, R>(rt, &done, place);
}

// A deed of all of this section's surface is committed: its outcome, and the seat.
fn sell_section<O: Asked, R: Wait + Abort>(
    rt: &R,
    alloc: Global,
    office: &O,
    seat: O::Seat,
    number: u8,
) -> (Outcome, O::Seat) {
    let slip = begin_with_deed(rt, alloc, office, seat, number, WHOLE);
    O::outcome(office.committed(rt, slip))
}

/// The outcomes of two examiners' commits.
pub struct Commits {
    pub first: Outcome,
    pub second: Outcome,
}

// By hand, so that whoever lets one go sees one call.
impl Drop for Commits {
    fn drop(self) {
        let Commits { first, second } = self;
        drop(first);
        drop(second);
    }
}

/// The commits of two examiners, each of a deed of a section of its own, and the second one's seat.
pub fn commit_two<O: Asked, R: Wait + Abort>(
    rt: &R,
    alloc: Global,
    office: &O,
    first: O::Seat,
    second: O::Seat,
) -> (Commits, O::Seat) {
    let (first, _) = sell_section(rt, alloc, office, first, 5);
    let (second, seat) = sell_section(rt, alloc, office, second, 6);
    (Commits { first, second }, seat)
}

/// Sweeps these examiners, one after another: whether each has a transaction open is told.
pub fn assert_swept<O: Asked, R: Wait + Abort>(rt: &R, office: &O, wanted: &[(u32, bool)]) {
    for (examiner, is_open) in wanted {
        let was_open = office.swept(rt, *examiner);
        must(rt, was_open == *is_open, "whether it was open");
    }
}

fn has_whole(sheet: &SheetRows, index: usize, estate: Estate, party: u32) -> bool {
    match sheet.row(index) {
        Some(row) => row.estate == estate && row.party == party && row.units == WHOLE,
        None => false,
    }
}

/// These rows are the sheet of a section whose surface party 1 has.
pub fn assert_sold(rt: &impl Abort, sheet: &SheetRows) {
    must(rt, sheet.len() == 3, "three rows");
    must(rt, has_whole(sheet, 0, Estate::S, 1), "the surface");
    must(rt, has_whole(sheet, 1, Estate::O, 0), "the oil");
    must(rt, has_whole(sheet, 2, Estate::M, 0), "the minerals");
}

fn shows_no_sheet<V: Shows>(tract: &Tract, viewer: &mut V) -> bool {
    matches!(viewer.sheet_of(tract), Err(Unseen::Closed))
}

fn shows_no_record<V: Shows>(viewer: &mut V) -> bool {
    matches!(viewer.record_at(1), Err(Unseen::Closed))
}

/// A viewer of a closed office shows nothing.
pub fn assert_closed<V: Shows>(rt: &impl Abort, tract: &Tract, viewer: &mut V) {
    must(rt, shows_no_sheet(tract, viewer), "no sheet");
    must(rt, shows_no_record(viewer), "no record");
}
