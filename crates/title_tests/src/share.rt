//! The units of shares, and units that pass from party to party. How shares are printed, and which texts are none, stands with the
//! vectors.

use crate::checks::must;
use std::alloc::Global;
use std::mem::size_of;
use std::process::Abort;
use title_share::{Holding, Share, WHOLE};

/// Texts of shares, and their units.
const UNITS: [(&str, u64); 8] = [
    ("1/1", 4_294_967_296),
    ("2/4", 2_147_483_648),
    ("3/8", 1_610_612_736),
    ("6/16", 1_610_612_736),
    ("6/32", 805_306_368),
    ("4294967296/4294967296", 4_294_967_296),
    ("1/4294967296", 1),
    ("4294967295/4294967296", 4_294_967_295),
];

fn assert_units(rt: &impl Abort, rows: &[(&str, u64)]) {
    for (text, units) in rows {
        let share = Share::parse(text).expect(rt, "it is a share");
        must(rt, share.units() == *units, text);
    }
}

#[test]
fn texts_have_their_units(rt: HostRuntime) {
    assert_units(&rt, &UNITS);
}

fn shown(rt: &impl Abort, alloc: Global, share: Share) -> String {
    format!(in alloc; "{share:?} {share}").expect(rt, "there is memory")
}

#[test]
fn of_units(rt: HostRuntime) {
    let share = Share::new(1_610_612_736).expect(&rt, "no more than the whole");
    must(&rt, share.fraction() == (3, 8), "the fraction");
    must(&rt, Share::parse("6/16") == Some(share), "6/16");
    must(&rt, Share::parse("1/1") == Share::new(WHOLE), "1/1");
    let text = shown(&rt, rt.alloc(), share);
    must(
        &rt,
        text.as_str() == "Share { units: 1610612736 } 3/8",
        "the texts",
    );
}

#[test]
fn takes_32_bits(rt: HostRuntime) {
    must(&rt, size_of::<Share>() == 4, "a share");
    must(&rt, size_of::<Option<Share>>() == 8, "a share or none");
}

/// Makes these moves of units, each from a party that has them.
fn move_all(rt: &impl Abort, holding: &mut Holding, moves: &[(u32, u32, u64)]) {
    for (from, to, units) in moves {
        assert!(rt; *units <= holding.units(*from));
        let moved = holding.move_units(*from, *to, *units);
        moved.expect(rt, "there is memory");
    }
}

/// The holding has these rows, and the parties have these units.
fn assert_held(rt: &impl Abort, holding: &Holding, rows: &[(u32, u64)], units: &[(u32, u64)]) {
    must(rt, holding.rows() == rows, "the rows");
    for (party, held) in units {
        must(rt, holding.units(*party) == *held, "a party's units");
    }
}

fn whole(rt: &impl Abort, alloc: Global) -> Holding {
    Holding::whole(alloc, 0).expect(rt, "there is memory")
}

/// Party 0 has the whole.
fn assert_whole(rt: &impl Abort, holding: &Holding) {
    assert_held(rt, holding, &[(0, WHOLE)], &[(0, WHOLE)]);
}

// Party 0 passes a quarter to party 7 in a holding beside the first.
fn moved(rt: &impl Abort, alloc: Global, holding: &Holding) -> Holding {
    assert!(rt; 1_073_741_824 <= holding.units(0));
    let moved = holding.moved(alloc, 0, 7, 1_073_741_824);
    moved.expect(rt, "there is memory")
}

const QUARTER_MOVED: [(u32, u64); 2] = [(0, 3_221_225_472), (7, 1_073_741_824)];

// Party 0 has the whole in the first holding.
#[test]
fn a_moved_holding_stands_beside_the_other(rt: HostRuntime) {
    let holding = whole(&rt, rt.alloc());
    let moved = moved(&rt, rt.alloc(), &holding);
    let units = [(7, 1_073_741_824), (1, 0)];
    assert_held(&rt, &moved, &QUARTER_MOVED, &units);
    assert_whole(&rt, &holding);
}

// Party 0 has 5/8, party 2 and party 7 have 3/16 each.
fn assert_passed(rt: &impl Abort, holding: &mut Holding) {
    let away = [(0, 7, 1_610_612_736), (7, 2, 805_306_368)];
    move_all(rt, holding, &away);
    let rows = [(0, 2_684_354_560), (2, 805_306_368), (7, 805_306_368)];
    assert_held(rt, holding, &rows, &[(2, 805_306_368), (1, 0)]);
}

// All goes back again.
fn assert_passed_back(rt: &impl Abort, holding: &mut Holding, before: &Holding) {
    must(rt, !holding.same(before), "another");
    let back = [(7, 0, 805_306_368), (2, 0, 805_306_368)];
    move_all(rt, holding, &back);
    must(rt, holding.same(before), "the same");
}

fn copy_of(rt: &impl Abort, alloc: Global, holding: &Holding) -> Holding {
    holding.copy(alloc).expect(rt, "there is memory")
}

#[test]
fn units_pass_from_party_to_party(rt: HostRuntime) {
    let mut holding = whole(&rt, rt.alloc());
    let before = copy_of(&rt, rt.alloc(), &holding);
    assert_whole(&rt, &holding);
    assert_passed(&rt, &mut holding);
    assert_passed_back(&rt, &mut holding, &before);
}
