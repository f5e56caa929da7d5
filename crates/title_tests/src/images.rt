//! Deeds in a store whose before-images go back again, in two orders.

ghost use Rattle.std.specs.Prelude.{◌≡◌};
ghost use Rattle.title_store.specs.Loans.{IsTaken};

use crate::checks::{assert_opening, must};
use crate::survey::{township, tract};
use std::alloc::Global;
use std::process::Abort;
use title_cell_store::CellStore;
use title_instrument::{Deed, Estate, Estates, Instrument, Quantum};
use title_land::{Node, Tract};
use title_share::Share;
use title_store::{Put, SheetRow, Store};
use title_tree_store::TreeStore;

/// A quarter of the surface passes from the United States to party 1.
fn deed(rt: &impl Abort) -> Instrument {
    let quarter = Share::parse("1/4").expect(rt, "it is a share");
    let surface = Estates {
        s: true,
        o: false,
        m: false,
    };
    Instrument::Deed(Deed {
        grantor: 0,
        grantee: 1,
        estates: surface,
        quantum: Quantum::Whole(quarter),
        reserve: [None; 3],
        warranty: false,
    })
}

/// Where the deed is posted: the second tract has the first's cells too, and none of the third's.
#[derive(Drop)]
struct Tracts {
    first: Tract,
    second: Tract,
    third: Tract,
}

/// Posts the deed in a tract, and keeps the before-image.
fn put<S: Store>(rt: &impl Abort, store: &mut S, tract: &Tract) -> S::Image
    ensures taken { IsTaken (S.number result) (S.declared store.old) tract.now (S.content store.old) (S.out store.old)
        (S.out store.new) }
{
    assert!(rt; store.holds(tract));
    let Ok(Put::Done(image)) = store.put(tract, &deed(rt)) else {
        panic!(rt; "the deed is posted");
    };
    image
}

/// The rows of the surface have these parties, and units in quarters of the whole.
fn assert_owners(rt: &impl Abort, rows: &[SheetRow], owners: &[(u32, u64)]) {
    let mut left = rows;
    for (party, quarters) in owners {
        let Some((row, rest)) = left.split_first() else {
            panic!(rt; "a row of party {party}");
        };
        let is_so = row.party == *party && row.units == *quarters << 30;
        must(rt, is_so, "a row's owner and units");
        left = rest;
    }
    must(rt, left.is_empty(), "no other row");
}

/// The sheet of section 5 has these owners of the surface.
fn assert_surface<S: Store>(rt: &impl Abort, alloc: Global, store: &S, owners: &[(u32, u64)]) {
    let section = tract(rt, alloc, "T3N R2W sec 5");
    assert!(rt; store.holds(&section));
    let rows = store.part(alloc, Estate::S, &section);
    assert_owners(rt, &rows.expect(rt, "there is memory"), owners);
}

// The quarters of NE1/4 and NW1/4, SW1/4 and SE1/4, after all three deeds and after some.
const AFTER_ALL: [(u32, u64); 12] = [
    (0, 2),
    (1, 2),
    (0, 3),
    (1, 1),
    (0, 3),
    (1, 1),
    (0, 3),
    (1, 1),
    (0, 4),
    (0, 4),
    (0, 3),
    (1, 1),
];

const AFTER_FIRST_AND_SECOND: [(u32, u64); 11] = [
    (0, 2),
    (1, 2),
    (0, 3),
    (1, 1),
    (0, 3),
    (1, 1),
    (0, 3),
    (1, 1),
    (0, 4),
    (0, 4),
    (0, 4),
];

const AFTER_FIRST_AND_THIRD: [(u32, u64); 9] = [
    (0, 3),
    (1, 1),
    (0, 4),
    (0, 4),
    (0, 4),
    (0, 4),
    (0, 4),
    (0, 3),
    (1, 1),
];

const AFTER_FIRST: [(u32, u64); 8] = [
    (0, 3),
    (1, 1),
    (0, 4),
    (0, 4),
    (0, 4),
    (0, 4),
    (0, 4),
    (0, 4),
];

/// Posts in the second tract and the third, and restores the third and the second.
fn third_goes_first<S: Store>(rt: &impl Abort, alloc: Global, store: &mut S, tracts: &Tracts)
    ensures out { S.out store.new ≡ S.out store.old }
{
    let second = put(rt, store, &tracts.second);
    let third = put(rt, store, &tracts.third);
    assert_surface(rt, alloc, store, &AFTER_ALL);
    store.restore(third);
    assert_surface(rt, alloc, store, &AFTER_FIRST_AND_SECOND);
    store.restore(second);
}

/// Posts in the second tract and the third, and restores the second and the third.
fn second_goes_first<S: Store>(rt: &impl Abort, alloc: Global, store: &mut S, tracts: &Tracts)
    ensures out { S.out store.new ≡ S.out store.old }
{
    if tracts.second.meets(&tracts.third) {
        panic!(rt; "they share no cell");
    }
    let second = put(rt, store, &tracts.second);
    let third = put(rt, store, &tracts.third);
    assert_surface(rt, alloc, store, &AFTER_ALL);
    store.restore(second);
    assert_surface(rt, alloc, store, &AFTER_FIRST_AND_THIRD);
    store.restore(third);
}

/// The sheet of everything is the opening plant's.
fn assert_restored<S: Store>(rt: &impl Abort, alloc: Global, store: &S) {
    let plant = Tract::of(Node::Everything);
    assert!(rt; store.holds(&plant));
    let rows = store.sheet(alloc, &plant);
    assert_opening(rt, &rows.expect(rt, "there is memory"));
}

/// Posts in the second tract and the third, and restores both, the third or the second first.
fn both_go_back<S: Store>(
    rt: &impl Abort,
    alloc: Global,
    store: &mut S,
    tracts: &Tracts,
    is_third_first: bool,
)
    ensures out { S.out store.new ≡ S.out store.old }
{
    if is_third_first {
        third_goes_first(rt, alloc, store, tracts);
    } else {
        second_goes_first(rt, alloc, store, tracts);
    }
}

/// Posts in all three tracts, and restores them, the first at last.
fn go_back<S: Store>(
    rt: &impl Abort,
    alloc: Global,
    store: &mut S,
    tracts: &Tracts,
    is_third_first: bool,
) {
    let first = put(rt, store, &tracts.first);
    both_go_back(rt, alloc, store, tracts, is_third_first);
    assert_surface(rt, alloc, store, &AFTER_FIRST);
    store.restore(first);
    assert_restored(rt, alloc, store);
}

/// Images go back in the order third, second, first, and second, third, first.
fn go_back_twice<S: Store>(rt: &impl Abort, alloc: Global, store: &mut S) {
    let tracts = Tracts {
        first: tract(rt, alloc, "T3N R2W sec 5 NE1/4NE1/4"),
        second: tract(rt, alloc, "T3N R2W sec 5 NE1/4"),
        third: tract(rt, alloc, "T3N R2W sec 5 SE1/4"),
    };
    go_back(rt, alloc, store, &tracts, true);
    go_back(rt, alloc, store, &tracts, false);
}

#[test]
fn images_of_cells_go_back(rt: HostRuntime) {
    let store = CellStore::open(rt.alloc(), &[township(&rt, 3)]);
    go_back_twice(&rt, rt.alloc(), &mut store.expect(&rt, "there is memory"));
}

#[test]
fn images_of_trees_go_back(rt: HostRuntime) {
    let store = TreeStore::open(rt.alloc(), &[township(&rt, 3)]);
    go_back_twice(&rt, rt.alloc(), &mut store.expect(&rt, "there is memory"));
}
