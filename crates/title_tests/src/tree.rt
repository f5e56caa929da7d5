//! A tree and its copy.

use crate::checks::must;
use std::alloc::Global;
use std::process::Abort;
use std::sync::Arc;
use title_land::Quarter;
use title_share::{Holding, WHOLE};
use title_tree::Tree;
use title_tree::tree::Block;

fn whole(rt: &impl Abort, alloc: Global, party: u32) -> Holding {
    Holding::whole(alloc, party).expect(rt, "there is memory")
}

/// A leaf that this party owns.
fn leaf(rt: &impl Abort, alloc: Global, party: u32) -> Tree {
    let held = Arc::new(alloc, whole(rt, alloc, party));
    Tree::Leaf(held.expect(rt, "there is memory"))
}

/// Four quarters, which parties 1 to 4 own in their order.
fn quartered(rt: &impl Abort, alloc: Global) -> Tree {
    let block = Block {
        northeast: leaf(rt, alloc, 1),
        northwest: leaf(rt, alloc, 2),
        southwest: leaf(rt, alloc, 3),
        southeast: leaf(rt, alloc, 4),
    };
    Tree::Quarters(Box::new(alloc, block).expect(rt, "there is memory"))
}

fn copy_of(rt: &impl Abort, alloc: Global, tree: &Tree) -> Tree {
    tree.copy(alloc).expect(rt, "there is memory")
}

/// The whole of a quarter is this party's.
fn assert_owner(rt: &impl Abort, tree: &Tree, quarter: Quarter, party: u32) {
    let held = tree.quarter(quarter).first_holding();
    must(rt, held.units(party) == WHOLE, "a quarter's owner");
}

/// Each quarter in its order is this party's.
fn assert_owners(rt: &impl Abort, tree: &Tree, parties: [u32; 4]) {
    assert_owner(rt, tree, Quarter::Northeast, parties[0]);
    assert_owner(rt, tree, Quarter::Northwest, parties[1]);
    assert_owner(rt, tree, Quarter::Southwest, parties[2]);
    assert_owner(rt, tree, Quarter::Southeast, parties[3]);
}

/// Puts another tree in the northeast quarter.
fn change(rt: &impl Abort, tree: &mut Tree, northeast: Tree) {
    let Tree::Quarters(four) = tree else {
        panic!(rt; "it has quarters");
    };
    four.northeast = northeast;
}

/// A copy has the same holdings, and keeps its tree's when it is changed.
fn assert_copied(rt: &impl Abort, alloc: Global, tree: &Tree, copy: &mut Tree) {
    assert_owners(rt, copy, [1, 2, 3, 4]);
    change(rt, copy, leaf(rt, alloc, 5));
    assert_owners(rt, copy, [5, 2, 3, 4]);
    assert_owners(rt, tree, [1, 2, 3, 4]);
}

#[test]
fn a_copied_tree_stands_beside_the_other(rt: HostRuntime) {
    let tree = quartered(&rt, rt.alloc());
    assert_copied(&rt, rt.alloc(), &tree, &mut copy_of(&rt, rt.alloc(), &tree));
}
