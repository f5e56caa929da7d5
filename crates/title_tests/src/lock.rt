//! Locks in section 5 of T3N R2W, call by call, as a list and by node.

use crate::checks::must;
use crate::survey::tract;
use std::alloc::Global;
use std::process::Abort;
use title_land::{Node, Tract};
use title_lock::{Access, Guards, LockFault, Mode, NodeLocks, RowLocks, compat, sup};

const SECTION: &str = "T3N R2W sec 5";

const NORTHEAST: &str = "T3N R2W sec 5 NE1/4";

const SOUTHEAST: &str = "T3N R2W sec 5 SE1/4";

const BOTH: &str = "T3N R2W sec 5 NE1/4, SE1/4";

const CORNER: &str = "T3N R2W sec 5 NE1/4NE1/4NE1/4";

const BESIDE: &str = "T3N R2W sec 5 SE1/4NE1/4NE1/4";

const READ: Access = Access::Read;

const POST: Access = Access::Post;

const IS: Option<Mode> = Some(Mode::Is);

const IX: Option<Mode> = Some(Mode::Ix);

const S: Option<Mode> = Some(Mode::S);

const SIX: Option<Mode> = Some(Mode::Six);

const X: Option<Mode> = Some(Mode::X);

// What an examiner does, or has, in the tract of a description.
#[derive(Clone, Copy)]
enum Act {
    // It looks who would be in the way.
    Looks(&'static str, Access, Option<u32>),
    // It asks for the tract, and is told who is in the way.
    Asks(&'static str, Access, Option<u32>),
    GivesBack,
    // Its modes at the tract's one node and at each node above it, up to the whole plant.
    Has(&'static str, &'static [Option<Mode>]),
}

// Examiner 1 has read the northeast quarter and posts in its corner: an ask of two quarters that is refused at one leaves no
// lock at the other, nor changes those that the examiner has. What 1 gives back is free for others, who keep theirs when one
// goes; the least of those in the way is told.
static ACTS: [(u32, Act); 22] = [
    (1, Act::Asks(NORTHEAST, READ, None)),
    (1, Act::Asks(CORNER, POST, None)),
    (1, Act::Has(CORNER, &[X, IX, SIX, IX, IX, IX])),
    (2, Act::Looks(SECTION, READ, Some(1))),
    (2, Act::Looks(BESIDE, READ, None)),
    (2, Act::Asks(BOTH, POST, Some(1))),
    (2, Act::Has(SOUTHEAST, &[None; 4])),
    (2, Act::Has(NORTHEAST, &[None; 4])),
    (2, Act::Asks(BESIDE, READ, None)),
    (2, Act::Asks(BOTH, POST, Some(1))),
    (2, Act::Has(SOUTHEAST, &[None, IS, IS, IS])),
    (2, Act::Has(BESIDE, &[S, IS, IS, IS, IS, IS])),
    (1, Act::GivesBack),
    (1, Act::Has(CORNER, &[None; 6])),
    (2, Act::GivesBack),
    (3, Act::Asks(NORTHEAST, READ, None)),
    (2, Act::Asks(NORTHEAST, READ, None)),
    (5, Act::Asks(NORTHEAST, POST, Some(2))),
    (2, Act::GivesBack),
    (4, Act::Asks(NORTHEAST, POST, Some(3))),
    (3, Act::GivesBack),
    (4, Act::Asks(NORTHEAST, POST, None)),
];

/// Who is in the way of an access that is asked for.
fn ask<G: Guards>(
    rt: &impl Abort,
    locks: &mut G,
    examiner: u32,
    tract: &Tract,
    access: Access,
) -> Option<u32> {
    match locks.ask(examiner, tract, access) {
        Ok(()) => None,
        Err(LockFault::Conflict(other)) => Some(other),
        Err(LockFault::Memory) => panic!(rt; "there is memory"),
    }
}

fn assert_way<G: Guards>(
    rt: &impl Abort,
    locks: &G,
    examiner: u32,
    tract: &Tract,
    access: Access,
    way: Option<u32>,
) {
    let would = locks.would(examiner, tract, access);
    must(rt, would == way, "who would be in the way");
}

fn assert_asked<G: Guards>(
    rt: &impl Abort,
    locks: &mut G,
    examiner: u32,
    tract: &Tract,
    access: Access,
    way: Option<u32>,
) {
    assert_way(rt, locks, examiner, tract, access, way);
    let is = ask(rt, locks, examiner, tract, access);
    must(rt, is == way, "who is in the way");
}

fn assert_modes<G: Guards>(
    rt: &impl Abort,
    locks: &G,
    examiner: u32,
    node: Node,
    modes: &[Option<Mode>],
) {
    let mut left = Some(node);
    for mode in modes {
        let node = left.expect(rt, "as many nodes as modes");
        must(rt, locks.mode(examiner, &node) == *mode, "a mode");
        left = node.parent();
    }
    must(rt, left.is_none(), "as many modes as nodes");
}

/// The one node of a tract.
fn node_of(rt: &impl Abort, tract: &Tract) -> Node {
    let [node] = tract.cover() else {
        panic!(rt; "one node");
    };
    *node
}

fn carry_out<G: Guards>(rt: &impl Abort, alloc: Global, locks: &mut G, examiner: u32, act: Act) {
    match act {
        Act::Looks(text, access, way) => {
            let tract = tract(rt, alloc, text);
            assert_way(rt, locks, examiner, &tract, access, way);
        }
        Act::Asks(text, access, way) => {
            let tract = tract(rt, alloc, text);
            assert_asked(rt, locks, examiner, &tract, access, way);
        }
        Act::GivesBack => locks.give_back(examiner),
        Act::Has(text, modes) => {
            let node = node_of(rt, &tract(rt, alloc, text));
            assert_modes(rt, locks, examiner, node, modes);
        }
    }
}

fn act_all<G: Guards>(rt: &impl Abort, alloc: Global, locks: &mut G, acts: &[(u32, Act)]) {
    for (examiner, act) in acts {
        carry_out(rt, alloc, locks, *examiner, *act);
    }
}

#[test]
fn locks_are_listed(rt: HostRuntime) {
    let mut locks = RowLocks::new(rt.alloc());
    act_all(&rt, rt.alloc(), &mut locks, &ACTS);
}

#[test]
fn locks_stand_by_node(rt: HostRuntime) {
    let mut locks = NodeLocks::new(rt.alloc());
    act_all(&rt, rt.alloc(), &mut locks, &ACTS);
}

// So many entries a table by node doesn't list once a second examiner asks.
const MANY: u32 = 600;

/// Examiner 9 reads section 6 so often that what others ask from now on is spread over the nodes.
fn crowd<G: Guards>(rt: &impl Abort, alloc: Global, locks: &mut G) {
    let elsewhere = tract(rt, alloc, "T3N R2W sec 6");
    for _ in 0..MANY {
        assert_asked(rt, locks, 9, &elsewhere, READ, None);
    }
    assert_asked(rt, locks, 8, &elsewhere, POST, Some(9));
}

#[test]
fn locks_stand_by_node_beside_many(rt: HostRuntime) {
    let mut locks = NodeLocks::new(rt.alloc());
    crowd(&rt, rt.alloc(), &mut locks);
    act_all(&rt, rt.alloc(), &mut locks, &ACTS);
}

fn told(rt: &impl Abort, alloc: Global, conflict: LockFault, memory: LockFault) -> String {
    format!(in alloc; "{conflict}, {memory}").expect(rt, "there is memory")
}

#[test]
fn faults_and_tables(rt: HostRuntime) {
    let text = told(&rt, rt.alloc(), LockFault::Conflict(7), LockFault::Memory);
    let is_told = text.as_str() == "examiner 7 is in the way, out of memory";
    must(&rt, is_told, "the faults' texts");
    must(&rt, compat(Mode::Is, Mode::Six), "compatible");
    must(
        &rt,
        sup(Mode::S, Mode::Ix) == Mode::Six,
        "the least above both",
    );
}
