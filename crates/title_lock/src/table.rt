//! A table of locks: the holders of each node.

ghost use Rattle.std.specs.Prelude.{◌≡◌, ◌≢◌, ℕ, true, false, None, Some, ◌&&◌, ◌==◌, if◌then◌else◌, OnOk, IfOk, IfSome, IfNone};
ghost use Rattle.std.specs.{Prelude.{is_some}, List.{list_any}};
ghost use Rattle.title_land.specs.{declared.node.Node.{Node}, Nodes.{same_node}};
ghost use Rattle.title_lock.specs.{Modes.{allows, bound, is_enough}, Overlaps.{is_post, IsLeast}};
ghost use Rattle.title_lock.specs.{declared.modes.Mode.{Mode}, Counts.{IsCount}, Asking.{asked}};
ghost use Rattle.title_lock.specs.{Holders.{clashes, count_in}, Walks.{walk, clashes_in}};
ghost use Rattle.title_lock.specs.Tables.{on_all, table_mode, table_room, KeepsRoom, HasRoom, IsRooted, IsRoomy, IsGone};
ghost use Rattle.title_lock.specs.Tables.{is_asked, is_idle, IdleMore, IdleLess, NoMoreIdle, AllUsed};

use crate::counts::Counts;
use crate::guards::Access;
use crate::holders::Holders;
use crate::least::least;
use crate::modes::{Mode, is_enough};
use crate::spots::Spot;
use crate::walks::Walk;
use std::alloc::{AllocError, Global};
use std::collections::BTreeMap;
use title_land::Node;

/// The holders of each node in use.
#[derive(Drop)]
pub(crate) struct Table {
    alloc: Global,
    // By the numbers of nodes.
    holders: BTreeMap<u64, Holders>,
}

impl Table {
    /// The table where nobody holds a node. Takes no memory.
    pub(crate) fn new(alloc: Global) -> Table
        ensures free { (e : ℕ) → (n : Node) → table_mode (on_all result) e n ≡ None }
        ensures idle { (e : ℕ) → (n : Node) → is_idle (on_all result) e n ≡ false }
        ensures used { AllUsed (on_all result) }
    {
        Table {
            alloc,
            holders: BTreeMap::new(alloc),
        }
    }

    /// The mode of an examiner at a node.
    pub(crate) fn mode(&self, examiner: u32, node: &Node) -> Option<Mode>
        ensures mode { result ≡ table_mode (on_all self.now) examiner node.now }
    {
        match self.holders.get(&node.number()) {
            Some(holders) => holders.mode(examiner),
            None => None,
        }
    }

    /// How many examiners have each mode at a node.
    pub(crate) fn counts(&self, node: &Node) -> Counts
        ensures counts { (m : Mode) → IsCount (λ e. table_mode (on_all self.now) e node.now) m (count_in result m) }
    {
        match self.holders.get(&node.number()) {
            Some(holders) => holders.counts(),
            None => Counts::NONE,
        }
    }

    // The least other examiner in the way of an access at a node. `None` in place of that where the examiner itself holds enough: then
    // nobody is in its way here, nor above.
    fn way_of(&self, examiner: u32, spot: &Spot, mode: Mode) -> Option<Option<u32>>
        ensures held { IfNone result (is_enough (table_mode (on_all self.now) examiner spot.now.is.node) mode ≡ true) }
        ensures way { IfSome result (IsLeast (λ f. clashes mode (table_mode (on_all self.now) f spot.now.is.node)) examiner) }
    {
        match self.holders.get(&spot.number) {
            Some(holders) => holders.way(examiner, mode),
            None => Some(None),
        }
    }

    /// The least other examiner in the way of an access, by modes. Above a node where the examiner holds enough none is asked. Takes no
    /// memory.
    pub(crate) fn ways(&self, examiner: u32, cover: &[Node], access: Access) -> Option<u32>
        requires rooted { (n : Node) → IsRooted (on_all self.now) examiner n }
        requires apart { (f : ℕ) → f ≢ examiner → (n : Node)
            → allows (table_mode (on_all self.now) examiner n) (table_mode (on_all self.now) f n) ≡ true }
        ensures way { IsLeast (λ f. clashes_in (is_post access) (λ n. table_mode (on_all self.now) f n) (walk None cover.now))
            examiner result }
    {
        let mut way = None;
        let mut walk = Walk::of(cover);
        while let Some(climb) = walk.next() {
            match self.way_of(examiner, &climb.spot, climb.mode(access)) {
                Some(other) => way = least(way, other),
                None => walk.skip(),
            }
        }
        way
    }

    // Makes room for an examiner at a node. `true` where it had room.
    fn make_room(&mut self, examiner: u32, spot: &Spot) -> Result<bool, AllocError>
        ensures had { IfOk result (λ had. had ≡ table_room (on_all self.old) examiner spot.now.is.node) }
        ensures modes { (f : ℕ) → (n : Node) → table_mode (on_all self.new) f n ≡ table_mode (on_all self.old) f n }
        ensures room { OnOk result (table_room (on_all self.new) examiner spot.now.is.node ≡ true) }
        ensures stays { KeepsRoom (on_all self.old) (on_all self.new) }
        ensures idle { IdleMore (on_all self.old) (on_all self.new) examiner (λ n. same_node n spot.now.is.node) }
        ensures others { (n : Node) → same_node n spot.now.is.node ≡ false
            → table_room (on_all self.new) examiner n ≡ table_room (on_all self.old) examiner n }
        ensures used { AllUsed (on_all self.old) → AllUsed (on_all self.new) }
    {
        if let Some(holders) = self.holders.get_mut(&spot.number) {
            return holders.make_room(examiner);
        }
        let mut holders = Holders::new(self.alloc);
        holders.make_room(examiner)?;
        self.holders.insert(spot.number, holders)?;
        Ok(false)
    }

    /// Makes room for what an access asks for: above a node where the examiner has room it has it already. No mode changes, also where
    /// memory is refused.
    pub(crate) fn make_room_all(&mut self, examiner: u32, cover: &[Node]) -> Result<(), AllocError>
        requires roomy { (n : Node) → IsRoomy (on_all self.old) examiner n }
        ensures modes { (f : ℕ) → (n : Node) → table_mode (on_all self.new) f n ≡ table_mode (on_all self.old) f n }
        ensures room { OnOk result (HasRoom (on_all self.new) examiner (λ n. list_any (is_asked n) cover.now)) }
        ensures idle { IdleMore (on_all self.old) (on_all self.new) examiner (λ n. list_any (is_asked n) cover.now) }
        ensures used { AllUsed (on_all self.old) → AllUsed (on_all self.new) }
    {
        let mut walk = Walk::of(cover);
        while let Some(climb) = walk.next() {
            if self.make_room(examiner, &climb.spot)? {
                walk.skip();
            }
        }
        Ok(())
    }

    // Gives an examiner one mode more at a node. The result is what it held.
    fn raise(&mut self, examiner: u32, spot: &Spot, mode: Mode) -> Option<Mode>
        requires room { table_room (on_all self.old) examiner spot.now.is.node ≡ true }
        ensures had { result ≡ table_mode (on_all self.old) examiner spot.now.is.node }
        ensures modes { (f : ℕ) → (n : Node) → table_mode (on_all self.new) f n
            ≡ bound (table_mode (on_all self.old) f n) (if f == examiner && same_node n spot.now.is.node then Some mode else None) }
        ensures stays { KeepsRoom (on_all self.old) (on_all self.new) }
        ensures idle { IdleLess (on_all self.old) (on_all self.new) examiner (λ n. same_node n spot.now.is.node) }
        ensures used { AllUsed (on_all self.old) → AllUsed (on_all self.new) }
    {
        match self.holders.get_mut(&spot.number) {
            Some(holders) => holders.raise(examiner, mode),
            None => None,
        }
    }

    /// Gives an examiner what an access asks for, where there is room for it. Above a node where it held enough it holds enough. Takes no
    /// memory.
    pub(crate) fn raise_all(&mut self, examiner: u32, cover: &[Node], access: Access)
        requires room { HasRoom (on_all self.old) examiner (λ n. list_any (is_asked n) cover.now) }
        requires rooted { (n : Node) → IsRooted (on_all self.old) examiner n }
        ensures modes { (f : ℕ) → (n : Node) → table_mode (on_all self.new) f n
            ≡ bound (table_mode (on_all self.old) f n) (if f == examiner then asked (is_post access) cover.now n else None) }
        ensures idle { IdleLess (on_all self.old) (on_all self.new) examiner (λ n. list_any (is_asked n) cover.now) }
        ensures used { AllUsed (on_all self.old) → AllUsed (on_all self.new) }
    {
        let mut walk = Walk::of(cover);
        while let Some(climb) = walk.next() {
            let mode = climb.mode(access);
            let had = self.raise(examiner, &climb.spot, mode);
            if is_enough(had, mode) {
                walk.skip();
            }
        }
    }

    // Takes an examiner out of a node's holders, and the node with the last of them. The result tells whether it held the node.
    fn take_out(&mut self, examiner: u32, spot: &Spot) -> bool
        ensures had { result ≡ is_some (table_mode (on_all self.old) examiner spot.now.is.node) }
        ensures modes { (f : ℕ) → (n : Node) → table_mode (on_all self.new) f n
            ≡ (if f == examiner && same_node n spot.now.is.node then None else table_mode (on_all self.old) f n) }
        ensures idle { NoMoreIdle (on_all self.old) (on_all self.new) }
        ensures used { AllUsed (on_all self.old) → AllUsed (on_all self.new) }
    {
        let Some(holders) = self.holders.get_mut(&spot.number) else {
            return false;
        };
        let had = holders.release(examiner);
        if holders.is_free() {
            self.holders.remove(&spot.number);
        }
        had.is_some()
    }

    /// Takes an examiner out of the holders of what an access asks for: above a node that it doesn't hold it holds none. Takes no memory.
    pub(crate) fn take_out_all(&mut self, examiner: u32, cover: &[Node])
        requires gone { (c : Node) → list_any (same_node c) cover.now ≡ true → IsGone (on_all self.old) examiner c }
        ensures modes { (f : ℕ) → (n : Node) → table_mode (on_all self.new) f n
            ≡ (if f == examiner && list_any (is_asked n) cover.now then None else table_mode (on_all self.old) f n) }
        ensures idle { NoMoreIdle (on_all self.old) (on_all self.new) }
        ensures used { AllUsed (on_all self.old) → AllUsed (on_all self.new) }
    {
        let mut walk = Walk::of(cover);
        while let Some(climb) = walk.next() {
            if !self.take_out(examiner, &climb.spot) {
                walk.skip();
            }
        }
    }

    // Takes an examiner's room at a node back where it doesn't hold that, and the node with the last that has room.
    fn drop_room(&mut self, examiner: u32, spot: &Spot)
        ensures modes { (f : ℕ) → (n : Node) → table_mode (on_all self.new) f n ≡ table_mode (on_all self.old) f n }
        ensures idle { IdleLess (on_all self.old) (on_all self.new) examiner (λ n. same_node n spot.now.is.node) }
        ensures used { AllUsed (on_all self.old) → AllUsed (on_all self.new) }
    {
        let Some(holders) = self.holders.get_mut(&spot.number) else {
            return;
        };
        holders.drop_room(examiner);
        if holders.is_free() {
            self.holders.remove(&spot.number);
        }
    }

    /// Takes an examiner's room back at what an access asks for, where it holds nothing. Takes no memory.
    pub(crate) fn drop_room_all(&mut self, examiner: u32, cover: &[Node])
        ensures modes { (f : ℕ) → (n : Node) → table_mode (on_all self.new) f n ≡ table_mode (on_all self.old) f n }
        ensures idle { IdleLess (on_all self.old) (on_all self.new) examiner (λ n. list_any (is_asked n) cover.now) }
        ensures used { AllUsed (on_all self.old) → AllUsed (on_all self.new) }
    {
        let mut walk = Walk::of(cover);
        while let Some(climb) = walk.next() {
            self.drop_room(examiner, &climb.spot);
        }
    }
}
