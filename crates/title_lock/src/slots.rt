//! The slots of one node's holders.

ghost use Rattle.std.specs.Prelude.{◌≡◌, ℕ, true, false, not, ◌==◌, ◌&&◌, ◌≢◌, nat_lt, if◌then◌else◌, Some, None, OnOk, IfOk};
ghost use Rattle.title_lock.specs.{Modes.{bound}, Overlaps.{IsLeast}};
ghost use Rattle.title_lock.specs.Holders.{Modes, holder_mode, has_room, is_free, clashes, listed, first_way, IsApart};

use crate::modes::{Mode, bound, compat};
use std::alloc::{AllocError, Global};
use std::collections::BTreeMap;
use std::marker::Model;

/// The examiners that have room at a node, with the mode of each that holds it. Most nodes have one, which takes no memory.
#[derive(Drop)]
pub(crate) struct Slots {
    // Whoever came when there was no first; others may have stood here then. It isn't among them.
    first: Option<(u32, Option<Mode>)>,
    others: BTreeMap<u32, Option<Mode>>,
}

impl Model for Slots {
    ghost Value = { Modes };

    ghost view = { λ p. listed p.first p.others.entries };

    ghost invariant = { λ p. IsApart p.first p.others.entries };
}

/// Whether what is held doesn't let a mode stand beside it.
fn clashes(mode: Mode, held: Option<Mode>) -> bool
    ensures clashes { result ≡ clashes mode held }
{
    match held {
        None => false,
        Some(held) => !compat(mode, held),
    }
}

// The first holder where it is another examiner whose mode doesn't stand beside the one wanted.
fn first_way(first: Option<(u32, Option<Mode>)>, examiner: u32, wanted: Mode) -> Option<u32>
    ensures way { result ≡ first_way first examiner wanted }
{
    match first {
        Some((other, held)) => if other != examiner && clashes(wanted, held) {
            Some(other)
        } else {
            None
        },
        None => None,
    }
}

// Looks for the least other examiner whose mode doesn't stand beside the one wanted.
fn search(modes: &BTreeMap<u32, Option<Mode>>, examiner: u32, wanted: Mode) -> Option<u32>
    ensures least { IsLeast (λ f. clashes wanted (holder_mode modes.now.entries f)) examiner result }
{
    for (other, held) in modes {
        let in_way = clashes(wanted, *held);
        if in_way && *other != examiner {
            return Some(*other);
        }
    }
    None
}

// The same among those who stand before an examiner: none behind is looked at.
fn search_before(
    modes: &BTreeMap<u32, Option<Mode>>,
    examiner: u32,
    wanted: Mode,
    end: u32,
) -> Option<u32>
    ensures least { IsLeast (λ f. nat_lt f end && clashes wanted (holder_mode modes.now.entries f)) examiner result }
{
    for (other, held) in modes.range(..end) {
        let in_way = clashes(wanted, *held);
        if in_way && *other != examiner {
            return Some(*other);
        }
    }
    None
}

// Makes room for an examiner. `true` where it had room.
fn add_room(modes: &mut BTreeMap<u32, Option<Mode>>, examiner: u32) -> Result<bool, AllocError>
    ensures had { IfOk result (λ had. had ≡ has_room modes.old.entries examiner) }
    ensures modes { (e : ℕ) → holder_mode modes.new.entries e ≡ holder_mode modes.old.entries e }
    ensures room { OnOk result (has_room modes.new.entries examiner ≡ true) }
    ensures stays { (e : ℕ) → has_room modes.old.entries e ≡ true → has_room modes.new.entries e ≡ true }
    ensures others { (e : ℕ) → e ≢ examiner → has_room modes.new.entries e ≡ has_room modes.old.entries e }
{
    if modes.contains_key(&examiner) {
        return Ok(true);
    }
    modes.insert(examiner, None)?;
    Ok(false)
}

// Gives an examiner one mode more where there is room for it. The result is what it held.
fn raise_among(modes: &mut BTreeMap<u32, Option<Mode>>, examiner: u32, mode: Mode) -> Option<Mode>
    requires room { has_room modes.old.entries examiner ≡ true }
    ensures had { result ≡ holder_mode modes.old.entries examiner }
    ensures modes { (e : ℕ) → holder_mode modes.new.entries e
        ≡ (if e == examiner then bound result (Some mode) else holder_mode modes.old.entries e) }
    ensures rooms { (e : ℕ) → has_room modes.new.entries e ≡ has_room modes.old.entries e }
{
    match modes.get_mut(&examiner) {
        Some(held) => {
            let had = *held;
            *held = bound(had, Some(mode));
            had
        }
        None => None,
    }
}

impl Slots {
    /// Nobody. Takes no memory.
    pub(crate) fn new(alloc: Global) -> Slots
        ensures free { (e : ℕ) → holder_mode result e ≡ None }
        ensures rooms { (e : ℕ) → has_room result e ≡ false }
    {
        Slots {
            first: None,
            others: BTreeMap::new(alloc),
        }
    }

    /// Whether nobody has a slot.
    pub(crate) fn is_empty(&self) -> bool
        ensures free { result ≡ is_free self.now }
    {
        self.first.is_none() && self.others.is_empty()
    }

    /// The mode of an examiner.
    pub(crate) fn mode(&self, examiner: u32) -> Option<Mode>
        ensures mode { result ≡ holder_mode self.now examiner }
    {
        if let Some((first, held)) = self.first {
            if first == examiner {
                return held;
            }
        }
        match self.others.get(&examiner) {
            Some(held) => *held,
            None => None,
        }
    }

    /// The least other examiner whose mode doesn't stand beside the one wanted.
    pub(crate) fn way(&self, examiner: u32, wanted: Mode) -> Option<u32>
        ensures way { IsLeast (λ f. clashes wanted (holder_mode self.now f)) examiner result }
    {
        let Some(first) = first_way(self.first, examiner, wanted) else {
            return search(&self.others, examiner, wanted);
        };
        match search_before(&self.others, examiner, wanted, first) {
            None => Some(first),
            before => before,
        }
    }

    /// Makes room for an examiner. Nobody's mode changes. `true` where it had room.
    pub(crate) fn make_room(&mut self, examiner: u32) -> Result<bool, AllocError>
        ensures had { IfOk result (λ had. had ≡ has_room self.old examiner) }
        ensures modes { (e : ℕ) → holder_mode self.new e ≡ holder_mode self.old e }
        ensures room { OnOk result (has_room self.new examiner ≡ true) }
        ensures stays { (e : ℕ) → has_room self.old e ≡ true → has_room self.new e ≡ true }
        ensures others { (e : ℕ) → e ≢ examiner → has_room self.new e ≡ has_room self.old e }
    {
        let Some((first, _)) = self.first else {
            if self.others.contains_key(&examiner) {
                return Ok(true);
            }
            self.first = Some((examiner, None));
            return Ok(false);
        };
        if first == examiner {
            return Ok(true);
        }
        add_room(&mut self.others, examiner)
    }

    /// Gives an examiner one mode more where there is room for it. The result is what it held. Takes no memory.
    pub(crate) fn raise(&mut self, examiner: u32, mode: Mode) -> Option<Mode>
        requires room { has_room self.old examiner ≡ true }
        ensures had { result ≡ holder_mode self.old examiner }
        ensures modes { (e : ℕ) → holder_mode self.new e ≡ (if e == examiner then bound result (Some mode) else holder_mode self.old e) }
        ensures rooms { (e : ℕ) → has_room self.new e ≡ has_room self.old e }
    {
        if let Some((first, held)) = self.first {
            if first == examiner {
                self.first = Some((first, bound(held, Some(mode))));
                return held;
            }
        }
        raise_among(&mut self.others, examiner, mode)
    }

    /// Takes an examiner out. The result is what it held. Takes no memory.
    pub(crate) fn erase(&mut self, examiner: u32) -> Option<Mode>
        ensures had { result ≡ holder_mode self.old examiner }
        ensures modes { (e : ℕ) → holder_mode self.new e ≡ (if e == examiner then None else holder_mode self.old e) }
        ensures rooms { (e : ℕ) → has_room self.new e ≡ (not (e == examiner) && has_room self.old e) }
    {
        if let Some((first, held)) = self.first {
            if first == examiner {
                self.first = None;
                return held;
            }
        }
        match self.others.remove(&examiner) {
            Some(held) => held,
            None => None,
        }
    }
}
