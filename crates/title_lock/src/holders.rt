//! The holders of one node.

ghost use Rattle.std.specs.Prelude.{◌≡◌, ℕ, true, not, ◌==◌, ◌&&◌, ◌||◌, ◌≢◌, false, if◌then◌else◌, Some, None, OnOk, IfOk, IfSome, IfNone};
ghost use Rattle.std.specs.Prelude.{is_some};
ghost use Rattle.title_lock.specs.{declared.modes.Mode.{Mode}, Modes.{bound, is_enough}, Overlaps.{IsLeast}, Counts.{IsCount}};
ghost use Rattle.title_lock.specs.Holders.{Modes, holder_mode, has_room, is_free, clashes, own_part, count_in, leaves, is_clear};
ghost use Rattle.title_lock.specs.Holders.{AreCounted};

use crate::counts::Counts;
use crate::modes::{Mode, bound, compat, is_enough};
use crate::slots::Slots;
use std::alloc::{AllocError, Global};
use std::marker::Model;

/// The examiners that hold a node, with the mode of each and how many have each mode. An examiner with `None` has room and
/// doesn't hold the node.
#[derive(Drop)]
pub(crate) struct Holders {
    counts: Counts,
    slots: Slots,
}

impl Model for Holders {
    ghost Value = { Modes };

    ghost view = { λ h. h.slots };

    ghost invariant = { λ h. AreCounted h.counts h.slots };
}

// How many of those with a mode one examiner is, by what it holds.
fn own_part(held: Option<Mode>, mode: Mode) -> u64
    ensures own { result ≡ own_part held mode }
{
    match (held, mode) {
        (Some(Mode::Is), Mode::Is) => 1,
        (Some(Mode::Ix), Mode::Ix) => 1,
        (Some(Mode::S), Mode::S) => 1,
        (Some(Mode::Six), Mode::Six) => 1,
        (Some(Mode::X), Mode::X) => 1,
        _ => 0,
    }
}

// Whether a mode stands beside the one wanted, or nobody has it but who holds this.
fn leaves(counts: Counts, own: Option<Mode>, wanted: Mode, mode: Mode) -> bool
    ensures leaves { result ≡ leaves counts own wanted mode }
{
    compat(wanted, mode) || counts.of(mode) <= own_part(own, mode)
}

// Whether by the counts less its own mode nobody is in the way of who holds this.
fn is_clear(counts: Counts, own: Option<Mode>, wanted: Mode) -> bool
    ensures clear { result ≡ is_clear counts own wanted }
{
    leaves(counts, own, wanted, Mode::Is)
        && leaves(counts, own, wanted, Mode::Ix)
        && leaves(counts, own, wanted, Mode::S)
        && leaves(counts, own, wanted, Mode::Six)
        && leaves(counts, own, wanted, Mode::X)
}

impl Holders {
    /// Nobody. Takes no memory.
    pub(crate) fn new(alloc: Global) -> Holders
        ensures free { (e : ℕ) → holder_mode result e ≡ None }
        ensures rooms { (e : ℕ) → has_room result e ≡ false }
    {
        Holders {
            counts: Counts::NONE,
            slots: Slots::new(alloc),
        }
    }

    /// The mode of an examiner.
    pub(crate) fn mode(&self, examiner: u32) -> Option<Mode>
        ensures mode { result ≡ holder_mode self.now examiner }
    {
        self.slots.mode(examiner)
    }

    /// How many examiners have each mode.
    pub(crate) fn counts(&self) -> Counts
        ensures counts { (m : Mode) → IsCount (holder_mode self.now) m (count_in result m) }
    {
        self.counts
    }

    /// The least other examiner whose mode doesn't stand beside the one wanted. `None` in place of that where the examiner holds enough:
    /// then nobody is in its way. The counts alone tell where nobody else is.
    pub(crate) fn way(&self, examiner: u32, wanted: Mode) -> Option<Option<u32>>
        ensures held { IfNone result (is_enough (holder_mode self.now examiner) wanted ≡ true) }
        ensures way { IfSome result (IsLeast (λ f. clashes wanted (holder_mode self.now f)) examiner) }
    {
        let held = self.mode(examiner);
        if is_enough(held, wanted) {
            return None;
        }
        if is_clear(self.counts, held, wanted) {
            return Some(None);
        }
        Some(self.slots.way(examiner, wanted))
    }

    /// Makes room for an examiner. Nobody's mode changes. `true` where it had room.
    pub(crate) fn make_room(&mut self, examiner: u32) -> Result<bool, AllocError>
        ensures had { IfOk result (λ had. had ≡ has_room self.old examiner) }
        ensures modes { (e : ℕ) → holder_mode self.new e ≡ holder_mode self.old e }
        ensures room { OnOk result (has_room self.new examiner ≡ true) }
        ensures stays { (e : ℕ) → has_room self.old e ≡ true → has_room self.new e ≡ true }
        ensures others { (e : ℕ) → e ≢ examiner → has_room self.new e ≡ has_room self.old e }
    {
        self.slots.make_room(examiner)
    }

    /// Gives an examiner one mode more. The result is what it held. Takes no memory.
    pub(crate) fn raise(&mut self, examiner: u32, mode: Mode) -> Option<Mode>
        requires room { has_room self.old examiner ≡ true }
        ensures had { result ≡ holder_mode self.old examiner }
        ensures modes { (e : ℕ) → holder_mode self.new e ≡ bound (holder_mode self.old e) (if e == examiner then Some mode else None) }
        ensures rooms { (e : ℕ) → has_room self.new e ≡ has_room self.old e }
    {
        let had = self.slots.raise(examiner, mode);
        let raised = bound(had, Some(mode));
        self.counts = self.counts.moved(had, raised);
        had
    }

    /// Whether nobody holds the node, and nobody has room.
    pub(crate) fn is_free(&self) -> bool
        ensures free { result ≡ is_free self.now }
    {
        self.slots.is_empty()
    }

    /// Takes an examiner out. The result is what it held. Takes no memory.
    pub(crate) fn release(&mut self, examiner: u32) -> Option<Mode>
        ensures had { result ≡ holder_mode self.old examiner }
        ensures modes { (e : ℕ) → holder_mode self.new e ≡ (if e == examiner then None else holder_mode self.old e) }
        ensures rooms { (e : ℕ) → has_room self.new e ≡ (not (e == examiner) && has_room self.old e) }
    {
        let had = self.slots.erase(examiner);
        self.counts = self.counts.moved(had, None);
        had
    }

    /// Takes an examiner's room back where it doesn't hold the node. Takes no memory.
    pub(crate) fn drop_room(&mut self, examiner: u32)
        ensures modes { (e : ℕ) → holder_mode self.new e ≡ holder_mode self.old e }
        ensures rooms { (e : ℕ) → has_room self.new e
            ≡ (if e == examiner then is_some (holder_mode self.old e) else has_room self.old e) }
    {
        match self.mode(examiner) {
            Some(_) => {}
            None => {
                self.slots.erase(examiner);
            }
        }
    }
}
