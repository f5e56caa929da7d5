//! Images that are out.

ghost use Rattle.std.specs.Prelude.{◌≡◌, ℕ, ◌+◌, ◌<◌, ◌++◌, ◌∷◌, [], length, OnOk, MatchOption};
ghost use Rattle.title_tree_store.specs.{Slots.{IsNumbered, filled, numbered_prop}, Keeping.{IsTakenOut, IsAbsent}};

use crate::forest::Subtrees;
use std::alloc::{AllocError, Global};
use std::collections::VecDeque;
use title_land::Tract;

/// An image that is out: its number, its tract, and the trees that stood in it, of the estates that were named.
#[derive(Drop)]
pub(crate) struct Lent {
    pub number: u64,
    pub land: Tract,
    pub trees: Subtrees,
}

/// The images that are out, each in the slot of its number; the last slot has the number before the next. A slot is empty
/// where its image was taken out, and goes as soon as no image stands before it.
#[derive(Drop)]
pub(crate) struct Images {
    pub next: u64,
    pub slots: VecDeque<Option<Lent>>,
    ghost numbered: { IsNumbered next slots.items } by { numbered_prop next slots.items },
}

// Drops the empty slots before the first image.
fn trim(slots: &mut VecDeque<Option<Lent>>)
    ensures filled { filled slots.new.items ≡ filled slots.old.items }
    ensures numbered { (next : ℕ) → IsNumbered next slots.old.items → IsNumbered next slots.new.items }
{
    while let Some(None) = slots.front() {
        slots.pop_front();
    }
}

impl Images {
    ghost use Rattle.title_tree_store.specs.Out.{HasRoom, images};

    /// No image, where the first will have number 0.
    pub(crate) fn new(alloc: Global) -> Images
        ensures images { images result ≡ [] }
    {
        Images {
            next: 0,
            slots: VecDeque::new(alloc),
        }
    }

    /// Makes room for one more image; after `Err` there may be none.
    pub(crate) fn reserve(&mut self) -> Result<(), AllocError>
        ensures images { images self.new ≡ images self.old }
        ensures next { self.new.next ≡ self.old.next }
        ensures room { OnOk result (HasRoom self.new) }
    {
        if self.next == u64::MAX {
            return Err(AllocError);
        }
        self.slots.reserve(1)
    }

    /// Adds an image with the next number. Takes no memory.
    #[tactic(auto, using(crate::proofs::Slots::numbered_push, crate::proofs::Slots::filled_push))]
    pub(crate) fn add(&mut self, land: Tract, trees: Subtrees) -> u64
        requires room { HasRoom self.old }
        ensures number { result ≡ self.old.next }
        ensures next { self.new.next ≡ self.old.next + 1 }
        ensures images { images self.new ≡ images self.old ++ record { number = self.old.next; land = land; trees = trees } ∷ [] }
    {
        let number = self.next;
        self.slots.push_back_reserved(Some(Lent {
            number,
            land,
            trees,
        }));
        self.next += 1;
        number
    }

    // The slot of a number, where there is one.
    fn slot_of(&self, number: u64) -> Option<usize>
        ensures slot { MatchOption result (IsAbsent number (images self.now))
            (λ i. (i < length self.now.slots.items) × (number + length self.now.slots.items ≡ self.now.next + i)) }
    {
        if self.next <= number {
            return None;
        }
        let back = self.next - number;
        let len = self.slots.len();
        if (len as u64) < back {
            return None;
        }
        Some(len - back as usize)
    }

    /// Takes out the image of a number.
    pub(crate) fn take(&mut self, number: u64) -> Option<Lent>
        ensures taken { MatchOption result (IsAbsent number (images self.old))
            (λ l. IsTakenOut number l (images self.old) (images self.new)) }
        ensures next { self.new.next ≡ self.old.next }
    {
        let Some(slot) = self.slot_of(number) else {
            return None;
        };
        let taken = self.slots[slot].take();
        trim(&mut self.slots);
        taken
    }
}
