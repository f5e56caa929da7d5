//! Descriptions that were read, and what each says.

ghost use Rattle.std.specs.{Prelude.{◌≡◌, IfOk, IfSome}, String.{string_bytes}};
ghost use Rattle.title_plan.specs.Lands.{land_in};

use crate::lands::read_tract;
use std::alloc::{AllocError, Global};
use std::hash::{BuildHasher, BuildHasherDefault, FoldHasher};
use std::mem;
use title_aliquot::DescFault;
use title_aliquot::describe::LONGEST;
use title_land::Tract;

// The slots of readings, and the ways of each.
const SLOTS: usize = 512;

const WAYS: usize = 8;

// The slots of hashes that were seen.
const SEEN: usize = 4_096;

// The slot of a hash among those of readings.
fn slot_of(hash: u64) -> usize {
    hash as usize % SLOTS
}

// The slot of a hash among those of hashes that were seen.
fn seen_at(hash: u64) -> usize {
    (hash >> 32) as usize % SEEN
}

// What a description says, once more, which shares the tract; `None` where it may not be shared.
fn copied(alloc: Global, said: &Result<Tract, DescFault>) -> Option<Result<Tract, DescFault>>
    ensures copied { IfSome result (λ copy. copy ≡ said.now) }
{
    match said {
        Ok(tract) => match tract.copy(alloc) {
            Ok(tract) => Some(Ok(tract)),
            Err(_) => None,
        },
        Err(why) => Some(Err(*why)),
    }
}

// A description and what it says.
#[derive(Drop)]
struct Reading {
    hash: u64,
    text: String,
    said: Result<Tract, DescFault>,
    ghost read: { said ≡ land_in (string_bytes text) },
}

impl Reading {
    // What a text says; `None` where memory is refused.
    fn new(alloc: Global, hash: u64, text: &str, said: &Result<Tract, DescFault>) -> Option<Reading>
        requires said { said.now ≡ land_in text.now }
    {
        let said = copied(alloc, said)?;
        match String::from_str(alloc, text) {
            Ok(text) => Some(Reading { hash, text, said }),
            Err(_) => None,
        }
    }

    // What a text says, where it is this one.
    fn recall(&self, alloc: Global, hash: u64, text: &str) -> Option<Result<Tract, DescFault>>
        ensures said { IfSome result (λ said. said ≡ land_in text.now) }
    {
        if self.hash != hash || self.text.as_str() != text {
            return None;
        }
        copied(alloc, &self.said)
    }
}

// The readings of a slot, the oldest being the next to go.
#[derive(Drop)]
struct Slot {
    readings: Vec<Reading>,
    next: usize,
}

impl Slot {
    fn new(alloc: Global) -> Slot {
        Slot {
            readings: Vec::new(alloc),
            next: 0,
        }
    }

    fn has_room(&self) -> bool {
        self.readings.len() < WAYS
    }

    // What a text says, where one of these readings is its.
    fn recall(&self, alloc: Global, hash: u64, text: &str) -> Option<Result<Tract, DescFault>>
        ensures said { IfSome result (λ said. said ≡ land_in text.now) }
    {
        for reading in &self.readings {
            if let Some(said) = reading.recall(alloc, hash, text) {
                return Some(said);
            }
        }
        None
    }

    // Takes a reading; in a full slot the oldest goes. It isn't taken where memory is refused.
    fn take(&mut self, reading: Reading) {
        if self.readings.len() < WAYS {
            let _ = self.readings.push(reading);
            return;
        }
        let Some(oldest) = self.readings.get_mut(self.next) else {
            return;
        };
        *oldest = reading;
        self.next = (self.next + 1) % WAYS;
    }
}

/// Descriptions that were read, and what each says, so that one that comes again isn't read again. The hash of a text is its
/// slot's, of which there are 512 with eight ways each: a text takes a free one at once, and that of the oldest when it comes a
/// second time. Texts of more than 1,000 bytes are read as they come.
#[derive(Drop)]
pub struct Readings {
    alloc: Global,
    hashers: BuildHasherDefault<FoldHasher>,
    keeps: bool,
    // None before the first reading that is kept.
    slots: Vec<Slot>,
    // The last hash of those that fall together, of texts that came once and found no free way; none before the first such text.
    seen: Vec<u64>,
}

impl Readings {
    // None yet, of which some are to be kept, or none.
    fn keeping(alloc: Global, keeps: bool) -> Readings {
        Readings {
            alloc,
            hashers: BuildHasherDefault::new(),
            keeps,
            slots: Vec::new(alloc),
            seen: Vec::new(alloc),
        }
    }

    /// None yet. Takes no memory.
    pub fn new(alloc: Global) -> Readings {
        Readings::keeping(alloc, true)
    }

    /// None, and none will be kept: each description is read as it comes. Takes no memory.
    pub(crate) fn none(alloc: Global) -> Readings {
        Readings::keeping(alloc, false)
    }

    // What a text with this hash says, where it is kept.
    fn recall(&self, hash: u64, text: &str) -> Option<Result<Tract, DescFault>>
        ensures said { IfSome result (λ said. said ≡ land_in text.now) }
    {
        let slot = self.slots.get(slot_of(hash))?;
        slot.recall(self.alloc, hash, text)
    }

    // Whether a text with this hash was seen not long ago; from now on it was, unless memory is refused.
    fn is_seen(&mut self, hash: u64) -> bool {
        if self.seen.is_empty() && self.seen.resize(SEEN, 0).is_err() {
            return false;
        }
        match self.seen.get_mut(seen_at(hash)) {
            Some(last) => mem::replace(last, hash) == hash,
            None => false,
        }
    }

    // Whether a text with this hash is to be kept: there is room for it, or it comes a second time.
    fn is_wanted(&mut self, hash: u64) -> bool {
        match self.slots.get(slot_of(hash)) {
            Some(slot) if !slot.has_room() => self.is_seen(hash),
            _ => true,
        }
    }

    // Makes the slots where there are none yet.
    fn make_slots(&mut self) -> Result<(), AllocError> {
        if !self.slots.is_empty() {
            return Ok(());
        }
        let mut slots = Vec::with_capacity(self.alloc, SLOTS)?;
        for _ in 0..SLOTS {
            slots.push(Slot::new(self.alloc))?;
        }
        self.slots = slots;
        Ok(())
    }

    // Keeps what a text with this hash says.
    fn take(&mut self, hash: u64, reading: Reading) -> Result<(), AllocError> {
        self.make_slots()?;
        if let Some(slot) = self.slots.get_mut(slot_of(hash)) {
            slot.take(reading);
        }
        Ok(())
    }

    // Keeps what a text with this hash says, where it is wanted; not where memory is refused.
    fn keep(&mut self, hash: u64, text: &str, said: &Result<Tract, DescFault>)
        requires said { said.now ≡ land_in text.now }
    {
        if !self.is_wanted(hash) {
            return;
        }
        if let Some(reading) = Reading::new(self.alloc, hash, text, said) {
            let _ = self.take(hash, reading);
        }
    }

    /// The tract that a text describes, or the text's fault, as `read_tract` gives it. `Err` is Memory, where it is wanted to
    /// read the text; where it is wanted to keep the text, that isn't kept.
    pub fn read(&mut self, text: &str) -> Result<Result<Tract, DescFault>, AllocError>
        ensures said { IfOk result (λ said. said ≡ land_in text.now) }
    {
        // a longer text describes nothing, which is seen at once
        if !self.keeps || text.len() > LONGEST {
            return read_tract(self.alloc, text);
        }
        let hash = self.hashers.hash_one(text);
        if let Some(said) = self.recall(hash, text) {
            return Ok(said);
        }
        let said = read_tract(self.alloc, text)?;
        self.keep(hash, text, &said);
        Ok(said)
    }
}
