//! The entries in the order of their coming, and which are whose.

ghost use Rattle.std.specs.Prelude.{◌≡◌, ◌≢◌, ◌==◌, ◌&&◌, not, ℕ, true, List, [], ◌∷◌, ◌++◌, reverse, OnOk, OnErr, IfSome, IfNone};
ghost use Rattle.std.specs.BTreeMap.{values};
ghost use Rattle.title_lock.specs.{declared.guards.Entry.{Entry}, Overlaps.{without}};
ghost use Rattle.title_lock.specs.Books.{is_nothing, numbers_of, number_room, is_empty_kept, IsBook, IsNewest};

use crate::guards::Entry;
use std::alloc::{AllocError, Global};
use std::collections::BTreeMap;
use std::marker::Model;

/// Entries by numbers that ascend as they come, and the numbers of each examiner's. No examiner is kept that has no entry.
#[derive(Drop)]
pub(crate) struct Book {
    alloc: Global,
    entries: BTreeMap<u64, Entry>,
    numbers: BTreeMap<u32, Vec<u64>>,
    next: u64,
}

impl Model for Book {
    ghost Value = { List Entry };

    ghost view = { λ b. reverse (values b.entries) };

    ghost invariant = { λ b. IsBook b.entries b.numbers b.next };
}

// Makes room for one number of an examiner's more. An error keeps nobody who wasn't kept.
fn make_room(
    alloc: Global,
    numbers: &mut BTreeMap<u32, Vec<u64>>,
    examiner: u32,
) -> Result<(), AllocError>
    ensures numbers { (e : ℕ) → numbers_of numbers.new e ≡ numbers_of numbers.old e }
    ensures room { OnOk result (number_room numbers.new examiner ≡ true) }
    ensures others { (e : ℕ) → e ≢ examiner → is_empty_kept numbers.new e ≡ is_empty_kept numbers.old e }
    ensures err { OnErr result (is_empty_kept numbers.new examiner ≡ is_empty_kept numbers.old examiner) }
{
    if let Some(own) = numbers.get_mut(&examiner) {
        return own.reserve(1);
    }
    let own = Vec::with_capacity(alloc, 1)?;
    numbers.insert(examiner, own)?;
    Ok(())
}

// Adds a number where there is room for it.
fn push_number(numbers: &mut BTreeMap<u32, Vec<u64>>, examiner: u32, number: u64)
    requires room { number_room numbers.old examiner ≡ true }
    ensures own { numbers_of numbers.new examiner ≡ numbers_of numbers.old examiner ++ number ∷ [] }
    ensures others { (e : ℕ) → e ≢ examiner → numbers_of numbers.new e ≡ numbers_of numbers.old e }
    ensures kept { (e : ℕ) → e ≢ examiner → is_empty_kept numbers.new e ≡ is_empty_kept numbers.old e }
{
    if let Some(own) = numbers.get_mut(&examiner) {
        own.push_reserved(number);
    }
}

// Takes an examiner's room back where it has no number.
fn drop_room(numbers: &mut BTreeMap<u32, Vec<u64>>, examiner: u32)
    ensures numbers { (e : ℕ) → numbers_of numbers.new e ≡ numbers_of numbers.old e }
    ensures kept { (e : ℕ) → is_empty_kept numbers.new e ≡ (not (e == examiner) && is_empty_kept numbers.old e) }
{
    let is_empty = match numbers.get(&examiner) {
        Some(own) => own.is_empty(),
        None => false,
    };
    if is_empty {
        numbers.remove(&examiner);
    }
}

// Takes out the last of an examiner's numbers.
fn pop_last(numbers: &mut BTreeMap<u32, Vec<u64>>, examiner: u32) -> Option<u64>
    ensures some { IfSome result (λ number. numbers_of numbers.old examiner ≡ numbers_of numbers.new examiner ++ number ∷ []) }
    ensures none { IfNone result ((numbers_of numbers.old examiner ≡ []) × (numbers_of numbers.new examiner ≡ [])) }
    ensures others { (e : ℕ) → e ≢ examiner → numbers_of numbers.new e ≡ numbers_of numbers.old e }
    ensures kept { (e : ℕ) → e ≢ examiner → is_empty_kept numbers.new e ≡ is_empty_kept numbers.old e }
{
    let Some(own) = numbers.get_mut(&examiner) else {
        return None;
    };
    own.pop()
}

// Takes out the last of an examiner's numbers, and its room with the last of all.
fn pop_number(numbers: &mut BTreeMap<u32, Vec<u64>>, examiner: u32) -> Option<u64>
    ensures some { IfSome result (λ number. numbers_of numbers.old examiner ≡ numbers_of numbers.new examiner ++ number ∷ []) }
    ensures none { IfNone result ((numbers_of numbers.old examiner ≡ []) × (numbers_of numbers.new examiner ≡ [])) }
    ensures others { (e : ℕ) → e ≢ examiner → numbers_of numbers.new e ≡ numbers_of numbers.old e }
    ensures kept { (e : ℕ) → is_empty_kept numbers.new e ≡ (not (e == examiner) && is_empty_kept numbers.old e) }
{
    let number = pop_last(numbers, examiner);
    drop_room(numbers, examiner);
    number
}

impl Book {
    /// No entry. Takes no memory.
    pub(crate) fn new(alloc: Global) -> Book
        ensures empty { result ≡ [] }
    {
        Book {
            alloc,
            entries: BTreeMap::new(alloc),
            numbers: BTreeMap::new(alloc),
            next: 0,
        }
    }

    /// Whether there is no entry.
    pub(crate) fn is_empty(&self) -> bool
        ensures empty { result ≡ is_nothing self.now }
    {
        self.entries.is_empty()
    }

    /// Adds an entry. An error, for memory or after 2^64 - 1 entries, leaves them as they were.
    pub(crate) fn push(&mut self, entry: Entry) -> Result<(), AllocError>
        ensures ok { OnOk result (self.new ≡ entry ∷ self.old) }
        ensures err { OnErr result (self.new ≡ self.old) }
    {
        let number = self.next;
        let Some(next) = number.checked_add(1) else {
            return Err(AllocError);
        };
        let examiner = entry.examiner;
        make_room(self.alloc, &mut self.numbers, examiner)?;
        let Ok(_) = self.entries.insert(number, entry) else {
            drop_room(&mut self.numbers, examiner);
            return Err(AllocError);
        };
        push_number(&mut self.numbers, examiner, number);
        self.next = next;
        Ok(())
    }

    /// Takes out an examiner's newest entry; `None` where it has none. Takes no memory.
    pub(crate) fn take(&mut self, examiner: u32) -> Option<Entry>
        ensures own { IfSome result (λ x. x.examiner ≡ examiner) }
        ensures taken { IfSome result (λ x. IsNewest examiner x self.new self.old) }
        ensures none { IfNone result ((self.new ≡ self.old) × (without examiner self.old ≡ self.old)) }
    {
        let Some(number) = pop_number(&mut self.numbers, examiner) else {
            return None;
        };
        self.entries.remove(&number)
    }
}
