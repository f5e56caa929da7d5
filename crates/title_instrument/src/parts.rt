//! The parts of an instrument, and of the answers that it gets.

ghost use Rattle.std.specs.Prelude.{◌≡◌, ◌≤◌, ◌↔◌, ℕ, IsTrue, IfOk, IfSome, MatchOption, Some};
ghost use Rattle.title_instrument.specs.{Estates.{names, names_none, estate_text, estates_text}, Numbers.{rule_number, cause_number}};
ghost use Rattle.title_instrument.specs.Passing.{IsNamed, units_named};

use std::fmt;
use title_share::{Share, WHOLE};

/// What of a cell is owned, in order.
#[derive(Clone, Copy, Debug, PartialEq, Eq, PartialOrd, Ord)]
pub enum Estate {
    /// The surface.
    S,
    /// The oil and gas.
    O,
    /// The other minerals.
    M,
}

/// The estates that an instrument names.
#[derive(Clone, Copy, Debug, PartialEq, Eq)]
pub struct Estates {
    pub s: bool,
    pub o: bool,
    pub m: bool,
}

/// How much a deed names.
#[derive(Clone, Copy, Debug, PartialEq, Eq)]
pub enum Quantum {
    /// A share of the whole.
    Whole(Share),
    /// A share of what the grantor holds.
    Interest(Share),
}

/// Why a cell refuses an instrument. The first that holds is told.
#[derive(Clone, Copy, Debug, PartialEq, Eq)]
pub enum Rule {
    /// The grantor holds nothing, or less than is named.
    ShortTitle,
    /// The interest is no whole number of units.
    TooFine,
    /// More is reserved than named.
    OverReserved,
}

/// Why an instrument can't stand. The first that holds is told.
#[derive(Clone, Copy, Debug, PartialEq, Eq)]
pub enum Cause {
    /// A party's number isn't below the number of parties.
    Party,
    /// It passes from a party to itself.
    SameParty,
    /// It names no estate.
    NoEstate,
    /// It has a reservation for an estate that it doesn't name.
    Reservation,
}

/// The estate's letter.
impl fmt::Display for Estate {
    ghost output = { λ e. Some (estate_text e) };

    fn fmt<W: fmt::Write>(&self, f: &mut fmt::Formatter<W>) -> fmt::Result {
        f.write_str(self.letter())
    }
}

impl Estate {
    /// Its letter, as it is printed.
    pub fn letter(self) -> &'static str
        ensures text { result.now ≡ estate_text self }
    {
        match self {
            Estate::S => "S",
            Estate::O => "O",
            Estate::M => "M",
        }
    }
}

/// The letters of the estates that are named, in order, as `SOM`.
impl fmt::Display for Estates {
    ghost output = { λ e. Some (estates_text e) };

    fn fmt<W: fmt::Write>(&self, f: &mut fmt::Formatter<W>) -> fmt::Result {
        f.write_str(self.letters())
    }
}

impl Estates {
    /// The letters of those that are named, in order, as they are printed.
    pub fn letters(self) -> &'static str
        ensures text { result.now ≡ estates_text self }
    {
        match (self.s, self.o, self.m) {
            (true, true, true) => "SOM",
            (true, true, false) => "SO",
            (true, false, true) => "SM",
            (true, false, false) => "S",
            (false, true, true) => "OM",
            (false, true, false) => "O",
            (false, false, true) => "M",
            (false, false, false) => "",
        }
    }

    /// Whether an estate is named.
    pub fn has(self, estate: Estate) -> bool
        ensures has { result ≡ names self estate }
    {
        match estate {
            Estate::S => self.s,
            Estate::O => self.o,
            Estate::M => self.m,
        }
    }

    /// Whether no estate is named.
    pub fn is_empty(self) -> bool
        ensures empty { result ≡ names_none self }
    {
        !(self.s || self.o || self.m)
    }
}

impl Rule {
    /// The rule's number: 11 to 13.
    pub fn number(self) -> u32
        ensures number { result ≡ rule_number self }
    {
        match self {
            Rule::ShortTitle => 11,
            Rule::TooFine => 12,
            Rule::OverReserved => 13,
        }
    }
}

impl Cause {
    /// The cause's number: 1 to 4.
    pub fn number(self) -> u32
        ensures number { result ≡ cause_number self }
    {
        match self {
            Cause::Party => 1,
            Cause::SameParty => 2,
            Cause::NoEstate => 3,
            Cause::Reservation => 4,
        }
    }
}

impl Quantum {
    /// The units that are named, of `held` units of the grantor. `None` where an interest is no
    /// whole number of units.
    pub fn units(self, held: u64) -> Option<u64>
        ensures units { result ≡ units_named self held }
        ensures named { MatchOption result ((m : ℕ) → IsNamed self held m → ⊥) (IsNamed self held) }
    {
        match self {
            Quantum::Whole(share) => Some(share.units()),
            Quantum::Interest(share) => {
                let product = u128::from(share.units()) * u128::from(held);
                if product % u128::from(WHOLE) != 0 {
                    return None;
                }
                Some((product / u128::from(WHOLE)) as u64)
            }
        }
    }
}
