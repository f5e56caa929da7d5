//! Shares of a whole.

ghost use Rattle.std.specs.{Prelude.{◌≡◌, ◌≤◌, ◌<◌, ◌*◌, ◌^◌, ◌++◌, ◌∷◌, ℕ, MatchOption, Some}, Fmt.{decimal}};
ghost use Rattle.title_share.specs.{Rows.{whole_units}, Share.{IsFraction, IsLowest, IsNumber, IsPart, IsShareText, lowest, share_text}};
ghost use Rattle.title_share.specs.Texts.{share_in};

use crate::holding::WHOLE;
use std::fmt;
use std::marker::Model;

/// A share of a whole: from 1 to 4,294,967,296 units, which are the whole.
#[derive(Clone, Copy, PartialEq, Eq)]
pub struct Share {
    // The units less one, so that the whole fits 32 bits too.
    units_less_one: u32,
}

impl Model for Share {
    ghost use Rattle.std.{specs.Prelude.{ℕ, ◌+◌, ◌-◌}, proofs.Math.Nat.{add-sub_cancel}};

    ghost Value = { ℕ };

    ghost view = { λ s. s.units_less_one + 1 };

    ghost inverse = { λ n. record { units_less_one = n - 1 } };

    ghost inverse_ok = { λ s h i. record { units_less_one = add-sub_cancel s.units_less_one 1 i } };
}

/// The number from 1 to 2^64 - 1 that a text writes in decimal, without leading zeros; `None` where it writes none.
pub fn number(text: &str) -> Option<u64>
    ensures number { MatchOption result ((n : ℕ) → n < 2 ^ 64 → IsNumber text.now n → ⊥) (λ n. IsNumber text.now n) }
{
    match text.as_bytes() {
        [b'1'..=b'9', ..] => text.parse::<u64>().ok(),
        _ => None,
    }
}

// How often a power of two goes into the whole.
fn weight(bottom: u64) -> Option<u64>
    ensures weight { MatchOption result (IsPart bottom → ⊥) (λ w. IsPart bottom × (w * bottom ≡ whole_units) × (0 < w)) }
{
    for k in 0..33u32 {
        if bottom == 1 << k {
            return Some(1 << (32 - k));
        }
    }
    None
}

impl Share {
    /// The share of so many units. `None` exactly where they aren't from 1 to the whole.
    pub fn new(units: u64) -> Option<Share>
        ensures new { MatchOption result (¬ ((0 < units) × (units ≤ whole_units))) (λ s. s ≡ units) }
    {
        if units == 0 || units > WHOLE {
            return None;
        }
        Some(Share::of(units))
    }

    // The share of so many units, which are from 1 to the whole.
    fn of(units: u64) -> Share
        requires some { 0 < units }
        requires most { units ≤ whole_units }
        ensures of { result ≡ units }
    {
        Share {
            units_less_one: (units - 1) as u32,
        }
    }

    /// The share that a text `a/b` names, a/b of the whole. `None` where it names none: both are
    /// decimal numbers without leading zeros, b is a power of two up to the whole, 1 <= a <= b.
    pub fn parse(text: &str) -> Option<Share>
        ensures share { MatchOption result ((n : ℕ) → IsShareText text.now n → ⊥) (λ s. IsShareText text.now s) }
        ensures named { result ≡ share_in text.now }
    {
        let Some((top, bottom)) = text.split_once('/') else {
            return None;
        };
        let Some(top) = number(top) else {
            return None;
        };
        let Some(bottom) = number(bottom) else {
            return None;
        };
        let Some(weight) = weight(bottom) else {
            return None;
        };
        if top > bottom {
            return None;
        }
        Some(Share::of(top * weight))
    }

    /// Its units, from 1 to the whole.
    pub fn units(self) -> u64
        ensures units { result ≡ self }
        ensures some { 0 < result }
        ensures most { result ≤ whole_units }
    {
        u64::from(self.units_less_one) + 1
    }

    /// The share as a fraction in lowest terms: the numbers above and below the line. So it is
    /// printed, and that text names the same share.
    pub fn fraction(self) -> (u64, u64)
        ensures fraction { IsFraction result.0 result.1 self }
        ensures lowest { IsLowest result.0 result.1 }
        ensures text { share_text self ≡ decimal result.0 ++ 47 ∷ decimal result.1 }
        ensures named { IsShareText (share_text self) self }
    {
        reduced(self.units())
    }
}

// Units in lowest terms: the number above the line, and the one below.
fn reduced(units: u64) -> (u64, u64)
    ensures lowest { (result.0, result.1) ≡ lowest 32 units }
{
    let mut above = units;
    let mut exponent = 32u32;
    while exponent > 0 && above % 2 == 0 {
        above /= 2;
        exponent -= 1;
    }
    (above, 1 << exponent)
}

/// The share by its units.
impl fmt::Debug for Share {
    fn fmt<W: fmt::Write>(&self, f: &mut fmt::Formatter<W>) -> fmt::Result {
        f.debug_struct("Share")
            .field("units", &self.units())
            .finish()
    }
}

/// The share in lowest terms, as `3/8`; the whole is `1/1`.
impl fmt::Display for Share {
    ghost output = { λ s. Some (share_text s) };

    fn fmt<W: fmt::Write>(&self, f: &mut fmt::Formatter<W>) -> fmt::Result {
        let (above, below) = self.fraction();
        write!(f, "{above}/{below}")
    }
}

/// So many units of a whole, from 0 on, printed as a fraction of it in lowest terms: 1,610,612,736 as `3/8`.
#[derive(Clone, Copy, Debug, PartialEq, Eq)]
pub struct Fraction {
    pub units: u64,
}

impl Fraction {
    /// The numbers above and below the line, in lowest terms, as it is printed; 0 and 1 for no units.
    pub fn parts(self) -> (u64, u64)
        ensures text { share_text self.units ≡ decimal result.0 ++ 47 ∷ decimal result.1 }
    {
        reduced(self.units)
    }
}

impl fmt::Display for Fraction {
    ghost output = { λ f. Some (share_text f.units) };

    fn fmt<W: fmt::Write>(&self, f: &mut fmt::Formatter<W>) -> fmt::Result {
        let (top, bottom) = self.parts();
        write!(f, "{top}/{bottom}")
    }
}
