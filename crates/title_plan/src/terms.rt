//! The terms of instruments, by their fields.

ghost use Rattle.std.specs.Prelude.{◌≡◌, ◌∷◌, ℕ, List, MatchOption};
ghost use Rattle.title_instrument.specs.{declared.parts.Estate.{Estate}, Estates.{letter_of}};
ghost use Rattle.title_plan.specs.Fields.{quantum_in, reserve_in, reserving, with_item};

use title_instrument::{Estate, Quantum};
use title_share::Share;

/// The quantum that a text names: `W` or `I` and a share.
pub(crate) fn read_quantum(text: &str) -> Option<Quantum>
    ensures quantum { result ≡ quantum_in text.now }
{
    if let Some(rest) = text.strip_prefix('W') {
        return Share::parse(rest).map(Quantum::Whole);
    }
    if let Some(rest) = text.strip_prefix('I') {
        return Share::parse(rest).map(Quantum::Interest);
    }
    None
}

// The estate whose letter a text begins with, and what stands behind it.
fn split_letter(text: &str) -> Option<(Estate, &str)>
    ensures letter { MatchOption result ((e : Estate) (rest : List ℕ) → text.now ≡ letter_of e ∷ rest → ⊥)
        (λ p. text.now ≡ letter_of p.0 ∷ p.1.now) }
{
    if let Some(rest) = text.strip_prefix('S') {
        return Some((Estate::S, rest));
    }
    if let Some(rest) = text.strip_prefix('O') {
        return Some((Estate::O, rest));
    }
    if let Some(rest) = text.strip_prefix('M') {
        return Some((Estate::M, rest));
    }
    None
}

// A reserve with a share of one estate more, where it has none of it.
fn with_share(
    reserve: [Option<Share>; 3],
    estate: Estate,
    share: Share,
) -> Option<[Option<Share>; 3]>
    ensures share { result ≡ reserving reserve estate share }
{
    let [s, o, m] = reserve;
    match estate {
        Estate::S if s.is_none() => Some([Some(share), o, m]),
        Estate::O if o.is_none() => Some([s, Some(share), m]),
        Estate::M if m.is_none() => Some([s, o, Some(share)]),
        _ => None,
    }
}

// A reserve with the item that a text names, where it has none of the item's estate.
fn with_item(reserve: [Option<Share>; 3], item: &str) -> Option<[Option<Share>; 3]>
    ensures item { result ≡ with_item reserve item.now }
{
    let (estate, rest) = split_letter(item)?;
    let share = Share::parse(rest)?;
    with_share(reserve, estate, share)
}

/// The shares of S, O and M that a text reserves: nothing, or items separated by `;`, no estate twice.
pub(crate) fn read_reserve(text: &str) -> Option<[Option<Share>; 3]>
    ensures reserve { result ≡ reserve_in text.now }
{
    let mut reserve = [None; 3];
    if text.is_empty() {
        return Some(reserve);
    }
    for item in text.split(';') {
        reserve = with_item(reserve, item)?;
    }
    Some(reserve)
}
