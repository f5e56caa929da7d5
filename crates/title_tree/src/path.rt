//! Paths from a tree's root down, the outermost quarter first.

ghost use Rattle.std.specs.Prelude.{◌≡◌, ◌<◌, ◌++◌, ◌∷◌, [], IfOk, MatchOption};
ghost use Rattle.title_tree.specs.Paths.{way, number_path, rest_in};

use std::alloc::AllocError;
use std::marker::Model;
use title_land::{Quarter, Within};

// A path with a number below this may have one quarter more.
const LIMIT: u64 = 1 << 62;

/// A path from a tree's root down to a node. A contract sees it as its quarters, the outermost first.
#[derive(Clone, Copy)]
pub struct Path {
    // The empty path is 1; a path of number n with a quarter before it is 4 n and the quarter's.
    number: u64,
}

impl Model for Path {
    ghost use Rattle.std.specs.Prelude.{List};
    ghost use Rattle.title_land.specs.{declared.rectangle.Quarter.{Quarter}, Paths.{path_number}};
    ghost use Rattle.title_tree.specs.Paths.{quarters_of, IsPath};

    ghost Value = { List Quarter };

    ghost view = { λ p. quarters_of p.number };

    ghost invariant = { λ p. IsPath p.number };

    ghost inverse = { λ quarters. record { number = path_number quarters } };

    ghost inverse_ok = { λ p h. λ i. record { number = h i } };
}

impl Path {
    /// The path of the root itself.
    pub fn root() -> Path
        ensures root { result ≡ [] }
    {
        Path { number: 1 }
    }

    /// The path in a quarter, from what the quarter is one of. `Err` where there are too many quarters: 31 always fit.
    pub fn inside(self, quarter: Quarter) -> Result<Path, AllocError>
        ensures inside { IfOk result (λ p. p ≡ quarter ∷ self) }
    {
        if self.number >= LIMIT {
            return Err(AllocError);
        }
        Ok(Path {
            number: self.number * 4 + u64::from(quarter.number()),
        })
    }

    /// Its outermost quarter, and the path from there on; `None` for the root.
    pub fn split(self) -> Option<(Quarter, Path)>
        ensures split { MatchOption result (self ≡ []) (λ p. self ≡ p.0 ∷ p.1) }
    {
        if self.number < 4 {
            return None;
        }
        let first = Quarter::numbered((self.number % 4) as usize);
        let rest = Path {
            number: self.number / 4,
        };
        Some((first, rest))
    }

    /// The path in the square of this number among the 4 ^ levels that lie so many levels below a root, from that root.
    pub fn inside_number(self, levels: usize, number: usize) -> Result<Path, AllocError>
        ensures path { IfOk result (λ p. p ≡ number_path levels number ++ self) }
    {
        if levels == 0 {
            return Ok(self);
        }
        let inner = self.inside(Quarter::numbered(number % 4))?;
        let path = inner.inside_number(levels - 1, number / 4)?;
        Ok(path)
    }

    /// The path in a square of a section, from the section.
    pub fn inside_square(self, square: Within) -> Result<Path, AllocError>
        ensures path { IfOk result (λ p. p ≡ way square ++ self) }
    {
        let Some(parts) = square.split() else {
            return Ok(self);
        };
        let inner = self.inside(parts.0)?;
        let path = inner.inside_square(parts.1)?;
        Ok(path)
    }
}

// What is left of a path in a quarter; `None` where it doesn't go there, or there is none.
pub(crate) fn rest_in(path: Option<Path>, quarter: Quarter) -> Option<Path>
    ensures rest { result ≡ rest_in quarter path }
{
    let (first, rest) = path?.split()?;
    if quarter == first { Some(rest) } else { None }
}
