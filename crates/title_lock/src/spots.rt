//! Nodes by their numbers, as a table of locks finds them.

ghost use Rattle.std.specs.Prelude.{◌≡◌, Some, None, MatchOption};
ghost use Rattle.title_land.specs.Nodes.{parent_of, is_above};
ghost use Rattle.title_lock.specs.Spots.{IsNumber, number_prop};

use title_land::{Node, number_above};

/// A node, by its number.
#[derive(Clone, Copy)]
pub(crate) struct Spot {
    pub(crate) number: u64,
    ghost is: { IsNumber number } by { number_prop number },
}

impl Spot {
    // The node with this number.
    fn numbered(number: u64) -> Spot
        requires number { IsNumber number }
        ensures number { result.number ≡ number }
    {
        Spot { number }
    }

    /// A node, by its number.
    pub(crate) fn of(node: &Node) -> Spot
        ensures of { result.is.node ≡ node.now }
    {
        Spot::numbered(node.number())
    }

    /// The node above; `None` for the whole plant alone.
    pub(crate) fn parent(&self) -> Option<Spot>
        ensures parent { MatchOption result (None ≡ parent_of self.now.is.node) (λ p. Some p.is.node ≡ parent_of self.now.is.node) }
    {
        if self.number == 0 {
            return None;
        }
        Some(Spot::numbered(number_above(self.number)))
    }

    /// Whether it lies above another node.
    pub(crate) fn is_above(&self, other: &Spot) -> bool
        ensures above { result ≡ is_above self.now.is.node other.now.is.node }
    {
        if other.number <= self.number {
            return false;
        }
        let mut number = other.number;
        while number > self.number {
            number = number_above(number);
        }
        number == self.number
    }
}
