//! Whether two values of the crates below are one.

ghost use Rattle.std.specs.Prelude.{◌≡◌, ◌↔◌, true, MatchOption};
ghost use Rattle.title_land.specs.{Depth.{depth}, Lands.{IsLand}};
ghost use Rattle.title_chain.specs.SoleNodes.{HasNoSoleNode, HasSoleNode};

use title_instrument::{Estate, Rule};
use title_land::{Node, Tract};
use title_share::Share;
use title_store::SheetRow;

// The one node of a tract's cover, where it has one.
fn sole_node(tract: &Tract) -> Option<Node>
    ensures sole { MatchOption result (HasNoSoleNode tract.now) (HasSoleNode tract.now) }
    ensures sized { IsLand depth tract.now }
{
    let (first, rest) = tract.cover().split_first()?;
    if rest.is_empty() { Some(*first) } else { None }
}

/// Whether two tracts have the same land.
pub fn same_tract(a: &Tract, b: &Tract) -> bool
    ensures same { (result ≡ true) ↔ (a.now ≡ b.now) }
{
    match (sole_node(a), sole_node(b)) {
        (Some(node), Some(other)) => node.is(&other),
        (None, None) => a.land().is(&b.land()),
        _ => false,
    }
}

/// Whether two estates are one.
pub(crate) fn same_estate(a: Estate, b: Estate) -> bool
    ensures same { (result ≡ true) ↔ (a ≡ b) }
{
    a == b
}

/// Whether two shares are one.
pub(crate) fn same_share(a: Share, b: Share) -> bool
    ensures same { (result ≡ true) ↔ (a ≡ b) }
{
    a == b
}

/// Whether two rules are one.
pub(crate) fn same_rule(a: Rule, b: Rule) -> bool
    ensures same { (result ≡ true) ↔ (a ≡ b) }
{
    a == b
}

/// What lists are compared by.
pub(crate) trait Same {
    /// Whether both are one.
    fn is_one(&self, other: &Self) -> bool
        ensures same { (result ≡ true) ↔ (self.now ≡ other.now) };
}

impl Same for SheetRow {
    fn is_one(&self, other: &SheetRow) -> bool {
        self.party == other.party
            && self.units == other.units
            && same_estate(self.estate, other.estate)
            && self.node.is(&other.node)
    }
}

/// Whether two lists are one.
pub(crate) fn same_lists<T: Same>(a: &[T], b: &[T]) -> bool
    ensures same { (result ≡ true) ↔ (a.now ≡ b.now) }
{
    if a.len() != b.len() {
        return false;
    }
    for (item, other) in a.iter().zip(b) {
        if !item.is_one(other) {
            return false;
        }
    }
    true
}
