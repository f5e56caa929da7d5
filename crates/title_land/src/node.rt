//! Nodes of the tree of tracts.

ghost use Rattle.std.specs.{Prelude.{◌≡◌, ◌↔◌, ◌≤◌, ◌<◌, ◌∷◌, [], length, nat_le, Some, MatchOption, true}, Fmt.{WritesOnOk}};
ghost use Rattle.title_land.specs.{Depth.{depth}, declared.node.Node.TheVariants.{Part}, Lands.{home_of, land_of}, Paths.{path_number}};
ghost use Rattle.title_land.specs.{Nodes.{same_path, same_node, parent_of, IsNode}, Texts.{path_text, quarters_text, node_text}};

use crate::rectangle::{DEPTH, Quarter};
use crate::survey::{Section, Township};
use std::fmt;
use std::marker::Model;

// The first number of a cell: the numbers below are those of larger squares.
const FIRST_CELL: u16 = 1 << (2 * DEPTH);

/// A square part of a section: the section itself, or a quarter of a larger square, down to one cell. A contract sees
/// it as its quarters, the innermost first, as a description names them.
#[derive(Clone, Copy, Debug, PartialEq, Eq, PartialOrd, Ord)]
pub struct Within {
    // The section is 1, and the quarters of square n are 4 n to 4 n + 3.
    number: u16,
}

impl Model for Within {
    ghost use Rattle.std.specs.Prelude.{List};
    ghost use Rattle.title_land.specs.{declared.rectangle.Quarter.{Quarter}, Paths.{path_number, quarters_in, IsPathNumber}};

    ghost Value = { List Quarter };

    ghost view = { λ w. quarters_in w.number };

    ghost invariant = { λ w. IsPathNumber w.number };

    ghost inverse = { λ quarters. record { number = path_number quarters } };

    ghost inverse_ok = { λ w h. λ i. record { number = h i } };
}

/// A node of the tree of tracts: the whole plant, a township, or a section with its squares down to cells.
#[derive(Clone, Copy, Debug, PartialEq, Eq, PartialOrd, Ord)]
pub enum Node {
    Everything,
    Township(Township),
    Part(Section, Within),
}

impl Within {
    /// The whole section.
    pub fn section() -> Within
        ensures whole { result ≡ [] }
    {
        Within { number: 1 }
    }

    /// The square with these quarters, the innermost first; `None` exactly where they are more than the depth.
    pub fn named(quarters: &[Quarter]) -> Option<Within>
        ensures named { MatchOption result (depth < length quarters.now) (λ w. w ≡ quarters.now) }
    {
        let Some((which, outer)) = quarters.split_first() else {
            return Some(Within::section());
        };
        let square = Within::named(outer)?;
        if square.is_cell() {
            return None;
        }
        Some(square.quarter(*which))
    }

    /// Whether it is this square.
    pub fn is(self, other: Within) -> bool
        ensures same { (result ≡ true) ↔ (self ≡ other) }
        ensures told { result ≡ same_path self other }
    {
        self == other
    }

    // The square's number in its section, from 1 for the section itself.
    pub(crate) fn number(self) -> u16
        ensures number { result ≡ path_number self }
    {
        self.number
    }

    /// Whether it is a cell, which has no quarters.
    pub fn is_cell(self) -> bool
        ensures cell { result ≡ nat_le depth (length self) }
    {
        self.number >= FIRST_CELL
    }

    /// A quarter of the square, which isn't a cell.
    pub fn quarter(self, which: Quarter) -> Within
        requires wide { length self < depth }
        ensures quarter { result ≡ which ∷ self }
    {
        Within {
            number: self.number * 4 + which.number(),
        }
    }

    /// Which quarter it is, and of which square; `None` for the section itself.
    pub fn split(self) -> Option<(Quarter, Within)>
        ensures split { MatchOption result (self ≡ []) (λ p. self ≡ p.0 ∷ p.1) }
        ensures short { length self ≤ depth }
    {
        if self.number < 4 {
            return None;
        }
        let which = Quarter::numbered(usize::from(self.number % 4));
        let outer = Within {
            number: self.number / 4,
        };
        Some((which, outer))
    }
}

impl Section {
    /// Its node.
    pub fn node(self) -> Node
        ensures node { result ≡ Part self [] }
    {
        Node::Part(self, Within::section())
    }
}

impl Node {
    /// Whether both are one. Of two squares the quarters are compared first: these differ more often.
    #[inline(always)]
    pub fn is(&self, other: &Node) -> bool
        ensures same { (result ≡ true) ↔ (self.now ≡ other.now) }
        ensures told { result ≡ same_node self.now other.now }
    {
        match (self, other) {
            (Node::Everything, Node::Everything) => true,
            (Node::Township(t), Node::Township(u)) => t.is(*u),
            (Node::Part(s, v), Node::Part(u, w)) => v.is(*w) && s.is(*u),
            _ => false,
        }
    }

    /// It is a node of the tree: a square has no more quarters than the depth. The function does nothing: the type says so.
    pub fn is_in_tree(&self)
        ensures tree { IsNode depth self.now }
    {
        if let Node::Part(_, within) = self {
            within.split();
        }
    }

    /// The section in which it lies, as a node, or itself where it lies in none.
    pub fn home(self) -> Node
        ensures home { result ≡ home_of (land_of depth self) }
    {
        match self {
            Node::Part(section, _) => section.node(),
            _ => self,
        }
    }

    /// The node above; `None` for the whole plant alone.
    pub fn parent(self) -> Option<Node>
        ensures parent { result ≡ parent_of self }
    {
        match self {
            Node::Everything => None,
            Node::Township(_) => Some(Node::Everything),
            Node::Part(section, within) => match within.split() {
                None => Some(Node::Township(section.township)),
                Some((_, outer)) => Some(Node::Part(section, outer)),
            },
        }
    }
}

// A square's quarters, one after another, the innermost first.
fn write_quarters<W: fmt::Write>(within: Within, f: &mut fmt::Formatter<W>) -> fmt::Result
    ensures writes { WritesOnOk W.write_str_gives f.old result (quarters_text within) f.new }
{
    if let Some((which, outer)) = within.split() {
        write!(f, "{which}")?;
        write_quarters(outer, f)?;
    }
    Ok(())
}

/// What it adds to its section's text: nothing for the whole, else a space and its quarters, the innermost first.
impl fmt::Display for Within {
    ghost output = { λ w. Some (path_text w) };

    fn fmt<W: fmt::Write>(&self, f: &mut fmt::Formatter<W>) -> fmt::Result {
        if self.split().is_none() {
            return Ok(());
        }
        write!(f, " ")?;
        write_quarters(*self, f)
    }
}

/// Its canonical text: `everything`, `T3N R2W`, `T3N R2W sec 5` or `T3N R2W sec 5 NE1/4SW1/4`.
impl fmt::Display for Node {
    ghost output = { λ n. Some (node_text n) };

    fn fmt<W: fmt::Write>(&self, f: &mut fmt::Formatter<W>) -> fmt::Result {
        match self {
            Node::Everything => write!(f, "everything"),
            Node::Township(township) => write!(f, "{township}"),
            Node::Part(section, within) => write!(f, "{section}{within}"),
        }
    }
}
