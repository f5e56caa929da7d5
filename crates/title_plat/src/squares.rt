//! Where a node is drawn in a section.

ghost use Rattle.title_plat.specs.Squares.{IsSquareOf};

use title_aliquot::{Node, Rectangle, Section};

/// The square of a section's cells that lie in a node; `None` where no cell does.
pub fn square_in(section: Section, node: &Node) -> Option<Rectangle>
    ensures square { IsSquareOf section node.now result }
{
    match node {
        Node::Everything => Some(Rectangle::section()),
        Node::Township(township) => {
            if township.is(section.township) {
                Some(Rectangle::section())
            } else {
                None
            }
        }
        Node::Part(other, within) => {
            if other.is(section) {
                Some(within.square())
            } else {
                None
            }
        }
    }
}
