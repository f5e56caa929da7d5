//! The sections of a township.

ghost use Rattle.std.specs.Prelude.{◌≡◌, length};

use title_tree::Tree;

/// The trees of a township's sections, in the order of their numbers.
#[derive(Drop)]
pub(crate) struct Sections {
    pub trees: Vec<Tree>,
    ghost all: { length trees.items ≡ 36 },
}
