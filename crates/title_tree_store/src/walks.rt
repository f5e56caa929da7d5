//! What stands in a township or in a section of it. Nothing takes memory.

ghost use Rattle.std.specs.{Prelude.{◌≡◌, ◌-◌, true, length}, List.{list_any}};
ghost use Rattle.title_land.specs.Survey.{same_township};
ghost use Rattle.title_tree.specs.Trees.{plot};
ghost use Rattle.title_tree_store.specs.{Grounds.{plot_in}, Spots.{index_of}, SquareSheets.{IsAt}};

use crate::ground::Ground;
use crate::townships::Townships;
use title_land::{Section, Township};
use title_tree::Tree;

/// What stands in a township.
#[tactic(auto, using(crate::proofs::CellPaths::index_below))]
pub(crate) fn ground_of<'a>(
    grounds: &'a [Ground],
    townships: &Townships,
    township: Township,
) -> &'a Ground
    requires sized { length grounds.now ≡ length townships.now }
    requires of { list_any (same_township township) townships.now ≡ true }
    ensures at { IsAt grounds.now (index_of townships.now township) result.now }
{
    &grounds[townships.index_of(township) as usize]
}

/// What stands in a section.
pub(crate) fn section_tree<'a>(
    grounds: &'a [Ground],
    townships: &Townships,
    section: Section,
) -> &'a Tree
    requires sized { length grounds.now ≡ length townships.now }
    requires of { list_any (same_township section.township) townships.now ≡ true }
    ensures stands { plot result.now ≡ plot_in grounds.now (index_of townships.now section.township) (section.number - 1) }
{
    ground_of(grounds, townships, section.township).section(usize::from(section.number - 1))
}
