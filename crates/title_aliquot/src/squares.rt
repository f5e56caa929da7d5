//! Words that name a node of the tree of tracts: everything, a township, a section, or one square of it by its quarters; and
//! those that name a half of such a square.

ghost use Rattle.std.specs.Prelude.{◌≡◌, ◌<◌, ◌≤◌, [], IfSome, drop, length};
ghost use Rattle.title_land.specs.{Depth.{depth}, Grids.{grid_of}, Lands.{land_of, half_land}, Nodes.{square}, Rectangles.{holds}};
ghost use Rattle.title_aliquot.specs.{Entries.{leading, parts_in}, Grammar.{InTownship}, Laws.Lands.{PartsStand}, Meaning.{StandsFor}};
ghost use Rattle.title_aliquot.specs.{Squares.{IsSquared, IsHalf}, Views.{words_view, land_view}};

use crate::syntax::{Entry, LandWords, Words};
use title_land::{Half, Node, Section, Step, Township, Within};

/// The square of the entries from an index on, where they are all quarters, down to a cell at most.
fn square_from(entries: &[Entry], first: usize) -> Option<Within>
    requires within { first ≤ length entries.now }
    ensures squared { IfSome result (IsSquared (drop first entries.now)) }
{
    let mut within = Within::section();
    'entries: for index in (first..entries.len()).rev() {
        let Entry::Step(Step::Quarter(which)) = entries[index] else {
            return None;
        };
        if within.is_cell() {
            return None;
        }
        within = within.quarter(which);
    }
    Some(within)
}

/// The square that a list of parts is, where it is one part whose steps are all quarters, down to a cell at most.
fn square_of(entries: &[Entry]) -> Option<Within>
    requires begun { leading entries.now ≡ [] }
    ensures square { IfSome result (λ w. PartsStand (parts_in entries.now) (grid_of depth (holds (square depth w)))) }
{
    if entries.is_empty() {
        return None;
    }
    square_from(entries, 1)
}

/// The half of a square that a list of parts is, where it is one part: a half, and then quarters alone.
fn half_of(entries: &[Entry]) -> Option<(Half, Within)>
    requires begun { leading entries.now ≡ [] }
    ensures half { IfSome result (λ h. IsHalf (parts_in entries.now) h.0 h.1) }
{
    if entries.len() < 2 {
        return None;
    }
    let Entry::Step(Step::Half(which)) = entries[1] else {
        return None;
    };
    let within = square_from(entries, 2)?;
    if within.is_cell() {
        return None;
    }
    Some((which, within))
}

/// The node that lies in a township, where it is one by its words alone.
fn node_in_township(land: &LandWords) -> Option<Node>
    ensures node { IfSome result (λ n. StandsFor depth (InTownship (land_view land.now)) (land_of depth n)) }
{
    let township = Township::new(land.township, land.north, land.range, land.east)?;
    let Some(words) = &land.section else {
        return Some(Node::Township(township));
    };
    let section = Section::new(township, words.number)?;
    let within = square_of(words.parts.entries())?;
    Some(Node::Part(section, within))
}

/// The node that words stand for, where it is one by its words alone: no set of cells is then made. `None` says nothing.
pub fn node_of(words: &Words) -> Option<Node>
    ensures node { IfSome result (λ n. StandsFor depth (words_view words.now) (land_of depth n)) }
{
    match words {
        Words::Everything => Some(Node::Everything),
        Words::Land(land) => node_in_township(land),
    }
}

/// The half of a square that lies in a township, where it is one by its words alone.
fn half_in_township(land: &LandWords) -> Option<(Section, Half, Within)>
    ensures half { IfSome result (λ h. StandsFor depth (InTownship (land_view land.now)) (half_land depth h.0 h.1 h.2)) }
    ensures wide { IfSome result (λ h. length h.2 < depth) }
{
    let township = Township::new(land.township, land.north, land.range, land.east)?;
    let Some(words) = &land.section else {
        return None;
    };
    let section = Section::new(township, words.number)?;
    let (which, within) = half_of(words.parts.entries())?;
    Some((section, which, within))
}

/// The half of a square that words stand for, where it is one by its words alone: no set of cells is then made. `None`
/// says nothing.
pub fn half_in(words: &Words) -> Option<(Section, Half, Within)>
    ensures half { IfSome result (λ h. StandsFor depth (words_view words.now) (half_land depth h.0 h.1 h.2)) }
    ensures wide { IfSome result (λ h. length h.2 < depth) }
{
    match words {
        Words::Everything => None,
        Words::Land(land) => half_in_township(land),
    }
}
