//! Walks over the nodes above a node, and over the sections of a township.

ghost use Rattle.std.specs.Prelude.{◌≡◌};
ghost use Rattle.title_land.specs.{CellLists.{sections_of}, Nodes.{above}};

use crate::node::Node;
use crate::survey::{Section, Township};
use std::marker::Model;

/// The nodes above a node, the nearest first, up to the whole plant. From [`Node::ancestors`].
#[derive(Debug, Drop)]
pub struct Ancestors {
    // The node that was given last, and at first the one that the walk begins at.
    last: Node,
}

impl Model for Ancestors {
    ghost use Rattle.std.specs.Prelude.{List};
    ghost use Rattle.title_land.specs.{Nodes.{above}, declared.node.Node.{Node}};

    ghost Value = { List Node };

    ghost view = { λ a. above a.last };
}

impl Node {
    /// The nodes above it, the nearest first; none above the whole plant.
    pub fn ancestors(self) -> Ancestors
        ensures above { result ≡ above self }
    {
        Ancestors { last: self }
    }
}

impl Iterator for Ancestors {
    ghost use Rattle.std.specs.Iterator.{YieldsFirst, item_count};

    type Item = Node;

    ghost next_gives = { YieldsFirst (λ nodes. nodes) };

    ghost remaining = { item_count (λ nodes. nodes) };

    fn next(&mut self) -> Option<Node> {
        self.last = self.last.parent()?;
        Some(self.last)
    }
}

/// The sections of a township, from 1 to 36. From [`Township::sections`].
#[derive(Debug, Drop)]
pub struct Sections {
    township: Township,
    // The number of the section that comes next.
    next: u8,
}

impl Model for Sections {
    ghost use Rattle.std.specs.Prelude.{List, ◌≤◌};
    ghost use Rattle.title_land.specs.{CellLists.{sections_left}, declared.survey.Section.{Section}};

    ghost Value = { List Section };

    ghost view = { λ s. sections_left s.township s.next };

    ghost invariant = { λ s. 1 ≤ s.next };
}

impl Township {
    /// Its sections, from 1 to 36.
    pub fn sections(self) -> Sections
        ensures sections { result ≡ sections_of self }
    {
        Sections {
            township: self,
            next: 1,
        }
    }
}

impl Iterator for Sections {
    ghost use Rattle.std.specs.Iterator.{YieldsFirst, item_count};

    type Item = Section;

    ghost next_gives = { YieldsFirst (λ sections. sections) };

    ghost remaining = { item_count (λ sections. sections) };

    fn next(&mut self) -> Option<Section> {
        let section = Section::new(self.township, self.next)?;
        self.next += 1;
        Some(section)
    }
}
