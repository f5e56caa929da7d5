//! Rectangles of a section's cells, their halves and quarters.

ghost use Rattle.std.specs.Prelude.{◌≡◌, ◌↔◌, ◌<◌, IfSome, Some, true};
ghost use Rattle.title_land.specs.{Depth.{depth}, Paths.{quarter_number, quarter_at}, Texts.{quarter_text}};
ghost use Rattle.title_land.specs.Rectangles.{section_square, half_of, quarter_of, first_quarter, second_quarter, step_of, is_even};
ghost use Rattle.title_land.specs.Rectangles.{holds, InSection, rectangles_meet, SharesCell};

use std::fmt;

/// How often a section is quartered down to its cells.
pub const DEPTH: u8 = 4;

/// The cells on a section's side.
pub const SIDE: u8 = 1 << DEPTH;

/// The rows of a section's cells, for an array's length.
pub(crate) const ROWS: usize = 1 << DEPTH;

/// A quarter of a square, in the order in which quarters are listed.
#[derive(Clone, Copy, Debug, PartialEq, Eq, PartialOrd, Ord)]
pub enum Quarter {
    Northeast,
    Northwest,
    Southwest,
    Southeast,
}

impl Quarter {
    /// The quarters, in the order in which they are listed.
    pub const ALL: [Quarter; 4] = [
        Quarter::Northeast,
        Quarter::Northwest,
        Quarter::Southwest,
        Quarter::Southeast,
    ];

    /// Its number among the four, from 0, in the order in which they are listed.
    pub fn number(self) -> u16
        ensures number { result ≡ quarter_number self }
    {
        match self {
            Quarter::Northeast => 0,
            Quarter::Northwest => 1,
            Quarter::Southwest => 2,
            Quarter::Southeast => 3,
        }
    }

    /// The quarter with a number among the four.
    pub fn numbered(number: usize) -> Quarter
        requires below { number < 4 }
        ensures quarter { result ≡ quarter_at number }
    {
        match number {
            0 => Quarter::Northeast,
            1 => Quarter::Northwest,
            2 => Quarter::Southwest,
            _ => Quarter::Southeast,
        }
    }
}

/// Its name with its mark, as `NE1/4`.
impl fmt::Display for Quarter {
    ghost output = { λ q. Some (quarter_text q) };

    fn fmt<W: fmt::Write>(&self, f: &mut fmt::Formatter<W>) -> fmt::Result {
        match self {
            Quarter::Northeast => write!(f, "NE1/4"),
            Quarter::Northwest => write!(f, "NW1/4"),
            Quarter::Southwest => write!(f, "SW1/4"),
            Quarter::Southeast => write!(f, "SE1/4"),
        }
    }
}

/// A half of a rectangle.
#[derive(Clone, Copy, Debug, PartialEq, Eq)]
pub enum Half {
    North,
    South,
    East,
    West,
}

impl Half {
    // The two quarters of a square that its half is, in the order in which quarters are listed.
    pub(crate) fn quarters(self) -> (Quarter, Quarter)
        ensures first { result.0 ≡ first_quarter self }
        ensures second { result.1 ≡ second_quarter self }
    {
        match self {
            Half::North => (Quarter::Northeast, Quarter::Northwest),
            Half::South => (Quarter::Southwest, Quarter::Southeast),
            Half::East => (Quarter::Northeast, Quarter::Southeast),
            Half::West => (Quarter::Northwest, Quarter::Southwest),
        }
    }
}

/// One step of a description: a quarter or a half of the part that the next step names.
#[derive(Clone, Copy, Debug, PartialEq, Eq)]
pub enum Step {
    Quarter(Quarter),
    Half(Half),
}

/// A rectangle of cells inside a section, in rows from the north and columns from the west.
#[derive(Clone, Copy, Debug, PartialEq, Eq)]
pub struct Rectangle {
    pub top: u8,
    pub left: u8,
    pub height: u8,
    pub width: u8,
}

fn even(n: u8) -> bool
    ensures even { result ≡ is_even n }
{
    n % 2 == 0
}

impl Rectangle {
    /// The whole section.
    pub fn section() -> Rectangle
        ensures section { result ≡ section_square depth }
        ensures inside { InSection depth result }
    {
        Rectangle {
            top: 0,
            left: 0,
            height: SIDE,
            width: SIDE,
        }
    }

    /// A half, the sides halved whether even or not.
    #[tactic(auto, using(crate::specs::Laws::Sides::side_fits))]
    pub fn half(self, which: Half) -> Rectangle
        requires inside { InSection depth self }
        ensures half { result ≡ half_of which self }
        ensures inside { InSection depth result }
    {
        let Rectangle {
            top,
            left,
            height,
            width,
        } = self;
        match which {
            Half::North => Rectangle {
                top,
                left,
                height: height / 2,
                width,
            },
            Half::South => Rectangle {
                top: top + height / 2,
                left,
                height: height / 2,
                width,
            },
            Half::West => Rectangle {
                top,
                left,
                height,
                width: width / 2,
            },
            Half::East => Rectangle {
                top,
                left: left + width / 2,
                height,
                width: width / 2,
            },
        }
    }

    /// A quarter, the sides halved whether even or not.
    pub fn quarter(self, which: Quarter) -> Rectangle
        requires inside { InSection depth self }
        ensures quarter { result ≡ quarter_of which self }
        ensures inside { InSection depth result }
    {
        match which {
            Quarter::Northeast => self.half(Half::East).half(Half::North),
            Quarter::Northwest => self.half(Half::West).half(Half::North),
            Quarter::Southwest => self.half(Half::West).half(Half::South),
            Quarter::Southeast => self.half(Half::East).half(Half::South),
        }
    }

    /// The part that a step names; `None` exactly where a side that it halves is odd.
    pub fn step(self, step: Step) -> Option<Rectangle>
        requires inside { InSection depth self }
        ensures step { result ≡ step_of step self }
        ensures inside { IfSome result (InSection depth) }
    {
        let exists = match step {
            Step::Quarter(_) => even(self.height) && even(self.width),
            Step::Half(Half::North | Half::South) => even(self.height),
            Step::Half(Half::East | Half::West) => even(self.width),
        };
        if !exists {
            return None;
        }
        match step {
            Step::Quarter(which) => Some(self.quarter(which)),
            Step::Half(which) => Some(self.half(which)),
        }
    }

    /// Whether a cell of the section lies in it.
    #[tactic(auto, using(crate::specs::Laws::Sides::side_fits))]
    pub fn holds(self, row: u8, column: u8) -> bool
        requires inside { InSection depth self }
        ensures holds { result ≡ holds self row column }
    {
        self.top <= row
            && row < self.top + self.height
            && self.left <= column
            && column < self.left + self.width
    }

    /// Whether they share a cell; an empty one shares none.
    #[tactic(auto, using(crate::specs::Laws::Sides::side_fits))]
    pub fn meets(self, other: Rectangle) -> bool
        requires inside { InSection depth self }
        requires other_inside { InSection depth other }
        ensures meets { result ≡ rectangles_meet self other }
        ensures shares { (result ≡ true) ↔ SharesCell self other }
    {
        let (bottom, right) = (self.top + self.height, self.left + self.width);
        let (other_bottom, other_right) = (other.top + other.height, other.left + other.width);
        self.top.max(other.top) < bottom.min(other_bottom)
            && self.left.max(other.left) < right.min(other_right)
    }
}
