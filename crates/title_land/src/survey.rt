//! Townships, sections and cells.

ghost use Rattle.std.specs.Prelude.{◌≡◌, ◌↔◌, ◌≤◌, ◌<◌, MatchOption, true};

use std::fmt;

/// A township of the public survey, by its number north or south of a base line and its range number east or
/// west of a principal meridian, each 1 to 99 (BLM, Manual of Surveying Instructions, 2009).
#[derive(Clone, Copy, Debug, PartialEq, Eq, PartialOrd, Ord)]
pub struct Township {
    pub number: u8,
    pub north: bool,
    pub range: u8,
    pub east: bool,
    ghost numbered: { (1 ≤ number) × (number ≤ 99) },
    ghost ranged: { (1 ≤ range) × (range ≤ 99) },
}

impl Township {
    ghost use Rattle.title_land.specs.Survey.{IsTownshipNumber, IsTownship, same_township};

    /// The township with these numbers; `None` exactly where the number or the range isn't 1 to 99.
    pub fn new(number: u8, north: bool, range: u8, east: bool) -> Option<Township>
        ensures new { MatchOption result
            (¬ (IsTownshipNumber number × IsTownshipNumber range))
            (IsTownship number north range east) }
    {
        if number < 1 || number > 99 || range < 1 || range > 99 {
            return None;
        }
        Some(Township {
            number,
            north,
            range,
            east,
        })
    }

    /// Whether it is this township.
    pub fn is(self, other: Township) -> bool
        ensures is { result ≡ same_township self other }
        ensures same { (result ≡ true) ↔ (self ≡ other) }
    {
        self.number == other.number
            && self.north == other.north
            && self.range == other.range
            && self.east == other.east
    }
}

/// Its canonical text, as `T3N R2W`.
impl fmt::Display for Township {
    ghost use Rattle.std.specs.Prelude.{Some};
    ghost use Rattle.title_land.specs.Texts.{township_text};

    ghost output = { λ t. Some (township_text t) };

    fn fmt<W: fmt::Write>(&self, f: &mut fmt::Formatter<W>) -> fmt::Result {
        let (number, range) = (self.number, self.range);
        let side = if self.north { "N" } else { "S" };
        let hand = if self.east { "E" } else { "W" };
        write!(f, "T{number}{side} R{range}{hand}")
    }
}

/// One of a township's 36 sections, numbered from 1 in its northeast corner (BLM, Manual of Surveying
/// Instructions, 2009).
#[derive(Clone, Copy, Debug, PartialEq, Eq, PartialOrd, Ord)]
pub struct Section {
    pub township: Township,
    pub number: u8,
    ghost numbered: { (1 ≤ number) × (number ≤ 36) },
}

impl Section {
    ghost use Rattle.title_land.specs.Survey.{IsSectionNumber, IsSection, same_section};

    /// The section with this number; `None` exactly where it isn't 1 to 36.
    pub fn new(township: Township, number: u8) -> Option<Section>
        ensures new { MatchOption result (¬ IsSectionNumber number) (IsSection township number) }
    {
        if number < 1 || number > 36 {
            return None;
        }
        Some(Section { township, number })
    }

    /// Whether it is this section.
    pub fn is(self, other: Section) -> bool
        ensures is { result ≡ same_section self other }
        ensures same { (result ≡ true) ↔ (self ≡ other) }
    {
        self.township.is(other.township) && self.number == other.number
    }
}

/// Its canonical text, as `T3N R2W sec 5`.
impl fmt::Display for Section {
    ghost use Rattle.std.specs.Prelude.{Some};
    ghost use Rattle.title_land.specs.Texts.{section_text};

    ghost output = { λ s. Some (section_text s) };

    fn fmt<W: fmt::Write>(&self, f: &mut fmt::Formatter<W>) -> fmt::Result {
        let (township, number) = (self.township, self.number);
        write!(f, "{township} sec {number}")
    }
}

/// A cell of a section's grid; row 0 is the north row, column 0 the west column.
#[derive(Clone, Copy, Debug, PartialEq, Eq, PartialOrd, Ord)]
pub struct Cell {
    pub section: Section,
    pub row: u8,
    pub column: u8,
}
