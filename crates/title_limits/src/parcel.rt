//! Parcels of a plant, by numbers.

use anyhow::{Result, bail};
use std::fmt;
use title_land::{Node, Quarter, Section, Township, Tract, Within};

/// The cells of a section.
pub const CELLS: u32 = 256;

/// A square of a section: of level 0 the section itself, of level 4 a cell. Its number is its index among the squares of its
/// level, from 0 in the northeast.
#[derive(Clone, Copy)]
pub struct Square {
    pub level: u32,
    pub number: u32,
}

/// The whole plant; a township by its number from 0, eight to a tier from T1N R1W on; or a square of one of its sections.
#[derive(Clone, Copy)]
pub enum Parcel {
    Everything,
    Township(u32),
    Part {
        township: u32,
        section: u32,
        square: Square,
    },
}

// The quarter with a number, the last two bits of this one.
fn quarter(number: u32) -> Quarter {
    match number % 4 {
        0 => Quarter::Northeast,
        1 => Quarter::Northwest,
        2 => Quarter::Southwest,
        _ => Quarter::Southeast,
    }
}

fn quarter_text(number: u32) -> &'static str {
    match number % 4 {
        0 => "NE1/4",
        1 => "NW1/4",
        2 => "SW1/4",
        _ => "SE1/4",
    }
}

fn byte(number: u32) -> Option<u8> {
    u8::try_from(number).ok()
}

// The tier and the range of a township.
fn tier_and_range(number: u32) -> (u32, u32) {
    (
        (number / 8).saturating_add(1),
        (number % 8).saturating_add(1),
    )
}

/// The township with this number.
pub fn township(number: u32) -> Option<Township> {
    let (tier, range) = tier_and_range(number);
    Township::new(byte(tier)?, true, byte(range)?, false)
}

/// The section with this number of a township.
pub fn section(of: u32, number: u32) -> Option<Section> {
    Section::new(township(of)?, byte(number)?)
}

impl Square {
    /// The section itself.
    pub const WHOLE: Square = Square {
        level: 0,
        number: 0,
    };

    /// The cell with this number.
    pub fn cell(number: u32) -> Square {
        Square { level: 4, number }
    }

    /// The square as the crate of land has it.
    pub fn within(self) -> Option<Within> {
        let number = self.number;
        let quarters = [
            quarter(number),
            quarter(number / 4),
            quarter(number / 16),
            quarter(number / 64),
        ];
        Within::named(quarters.get(..self.level as usize)?)
    }
}

/// What it adds to its section's text: a space and its quarters, the innermost first.
impl fmt::Display for Square {
    fn fmt<W: fmt::Write>(&self, f: &mut fmt::Formatter<W>) -> fmt::Result {
        if self.level > 0 {
            write!(f, " ")?;
        }
        let mut number = self.number;
        for _ in 0..self.level {
            let text = quarter_text(number);
            write!(f, "{text}")?;
            number /= 4;
        }
        Ok(())
    }
}

impl Parcel {
    /// A section of the first township.
    pub fn section(number: u32) -> Parcel {
        Parcel::Part {
            township: 0,
            section: number,
            square: Square::WHOLE,
        }
    }

    /// A square of section 1 of the first township.
    pub fn square(level: u32, number: u32) -> Parcel {
        Parcel::Part {
            township: 0,
            section: 1,
            square: Square { level, number },
        }
    }

    /// A cell of section 1 of the first township.
    pub fn cell(number: u32) -> Parcel {
        Parcel::square(4, number)
    }

    /// The node as the crate of land has it.
    pub fn found(self) -> Option<Node> {
        match self {
            Parcel::Everything => Some(Node::Everything),
            Parcel::Township(number) => Some(Node::Township(township(number)?)),
            Parcel::Part {
                township,
                section: number,
                square,
            } => Some(Node::Part(section(township, number)?, square.within()?)),
        }
    }

    /// The same; an error where there is no such parcel.
    pub fn node(self) -> Result<Node> {
        match self.found() {
            Some(node) => Ok(node),
            None => bail!("there is no such parcel as {self}"),
        }
    }

    /// Its tract.
    pub fn tract(self) -> Result<Tract> {
        Ok(Tract::of(self.node()?))
    }
}

fn write_township<W: fmt::Write>(number: u32, f: &mut fmt::Formatter<W>) -> fmt::Result {
    let (tier, range) = tier_and_range(number);
    write!(f, "T{tier}N R{range}W")
}

/// Its canonical text: `everything`, `T3N R2W`, `T3N R2W sec 5` or `T3N R2W sec 5 NE1/4SW1/4`.
impl fmt::Display for Parcel {
    fn fmt<W: fmt::Write>(&self, f: &mut fmt::Formatter<W>) -> fmt::Result {
        match self {
            Parcel::Everything => write!(f, "everything"),
            Parcel::Township(number) => write_township(*number, f),
            Parcel::Part {
                township,
                section,
                square,
            } => {
                write_township(*township, f)?;
                write!(f, " sec {section}{square}")
            }
        }
    }
}
