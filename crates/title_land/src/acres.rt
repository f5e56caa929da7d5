//! Nominal acres.

ghost use Rattle.std.specs.Prelude.{Some};
ghost use Rattle.title_land.specs.Acres.{acres_text};

use crate::rectangle::SIDE;
use std::fmt;

/// The half acres of a cell: a section of 640 acres has as many as its side squared.
pub const CELL_HALF_ACRES: u32 = 1_280 / (SIDE as u32 * SIDE as u32);

/// The half acres of a township, which has 36 sections.
pub const TOWNSHIP_HALF_ACRES: u32 = 46_080;

/// A number of half acres, printed as acres: `640`, or `2.5` where it is odd.
#[derive(Clone, Copy, Debug, PartialEq, Eq)]
pub struct Acres {
    pub half_acres: u32,
}

impl fmt::Display for Acres {
    ghost output = { λ a. Some (acres_text a.half_acres) };

    fn fmt<W: fmt::Write>(&self, f: &mut fmt::Formatter<W>) -> fmt::Result {
        let half_acres = self.half_acres;
        let acres = half_acres / 2;
        let half = if half_acres % 2 == 0 { "" } else { ".5" };
        write!(f, "{acres}{half}")
    }
}
