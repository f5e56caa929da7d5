//! What the words of a text stand for.

ghost use Rattle.std.specs.Prelude.{◌≡◌, true, false, List, [], ◌∷◌, MatchOption, IfOk, IfErr};
ghost use Rattle.title_land.specs.{Depth.{depth}, Grids.{grid_of}, Rectangles.{InSection}, declared.rectangle.Rectangle.{Rectangle}};
ghost use Rattle.title_aliquot.specs.{Answers.{FailsBy, PartsFailBy}, Areas.{IsArea, IsAreaOf}, Entries.{leading, parts_in}};
ghost use Rattle.title_aliquot.specs.{Grammar.{InTownship}, Meaning.{parts_exist, rectangles, union, Overlap, StandsFor}};
ghost use Rattle.title_aliquot.specs.Views.{words_view, land_view};

use crate::fault::DescFault;
use crate::syntax::{Entry, LandWords, Parts, Words};
use title_land::{Grid, Land, Rectangle, Section, Township};

/// The cells of rectangles, and whether two of the rectangles share one.
#[derive(Clone, Copy)]
pub struct Area {
    pub cells: Grid,
    pub overlap: bool,
}

impl Area {
    /// That of no rectangles.
    fn nothing() -> Area
        ensures nothing { IsArea depth [] result }
    {
        Area {
            cells: Grid::empty(),
            overlap: false,
        }
    }

    /// With one more rectangle.
    fn with(self, shape: Rectangle) -> Area
        requires inside { InSection depth shape }
        ensures with { (shapes : List Rectangle) → IsArea depth shapes self → IsArea depth (shape ∷ shapes) result }
    {
        let alone = Area::nothing().cells.with(shape);
        Area {
            cells: self.cells.with(shape),
            overlap: self.cells.meets(&alone) | self.overlap,
        }
    }
}

/// The area of a list of parts, from its last entry to the first, as a part's steps are taken from the last to the first;
/// `None` where a step halves a side of one cell.
fn area_of(entries: &[Entry]) -> Option<Area>
    requires begun { leading entries.now ≡ [] }
    ensures area { MatchOption result (parts_exist depth (parts_in entries.now) ≡ false) (IsAreaOf depth (parts_in entries.now)) }
{
    let mut area = Area::nothing();
    let mut shape = Rectangle::section();
    'entries: for index in (0..entries.len()).rev() {
        match entries[index] {
            Entry::Step(step) => shape = shape.step(step)?,
            Entry::Part => {
                area = area.with(shape);
                shape = Rectangle::section();
            }
        }
    }
    Some(area)
}

/// The cells of a section's parts.
fn grid_of_parts(parts: &Parts) -> Result<Grid, DescFault>
    ensures exist { IfOk result (λ g. parts_exist depth parts.now ≡ true) }
    ensures apart { IfOk result (λ g. Overlap (rectangles depth parts.now) → ⊥) }
    ensures union { IfOk result (λ g. g ≡ grid_of depth (union (rectangles depth parts.now))) }
    ensures fault { IfErr result (PartsFailBy depth parts.now) }
{
    let Some(area) = area_of(parts.entries()) else {
        return Err(DescFault::TooSmall);
    };
    if area.overlap {
        return Err(DescFault::Overlap);
    }
    Ok(area.cells)
}

/// The land in a township.
fn land_in_township(land: &LandWords) -> Result<Land, DescFault>
    ensures land { IfOk result (StandsFor depth (InTownship (land_view land.now))) }
    ensures fault { IfErr result (FailsBy depth (InTownship (land_view land.now))) }
{
    let Some(township) = Township::new(land.township, land.north, land.range, land.east) else {
        return Err(DescFault::Range);
    };
    let Some(words) = &land.section else {
        return Ok(Land::Township(township));
    };
    let Some(section) = Section::new(township, words.number) else {
        return Err(DescFault::Range);
    };
    let grid = grid_of_parts(&words.parts)?;
    Ok(Land::Part(section, grid))
}

/// The land that words stand for; a fault where the numbers don't fit, a part doesn't exist or two share a cell.
pub fn land_of(words: &Words) -> Result<Land, DescFault>
    ensures land { IfOk result (StandsFor depth (words_view words.now)) }
    ensures fault { IfErr result (FailsBy depth (words_view words.now)) }
{
    match words {
        Words::Everything => Ok(Land::Everything),
        Words::Land(land) => land_in_township(land),
    }
}
