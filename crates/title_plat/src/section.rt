//! A section as its grid.

use crate::canvas::{Area, Canvas};
use crate::label::{label, tip};
use crate::owners::Keyed;
use crate::squares::square_in;
use std::alloc::AllocError;
use title_aliquot::{Node, Rectangle, Section};
use title_instrument::Estate;

/// The side of a panel, a section's or a township's, in pixels.
pub(crate) const PANEL: u32 = 384;

// The pixels of a cell's side in a section's panel.
const CELL: u32 = 24;

/// The square of a panel in which a section's rectangle is drawn, where a cell's side has so many pixels.
pub(crate) fn area_in(panel: Area, rectangle: Rectangle, cell: u32) -> Area {
    Area {
        x: panel
            .x
            .saturating_add(u32::from(rectangle.left).saturating_mul(cell)),
        y: panel
            .y
            .saturating_add(u32::from(rectangle.top).saturating_mul(cell)),
        width: u32::from(rectangle.width).saturating_mul(cell),
        height: u32::from(rectangle.height).saturating_mul(cell),
    }
}

// The square of a part's node in the section of the panel; the whole panel where that isn't a section's.
fn square_of(section: Option<Section>, node: &Node) -> Rectangle {
    match section {
        Some(section) => square_in(section, node).unwrap_or(Rectangle::section()),
        None => Rectangle::section(),
    }
}

// Draws a part.
fn add_part(
    canvas: &mut Canvas,
    panel: Area,
    section: Option<Section>,
    keyed: &Keyed<'_>,
) -> Result<(), AllocError> {
    let square = area_in(panel, square_of(section, &keyed.part.node), CELL);
    let tip = tip(canvas.alloc, keyed)?;
    canvas.begin(tip.as_str())?;
    canvas.filled(square, keyed.key)?;
    label(canvas, square, keyed)?;
    canvas.end()
}

// Draws the lines between the quarters of a section.
fn add_quarter_lines(canvas: &mut Canvas, panel: Area) -> Result<(), AllocError> {
    let half = panel.width / 2;
    let (x, y) = (panel.x.saturating_add(half), panel.y.saturating_add(half));
    canvas.line((x, panel.y), (x, panel.bottom()), "quarter")?;
    canvas.line((panel.x, y), (panel.right(), y), "quarter")
}

/// Draws the parts of an estate in a section, or of the whole plant.
pub(crate) fn add_section(
    canvas: &mut Canvas,
    panel: Area,
    section: Option<Section>,
    parts: &[Keyed<'_>],
    estate: Estate,
) -> Result<(), AllocError> {
    canvas.rect(panel, "land")?;
    add_quarter_lines(canvas, panel)?;
    for keyed in parts {
        if keyed.part.estate == estate {
            add_part(canvas, panel, section, keyed)?;
        }
    }
    canvas.rect(panel, "outline")
}
