//! A township as its 36 sections.

use crate::acres::half_acres_of;
use crate::canvas::{Area, Canvas};
use crate::label::{acres_text, tip};
use crate::owners::Keyed;
use crate::paint::key_text;
use crate::positions::position_of;
use crate::section::area_in;
use crate::squares::square_in;
use std::alloc::AllocError;
use title_aliquot::{Section, Township};
use title_instrument::Estate;

// The pixels of a section's side in a township's panel, and of a cell's.
const SECTION: u32 = 64;

const CELL: u32 = 4;

// The classes and the heights, from the top of a square, of the label of a part with this side: its key, and its acres.
fn label_type(side: u32) -> ((&'static str, u32), (&'static str, u32)) {
    if side >= 64 {
        return (("k14", 35), ("c9", 48));
    }
    if side >= 32 {
        return (("k10", 20), ("c8", 29));
    }
    (("k8", 11), ("c7", 16))
}

// Writes a part's key and, where there is room, its acres.
fn add_label(canvas: &mut Canvas, area: Area, keyed: &Keyed<'_>) -> Result<(), AllocError> {
    if area.width < 16 {
        return Ok(());
    }
    let ((key_class, key_y), (class, acres_y)) = label_type(area.width);
    let key = key_text(canvas.alloc, keyed.key)?;
    let acres = acres_text(canvas.alloc, keyed, "")?;
    let has_acres = area.width >= 32 && half_acres_of(keyed.part.node, 0) <= 1_280;
    let (x, y) = (area.middle(), area.y.saturating_add(key_y));
    let height = if has_acres {
        acres_y.saturating_sub(key_y).saturating_add(12)
    } else {
        13
    };
    let halo = Area {
        x: x.saturating_sub(area.width / 4).saturating_add(1),
        y: y.saturating_sub(10),
        width: (area.width / 2).saturating_sub(2),
        height: height.min(area.height.saturating_sub(4)),
    };
    canvas.rect(halo, "halo")?;
    canvas.text(x, y, key_class, key.as_str())?;
    if has_acres {
        canvas.text(x, area.y.saturating_add(acres_y), class, acres.as_str())?;
    }
    Ok(())
}

// Draws a part in a section.
fn add_part(
    canvas: &mut Canvas,
    square: Area,
    section: Section,
    keyed: &Keyed<'_>,
) -> Result<(), AllocError> {
    let Some(rectangle) = square_in(section, &keyed.part.node) else {
        return Ok(());
    };
    let area = area_in(square, rectangle, CELL);
    let tip = tip(canvas.alloc, keyed)?;
    canvas.begin(tip.as_str())?;
    canvas.filled(area, keyed.key)?;
    add_label(canvas, area, keyed)?;
    canvas.end()
}

// Writes a section's number into its corner, and draws its outline.
fn add_number(canvas: &mut Canvas, square: Area, number: u8) -> Result<(), AllocError> {
    let width = if number < 10 { 10 } else { 16 };
    canvas.rect(
        Area {
            x: square.x.saturating_add(1),
            y: square.y.saturating_add(1),
            width,
            height: 11,
        },
        "halo",
    )?;
    let text = format!(in canvas.alloc; "{number}")?;
    canvas.text(
        square.x.saturating_add(3),
        square.y.saturating_add(10),
        "number",
        text.as_str(),
    )?;
    canvas.rect(square, "section")
}

// Draws a section of a township.
fn add_section(
    canvas: &mut Canvas,
    panel: Area,
    section: Section,
    parts: &[Keyed<'_>],
    estate: Estate,
) -> Result<(), AllocError> {
    let position = position_of(section.number);
    let x = panel
        .x
        .saturating_add(u32::from(position.column).saturating_mul(SECTION));
    let y = panel
        .y
        .saturating_add(u32::from(position.row).saturating_mul(SECTION));
    let square = Area::square(x, y, SECTION);
    for keyed in parts {
        if keyed.part.estate == estate {
            add_part(canvas, square, section, keyed)?;
        }
    }
    add_number(canvas, square, section.number)
}

/// Draws the parts of an estate in a township.
pub(crate) fn add_township(
    canvas: &mut Canvas,
    panel: Area,
    township: Township,
    parts: &[Keyed<'_>],
    estate: Estate,
) -> Result<(), AllocError> {
    canvas.rect(panel, "land")?;
    for section in township.sections() {
        add_section(canvas, panel, section, parts, estate)?;
    }
    canvas.rect(panel, "outline")
}
