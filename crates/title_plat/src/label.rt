//! What is written in a part.

use crate::acres::half_acres_of;
use crate::canvas::{Area, Canvas};
use crate::owners::Keyed;
use crate::paint::key_text;
use crate::row::Row;
use crate::width::{shortened, text_width};
use std::alloc::{AllocError, Global};
use title_aliquot::Acres;

/// The type of a part's label: how many owners are named in it, and the size and the class of its lines.
#[derive(Clone, Copy)]
struct Style {
    owners: usize,
    size: u32,
    step: u32,
    class: &'static str,
    key_size: u32,
    key_class: &'static str,
    unit: &'static str,
}

// The type that fits a part with this side.
fn style_of(side: u32) -> Style {
    if side >= 384 {
        return Style {
            owners: 14,
            size: 13,
            step: 18,
            class: "c13",
            key_size: 20,
            key_class: "k20",
            unit: " acres",
        };
    }
    if side >= 192 {
        return Style {
            owners: 7,
            size: 12,
            step: 16,
            class: "c12",
            key_size: 17,
            key_class: "k17",
            unit: " acres",
        };
    }
    if side >= 96 {
        return Style {
            owners: 3,
            size: 10,
            step: 13,
            class: "c10",
            key_size: 14,
            key_class: "k14",
            unit: " acres",
        };
    }
    if side >= 48 {
        return Style {
            owners: 0,
            size: 9,
            step: 11,
            class: "c9",
            key_size: 12,
            key_class: "k12",
            unit: " ac",
        };
    }
    Style {
        owners: 0,
        size: 7,
        step: 8,
        class: "c7",
        key_size: 9,
        key_class: "k9",
        unit: "",
    }
}

/// The nominal acres of a part, as text; none for the whole plant.
pub(crate) fn acres_text(
    alloc: Global,
    keyed: &Keyed<'_>,
    unit: &str,
) -> Result<String, AllocError> {
    let half_acres = half_acres_of(keyed.part.node, 0);
    if half_acres == 0 {
        return Ok(String::new(alloc));
    }
    let acres = Acres {
        half_acres: half_acres.min(4_000_000_000) as u32,
    };
    format!(in alloc; "{acres}{unit}")
}

// An owner with its share, no wider than so much.
fn owner_text(alloc: Global, row: &Row, size: u32, width: u32) -> Result<String, AllocError> {
    let share = format!(in alloc; " {}", row.share)?;
    let room = width.saturating_sub(text_width(share.as_str(), size));
    if room < 30 {
        let whole = format!(in alloc; "{}{share}", row.party)?;
        return shortened(alloc, whole.as_str(), size, width);
    }
    let name = shortened(alloc, row.party.as_str(), size, room)?;
    format!(in alloc; "{name}{share}")
}

// The lines of a part's label below its key.
fn lines_of(
    alloc: Global,
    keyed: &Keyed<'_>,
    style: Style,
    width: u32,
) -> Result<Vec<String>, AllocError> {
    let mut lines = Vec::new(alloc);
    let acres = acres_text(alloc, keyed, style.unit)?;
    if !acres.is_empty() {
        lines.push(acres)?;
    }
    let owners = keyed.owners;
    for (i, row) in owners.iter().enumerate() {
        if i >= style.owners {
            break;
        }
        if i + 1 == style.owners && owners.len() > style.owners {
            let more = owners.len() - i;
            lines.push(format!(in alloc; "and {more} more")?)?;
        } else {
            lines.push(owner_text(alloc, row, style.size, width)?)?;
        }
    }
    Ok(lines)
}

// The width of the widest of some lines.
fn widest(lines: &[String], size: u32) -> u32 {
    let mut most: u32 = 0;
    for line in lines {
        most = most.max(text_width(line.as_str(), size));
    }
    most
}

/// Writes a part's key, its acres and, where there is room, its owners in the middle of its square.
pub(crate) fn label(
    canvas: &mut Canvas,
    square: Area,
    keyed: &Keyed<'_>,
) -> Result<(), AllocError> {
    let alloc = canvas.alloc;
    let style = style_of(square.width);
    let width = square.width.saturating_sub(8);
    let key = key_text(alloc, keyed.key)?;
    let lines = lines_of(alloc, keyed, style, width)?;
    let block = (widest(lines.as_slice(), style.size)
        .max(text_width(key.as_str(), style.key_size))
        .saturating_add(6))
    .min(square.width.saturating_sub(2));
    let height = style
        .key_size
        .saturating_add(style.step.saturating_mul(lines.len().min(64) as u32));
    let top = square
        .y
        .saturating_add(square.height.saturating_sub(height) / 2);
    let x = square.middle();
    let halo = Area {
        x: x.saturating_sub(block / 2),
        y: top.saturating_sub(1),
        width: block,
        height: height.saturating_add(2),
    };
    canvas.rect(halo, "halo")?;
    let mut y = top.saturating_add(style.key_size.saturating_mul(85) / 100);
    canvas.text(x, y, style.key_class, key.as_str())?;
    for line in lines.iter() {
        y = y.saturating_add(style.step);
        canvas.text(x, y, style.class, line.as_str())?;
    }
    Ok(())
}

/// The whole of a part in words: its node, its acres, and its owners with their shares.
pub(crate) fn tip(alloc: Global, keyed: &Keyed<'_>) -> Result<String, AllocError> {
    let acres = acres_text(alloc, keyed, " acres")?;
    let node = keyed.part.node;
    let mut out = format!(in alloc; "{node} {acres}")?;
    for row in keyed.owners {
        let owner = format!(in alloc; "\n{} {}", row.party, row.share)?;
        out.push_str(owner.as_str())?;
    }
    Ok(out)
}
