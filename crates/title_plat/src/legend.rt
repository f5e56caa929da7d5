//! The key of a picture: for each letter, colour and hatching the owners whose shares it stands for.

use crate::canvas::{Area, Canvas};
use crate::owners::Keyed;
use crate::paint::key_text;
use crate::row::Row;
use crate::width::{shortened, text_width};
use std::alloc::AllocError;

/// The height of a line of the key or of a table.
pub(crate) const LINE: u32 = 20;

// Where the columns of the key stand, from its left side.
const NAMES: u32 = 52;

const SHARES: u32 = 560;

/// Writes a name, cut short where it is wider than so much; then the whole is shown where it is pointed at.
pub(crate) fn add_name(
    canvas: &mut Canvas,
    x: u32,
    y: u32,
    width: u32,
    name: &str,
) -> Result<(), AllocError> {
    let short = shortened(canvas.alloc, name, 13, width)?;
    canvas.begin(name)?;
    canvas.text(x, y, "l13", short.as_str())?;
    canvas.end()
}

// Writes the owners of one holding, a line each, from this height on.
fn add_owners(canvas: &mut Canvas, x: u32, top: u32, owners: &[Row]) -> Result<u32, AllocError> {
    let mut y = top;
    for row in owners {
        let share = format!(in canvas.alloc; "{}", row.share)?;
        let room = (SHARES - NAMES - 16).saturating_sub(text_width(share.as_str(), 13));
        add_name(canvas, x.saturating_add(NAMES), y, room, row.party.as_str())?;
        canvas.text(x.saturating_add(SHARES), y, "r13", share.as_str())?;
        y = y.saturating_add(LINE);
    }
    Ok(y)
}

// Writes one holding from this height on.
fn add_holding(
    canvas: &mut Canvas,
    x: u32,
    top: u32,
    keyed: &Keyed<'_>,
) -> Result<u32, AllocError> {
    let swatch = Area {
        x,
        y: top.saturating_sub(14),
        width: 38,
        height: 18,
    };
    canvas.filled(swatch, keyed.key)?;
    let key = key_text(canvas.alloc, keyed.key)?;
    canvas.rect(
        Area {
            x: x.saturating_add(11),
            y: top.saturating_sub(12),
            width: 16,
            height: 14,
        },
        "halo",
    )?;
    canvas.text(swatch.middle(), top.saturating_sub(1), "k12", key.as_str())?;
    let y = add_owners(canvas, x, top, keyed.owners)?;
    Ok(y.saturating_add(6))
}

/// Writes the key, each holding once, from this height on, and answers where it ends.
pub(crate) fn add_legend(
    canvas: &mut Canvas,
    x: u32,
    top: u32,
    parts: &[Keyed<'_>],
) -> Result<u32, AllocError> {
    canvas.text(x, top, "head", "Key")?;
    canvas.text(x.saturating_add(NAMES), top, "head", "Owners")?;
    canvas.text(x.saturating_add(SHARES), top, "rhead", "Share")?;
    let rule = top.saturating_add(7);
    canvas.line((x, rule), (x.saturating_add(SHARES), rule), "rule")?;
    let mut y = top.saturating_add(28);
    let mut next: usize = 0;
    for keyed in parts {
        if keyed.key == next {
            y = add_holding(canvas, x, y, keyed)?;
            next = next.saturating_add(1);
        }
    }
    Ok(y)
}
