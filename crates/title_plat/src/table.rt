//! The table of a picture: each party's net acres in each estate.

use crate::acres::{NetAcres, net_units};
use crate::canvas::Canvas;
use crate::fault::PlatFault;
use crate::legend::{LINE, add_name};
use crate::row::{ESTATES, Row};
use std::alloc::{AllocError, Global};

// Where the columns of the table end, from its left side.
const FIRST: u32 = 330;

const STEP: u32 = 115;

const WIDTH: u32 = 560;

fn has_name(names: &[&str], name: &str) -> bool {
    for other in names {
        if *other == name {
            return true;
        }
    }
    false
}

/// The parties of some rows, in the order of their first rows.
pub(crate) fn parties_of(alloc: Global, rows: &[Row]) -> Result<Vec<&str>, AllocError> {
    let mut names = Vec::new(alloc);
    for row in rows {
        if !has_name(names.as_slice(), row.party.as_str()) {
            names.push(row.party.as_str())?;
        }
    }
    Ok(names)
}

// Writes a party's net acres, a column for each estate.
fn add_party(
    canvas: &mut Canvas,
    x: u32,
    y: u32,
    rows: &[Row],
    party: &str,
    townships: u32,
) -> Result<(), PlatFault> {
    add_name(canvas, x, y, FIRST - 100, party)?;
    let mut column = x.saturating_add(FIRST);
    for estate in ESTATES {
        let Some(units) = net_units(rows, party, estate, townships) else {
            return Err(PlatFault::NotASheet);
        };
        let text = if units == 0 {
            String::from_str(canvas.alloc, "\u{2013}")?
        } else {
            let acres = NetAcres { units };
            format!(in canvas.alloc; "{acres}")?
        };
        canvas.text(column, y, "r13", text.as_str())?;
        column = column.saturating_add(STEP);
    }
    Ok(())
}

// Writes the heads of the columns.
fn add_heads(canvas: &mut Canvas, x: u32, y: u32) -> Result<(), AllocError> {
    canvas.text(x, y, "head", "Net acres")?;
    canvas.text(x.saturating_add(FIRST), y, "rhead", "Surface")?;
    canvas.text(x.saturating_add(FIRST + STEP), y, "rhead", "Oil and gas")?;
    canvas.text(x.saturating_add(FIRST + 2 * STEP), y, "rhead", "Other min.")?;
    let rule = y.saturating_add(7);
    canvas.line((x, rule), (x.saturating_add(WIDTH), rule), "rule")
}

/// Writes the table from this height on, and answers where it ends.
pub(crate) fn add_table(
    canvas: &mut Canvas,
    x: u32,
    top: u32,
    rows: &[Row],
    townships: u32,
) -> Result<u32, PlatFault> {
    add_heads(canvas, x, top)?;
    let mut y = top.saturating_add(28);
    let parties = parties_of(canvas.alloc, rows)?;
    for party in parties.iter() {
        add_party(canvas, x, y, rows, party, townships)?;
        y = y.saturating_add(LINE);
    }
    Ok(y)
}
