//! What tells holdings apart: a letter, a colour and a hatching for each. The colours are those of Okabe and Ito (Color Universal
//! Design, 2008), which people who don't see red and green tell apart, in tints of differing lightness.

use crate::canvas::Canvas;
use std::alloc::{AllocError, Global};

/// The letter of the holding with this index, from 0: A to Z, and then A1 to Z1 and so on.
pub(crate) fn key_text(alloc: Global, key: usize) -> Result<String, AllocError> {
    let letter = char::from(b'A' + (key % 26) as u8);
    let round = key / 26;
    if round == 0 {
        format!(in alloc; "{letter}")
    } else {
        format!(in alloc; "{letter}{round}")
    }
}

// The colour of a key, light, as it fills a part.
fn tint(key: usize) -> &'static str {
    match key % 8 {
        0 => "#e3f1fb",
        1 => "#f3c775",
        2 => "#8fd0ba",
        3 => "#fbf6bd",
        4 => "#eaa67c",
        5 => "#ecd0e0",
        6 => "#8bb9da",
        _ => "#d4d4d4",
    }
}

// The colour of a key, full, as it hatches a part.
fn ink(key: usize) -> &'static str {
    match key % 8 {
        0 => "#56b4e9",
        1 => "#b87f00",
        2 => "#007a59",
        3 => "#c4b800",
        4 => "#a84a00",
        5 => "#b0558c",
        6 => "#00508a",
        _ => "#666666",
    }
}

// The hatching of a key, as a path in a square of 10 by 10.
fn hatching(key: usize) -> &'static str {
    match (key % 8 + key / 8 % 8) % 8 {
        0 => "",
        1 => "M-2 2l4 -4M0 10l10 -10M8 12l4 -4",
        2 => "M0 5h10",
        3 => "M-2 8l4 4M0 0l10 10M8 -2l4 4",
        4 => "M5 0v10",
        5 => "M4 5h2",
        6 => "M-2 2l4 -4M0 10l10 -10M8 12l4 -4M-2 8l4 4M0 0l10 10M8 -2l4 4",
        _ => "M0 5h10M5 0v10",
    }
}

/// Adds the pattern of a key.
pub(crate) fn add_pattern(canvas: &mut Canvas, key: usize) -> Result<(), AllocError> {
    let name = key_text(canvas.alloc, key)?;
    let (tint, ink, path) = (tint(key), ink(key), hatching(key));
    let svg = format!(in canvas.alloc;
        "<pattern id=\"{name}\" width=\"10\" height=\"10\" patternUnits=\"userSpaceOnUse\">\
<rect width=\"10\" height=\"10\" fill=\"{tint}\"/>\
<path d=\"{path}\" stroke=\"{ink}\" stroke-width=\"0.8\" stroke-opacity=\"0.75\" fill=\"none\"/></pattern>\n"
    )?;
    canvas.raw(svg.as_str())
}
