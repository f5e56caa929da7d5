//! How wide texts are, by rule of thumb, and texts cut short to fit.

use std::alloc::{AllocError, Global};

// The width of a character in a plain sans serif type, in hundredths of its size.
fn char_width(c: char) -> u32 {
    match c {
        'i' | 'j' | 'l' | 'I' | 'J' | '.' | ',' | ':' | ';' | '\'' | '|' | ' ' | '/' => 35,
        'f' | 'r' | 't' | '(' | ')' | '-' => 42,
        'm' | 'w' | 'M' | 'W' | '@' | '%' => 96,
        'A'..='Z' | '&' => 74,
        '\u{2E80}'..='\u{FFFF}' => 105,
        c if c > '\u{FFFF}' => 110,
        _ => 64,
    }
}

/// The width of a text in this size of type.
pub(crate) fn text_width(text: &str, size: u32) -> u32 {
    let mut hundredths: u32 = 0;
    for c in text.chars() {
        hundredths = hundredths.saturating_add(char_width(c));
    }
    hundredths.saturating_mul(size) / 100
}

/// A text that is no wider than so much in this size of type: the text itself, or its beginning with an ellipsis.
pub(crate) fn shortened(
    alloc: Global,
    text: &str,
    size: u32,
    width: u32,
) -> Result<String, AllocError> {
    if text_width(text, size) <= width {
        return String::from_str(alloc, text);
    }
    let room = width.saturating_mul(100) / size.max(1);
    let mut used: u32 = 100;
    let mut out = String::new(alloc);
    for c in text.chars() {
        used = used.saturating_add(char_width(c));
        if used > room {
            break;
        }
        out.push(c)?;
    }
    out.push('\u{2026}')?;
    Ok(out)
}
