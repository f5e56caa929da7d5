//! Descriptions that describe no land.

use std::alloc::{AllocError, Global};
use title_aliquot::DescFault;

// The most bytes of a description.
const MOST_BYTES: usize = 1_000;

const OUT_OF_RANGE: &str =
    "a township and a range have numbers from 1 to 99, and a section from 1 to 36";

const TOO_SMALL: &str =
    "a part is narrower than 330 feet, a side of the smallest square that a plant keeps";

const LOT: &str = "a government lot can't be read, for only its plat says which land it is";

const SHARED: &str = "two parts share land; name each piece of land once";

// How many bytes are shown before the byte at fault, and behind it.
const SHOWN: usize = 40;

// The part of a text that stands near a byte, and as many spaces as it has characters before that byte.
#[derive(Drop)]
struct Excerpt {
    shown: String,
    pad: String,
}

impl Excerpt {
    // The text goes on where nothing is shown of it, before the byte at fault or behind it.
    fn add_cut(&mut self, is_before: bool) -> Result<(), AllocError> {
        self.shown.push_str("...")?;
        if is_before {
            self.pad.push_str("   ")?;
        }
        Ok(())
    }

    fn add(&mut self, letter: char, is_before: bool) -> Result<(), AllocError> {
        self.shown
            .push(if letter.is_control() { '?' } else { letter })?;
        if is_before {
            self.pad.push(' ')?;
        }
        Ok(())
    }
}

fn part_near(alloc: Global, text: &str, byte: usize) -> Result<Excerpt, AllocError> {
    let mut excerpt = Excerpt {
        shown: String::new(alloc),
        pad: String::new(alloc),
    };
    let first = byte.saturating_sub(SHOWN);
    let last = byte.saturating_add(SHOWN);
    if first > 0 {
        excerpt.add_cut(true)?;
    }
    for (at, letter) in text.char_indices() {
        if first <= at && at <= last {
            excerpt.add(letter, at < byte)?;
        }
    }
    if last < text.len() {
        excerpt.add_cut(false)?;
    }
    Ok(excerpt)
}

// The character that begins at a byte of a text.
fn letter_at(text: &str, byte: usize) -> Option<char> {
    for (at, letter) in text.char_indices() {
        if at == byte {
            return Some(letter);
        }
    }
    None
}

// What is wrong with a text that is no description from a byte on.
fn bad_text(alloc: Global, text: &str, byte: usize) -> Result<String, AllocError> {
    let bytes = text.len();
    if bytes > MOST_BYTES {
        return format!(in alloc;
            "a description has at most {MOST_BYTES} bytes, and this one has {bytes}"
        );
    }
    if bytes == 0 {
        let wanted = "a description of land is wanted here, as T3N R2W sec 5 NE1/4";
        return String::from_str(alloc, wanted);
    }
    match letter_at(text, byte) {
        Some(letter) => {
            let shown = letter.escape_debug();
            format!(in alloc; "no description of land goes on with \"{shown}\" at byte {byte}")
        }
        None => String::from_str(alloc, "the description ends too early"),
    }
}

/// What is wrong with a text that describes no land, in a sentence.
pub fn sentence_of(alloc: Global, text: &str, why: DescFault) -> Result<String, AllocError> {
    match why {
        DescFault::BadText(byte) => bad_text(alloc, text, byte),
        DescFault::Range => String::from_str(alloc, OUT_OF_RANGE),
        DescFault::TooSmall => String::from_str(alloc, TOO_SMALL),
        DescFault::Lots => String::from_str(alloc, LOT),
        DescFault::Overlap => String::from_str(alloc, SHARED),
        DescFault::Memory => String::from_str(alloc, "out of memory"),
    }
}

/// A text, on one line and cut to what stands near this byte, a caret below the character at the byte, and a sentence: each with
/// its line end.
pub fn pointed_out(alloc: Global, text: &str, why: DescFault) -> Result<String, AllocError> {
    let said = sentence_of(alloc, text, why)?;
    match why {
        DescFault::BadText(byte) if !text.is_empty() => {
            let excerpt = part_near(alloc, text, byte)?;
            let (shown, pad) = (excerpt.shown.as_str(), excerpt.pad.as_str());
            format!(in alloc; "{shown}\n{pad}^\n{said}\n")
        }
        _ => format!(in alloc; "{said}\n"),
    }
}
