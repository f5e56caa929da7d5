//! What land a text describes, read letter by letter.

use crate::forms::value_of;
use crate::part::are_parts;
use std::alloc::{AllocError, Global};

/// A township's two numbers and their directions.
#[derive(Clone, Copy, PartialEq, Eq)]
pub struct Township {
    number: u64,
    is_north: bool,
    range: u64,
    is_east: bool,
}

/// The land that a text describes: all, a township, or a part of one.
#[derive(Clone, Copy)]
pub enum Land {
    Everything,
    Township(Township),
    Part,
}

/// The letters of a text that aren't read yet.
#[derive(Clone, Copy)]
pub struct Letters<'a> {
    left: &'a [u8],
}

impl<'a> Letters<'a> {
    /// All the letters of a text.
    pub fn new(left: &'a [u8]) -> Letters<'a> {
        Letters { left }
    }

    /// Whether all is read.
    pub fn are_read(&self) -> bool {
        self.left.is_empty()
    }

    /// Reads a word, where it stands next.
    pub fn word(&mut self, word: &str) -> bool {
        let left = self.left;
        match left.strip_prefix(word.as_bytes()) {
            Some(left) => {
                self.left = left;
                true
            }
            None => false,
        }
    }

    // Reads digits.
    fn number(&mut self) -> Option<u64> {
        let left = self.left;
        let count = left.iter().take_while(|byte| byte.is_ascii_digit()).count();
        let (digits, left) = left.split_at_checked(count)?;
        self.left = left;
        if digits.is_empty() {
            return None;
        }
        Some(value_of(digits))
    }

    // Reads digits that write a number from 1 to another.
    fn number_to(&mut self, greatest: u64) -> Option<u64> {
        let number = self.number()?;
        if number == 0 || number > greatest {
            return None;
        }
        Some(number)
    }

    // Reads one of two words, and tells whether it's the first.
    fn side(&mut self, first: &str, second: &str) -> Option<bool> {
        if self.word(first) {
            return Some(true);
        }
        if self.word(second) { Some(false) } else { None }
    }

    fn must(&mut self, word: &str) -> Option<()> {
        if self.word(word) { Some(()) } else { None }
    }

    fn township(&mut self) -> Option<Township> {
        self.must("t")?;
        let number = self.number_to(99)?;
        let is_north = self.side("n", "s")?;
        self.side(",", "-");
        self.must("r")?;
        let range = self.number_to(99)?;
        let is_east = self.side("e", "w")?;
        Some(Township {
            number,
            is_north,
            range,
            is_east,
        })
    }

    fn section(&mut self) -> Option<u64> {
        self.word(",");
        self.side("section", "sec")?;
        self.number_to(36)
    }
}

// The letters that count, in lower case.
fn letters_of(alloc: Global, text: &str) -> Result<Vec<u8>, AllocError> {
    let mut letters = Vec::new(alloc);
    for byte in text.bytes() {
        if byte != b' ' && byte != b'.' {
            letters.push(byte.to_ascii_lowercase())?;
        }
    }
    Ok(letters)
}

// What stands behind a township.
fn within(
    alloc: Global,
    township: Township,
    mut letters: Letters<'_>,
) -> Result<Option<Land>, AllocError> {
    if letters.are_read() {
        return Ok(Some(Land::Township(township)));
    }
    if letters.section().is_none() {
        return Ok(None);
    }
    if letters.are_read() {
        return Ok(Some(Land::Part));
    }
    letters.side(",", ":");
    if are_parts(alloc, letters.left)? {
        Ok(Some(Land::Part))
    } else {
        Ok(None)
    }
}

/// The land that a text describes, if it does.
pub fn land_of(alloc: Global, text: &str) -> Result<Option<Land>, AllocError> {
    if text.len() > 1_000 {
        return Ok(None);
    }
    let text = letters_of(alloc, text)?;
    if text.as_slice() == b"everything".as_slice() {
        return Ok(Some(Land::Everything));
    }
    let mut letters = Letters::new(text.as_slice());
    match letters.township() {
        Some(township) => within(alloc, township, letters),
        None => Ok(None),
    }
}
