//! Parts of a section: rectangles of its sixteen by sixteen cells, halved step by step.

use crate::land::Letters;
use std::alloc::{AllocError, Global};

// Rows or columns, from the first on.
#[derive(Clone, Copy)]
struct Span {
    first: u8,
    count: u8,
}

// Rows and columns.
#[derive(Clone, Copy)]
struct Rectangle {
    rows: Span,
    columns: Span,
}

// Which half of rows or of columns a step takes.
#[derive(Clone, Copy, PartialEq, Eq)]
enum Half {
    First,
    Second,
    Both,
}

#[derive(Clone, Copy)]
struct Step {
    rows: Half,
    columns: Half,
}

const WHOLE: Span = Span {
    first: 0,
    count: 16,
};

impl Span {
    fn halved(self, half: Half) -> Option<Span> {
        if half == Half::Both {
            return Some(self);
        }
        if self.count % 2 != 0 {
            return None;
        }
        let count = self.count / 2;
        let first = match half {
            Half::Second => self.first.saturating_add(count),
            _ => self.first,
        };
        Some(Span { first, count })
    }

    fn end(self) -> u8 {
        self.first.saturating_add(self.count)
    }

    fn meets(self, other: Span) -> bool {
        self.first < other.end() && other.first < self.end()
    }
}

impl Rectangle {
    fn halved(self, step: Step) -> Option<Rectangle> {
        Some(Rectangle {
            rows: self.rows.halved(step.rows)?,
            columns: self.columns.halved(step.columns)?,
        })
    }

    fn meets(self, other: Rectangle) -> bool {
        self.rows.meets(other.rows) && self.columns.meets(other.columns)
    }
}

// Reads a word and one of the marks of a quarter.
fn is_quarter(letters: &mut Letters<'_>, word: &str) -> bool {
    let mut tried = *letters;
    let is_read = tried.word(word) && (tried.word("1/4") || tried.word("/4") || tried.word("¼"));
    if is_read {
        *letters = tried;
    }
    is_read
}

// Reads a word and one of the marks of a half.
fn is_half(letters: &mut Letters<'_>, word: &str) -> bool {
    let mut tried = *letters;
    let is_read = tried.word(word) && (tried.word("1/2") || tried.word("/2") || tried.word("½"));
    if is_read {
        *letters = tried;
    }
    is_read
}

fn quarter_step(letters: &mut Letters<'_>) -> Option<Step> {
    let (rows, columns) = if is_quarter(letters, "ne") {
        (Half::First, Half::Second)
    } else if is_quarter(letters, "nw") {
        (Half::First, Half::First)
    } else if is_quarter(letters, "sw") {
        (Half::Second, Half::First)
    } else if is_quarter(letters, "se") {
        (Half::Second, Half::Second)
    } else {
        return None;
    };
    Some(Step { rows, columns })
}

fn half_step(letters: &mut Letters<'_>) -> Option<Step> {
    let (rows, columns) = if is_half(letters, "n") {
        (Half::First, Half::Both)
    } else if is_half(letters, "s") {
        (Half::Second, Half::Both)
    } else if is_half(letters, "w") {
        (Half::Both, Half::First)
    } else if is_half(letters, "e") {
        (Half::Both, Half::Second)
    } else {
        return None;
    };
    Some(Step { rows, columns })
}

fn any_step(letters: &mut Letters<'_>) -> Option<Step> {
    match quarter_step(letters) {
        Some(step) => Some(step),
        None => half_step(letters),
    }
}

// A step behind another, with `of the` or `of` before it or nothing.
fn next_step(letters: &mut Letters<'_>) -> Option<Step> {
    if letters.word("of") {
        letters.word("the");
    }
    any_step(letters)
}

// The steps of a part, if a text is one; it has fewer of these than letters.
fn steps_of(alloc: Global, text: &[u8]) -> Result<Option<Vec<Step>>, AllocError> {
    let mut letters = Letters::new(text);
    let mut steps = Vec::new(alloc);
    let Some(first) = any_step(&mut letters) else {
        return Ok(None);
    };
    steps.push(first)?;
    for _letter in text {
        if letters.are_read() {
            return Ok(Some(steps));
        }
        let Some(step) = next_step(&mut letters) else {
            return Ok(None);
        };
        steps.push(step)?;
    }
    Ok(None)
}

// The rectangle that steps leave of the section, the last taken first.
fn rectangle_of(steps: &[Step]) -> Option<Rectangle> {
    let mut rectangle = Rectangle {
        rows: WHOLE,
        columns: WHOLE,
    };
    for step in steps.iter().rev() {
        rectangle = rectangle.halved(*step)?;
    }
    Some(rectangle)
}

fn part(alloc: Global, text: &[u8]) -> Result<Option<Rectangle>, AllocError> {
    match steps_of(alloc, text)? {
        Some(steps) => Ok(rectangle_of(steps.as_slice())),
        None => Ok(None),
    }
}

fn meets_any(found: &[Rectangle], part: Rectangle) -> bool {
    found.iter().any(|other| other.meets(part))
}

/// Whether a text names the whole section, or parts of it of which no two share a cell.
pub fn are_parts(alloc: Global, text: &[u8]) -> Result<bool, AllocError> {
    if text == b"all".as_slice() {
        return Ok(true);
    }
    let mut found = Vec::new(alloc);
    for piece in text.split(|byte| *byte == b',') {
        let Some(rectangle) = part(alloc, piece)? else {
            return Ok(false);
        };
        if meets_any(found.as_slice(), rectangle) {
            return Ok(false);
        }
        found.push(rectangle)?;
    }
    Ok(true)
}
