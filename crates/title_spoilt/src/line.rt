//! Rows of scripts that are spoilt by chance.

use crate::spoil::pick;
use std::alloc::{AllocError, Global};
use title_chance::Chance;

// What ends a row.
#[derive(Clone, Copy)]
enum Ending {
    Feed,
    Return,
    Both,
    Twice,
    Nothing,
}

/// A row: its fields with commas between them, and what ends it.
pub struct Line {
    text: Vec<u8>,
    ending: Ending,
}

// By hand, so that whoever lets one go sees one call.
impl Drop for Line {
    fn drop(self) {
        let Line { text, ending: _ } = self;
        drop(text);
    }
}

impl Ending {
    fn by_chance(chance: &mut Chance) -> Ending {
        match chance.below(4) {
            0 => Ending::Return,
            1 => Ending::Both,
            2 => Ending::Twice,
            _ => Ending::Nothing,
        }
    }

    fn bytes(self) -> &'static str {
        match self {
            Ending::Feed => "\n",
            Ending::Return => "\r",
            Ending::Both => "\r\n",
            Ending::Twice => "\n\n",
            Ending::Nothing => "",
        }
    }
}

// How many fields a row has.
fn count(text: &[u8]) -> usize {
    let mut count = 1usize;
    for byte in text {
        if *byte == b',' {
            count = count.saturating_add(1);
        }
    }
    count
}

// Where a field of a row begins and ends.
fn bounds(text: &[u8], index: usize) -> (usize, usize) {
    let (mut field, mut start) = (0usize, 0usize);
    for (at, byte) in text.iter().enumerate() {
        if *byte == b',' {
            if field == index {
                return (start, at);
            }
            field = field.saturating_add(1);
            start = at.saturating_add(1);
        }
    }
    (start, text.len())
}

impl Line {
    /// The same row.
    pub fn copy(&self, alloc: Global) -> Result<Line, AllocError> {
        Ok(Line {
            text: Vec::from_slice(alloc, self.text.as_slice())?,
            ending: self.ending,
        })
    }

    // Makes the row of its bytes before one, of others, and of its bytes from another one on.
    fn join(
        &mut self,
        alloc: Global,
        before: usize,
        bytes: &[u8],
        from: usize,
    ) -> Result<(), AllocError> {
        let old = self.text.as_slice();
        let mut text = Vec::from_slice(alloc, old.get(..before).unwrap_or(old))?;
        text.extend_from_slice(bytes)?;
        text.extend_from_slice(old.get(from..).unwrap_or(b""))?;
        self.text = text;
        Ok(())
    }

    // Leaves out the field between two places, with one of the commas beside it.
    fn leave_out(&mut self, alloc: Global, start: usize, end: usize) -> Result<(), AllocError> {
        if start > 0 {
            self.join(alloc, start.saturating_sub(1), b"", end)
        } else {
            self.join(alloc, 0, b"", end.saturating_add(1))
        }
    }

    fn quote(&mut self, alloc: Global, start: usize, end: usize) -> Result<(), AllocError> {
        self.join(alloc, end, b"\"", end)?;
        self.join(alloc, start, b"\"", start)
    }

    // Cuts the row within a field.
    fn cut(&mut self, chance: &mut Chance, start: usize, end: usize) {
        let kept = pick(chance, end.saturating_sub(start));
        self.text.truncate(start.saturating_add(kept));
    }

    /// Spoils the row once.
    pub fn spoil(&mut self, alloc: Global, chance: &mut Chance) -> Result<(), AllocError> {
        let index = pick(chance, count(self.text.as_slice()));
        let (start, end) = bounds(self.text.as_slice(), index);
        match chance.below(6) {
            0 => self.leave_out(alloc, start, end)?,
            1 => self.join(alloc, end, b",", start)?,
            2 => self.quote(alloc, start, end)?,
            3 => self.cut(chance, start, end),
            _ => self.ending = Ending::by_chance(chance),
        }
        Ok(())
    }

    // Adds the bytes of the row to a text.
    fn add_to(&self, text: &mut Vec<u8>) -> Result<(), AllocError> {
        text.extend_from_slice(self.text.as_slice())?;
        text.extend_from_slice(self.ending.bytes().as_bytes())
    }
}

/// The rows of a script that has no quotes.
pub fn lines_of(alloc: Global, script: &[u8]) -> Result<Vec<Line>, AllocError> {
    let script = script.strip_suffix(b"\n").unwrap_or(script);
    let mut lines = Vec::new(alloc);
    for line in script.split(|byte| *byte == b'\n') {
        lines.push(Line {
            text: Vec::from_slice(alloc, line)?,
            ending: Ending::Feed,
        })?;
    }
    Ok(lines)
}

/// The bytes of rows.
pub fn text_of(alloc: Global, lines: &[Line]) -> Result<Vec<u8>, AllocError> {
    let mut text = Vec::new(alloc);
    for line in lines {
        line.add_to(&mut text)?;
    }
    Ok(text)
}
