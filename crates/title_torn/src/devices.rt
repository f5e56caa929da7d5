//! A reader and a writer that fail at one turn.

use std::io::{self, ErrorKind, Read, Write};

/// A reader of a byte a turn, which fails at one turn.
#[derive(Drop)]
pub struct FlakyReader<'a> {
    pub left: &'a [u8],
    pub good_turns: usize,
}

impl Read for FlakyReader<'_> {
    fn read(&mut self, buf: &mut [u8]) -> io::Result<usize> {
        if self.good_turns == 0 {
            return Err(io::Error::from(ErrorKind::BrokenPipe));
        }
        self.good_turns -= 1;
        match (self.left.split_first(), buf.first_mut()) {
            (Some((byte, left)), Some(slot)) => {
                *slot = *byte;
                self.left = left;
                Ok(1)
            }
            _ => Ok(0),
        }
    }
}

/// A writer of a byte a turn, which fails at one turn.
#[derive(Drop)]
pub struct FlakyWriter {
    pub taken: Vec<u8>,
    pub good_turns: usize,
}

impl Write for FlakyWriter {
    fn write(&mut self, buf: &[u8]) -> io::Result<usize> {
        if self.good_turns == 0 {
            return Err(io::Error::from(ErrorKind::BrokenPipe));
        }
        self.good_turns -= 1;
        match buf.first() {
            Some(byte) => {
                self.taken.push(*byte)?;
                Ok(1)
            }
            None => Ok(0),
        }
    }

    fn flush(&mut self) -> io::Result<()> {
        Ok(())
    }
}
