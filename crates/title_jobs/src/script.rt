//! Scripts as they are made.

use itoa::Buffer;
use std::alloc::{AllocError, Global};

/// The bytes of a script, row by row.
#[derive(Drop)]
pub struct Script {
    bytes: Vec<u8>,
}

impl Script {
    /// A script with no rows.
    pub fn new(alloc: Global) -> Script {
        Script {
            bytes: Vec::new(alloc),
        }
    }

    /// Its bytes.
    pub fn bytes(&self) -> &[u8] {
        self.bytes.as_slice()
    }

    /// Adds texts one after another.
    pub fn add(&mut self, texts: &[&str]) -> Result<(), AllocError> {
        for text in texts {
            self.bytes.extend_from_slice(text.as_bytes())?;
        }
        Ok(())
    }

    /// Adds a number between two texts.
    pub fn add_number(&mut self, before: &str, number: u32, after: &str) -> Result<(), AllocError> {
        let mut digits = Buffer::new();
        self.add(&[before, digits.format(number), after])
    }
}
