//! What a person at a desk is told beside the answers.

use crate::audience::Audience;
use crate::desk_row::desk_row_advice;
use crate::lines::Lines;
use crate::passed_over::PassedOver;
use std::alloc::{AllocError, Global};
use std::cell::RefCell;
use title_device::{Sink, write_all};

/// The lines that a desk was given last, for the sentences about those that it passes over. What listens to the rows shares it with what
/// listens to the answers. Nothing is kept where nobody is to be told.
#[derive(Drop)]
pub struct Aside {
    alloc: Global,
    audience: Audience,
    lines: RefCell<Lines>,
}

impl Aside {
    /// No line yet. Who is to be told.
    pub fn new(alloc: Global, audience: Audience) -> Aside {
        Aside {
            alloc,
            audience,
            lines: RefCell::new(Lines::new(alloc)),
        }
    }

    /// Whether anybody is to be told.
    pub(crate) fn is_told(&self) -> bool {
        self.audience.is_told()
    }

    /// Takes bytes that the desk was given; those before have been answered by now, but for the beginning of a line.
    pub(crate) fn take(&self, given: &[u8]) {
        if !self.audience.is_told() {
            return;
        }
        if let Ok(mut lines) = self.lines.try_borrow_mut() {
            lines.take(given);
        }
    }

    // What is wrong with a row that was passed over. Nothing where its line is lost.
    fn advice(&self, passed: PassedOver) -> Result<Option<String>, AllocError> {
        let Ok(lines) = self.lines.try_borrow() else {
            return Ok(None);
        };
        match lines.row(passed.row) {
            Some(line) => {
                let said = desk_row_advice(self.alloc, self.audience, passed, line)?;
                Ok(Some(said))
            }
            None => Ok(None),
        }
    }

    /// Tells what is wrong with a row that was passed over.
    pub(crate) fn tell<E: Sink>(&self, passed: PassedOver, errors: &mut E) {
        if errors.failed() {
            return;
        }
        if let Ok(Some(text)) = self.advice(passed) {
            let _told = write_all(errors, text.as_bytes());
        }
    }
}
