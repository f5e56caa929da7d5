//! What was tried, and what came of it.

use std::fmt;

/// How many contents were looked at and for what they stand; how many were served again; and how many aren't as promised.
#[derive(Clone, Copy, Default)]
pub struct Tally {
    pub before: u32,
    pub after: u32,
    pub served: u32,
    pub refused: u32,
    pub differ: u32,
}

/// One more.
pub fn one_more(count: &mut u32) {
    *count = count.saturating_add(1);
}

impl Tally {
    /// All of both.
    pub fn add(&mut self, other: Tally) {
        self.before = self.before.saturating_add(other.before);
        self.after = self.after.saturating_add(other.after);
        self.served = self.served.saturating_add(other.served);
        self.refused = self.refused.saturating_add(other.refused);
        self.differ = self.differ.saturating_add(other.differ);
    }
}

impl fmt::Display for Tally {
    fn fmt<W: fmt::Write>(&self, f: &mut fmt::Formatter<W>) -> fmt::Result {
        let (before, after, served) = (self.before, self.after, self.served);
        let (refused, differ) = (self.refused, self.differ);
        write!(f, "{before} stand for before, {after} for after; ")?;
        write!(
            f,
            "{served} served again, {refused} refused, {differ} differ"
        )
    }
}
