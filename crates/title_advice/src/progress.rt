//! How far a long script is, for a person who waits.

use std::fmt;
use std::io::Write;
use title_script::Watch;

// The most steps of a script of which nothing is shown.
const SHORT: usize = 10_000;

// How many times at most the line is written anew.
const UPDATES: usize = 200;

// A number below a million, with a comma between its thousands.
#[derive(Clone, Copy)]
struct Grouped(usize);

impl fmt::Display for Grouped {
    fn fmt<W: fmt::Write>(&self, f: &mut fmt::Formatter<W>) -> fmt::Result {
        let (thousands, rest) = (self.0 / 1_000, self.0 % 1_000);
        if thousands == 0 {
            write!(f, "{rest}")
        } else {
            write!(f, "{thousands},{rest:03}")
        }
    }
}

/// A line on a terminal that says how many rows of a long script have been served. It is written anew as the number grows, and
/// wiped at the end. Where nothing is to be shown, or the script is short, nothing is written.
#[derive(Drop)]
pub struct Progress<W> {
    to: W,
    is_shown: bool,
    stands: bool,
}

impl<W> Progress<W> {
    /// Shows how far a script is, or nothing.
    pub fn new(to: W, is_shown: bool) -> Progress<W> {
        Progress {
            to,
            is_shown,
            stands: false,
        }
    }
}

impl<W: Write> Progress<W> {
    // Writes the line anew; where that fails no more is shown.
    fn show(&mut self, steps: usize, of: usize) {
        self.stands = true;
        let (steps, of) = (Grouped(steps), Grouped(of));
        if write!(self.to, "\r{steps} of {of} rows served").is_err() {
            self.is_shown = false;
        }
    }

    /// Wipes the line, where one stands.
    pub fn wipe(&mut self) {
        if !self.stands {
            return;
        }
        self.stands = false;
        if write!(self.to, "\r{:40}\r", "").is_err() {
            self.is_shown = false;
        }
    }
}

impl<W: Write> Watch for Progress<W> {
    fn served(&mut self, steps: usize, of: usize) {
        if !self.is_shown || of <= SHORT {
            return;
        }
        if steps >= of {
            self.wipe();
        } else if steps % (of / UPDATES).max(1) == 0 {
            self.show(steps, of);
        }
    }
}
