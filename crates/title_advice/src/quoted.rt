//! Texts as sentences quote them.

use std::fmt;

// The most characters of a text that a sentence quotes.
const MOST_QUOTED: usize = 60;

/// A text in double quotes: control characters are escaped, and a long text is cut with an ellipsis.
#[derive(Clone, Copy, Debug)]
pub struct Quoted<'a>(pub &'a str);

impl fmt::Display for Quoted<'_> {
    fn fmt<W: fmt::Write>(&self, f: &mut fmt::Formatter<W>) -> fmt::Result {
        f.write_str("\"")?;
        for letter in self.0.chars().take(MOST_QUOTED) {
            write!(f, "{}", letter.escape_debug())?;
        }
        if self.0.chars().nth(MOST_QUOTED).is_some() {
            f.write_str("...")?;
        }
        f.write_str("\"")
    }
}
