//! The beginning of a line, while the rest of it hasn't come.

ghost use Rattle.std.specs.Prelude.{◌≡◌, ◌≤◌, ◌∷◌, ◌++◌, [], length, nat_le, not};
ghost use Rattle.title_counter.specs.{Limits.{longest_line}, Lines.{line_feed, with_byte}};

use arrayvec::ArrayVec;
use std::marker::Model;

/// The most bytes of a line, less its line feed.
pub const LINE_LIMIT: usize = 8_192;

/// The bytes of a line so far, of which no more are kept than tell that it is too long. A contract sees these bytes.
#[derive(Drop)]
pub struct LineStart {
    bytes: ArrayVec<u8, 8193>,
}

impl Model for LineStart {
    ghost use Rattle.std.specs.Prelude.{ℕ, List};

    ghost Value = { List ℕ };

    ghost view = { λ l. l.bytes.items };
}

impl LineStart {
    /// Nothing yet.
    pub fn new() -> LineStart
        ensures empty { result ≡ [] }
    {
        LineStart {
            bytes: ArrayVec::new(),
        }
    }

    /// Whether nothing has come of the line.
    pub(crate) fn is_empty(&self) -> bool
        ensures empty { result ≡ nat_le (length self.now) 0 }
    {
        self.bytes.len() == 0
    }

    /// Whether the line is longer than it may be.
    pub(crate) fn is_long(&self) -> bool
        ensures long { result ≡ not (nat_le (length self.now) longest_line) }
    {
        self.bytes.len() > LINE_LIMIT
    }

    /// Takes a byte more.
    #[inline]
    pub(crate) fn add(&mut self, byte: u8)
        ensures added { self.new ≡ with_byte self.old byte }
    {
        let _ = self.bytes.try_push(byte);
    }

    /// The line with its line feed.
    pub(crate) fn end(&mut self) -> &[u8]
        requires short { length self.old ≤ longest_line }
        ensures line { result.now ≡ self.old ++ line_feed ∷ [] }
    {
        let _ = self.bytes.try_push(b'\n');
        self.bytes.as_slice()
    }

    /// Another line begins.
    pub(crate) fn clear(&mut self)
        ensures empty { self.new ≡ [] }
    {
        self.bytes.clear();
    }
}
