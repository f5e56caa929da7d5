//! Texts that are put together before they are written.

ghost use Rattle.std.specs.Prelude.{◌≡◌, ◌≤◌, ◌+◌, ◌++◌, ◌↔◌, [], IfNone, IsSome, OnSome, length};

use arrayvec::ArrayVec;
use std::marker::Model;

/// A text of at most 64 bytes, put together from parts so that it can be written at once, and more than once. A contract sees its
/// bytes.
#[derive(Drop)]
pub struct Line {
    bytes: ArrayVec<u8, 64>,
}

impl Model for Line {
    ghost use Rattle.std.specs.Prelude.{ℕ, List};

    ghost Value = { List ℕ };

    ghost view = { λ l. l.bytes.items };
}

impl Line {
    /// A line with nothing on it.
    pub fn new() -> Line
        ensures empty { result ≡ [] }
    {
        Line {
            bytes: ArrayVec::new(),
        }
    }

    /// Takes all off the line.
    #[inline]
    pub fn clear(&mut self)
        ensures empty { self.new ≡ [] }
    {
        self.bytes.clear();
    }

    /// Adds a text at the end. `None` where the line would then have more than 64 bytes; it is then as it was.
    #[inline]
    pub fn add(&mut self, text: &[u8]) -> Option<()>
        ensures room { IsSome result ↔ (length self.old + length text.now ≤ 64) }
        ensures added { OnSome result (self.new ≡ self.old ++ text.now) }
        ensures full { IfNone result (self.new ≡ self.old) }
    {
        self.bytes.try_extend_from_slice(text).ok()
    }

    /// Its bytes.
    #[inline]
    pub fn as_bytes(&self) -> &[u8]
        ensures bytes { result.now ≡ self.now }
    {
        self.bytes.as_slice()
    }
}
