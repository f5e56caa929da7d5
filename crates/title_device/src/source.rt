//! What a script is read from.

ghost use Rattle.std.specs.{Prelude.{◌≡◌, ◌≤◌, ◌+◌, ℕ, List, Bool, true, Option, None, IfOk, length, if◌then◌else◌}, Result.{is_err}};
ghost use Rattle.std.specs.Io.KnownBytes.{ReadConsumes};

use crate::fault::Failed;

/// Bytes that are read in turns, as of a file, a pipe or memory.
pub trait Source {
    // The bytes that pulls will give from here on, where they are known.
    ghost left: { Self → Option (List ℕ) } = { λ _. None };

    // Whether a pull has failed.
    ghost has_failed: { Self → Bool };

    // A count of turns, which no pull raises by more than one.
    ghost turns: { Self → ℕ } = { λ _. 0 };

    /// Puts the next bytes at the front of `buf`, as many as it will, and answers how many. It answers 0
    /// to a `buf` with room only where none is left. A failed pull gives nothing, and is remembered.
    fn pull(&mut self, buf: &mut [u8]) -> Result<usize, Failed>
        ensures bound { IfOk result (λ count. count ≤ length buf.new) }
        ensures bytes { ReadConsumes (left self.old) (left self.new) result buf.new }
        ensures failed { has_failed self.new ≡ (if is_err result then true else has_failed self.old) }
        ensures turn { turns self.new ≤ turns self.old + 1 };

    /// Whether a pull has failed.
    fn failed(&self) -> bool
        ensures failed { result ≡ has_failed self.now };
}
