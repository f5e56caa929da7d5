//! What a report is written to.

ghost use Rattle.std.specs.{Prelude.{◌≡◌, ◌≤◌, ◌<◌, ◌+◌, ℕ, List, Bool, true, Option, None, IfOk, length, if◌then◌else◌}, Result.{is_err}};
ghost use Rattle.std.specs.Io.KnownBytes.{WriteAppends};

use crate::fault::Failed;

/// What takes bytes in turns, as a file, a pipe or memory.
pub trait Sink {
    // The bytes that pushes have taken so far, where they are known.
    ghost taken: { Self → Option (List ℕ) } = { λ _. None };

    // Whether a push has failed.
    ghost has_failed: { Self → Bool };

    /// Takes the first bytes of `buf`, as many as it will, but at least one of some, and answers how
    /// many. A failed push takes nothing, and is remembered.
    fn push(&mut self, buf: &[u8]) -> Result<usize, Failed>
        ensures bound { IfOk result (λ count. count ≤ length buf.now) }
        ensures some { IfOk result (λ count. 0 < length buf.now → 0 < count) }
        ensures bytes { WriteAppends (taken self.old) (taken self.new) result buf.now }
        ensures failed { has_failed self.new ≡ (if is_err result then true else has_failed self.old) };

    /// Whether a push has failed.
    fn failed(&self) -> bool
        ensures failed { result ≡ has_failed self.now };
}
