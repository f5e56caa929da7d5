//! The lesser of two examiners.

ghost use Rattle.std.specs.Prelude.{◌≡◌};
ghost use Rattle.title_lock.specs.Overlaps.{least};

/// The lesser of two examiners, where there may be none.
pub(crate) fn least(a: Option<u32>, b: Option<u32>) -> Option<u32>
    ensures least { result ≡ least a b }
{
    match (a, b) {
        (None, _) => b,
        (Some(_), None) => a,
        (Some(x), Some(y)) => if x < y { a } else { b },
    }
}
