//! The modes of a lock.

ghost use Rattle.std.specs.Prelude.{◌≡◌};
ghost use Rattle.title_lock.specs.Modes.{compat, sup, bound, is_enough};

/// What an examiner holds of a node: S to read and X to post in all of it, IS and IX to read and post somewhere below
/// it, SIX for S and IX (Gray and others, 1976).
#[derive(Clone, Copy, Debug, PartialEq, Eq, Drop)]
pub enum Mode {
    Is,
    Ix,
    S,
    Six,
    X,
}

/// Whether two examiners may hold these modes of one node, by the published table (Gray and others, 1976).
pub fn compat(a: Mode, b: Mode) -> bool
    ensures compat { result ≡ compat a b }
{
    match (a, b) {
        (Mode::X, _) | (_, Mode::X) => false,
        (Mode::Is, _) | (_, Mode::Is) => true,
        (Mode::Ix, Mode::Ix) | (Mode::S, Mode::S) => true,
        _ => false,
    }
}

/// The least mode that is as strong as both, by the published table (Gray and others, 1976).
pub fn sup(a: Mode, b: Mode) -> Mode
    ensures sup { result ≡ sup a b }
{
    match (a, b) {
        (Mode::Is, other) | (other, Mode::Is) => other,
        (Mode::X, _) | (_, Mode::X) => Mode::X,
        (Mode::Ix, Mode::Ix) => Mode::Ix,
        (Mode::S, Mode::S) => Mode::S,
        _ => Mode::Six,
    }
}

/// The least upper bound where `None` is no lock, which lies below every mode.
pub(crate) fn bound(a: Option<Mode>, b: Option<Mode>) -> Option<Mode>
    ensures bound { result ≡ bound a b }
{
    match (a, b) {
        (None, _) => b,
        (Some(_), None) => a,
        (Some(a), Some(b)) => Some(sup(a, b)),
    }
}

/// Whether what is held is as strong as a mode.
pub(crate) fn is_enough(held: Option<Mode>, mode: Mode) -> bool
    ensures enough { result ≡ is_enough held mode }
{
    match (held, mode) {
        (None, _) => false,
        (Some(_), Mode::Is) | (Some(Mode::X | Mode::Six), Mode::Ix | Mode::S) => true,
        (Some(Mode::Ix), Mode::Ix) | (Some(Mode::S), Mode::S) => true,
        (Some(Mode::X), _) | (Some(Mode::Six), Mode::Six) => true,
        _ => false,
    }
}
