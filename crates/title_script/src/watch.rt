//! Someone who watches how far a run is.

/// Is told, while a script is served, how many of its steps have been. What it does with that changes no report.
pub trait Watch {
    /// So many of so many steps have been served.
    fn served(&mut self, steps: usize, of: usize);
}

/// Watches nothing.
#[derive(Clone, Copy, Debug, Default)]
pub struct Unwatched;

impl Watch for Unwatched {
    fn served(&mut self, _steps: usize, _of: usize) {}
}
