//! How many calls wanted memory.

use std::alloc::AllocError;

/// How many calls wanted memory and were made again.
#[derive(Clone, Copy)]
pub struct Wanted {
    calls: u32,
}

impl Wanted {
    /// None yet.
    pub fn new() -> Wanted {
        Wanted { calls: 0 }
    }

    /// How many there were.
    pub fn calls(&self) -> u32 {
        self.calls
    }

    /// Counts a call that wanted memory.
    pub fn count(&mut self) {
        self.calls = self.calls.saturating_add(1);
    }

    /// What a call makes; it is made again at once where a growth was refused.
    pub fn again<T, F: Fn() -> Result<T, AllocError>>(&mut self, make: F) -> Result<T, AllocError>
        requires callable { F.IsAlwaysCallable make }
    {
        if let Ok(made) = make() {
            return Ok(made);
        }
        self.count();
        make()
    }
}
